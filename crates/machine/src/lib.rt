// Definitions and theorems only: the machine over plain maps, its edges and its histories.
#![tactic(auto)]
