// The read floor, and the actions that move it by numbers alone: frontier, window, range map.
#![tactic(auto)]

ghost use Rattle.std.specs.Prelude.{◌≡◌, ◌+◌, ◌-◌, min, max, length, drop};
ghost use Rattle.tables.specs.Seek.{rows_left};
ghost use Rattle.machine.specs.Next.{policy_for};
ghost use Rattle.floor.specs.Floors.{readable_for_window, oldest_at};
ghost use Rattle.requests.specs.declared.PublicationAction.{PublicationAction};
ghost use Rattle.next.specs.Call.{Asks, Answers};

use image::{Contents, Scalars};
use next::Call;
use parts::{Lengths, Part};
use refusals::Refusal;
use requests::SetRetentionWindow;
use tables::TableRows;

pub fn policy_for(w: Option<u64>, frontier: u64, old: u64) -> u64
    ensures { result ≡ policy_for w frontier old }
{
    match w {
        None => old,
        Some(window) => old.max(frontier.saturating_sub(window)),
    }
}

pub fn readable_for(w: Option<u64>, candidate: u64, old: u64) -> u64
    ensures { result ≡ readable_for_window w candidate old }
{
    match w {
        None => old,
        Some(_) => old.max(candidate),
    }
}

// The smallest of floor and the versions of some leases.
#[tactic(auto, using(crate::proofs::Steps::oldest_steps))]
pub fn oldest(leases: TableRows<'_>, floor: u64) -> u64
    ensures { result ≡ oldest_at floor (rows_left leases.entry) }
{
    let mut oldest = floor;
    for lease in leases {
        oldest = oldest.min(tables::number_after(&image::LEASE[..image::LEASE_VERSION], lease, 0));
    }
    oldest
}

pub fn observe_committed_frontier(
    call: &Call<'_>,
    committed_frontier: u64,
    next: &mut [u8],
    outcome: &mut [u8],
) -> Result<Lengths, Refusal>
    requires { Asks call.now (PublicationAction.ObserveCommittedFrontier committed_frontier) }
    ensures { Answers call.now next.old outcome.old result next.new outcome.new }
{
    let n = call.contents.scalars;
    if committed_frontier == 0 {
        return Err(Refusal::InvalidRequest);
    }
    if committed_frontier < n.observed_commit_frontier {
        return Err(Refusal::CommittedFrontierRetreated);
    }
    let w = n.retention_window;
    let policy = policy_for(w, committed_frontier, n.policy_floor);
    let candidate = oldest(call.rows(image::LEASES), policy);
    let readable = readable_for(w, candidate, n.minimum_readable_version);
    let contents = Contents {
        scalars: Scalars {
            term: call.context.position.term,
            index: call.context.position.index,
            observed_commit_frontier: committed_frontier,
            policy_floor: policy,
            minimum_readable_version: readable,
            ..n
        },
        ..*call.contents
    };
    let first = call.contents.tables[image::INTENTS];
    let body = [Part::First(first.at, call.image.len())];
    next::emit_applied(call, &contents, &body, next, outcome)
}

pub fn set_retention_window(
    call: &Call<'_>,
    a: &SetRetentionWindow,
    next: &mut [u8],
    outcome: &mut [u8],
) -> Result<Lengths, Refusal>
    requires { Asks call.now (PublicationAction.SetRetentionWindow a.now) }
    ensures { Answers call.now next.old outcome.old result next.new outcome.new }
{
    let n = call.contents.scalars;
    if a.expected_policy_epoch != n.retention_policy_epoch {
        return Err(Refusal::RetentionPolicyEpochMismatch);
    }
    let w = Some(a.retention_window);
    let policy = policy_for(w, n.observed_commit_frontier, n.policy_floor);
    let candidate = oldest(call.rows(image::LEASES), policy);
    let readable = readable_for(w, candidate, n.minimum_readable_version);
    let contents = Contents {
        scalars: Scalars {
            term: call.context.position.term,
            index: call.context.position.index,
            retention_window: w,
            retention_policy_epoch: next::up(n.retention_policy_epoch),
            policy_floor: policy,
            minimum_readable_version: readable,
            ..n
        },
        ..*call.contents
    };
    let first = call.contents.tables[image::INTENTS];
    let body = [Part::First(first.at, call.image.len())];
    next::emit_applied(call, &contents, &body, next, outcome)
}

pub fn observe_range_map_epoch(
    call: &Call<'_>,
    range_map_epoch: u64,
    next: &mut [u8],
    outcome: &mut [u8],
) -> Result<Lengths, Refusal>
    requires { Asks call.now (PublicationAction.ObserveRangeMapEpoch range_map_epoch) }
    ensures { Answers call.now next.old outcome.old result next.new outcome.new }
{
    let n = call.contents.scalars;
    if range_map_epoch == 0 {
        return Err(Refusal::InvalidRequest);
    }
    if range_map_epoch < n.range_map_epoch {
        return Err(Refusal::RangeMapEpochRetreated);
    }
    let contents = Contents {
        scalars: Scalars {
            term: call.context.position.term,
            index: call.context.position.index,
            range_map_epoch,
            ..n
        },
        ..*call.contents
    };
    let first = call.contents.tables[image::INTENTS];
    let body = [Part::First(first.at, call.image.len())];
    next::emit_applied(call, &contents, &body, next, outcome)
}
