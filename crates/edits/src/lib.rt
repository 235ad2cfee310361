// A change by id: what a stored row holds, and the table after the change.
#![tactic(auto)]

ghost use Rattle.std.specs.Prelude.{◌≡◌, ◌≤◌, drop};
ghost use Rattle.text.specs.Same.{same_of};
ghost use Rattle.parts.specs.Answer.{longest};
ghost use Rattle.edits.specs.Changes.{after_insert, after_remove};

use image::Table;
use tables::Place;

// Whether a row holds just these bytes after its first ones.
pub fn row_holds(row: &[u8], first: usize, bytes: &[u8]) -> bool
    ensures { result ≡ same_of (drop first row.now) bytes.now }
{
    text::same(parts::clip(row, first, row.len()), bytes)
}

// The table with a row of so many bytes put in at a place, or put in the place of the one there.
pub fn after_insert(t: Table, p: Place, bytes: usize) -> Table
    requires { (t.size ≤ longest) × (t.count ≤ longest) × (bytes ≤ longest) }
    ensures { result ≡ after_insert t p bytes }
{
    let size = t.size.saturating_sub(p.end.saturating_sub(p.start)) + bytes;
    let count = if p.start < p.end {
        t.count
    } else {
        t.count + 1
    };
    Table { size, count, ..t }
}

// The table without the row at a place, where there is one.
pub fn after_remove(t: Table, p: Place) -> Table
    ensures { result ≡ after_remove t p }
{
    let size = t.size.saturating_sub(p.end.saturating_sub(p.start));
    let fewer = t.count.saturating_sub(1);
    let count = if p.start < p.end { fewer } else { t.count };
    Table { size, count, ..t }
}
