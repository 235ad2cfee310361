// Keys of a set that are ids of rows of a table: what a publication or a lease names and a reservation holds.
#![tactic(auto)]

ghost use Rattle.std.specs.Prelude.{◌≡◌, not, ◌&&◌, drop};
ghost use Rattle.state.specs.Maps.{any};
ghost use Rattle.sets.specs.Sets.{set_of};
ghost use Rattle.reserved.specs.Located.{located_of};
ghost use Rattle.reserved.specs.Passed.{Reached, Passed};

use std::cmp::Ordering;
use tables::TableRows;

// Whether one of the rows has the id.
#[tactic(auto, unfolding(crate::specs::Located::located_in))]
pub fn located(rows: TableRows<'_>, id: &[u8]) -> bool
    ensures { result ≡ located_of rows.entry id.now }
{
    rows.find(id).is_some()
}

// Goes over the rows before an id, which are before all later ids too; none is left where a row has the id. It hands on the rows from
// the one at which it stops. Over the iterator it proves only with a clause on `next` about places, with which no `for` over rows does.
#[tactic(auto, using(crate::proofs::Steps::reach_steps))]
fn reach<'a>(rows: TableRows<'a>, id: &[u8]) -> Option<TableRows<'a>>
    ensures { Reached rows.entry id.now result }
{
    let mut to = rows;
    while to.left > 0 {
        match text::compare(id, fields::text_at(to.bytes, to.at)).order {
            Ordering::Less => return Some(to),
            Ordering::Equal => return (!located(to, id)).then_some(to),
            Ordering::Greater => to = to.after_first(),
        }
    }
    Some(to)
}

// The search for an id, from where the search for the last one stopped if this one is later, else from the first row.
#[tactic(auto, using(crate::proofs::Steps::reached_on))]
fn resume<'a>(
    all: TableRows<'a>,
    last: &[u8],
    from: TableRows<'a>,
    id: &[u8],
) -> Option<TableRows<'a>>
    requires { Passed all last.now from }
    ensures { Reached all.entry id.now result }
{
    if text::compare(last, id).order.is_lt() {
        return reach(from, id);
    }
    reach(all, id)
}

// Whether one of the rows has a key of the set that stands at a place of a request or a row as its id.
#[tactic(auto, using(crate::proofs::Steps::set_steps))]
fn any_located(rows: TableRows<'_>, holder: &[u8], set_at: usize) -> bool
    ensures { result ≡ any (located_of rows.entry) (set_of (drop set_at holder.now)) }
{
    // a shortcut: where nothing is reserved, no key is looked at
    if rows.left == 0 {
        return false;
    }
    let mut from = rows;
    let mut last: &[u8] = &[];
    // a loop, and no chain, since each key hands on to the next where its search stopped
    for key in sets::keys(holder, set_at) {
        let Some(rest) = resume(rows, last, from, key) else {
            return true;
        };
        from = rest;
        last = key;
    }
    false
}

// Whether one of the reservations has a key of the set that stands at a place of a request or a row; a fault flag leaves the test out.
pub fn is_reserved(ignore: bool, reservations: TableRows<'_>, holder: &[u8], keys: usize) -> bool
    ensures { result ≡ (not ignore && any (located_of reservations.entry) (set_of (drop keys holder.now))) }
{
    !ignore && any_located(reservations, holder, keys)
}
