// The lease clock: every lease goes whose deadline is reached.
#![tactic(auto)]

ghost use Rattle.std.specs.Prelude.{cond, ◌≡◌, ◌+◌, ◌≤◌, ◌<◌, length};
ghost use Rattle.refusals.specs.Numbers.{told};
ghost use Rattle.parts.specs.Gather.{Filled};
ghost use Rattle.image.specs.Layout.{leases};
ghost use Rattle.image.specs.TableLaws.{table_in};
ghost use Rattle.machine.specs.Tests.{first_of};
ghost use Rattle.requests.specs.declared.PublicationAction.{PublicationAction};
ghost use Rattle.next.specs.Added.{Added};
ghost use Rattle.next.specs.Call.{Asks, Answers};
ghost use Rattle.clock.specs.Due.{kept_bytes};
ghost use Rattle.clock.specs.Tallies.{tallied, tally_of};
ghost use Rattle.clock.specs.Parts.{BodyIs};
ghost use Rattle.clock.specs.Advance.{advance_tests};

use image::{Contents, Scalars, Table};
use next::{Call, Change, LeasesExpired, PublicationOutcome};
use parts::{Lengths, Part};
use refusals::Refusal;
use requests::AdvanceLeaseClock;
use tables::TableRows;

// How many leases end, how many bytes stay, and the smallest of a floor and the versions that stay.
#[derive(Clone, Copy)]
struct Tally {
    ended: usize,
    size: usize,
    oldest: u64,
}

// The length of a row where it stays.
fn len_unless(gone: bool, n: usize) -> usize
    ensures { result ≡ cond gone 0 n }
{
    if gone { 0 } else { n }
}

fn count_row(t: Tally, gone: bool, version: u64, len: usize) -> Tally
    requires { (t.ended < 65536) × (t.size + len < 65536) }
    ensures { result ≡ tallied t gone version len }
{
    Tally {
        ended: t.ended + gone as usize,
        size: t.size + len_unless(gone, len),
        oldest: leases::older(gone, version, t.oldest),
    }
}

// By place: a lease is as long as from its place to that of the next.
fn count_rows(leases: TableRows<'_>, tick: u64, floor: u64) -> Tally
    requires { (leases.left ≤ 64) × (length leases.bytes.now ≤ 65535) }
    ensures { result ≡ tally_of tick floor leases.entry.bytes.now leases.entry.at leases.entry.left }
{
    let s = leases.bytes;
    let mut p = fields::within(s, leases.at);
    let mut t = Tally {
        ended: 0,
        size: 0,
        oldest: floor,
    };
    for _ in 0..leases.left {
        let q = tables::skip_record(&image::LEASE, s, p);
        t = count_row(
            t,
            expiry::is_due(s, p, tick),
            tables::number_after(&image::LEASE[..image::LEASE_VERSION], s, p),
            q.saturating_sub(p),
        );
        p = q;
    }
    t
}

// A part for each lease, with its bytes where it stays; by place, as above.
fn stays(parts: &mut [Part], leases: TableRows<'_>, tick: u64)
    requires { (leases.left ≤ 64) × (length parts.old ≡ 66) × Filled 1 parts.old }
    ensures { Added (kept_bytes tick) 1 leases.entry.bytes.now leases.entry.at leases.entry.left parts.old parts.new }
{
    let s = leases.bytes;
    let mut p = fields::within(s, leases.at);
    for i in 0..leases.left {
        let q = tables::skip_record(&image::LEASE, s, p);
        let gone = expiry::is_due(s, p, tick);
        parts[i + 1] = Part::First(p, len_unless(gone, q.saturating_sub(p)));
        p = q;
    }
}

// The tables of the next image: from the first up to the leases, the leases that stay, and the tables after them. No heap: an array
// of the most parts that there can be, with 64 leases, and empty ones behind those that are used.
fn body_parts(call: &Call<'_>, tick: u64) -> [Part; 66]
    requires { (table_in leases call.now.contents.now).count ≤ 64 }
    ensures body_is { BodyIs tick call.now.image.now call.now.contents.now result }
    ensures filled { Filled ((table_in leases call.now.contents.now).count + 2) result }
{
    let tables = &call.contents.tables;
    let first = tables[image::INTENTS].at;
    let leases = tables[image::LEASES];
    let mut parts = [Part::EMPTY; 66];
    parts[0] = Part::First(first, leases.at.saturating_sub(first));
    stays(&mut parts, call.rows(image::LEASES), tick);
    parts[leases.count + 1] = Part::First(tables[image::JOBS].at, call.image.len());
    parts
}

#[tactic(auto, unfolding(machine::specs::Tests::first_of))]
fn advance_refusal(a: &AdvanceLeaseClock, clock: u64) -> Result<(), Refusal>
    ensures { told result ≡ first_of (advance_tests a.now clock) }
{
    if a.expected_tick != clock {
        return Err(Refusal::LeaseClockMismatch);
    }
    if a.next_tick <= a.expected_tick {
        return Err(Refusal::LeaseClockRetreated);
    }
    Ok(())
}

pub fn advance_lease_clock(
    call: &Call<'_>,
    a: &AdvanceLeaseClock,
    next: &mut [u8],
    outcome: &mut [u8],
) -> Result<Lengths, Refusal>
    requires { Asks call.now (PublicationAction.AdvanceLeaseClock a.now) }
    ensures { Answers call.now next.old outcome.old result next.new outcome.new }
{
    let n = call.contents.scalars;
    advance_refusal(a, n.lease_clock_tick)?;
    let w = n.retention_window;
    let policy = floor::policy_for(w, n.observed_commit_frontier, n.policy_floor);
    let t = count_rows(call.rows(image::LEASES), a.next_tick, policy);
    // an epoch moves only if a lease ended
    let none_ended = t.ended == 0;
    let mut tables = call.contents.tables;
    let leases = tables[image::LEASES];
    tables[image::LEASES] = Table {
        size: t.size,
        count: leases.count.saturating_sub(t.ended),
        ..leases
    };
    let contents = Contents {
        scalars: Scalars {
            term: call.context.position.term,
            index: call.context.position.index,
            root_intent_epoch: next::up_unless(
                call.faults.omit_lease_root_epoch || none_ended,
                n.root_intent_epoch,
            ),
            policy_floor: policy,
            minimum_readable_version: floor::readable_for(w, t.oldest, n.minimum_readable_version),
            lease_clock_tick: a.next_tick,
            lease_epoch: next::up_unless(none_ended, n.lease_epoch),
            ..n
        },
        tables,
        ..*call.contents
    };
    let body = body_parts(call, a.next_tick);
    let told = PublicationOutcome::LeasesExpired(LeasesExpired {
        at: leases.at,
        count: leases.count,
        tick: a.next_tick,
    });
    let change = Change {
        from: call.image,
        contents: &contents,
        body: &body[..leases.count + 2],
        stored: call.image,
        told: &told,
    };
    next::emit(call, &change, next, outcome)
}
