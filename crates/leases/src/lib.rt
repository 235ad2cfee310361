// The actions on one lease by its id: acquire, renew, release.
#![tactic(auto)]

ghost use Rattle.std.specs.Prelude.{cond, ◌≡◌, min};
ghost use Rattle.refusals.specs.Numbers.{told};
ghost use Rattle.tables.specs.Seek.{rows_left};
ghost use Rattle.machine.specs.Tests.{first_of};
ghost use Rattle.requests.specs.declared.PublicationAction.{PublicationAction};
ghost use Rattle.next.specs.Call.{Asks, Answers};
ghost use Rattle.leases.specs.Oldest.{named, oldest_kept};
ghost use Rattle.leases.specs.Tests.{acquire_tests, renew_tests, release_tests};
ghost use Rattle.leases.specs.Acquire.{Acquiring};
ghost use Rattle.leases.specs.Renew.{Renewing};

use image::{Contents, Scalars};
use next::{Call, Change, PublicationOutcome};
use parts::{Lengths, Part};
use refusals::Refusal;
use requests::{AcquireLease, ReleaseLease, RenewLease, SnapshotLeaseToken};
use tables::{Place, TableRows};

// The smaller of m and the version, or m where the lease is gone.
pub fn older(gone: bool, version: u64, m: u64) -> u64
    ensures { result ≡ cond gone m (min version m) }
{
    if gone { m } else { version.min(m) }
}

// The smallest of floor and the versions of some leases, but for the lease with an id.
#[tactic(auto, using(crate::specs::Oldest::kept_steps))]
fn oldest_without(leases: TableRows<'_>, id: &[u8], floor: u64) -> u64
    ensures { result ≡ oldest_kept (named id.now) floor (rows_left leases.entry) }
{
    let mut oldest = floor;
    for lease in leases {
        oldest = older(
            text::same(id, fields::text_at(lease, 0)),
            tables::number_after(&image::LEASE[..image::LEASE_VERSION], lease, 0),
            oldest,
        );
    }
    oldest
}

// The tests of AcquireLease. The place is that of its id.
#[tactic(auto, unfolding(machine::specs::Tests::first_of))]
fn acquire_refusal(call: &Call<'_>, a: &AcquireLease, p: Place) -> Result<(), Refusal>
    ensures { told result ≡ first_of (acquire_tests call.now.image.now call.now.contents.now call.now.request.now call.now.faults a.now p) }
{
    let n = call.contents.scalars;
    if records::is_empty(call.request, a.lease_id)
        || records::is_empty(call.request, a.tenant_id)
        || a.snapshot_version == 0
        || records::is_empty(call.request, a.owner)
        || records::is_empty(call.request, a.purpose)
        || !records::valid_closure(call.request, a.closure)
    {
        return Err(Refusal::InvalidRequest);
    }
    if n.retention_window.is_none() {
        return Err(Refusal::RetentionPolicyUnconfigured);
    }
    if p.start < p.end {
        return Err(Refusal::LeaseExists);
    }
    if !call.faults.accept_backdated_lease && a.snapshot_version < n.minimum_readable_version {
        return Err(Refusal::SnapshotBelowFloor);
    }
    if n.observed_commit_frontier < a.snapshot_version {
        return Err(Refusal::SnapshotAheadOfFrontier);
    }
    let reservations = call.rows(image::RESERVATIONS);
    let keys = a.closure.object_keys.at;
    let late = a.deadline_tick <= n.lease_clock_tick;
    let names_reserved = reserved::is_reserved(false, reservations, call.request, keys);
    if late {
        return Err(Refusal::LeaseDeadlineInvalid);
    }
    if names_reserved {
        return Err(Refusal::ObjectDeletionReserved);
    }
    Ok(())
}

// The lease put in: the request's fields up to the version, the epoch, the rest of them, and the context.
fn put_lease(
    call: &Call<'_>,
    a: &AcquireLease,
    p: Place,
    next: &mut [u8],
    outcome: &mut [u8],
) -> Result<Lengths, Refusal>
    requires { Acquiring call.now.image.now call.now.contents.now call.now.request.now call.now.context call.now.faults a.now p }
    ensures { Answers call.now next.old outcome.old result next.new outcome.new }
{
    let n = call.contents.scalars;
    let w = n.retention_window;
    let epoch = next::up(n.lease_epoch);
    let policy = floor::policy_for(w, n.observed_commit_frontier, n.policy_floor);
    let candidate = floor::oldest(call.rows(image::LEASES), policy).min(a.snapshot_version);
    let keys = a.closure.object_keys;
    let start = a.lease_id.at.saturating_sub(1);
    let rest = a.owner.at.saturating_sub(1);
    let first = rest.saturating_sub(start);
    let second = (keys.at + keys.len).saturating_sub(rest);
    let mut tables = call.contents.tables;
    let intents = tables[image::INTENTS];
    tables[image::LEASES] = edits::after_insert(tables[image::LEASES], p, first + second + 32);
    let contents = Contents {
        scalars: Scalars {
            term: call.context.position.term,
            index: call.context.position.index,
            root_intent_epoch: next::up_unless(
                call.faults.omit_lease_root_epoch,
                n.root_intent_epoch,
            ),
            policy_floor: policy,
            minimum_readable_version: floor::readable_for(w, candidate, n.minimum_readable_version),
            lease_epoch: epoch,
            ..n
        },
        tables,
        ..*call.contents
    };
    let body = [
        Part::First(intents.at, p.start.saturating_sub(intents.at)),
        Part::Second(start, first),
        Part::Number(epoch, 8),
        Part::Second(rest, second),
        Part::Number(call.context.generation, 8),
        Part::Number(call.context.position.term, 8),
        Part::Number(call.context.position.index, 8),
        Part::First(p.end, call.image.len()),
    ];
    let told = PublicationOutcome::LeaseAcquired(SnapshotLeaseToken {
        lease_id: a.lease_id,
        tenant_id: a.tenant_id,
        snapshot_version: a.snapshot_version,
        lease_epoch: epoch,
        owner: a.owner,
        purpose: a.purpose,
        deadline_tick: a.deadline_tick,
        closure: a.closure,
        owner_generation: call.context.generation,
        authority_position: call.context.position,
    });
    let change = Change {
        from: call.image,
        contents: &contents,
        body: &body,
        stored: call.image,
        told: &told,
    };
    next::emit(call, &change, next, outcome)
}

pub fn acquire_lease(
    call: &Call<'_>,
    a: &AcquireLease,
    next: &mut [u8],
    outcome: &mut [u8],
) -> Result<Lengths, Refusal>
    requires { Asks call.now (PublicationAction.AcquireLease a.now) }
    ensures { Answers call.now next.old outcome.old result next.new outcome.new }
{
    let id = requests::text_of(call.request, a.lease_id);
    let p = call.locate(image::LEASES, id);
    acquire_refusal(call, a, p)?;
    put_lease(call, a, p, next, outcome)
}

// The tests of RenewLease: the row stored under its id, none where it is empty, and the lease read from it.
#[tactic(auto, unfolding(machine::specs::Tests::first_of))]
fn renew_refusal(
    call: &Call<'_>,
    a: &RenewLease,
    row: &[u8],
    held: &SnapshotLeaseToken,
) -> Result<(), Refusal>
    ensures { told result ≡ first_of (renew_tests call.now.image.now call.now.contents.now a.now row.now held.now) }
{
    if row.is_empty() {
        return Err(Refusal::LeaseMissing);
    }
    if held.lease_epoch != a.expected_lease_epoch {
        return Err(Refusal::LeaseEpochMismatch);
    }
    let reservations = call.rows(image::RESERVATIONS);
    let keys = held.closure.object_keys.at;
    let past = a.new_deadline_tick <= call.contents.scalars.lease_clock_tick;
    let no_later = a.new_deadline_tick <= held.deadline_tick;
    let names_reserved = reserved::is_reserved(false, reservations, row, keys);
    if past {
        return Err(Refusal::LeaseDeadlineInvalid);
    }
    if no_later {
        return Err(Refusal::LeaseDeadlineInvalid);
    }
    if names_reserved {
        return Err(Refusal::ObjectDeletionReserved);
    }
    Ok(())
}

// The lease put in place of the one that is held: its bytes but for the epoch, the deadline and the context.
fn put_renewed(
    call: &Call<'_>,
    a: &RenewLease,
    p: Place,
    row: &[u8],
    held: &SnapshotLeaseToken,
    next: &mut [u8],
    outcome: &mut [u8],
) -> Result<Lengths, Refusal>
    requires { Renewing call.now.image.now call.now.contents.now call.now.request.now call.now.context call.now.faults a.now p row.now held.now }
    ensures { Answers call.now next.old outcome.old result next.new outcome.new }
{
    let n = call.contents.scalars;
    let epoch = next::up(n.lease_epoch);
    let mut tables = call.contents.tables;
    let intents = tables[image::INTENTS];
    tables[image::LEASES] = edits::after_insert(tables[image::LEASES], p, row.len());
    let contents = Contents {
        scalars: Scalars {
            term: call.context.position.term,
            index: call.context.position.index,
            root_intent_epoch: next::up_unless(
                call.faults.omit_lease_root_epoch,
                n.root_intent_epoch,
            ),
            lease_epoch: epoch,
            ..n
        },
        tables,
        ..*call.contents
    };
    let keys = held.closure.object_keys;
    let rest = held.owner.at.saturating_sub(1);
    let deadline = held.purpose.at + held.purpose.len;
    let body = [
        Part::First(intents.at, p.start.saturating_sub(intents.at)),
        Part::First(p.start, rest.saturating_sub(8)),
        Part::Number(epoch, 8),
        Part::First(p.start + rest, deadline.saturating_sub(rest)),
        Part::Number(a.new_deadline_tick, 8),
        Part::First(
            p.start + (deadline + 8),
            (keys.at + keys.len).saturating_sub(deadline + 8),
        ),
        Part::Number(call.context.generation, 8),
        Part::Number(call.context.position.term, 8),
        Part::Number(call.context.position.index, 8),
        Part::First(p.end, call.image.len()),
    ];
    let told = PublicationOutcome::LeaseRenewed(SnapshotLeaseToken {
        lease_epoch: epoch,
        deadline_tick: a.new_deadline_tick,
        owner_generation: call.context.generation,
        authority_position: call.context.position,
        ..*held
    });
    let change = Change {
        from: call.image,
        contents: &contents,
        body: &body,
        stored: row,
        told: &told,
    };
    next::emit(call, &change, next, outcome)
}

pub fn renew_lease(
    call: &Call<'_>,
    a: &RenewLease,
    next: &mut [u8],
    outcome: &mut [u8],
) -> Result<Lengths, Refusal>
    requires { Asks call.now (PublicationAction.RenewLease a.now) }
    ensures { Answers call.now next.old outcome.old result next.new outcome.new }
{
    let id = requests::text_of(call.request, a.lease_id);
    let p = call.locate(image::LEASES, id);
    let row = tables::row(call.image, p);
    let held = requests::lease_token_at(row, 0);
    renew_refusal(call, a, row, &held)?;
    put_renewed(call, a, p, row, &held, next, outcome)
}

#[tactic(auto, unfolding(machine::specs::Tests::first_of))]
fn release_refusal(row: &[u8], held: u64, expected: u64) -> Result<(), Refusal>
    ensures { told result ≡ first_of (release_tests row.now held expected) }
{
    if row.is_empty() {
        return Err(Refusal::LeaseMissing);
    }
    if held != expected {
        return Err(Refusal::LeaseEpochMismatch);
    }
    Ok(())
}

pub fn release_lease(
    call: &Call<'_>,
    a: &ReleaseLease,
    next: &mut [u8],
    outcome: &mut [u8],
) -> Result<Lengths, Refusal>
    requires { Asks call.now (PublicationAction.ReleaseLease a.now) }
    ensures { Answers call.now next.old outcome.old result next.new outcome.new }
{
    let n = call.contents.scalars;
    let id = requests::text_of(call.request, a.lease_id);
    let p = call.locate(image::LEASES, id);
    let row = tables::row(call.image, p);
    let held = tables::number_after(&image::LEASE[..image::LEASE_EPOCH], row, 0);
    release_refusal(row, held, a.expected_lease_epoch)?;
    let w = n.retention_window;
    let policy = floor::policy_for(w, n.observed_commit_frontier, n.policy_floor);
    let candidate = oldest_without(call.rows(image::LEASES), id, policy);
    let mut tables = call.contents.tables;
    let intents = tables[image::INTENTS];
    tables[image::LEASES] = edits::after_remove(tables[image::LEASES], p);
    let contents = Contents {
        scalars: Scalars {
            term: call.context.position.term,
            index: call.context.position.index,
            root_intent_epoch: next::up_unless(
                call.faults.omit_lease_root_epoch,
                n.root_intent_epoch,
            ),
            policy_floor: policy,
            minimum_readable_version: floor::readable_for(w, candidate, n.minimum_readable_version),
            lease_epoch: next::up(n.lease_epoch),
            ..n
        },
        tables,
        ..*call.contents
    };
    let body = [
        Part::First(intents.at, p.start.saturating_sub(intents.at)),
        Part::First(p.end, call.image.len()),
    ];
    next::emit_applied(call, &contents, &body, next, outcome)
}
