// The actions on reservations for deletion.
#![tactic(auto)]

ghost use Rattle.std.specs.Prelude.{◌≡◌, length};
ghost use Rattle.refusals.specs.Numbers.{told};
ghost use Rattle.parts.specs.Gather.{run};
ghost use Rattle.requests.specs.declared.PublicationAction.{PublicationAction};
ghost use Rattle.requests.specs.Meaning.{text_of};
ghost use Rattle.next.specs.Call.{Asks, Answers};
ghost use Rattle.machine.specs.Tests.{first_of};
ghost use Rattle.deletion.specs.Tests.{matches_of, reserve_tests, retire_tests};

use next::{Call, Change, PublicationOutcome};
use parts::{Lengths, Part};
use refusals::Refusal;
use requests::{DeletePermit, ReserveDelete};
use tables::Place;

// Whether the stored permit is the one shown; plan and key alone decide where that is asked.
#[tactic(auto, unfolding(crate::specs::Tests::matches_of))]
fn matches(by_plan_key_only: bool, row: &[u8], shown: &[u8], plan: &[u8], key: &[u8]) -> bool
    ensures { result ≡ matches_of by_plan_key_only row.now shown.now plan.now key.now }
{
    let before_plan = &image::PERMIT[..image::PERMIT_PLAN];
    text::same(row, shown)
        || by_plan_key_only
            && text::same(tables::text_after(before_plan, row, 0), plan)
            && text::same(fields::text_at(row, 0), key)
}

// The first test that refuses a reservation; `place` is that of the key among the reservations.
#[tactic(auto, using(image::specs::Rows::rows_as), unfolding(machine::specs::Tests::first_of))]
fn reserve_refusal(call: &Call<'_>, a: &ReserveDelete, place: Place) -> Result<(), Refusal>
    ensures { told result ≡ first_of (reserve_tests call.now.image.now call.now.contents.now call.now.request.now call.now.faults a.now place) }
{
    if records::is_empty(call.request, a.plan_id) {
        return Err(Refusal::InvalidRequest);
    }
    if records::is_empty(call.request, a.key) {
        return Err(Refusal::InvalidRequest);
    }
    if !records::valid_identity(call.request, a.identity) {
        return Err(Refusal::InvalidRequest);
    }
    if next::differ_unless(
        call.faults.ignore_root_epoch,
        a.mark_epoch,
        call.contents.scalars.root_intent_epoch,
    ) {
        return Err(Refusal::RootIntentEpochChanged);
    }
    let key = requests::text_of(call.request, a.key);
    let hops = &image::INTENT[..image::INTENT_KEYS];
    if scans::any_names(call.rows(image::INTENTS), hops, key) {
        return Err(Refusal::ObjectNamedByIntent);
    }
    let hops = &image::LEASE[..image::LEASE_KEYS];
    if scans::any_names(call.rows(image::LEASES), hops, key) {
        return Err(Refusal::ObjectNamedByIntent);
    }
    if scans::any_uses(call.rows(image::JOBS), key) {
        return Err(Refusal::ObjectNamedByIntent);
    }
    if place.start < place.end {
        return Err(Refusal::DeleteReservationExists);
    }
    Ok(())
}

// The same for a permit that is to go; `row` is the stored one's, empty where there is none.
#[tactic(auto, unfolding(machine::specs::Tests::first_of))]
fn retire_refusal(call: &Call<'_>, a: &DeletePermit, row: &[u8]) -> Result<(), Refusal>
    ensures { told result ≡ first_of (retire_tests row.now (run call.now.request.now 27 (length call.now.request.now)) (text_of call.now.request.now a.now.plan_id) (text_of call.now.request.now a.now.key)
        a.now.owner_generation call.now.context.generation call.now.faults.retire_by_plan_key_only) }
{
    if row.is_empty() {
        return Err(Refusal::DeleteReservationMissing);
    }
    if a.owner_generation != call.context.generation {
        return Err(Refusal::CrossGenerationDeletePermit);
    }
    let shown = parts::clip(call.request, 27, call.request.len());
    let plan = requests::text_of(call.request, a.plan_id);
    let key = requests::text_of(call.request, a.key);
    if !matches(call.faults.retire_by_plan_key_only, row, shown, plan, key) {
        return Err(Refusal::DeletePlanMismatch);
    }
    Ok(())
}

pub fn retire_delete(
    call: &Call<'_>,
    a: &DeletePermit,
    next: &mut [u8],
    outcome: &mut [u8],
) -> Result<Lengths, Refusal>
    requires { Asks call.now (PublicationAction.RetireDelete a.now) }
    ensures { Answers call.now next.old outcome.old result next.new outcome.new }
{
    let key = requests::text_of(call.request, a.key);
    let place = call.locate(image::RESERVATIONS, key);
    retire_refusal(call, a, tables::row(call.image, place))?;
    let after = edits::after_remove(call.contents.tables[image::RESERVATIONS], place);
    let mut d = next::revised(call.contents, call.context.position);
    d.tables[image::RESERVATIONS] = after;
    let intents = call.contents.tables[image::INTENTS];
    let body = [
        Part::First(intents.at, place.start.saturating_sub(intents.at)),
        Part::First(place.end, call.image.len()),
    ];
    next::emit_applied(call, &d, &body, next, outcome)
}

pub fn reserve_delete(
    call: &Call<'_>,
    a: &ReserveDelete,
    next: &mut [u8],
    outcome: &mut [u8],
) -> Result<Lengths, Refusal>
    requires { Asks call.now (PublicationAction.ReserveDelete a.now) }
    ensures { Answers call.now next.old outcome.old result next.new outcome.new }
{
    let key = requests::text_of(call.request, a.key);
    let place = call.locate(image::RESERVATIONS, key);
    reserve_refusal(call, a, place)?;
    // the request has plan, mark, key and identity; a permit has key, identity, plan, generation and position
    let plan = requests::text_of(call.request, a.plan_id);
    let plan_size = 1 + plan.len();
    let start = 35 + plan_size;
    let size = call.request.len().saturating_sub(start);
    let position = call.context.position;
    let after = edits::after_insert(
        call.contents.tables[image::RESERVATIONS],
        place,
        size + plan_size + 24,
    );
    let mut d = next::revised(call.contents, position);
    d.tables[image::RESERVATIONS] = after;
    let intents = call.contents.tables[image::INTENTS];
    let body = [
        Part::First(intents.at, place.start.saturating_sub(intents.at)),
        Part::Second(start, size),
        Part::Second(27, plan_size),
        Part::Number(call.context.generation, 8),
        Part::Number(position.term, 8),
        Part::Number(position.index, 8),
        Part::First(place.end, call.image.len()),
    ];
    let told = PublicationOutcome::DeleteReserved(DeletePermit {
        key: a.key,
        identity: a.identity,
        plan_id: a.plan_id,
        owner_generation: call.context.generation,
        authority_position: position,
    });
    next::emit(
        call,
        &Change {
            from: call.image,
            contents: &d,
            body: &body,
            stored: call.image,
            told: &told,
        },
        next,
        outcome,
    )
}
