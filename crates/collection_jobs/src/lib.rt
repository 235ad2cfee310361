// Collection jobs: prepared.
#![tactic(auto)]

ghost use Rattle.std.specs.Prelude.{◌≡◌, not, ◌&&◌, length, ◌≤◌};
ghost use Rattle.refusals.specs.Numbers.{told};
ghost use Rattle.machine.specs.Tests.{first_of};
ghost use Rattle.state.specs.Maps.{any};
ghost use Rattle.tables.specs.Seek.{rows_left};
ghost use Rattle.requests.specs.declared.PublicationAction.{PublicationAction};
ghost use Rattle.next.specs.Call.{Asks, Answers};
ghost use Rattle.collection_jobs.specs.Conflicts.{conflicts_at};
ghost use Rattle.collection_jobs.specs.Input.{input_stands};
ghost use Rattle.collection_jobs.specs.Tests.{malformed_tests, stale_tests, prepare_tests};

use image::TextAt;
use next::{Call, Change, PublicationOutcome};
use parts::{Lengths, Part};
use refusals::Refusal;
use requests::{CollectionJobToken, PrepareCollection};
use tables::{Place, TableRows};

// A job in the way of another: its root, or a namespace of which one begins with the other.
#[tactic(auto, unfolding(crate::specs::Conflicts::conflicts_at))]
fn conflicts(job: &[u8], root: &[u8], namespace: &[u8]) -> bool
    ensures { result ≡ conflicts_at root.now namespace.now job.now }
{
    let old_root = tables::text_after(&image::JOB[..image::JOB_ROOT], job, 0);
    let old = tables::text_after(&image::JOB[..image::JOB_NAMESPACE], job, 0);
    text::same(old_root, root)
        || text::same(old, namespace)
        || text::starts_with(old, namespace)
        || text::starts_with(namespace, old)
}

// Whether one of the jobs is in the way.
fn any_conflict(mut jobs: TableRows<'_>, root: &[u8], namespace: &[u8]) -> bool
    ensures { result ≡ any (conflicts_at root.now namespace.now) (rows_left jobs.entry) }
{
    jobs.any(|job| conflicts(job, root, namespace))
}

// Whether the manifest at a place of the request is the one that the row of a root holds. No row is empty.
#[tactic(auto, unfolding(crate::specs::Input::input_stands))]
pub fn input_stands(row: &[u8], root: &[u8], request: &[u8], at: usize) -> bool
    requires { length root.now ≤ 64 }
    ensures { result ≡ input_stands row.now root.now request.now at }
{
    let shown = reader::row_at(&image::REFERENCE, request, at);
    edits::row_holds(row, root.len() + 1, shown)
}

// The input does not stand, and a fault flag does not say to pass over it.
pub fn other_input(ignore: bool, stands: bool) -> bool
    ensures { result ≡ not ignore && not stands }
{
    !ignore && !stands
}

// The first test of the request itself that refuses a job.
#[tactic(auto, unfolding(machine::specs::Tests::first_of))]
fn malformed(request: &[u8], a: &PrepareCollection) -> Result<(), Refusal>
    ensures { told result ≡ first_of (malformed_tests request.now a.now) }
{
    if records::is_empty(request, a.job_id) {
        return Err(Refusal::InvalidRequest);
    }
    if a.frozen_floor == 0 {
        return Err(Refusal::InvalidRequest);
    }
    if !records::is_manifest(a.input_manifest) {
        return Err(Refusal::InvalidRequest);
    }
    if !records::valid_reference(request, a.input_manifest) {
        return Err(Refusal::InvalidRequest);
    }
    if records::is_empty(request, a.destination_root) {
        return Err(Refusal::InvalidRequest);
    }
    if a.range_map_epoch == 0 {
        return Err(Refusal::InvalidRequest);
    }
    if records::is_empty(request, a.output_namespace) {
        return Err(Refusal::InvalidRequest);
    }
    if !text::ends_with_byte(requests::text_of(request, a.output_namespace), 47) {
        return Err(Refusal::InvalidRequest);
    }
    Ok(())
}

// The first test of what a job shows of the state that refuses it.
#[tactic(auto, unfolding(machine::specs::Tests::first_of))]
pub fn stale(call: &Call<'_>, range: u64, root: TextAt, collected: u64) -> Result<(), Refusal>
    ensures { told result ≡ first_of (stale_tests call.now.image.now call.now.contents.now call.now.request.now call.now.faults.ignore_collection_range_epoch range root collected) }
{
    let n = call.contents.scalars;
    if next::differ_unless(
        call.faults.ignore_collection_range_epoch,
        range,
        n.range_map_epoch,
    ) {
        return Err(Refusal::RangeMapEpochMismatch);
    }
    if !collection::same_maybe(call.image, n.collection_root, call.request, Some(root)) {
        return Err(Refusal::CollectionRootCompareFailed);
    }
    if collected != n.physically_collected_through {
        return Err(Refusal::CollectionFrontierMismatch);
    }
    Ok(())
}

// The first test that refuses a job. Its id was found at a place.
#[tactic(auto, unfolding(machine::specs::Tests::first_of))]
fn prepare_refusal(
    call: &Call<'_>,
    a: &PrepareCollection,
    place: Place,
    stands: bool,
) -> Result<(), Refusal>
    ensures { told result ≡ first_of (prepare_tests call.now.image.now call.now.contents.now call.now.request.now call.now.faults a.now place stands) }
{
    let n = call.contents.scalars;
    malformed(call.request, a)?;
    if place.start < place.end {
        return Err(Refusal::CollectionJobExists);
    }
    let root = requests::text_of(call.request, a.destination_root);
    let namespace = requests::text_of(call.request, a.output_namespace);
    if any_conflict(call.rows(image::JOBS), root, namespace) {
        return Err(Refusal::CollectionConflict);
    }
    stale(
        call,
        a.range_map_epoch,
        a.destination_root,
        a.expected_collected_through,
    )?;
    if a.frozen_floor <= n.physically_collected_through {
        return Err(Refusal::CollectionFloorInvalid);
    }
    if n.minimum_readable_version < a.frozen_floor {
        return Err(Refusal::CollectionFloorInvalid);
    }
    if other_input(call.faults.ignore_collection_input_root, stands) {
        return Err(Refusal::RootCompareFailed);
    }
    Ok(())
}

pub fn prepare_collection(
    call: &Call<'_>,
    a: &PrepareCollection,
    next: &mut [u8],
    outcome: &mut [u8],
) -> Result<Lengths, Refusal>
    requires { Asks call.now (PublicationAction.PrepareCollection a.now) }
    ensures { Answers call.now next.old outcome.old result next.new outcome.new }
{
    let id = requests::text_of(call.request, a.job_id);
    let root = requests::text_of(call.request, a.destination_root);
    let place = call.locate(image::JOBS, id);
    let spot = call.locate(image::ROOTS, root);
    // the manifest stands after the id and the floor
    let stands = input_stands(
        tables::row(call.image, spot),
        root,
        call.request,
        id.len() + 36,
    );
    prepare_refusal(call, a, place, stands)?;
    // the token is the action's fields, with generation and position after the id
    let jobs = call.contents.tables[image::JOBS];
    let more = edits::after_insert(jobs, place, call.request.len().saturating_sub(3));
    let collected = if call.faults.advance_collection_without_publication {
        a.frozen_floor
    } else {
        call.contents.scalars.physically_collected_through
    };
    let mut d = next::raised(call.contents, call.context.position);
    d.scalars.physically_collected_through = collected;
    d.tables[image::JOBS] = more;
    let begin = call.contents.tables[image::INTENTS];
    let ahead = place.start.saturating_sub(begin.at);
    let first = id.len() + 1;
    let rest = id.len() + 28;
    let authority_position = call.context.position;
    let change = Change {
        from: call.image,
        contents: &d,
        body: &[
            Part::First(begin.at, ahead),
            Part::Second(27, first),
            Part::Number(call.context.generation, 8),
            Part::Number(authority_position.term, 8),
            Part::Number(authority_position.index, 8),
            Part::Second(rest, call.request.len()),
            Part::First(place.end, call.image.len()),
        ],
        stored: call.image,
        told: &PublicationOutcome::CollectionPrepared(CollectionJobToken {
            job_id: a.job_id,
            owner_generation: call.context.generation,
            authority_position,
            frozen_floor: a.frozen_floor,
            input_manifest: a.input_manifest,
            destination_root: a.destination_root,
            range_map_epoch: a.range_map_epoch,
            expected_collected_through: a.expected_collected_through,
            output_namespace: a.output_namespace,
        }),
    };
    next::emit(call, &change, next, outcome)
}
