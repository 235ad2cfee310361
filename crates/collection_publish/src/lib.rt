// Collection jobs: published.
#![tactic(auto)]

ghost use Rattle.std.specs.Prelude.{◌≡◌, ◌≤◌, length};
ghost use Rattle.refusals.specs.Numbers.{told};
ghost use Rattle.machine.specs.Tests.{first_of};
ghost use Rattle.requests.specs.Meaning.{text_of};
ghost use Rattle.requests.specs.declared.PublicationAction.{PublicationAction};
ghost use Rattle.next.specs.Call.{Asks, Answers};
ghost use Rattle.collection_publish.specs.Tests.{same_manifest, receipt_tests, publish_tests};

use next::{Call, Change, PublicationOutcome};
use parts::{Lengths, Part};
use refusals::Refusal;
use requests::CollectionReceipt;

// Whether the manifests at two places of the request are the same.
#[tactic(auto, unfolding(crate::specs::Tests::same_manifest))]
fn same_manifest(request: &[u8], a: usize, b: usize) -> bool
    ensures { result ≡ same_manifest request.now a b }
{
    text::same(
        reader::row_at(&image::REFERENCE, request, a),
        reader::row_at(&image::REFERENCE, request, b),
    )
}

// The first test of a receipt by itself and by its job that refuses it. No row is stored where the job is not found.
#[tactic(auto, using(crate::specs::Tests::manifests_told), unfolding(machine::specs::Tests::first_of))]
fn receipt_refusal(call: &Call<'_>, a: &CollectionReceipt, stored: &[u8]) -> Result<(), Refusal>
    requires { length (text_of call.now.request.now a.now.token.job_id) ≤ 64 }
    ensures { told result ≡ first_of (receipt_tests call.now.request.now call.now.context a.now stored.now) }
{
    if !records::valid_receipt(call.request, *a) {
        return Err(Refusal::InvalidRequest);
    }
    let id = requests::text_of(call.request, a.token.job_id);
    // the token stands first, and its manifest after id, generation, position and floor
    let token = reader::row_at(&image::JOB, call.request, 27);
    if same_manifest(call.request, 27 + token.len(), id.len() + 60) {
        return Err(Refusal::InvalidRequest);
    }
    if stored.is_empty() {
        return Err(Refusal::CollectionJobMissing);
    }
    if !text::same(stored, token) {
        return Err(Refusal::CollectionReceiptMismatch);
    }
    if a.token.owner_generation != call.context.generation {
        return Err(Refusal::CrossGenerationIntent);
    }
    Ok(())
}

// The first test that refuses a receipt.
#[tactic(auto, unfolding(machine::specs::Tests::first_of))]
fn publish_refusal(
    call: &Call<'_>,
    a: &CollectionReceipt,
    stored: &[u8],
    stands: bool,
) -> Result<(), Refusal>
    requires { length (text_of call.now.request.now a.now.token.job_id) ≤ 64 }
    ensures { told result ≡ first_of (publish_tests call.now.image.now call.now.contents.now call.now.request.now call.now.context call.now.faults a.now stored.now stands) }
{
    receipt_refusal(call, a, stored)?;
    collection_jobs::stale(
        call,
        a.token.range_map_epoch,
        a.token.destination_root,
        a.token.expected_collected_through,
    )?;
    if collection_jobs::other_input(call.faults.ignore_collection_input_root, stands) {
        return Err(Refusal::RootCompareFailed);
    }
    let reservations = call.rows(image::RESERVATIONS);
    if reserved::is_reserved(false, reservations, call.request, a.object_keys.at) {
        return Err(Refusal::ObjectDeletionReserved);
    }
    Ok(())
}

pub fn publish_collection(
    call: &Call<'_>,
    a: &CollectionReceipt,
    next: &mut [u8],
    outcome: &mut [u8],
) -> Result<Lengths, Refusal>
    requires { Asks call.now (PublicationAction.PublishCollection a.now) }
    ensures { Answers call.now next.old outcome.old result next.new outcome.new }
{
    let id = requests::text_of(call.request, a.token.job_id);
    let root = requests::text_of(call.request, a.token.destination_root);
    let spot = call.locate(image::ROOTS, root);
    let gone = call.locate(image::JOBS, id);
    let held = tables::row(call.image, spot);
    let stored = tables::row(call.image, gone);
    let stands = collection_jobs::input_stands(held, root, call.request, id.len() + 60);
    publish_refusal(call, a, stored, stands)?;
    // the root stands after the token's manifest, and the new manifest after the token
    let root_at = tables::skip_record(&image::REFERENCE, call.request, id.len() + 60);
    let token = reader::row_at(&image::JOB, call.request, 27);
    let start = 27 + token.len();
    let size = reader::row_at(&image::REFERENCE, call.request, start).len();
    let name = root.len() + 1;
    let tables = call.contents.tables;
    let more = edits::after_insert(tables[image::ROOTS], spot, name + size);
    let left = edits::after_remove(tables[image::JOBS], gone);
    let mut d = next::raised(call.contents, call.context.position);
    d.scalars.physically_collected_through = a.token.frozen_floor;
    d.tables[image::ROOTS] = more;
    d.tables[image::JOBS] = left;
    let begin = tables[image::INTENTS];
    let ahead = spot.start.saturating_sub(begin.at);
    let between = gone.start.saturating_sub(spot.end);
    let change = Change {
        from: call.image,
        contents: &d,
        body: &[
            Part::First(begin.at, ahead),
            Part::Second(root_at, name),
            Part::Second(start, size),
            Part::First(spot.end, between),
            Part::First(gone.end, call.image.len()),
        ],
        stored: call.image,
        told: &PublicationOutcome::CollectionPublished(*a),
    };
    next::emit(call, &change, next, outcome)
}
