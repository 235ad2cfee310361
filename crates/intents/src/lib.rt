// Publications: prepare and publish.
#![tactic(auto)]

ghost use Rattle.std.specs.Prelude.{◌≡◌, ◌+◌, not, ◌&&◌, drop, length};
ghost use Rattle.refusals.specs.Numbers.{told};
ghost use Rattle.text.specs.Same.{same_of};
ghost use Rattle.fields.specs.Codes.{skip};
ghost use Rattle.requests.specs.declared.PublicationAction.{PublicationAction};
ghost use Rattle.requests.specs.Meaning.{text_of};
ghost use Rattle.machine.specs.Tests.{first_of};
ghost use Rattle.next.specs.Call.{Asks, Answers};
ghost use Rattle.next.specs.Rows.{table_of};
ghost use Rattle.intents.specs.Tests.{matches_in, differs_in, crosses_in, missing_in, prepare_tests, publish_tests};

use fields::Code;
use next::Call;
use parts::{Lengths, Part};
use refusals::Refusal;
use requests::{Prepare, Publish};
use tables::Place;

// The first test that refuses to prepare; `place` is that of the id among the intents.
#[tactic(auto, unfolding(machine::specs::Tests::first_of))]
fn prepare_refusal(call: &Call<'_>, a: &Prepare, place: Place) -> Result<(), Refusal>
    ensures { told result ≡ first_of (prepare_tests call.now.image.now (table_of call.now 3) call.now.request.now call.now.faults a.now place) }
{
    if records::is_empty(call.request, a.publication_id) {
        return Err(Refusal::InvalidRequest);
    }
    if !records::valid_intent(call.request, a.intent) {
        return Err(Refusal::InvalidRequest);
    }
    if place.start < place.end {
        return Err(Refusal::PublicationExists);
    }
    if reserved::is_reserved(
        call.faults.ignore_delete_reservation,
        call.rows(image::RESERVATIONS),
        call.request,
        a.intent.object_keys.at,
    ) {
        return Err(Refusal::ObjectDeletionReserved);
    }
    Ok(())
}

pub fn prepare(
    call: &Call<'_>,
    a: &Prepare,
    next: &mut [u8],
    outcome: &mut [u8],
) -> Result<Lengths, Refusal>
    requires { Asks call.now (PublicationAction.Prepare a.now) }
    ensures { Answers call.now next.old outcome.old result next.new outcome.new }
{
    let id = requests::text_of(call.request, a.publication_id);
    let first = id.len() + 1;
    let p = call.locate(image::INTENTS, id);
    prepare_refusal(call, a, p)?;
    let intents = call.contents.tables[image::INTENTS];
    let bytes = first + 8 + call.request.len().saturating_sub(27 + first);
    let after = edits::after_insert(intents, p, bytes);
    let mut d = next::raised(call.contents, call.context.position);
    d.tables[image::INTENTS] = after;
    let body = [
        Part::First(intents.at, p.start.saturating_sub(intents.at)),
        Part::Second(27, first),
        Part::Number(call.context.generation, 8),
        Part::Second(27 + first, call.request.len()),
        Part::First(p.end, call.image.len()),
    ];
    next::emit_applied(call, &d, &body, next, outcome)
}

// What is left of a record after its first fields.
#[tactic(auto, using(crate::proofs::Steps::left_after))]
fn after<'a>(codes: &[Code], s: &'a [u8]) -> &'a [u8]
    ensures { result.now ≡ skip 0 codes.now s.now }
{
    parts::clip(s, tables::skip_record(codes, s, 0), s.len())
}

// The guard on a stored intent, given what its row holds after its id: owner generation, keys, manifest, root, prior root.
#[tactic(auto, using(crate::proofs::Steps::matches_told))]
fn intent_matches(row: &[u8], manifest: &[u8], root: &[u8], prior: &[u8], key: &[u8]) -> bool
    ensures { result ≡ matches_in row.now manifest.now root.now prior.now key.now }
{
    let m = after(
        &image::INTENT[image::INTENT_OWNER..image::INTENT_MANIFEST],
        row,
    );
    let d = after(
        &image::INTENT[image::INTENT_MANIFEST..image::INTENT_ROOT],
        m,
    );
    let e = after(&image::INTENT[image::INTENT_ROOT..image::INTENT_PRIOR], d);
    text::same(parts::clip(m, 0, m.len().saturating_sub(d.len())), manifest)
        && text::same(fields::text_at(d, 0), root)
        && text::same(e, prior)
        && sets::set_has(row, 8, key)
}

// The tests of a stored intent, given what its row holds after its id, nothing where there is none: whether it is of another publication;
#[tactic(auto, using(crate::proofs::Steps::no_bytes), unfolding(crate::specs::Tests::differs_in))]
fn intent_differs(row: &[u8], manifest: &[u8], root: &[u8], prior: &[u8], key: &[u8]) -> bool
    ensures { result ≡ differs_in row.now manifest.now root.now prior.now key.now }
{
    !row.is_empty() && !intent_matches(row, manifest, root, prior, key)
}

// whether it is of another generation, and whether there is none. A fault flag leaves a test out.
#[tactic(auto, using(crate::proofs::Steps::no_bytes), unfolding(crate::specs::Tests::crosses_in))]
fn intent_crosses(across: bool, row: &[u8], generation: u64) -> bool
    ensures { result ≡ crosses_in across row.now generation }
{
    !across && !row.is_empty() && parts::u64_at(row, 0) != generation
}

#[tactic(auto, using(crate::proofs::Steps::no_bytes), unfolding(crate::specs::Tests::missing_in))]
fn intent_missing(without: bool, row: &[u8]) -> bool
    ensures { result ≡ missing_in without row.now }
{
    !without && row.is_empty()
}

// Whether the stored root is another than the one expected; a fault flag leaves this test out, too.
fn root_differs(ignore: bool, row: &[u8], first: usize, prior: &[u8]) -> bool
    ensures { result ≡ (not ignore && not (same_of (drop first row.now) (drop 1 prior.now))) }
{
    !ignore && !publication::is_expected(row, first, prior)
}

// The first test that refuses to publish: `row` is what the stored intent holds after its id, `old` the
// stored root's row, whose first bytes are its id; `manifest` and `prior` stand in the request.
#[tactic(auto, using(crate::proofs::Steps::no_bytes), unfolding(machine::specs::Tests::first_of))]
fn publish_refusal(
    call: &Call<'_>,
    a: &Publish,
    row: &[u8],
    manifest: &[u8],
    prior: &[u8],
    old: &[u8],
) -> Result<(), Refusal>
    ensures { told result ≡ first_of (publish_tests call.now.request.now a.now row.now manifest.now (text_of call.now.request.now a.now.manifest.key) (text_of call.now.request.now a.now.destination_root)
        prior.now (drop (length (text_of call.now.request.now a.now.destination_root) + 1) old.now) call.now.context.generation call.now.faults) }
{
    let root = requests::text_of(call.request, a.destination_root);
    let key = requests::text_of(call.request, a.manifest.key);
    if records::is_empty(call.request, a.publication_id) {
        return Err(Refusal::InvalidRequest);
    }
    if root.is_empty() {
        return Err(Refusal::InvalidRequest);
    }
    if !records::is_manifest(a.manifest) {
        return Err(Refusal::InvalidRequest);
    }
    if !records::valid_reference(call.request, a.manifest) {
        return Err(Refusal::InvalidRequest);
    }
    if intent_differs(row, manifest, root, prior, key) {
        return Err(Refusal::PublicationIntentMismatch);
    }
    if intent_crosses(
        call.faults.allow_cross_generation_intent,
        row,
        call.context.generation,
    ) {
        return Err(Refusal::CrossGenerationIntent);
    }
    if intent_missing(call.faults.publish_without_intent, row) {
        return Err(Refusal::PublicationIntentMissing);
    }
    if root_differs(call.faults.ignore_root_compare, old, root.len() + 1, prior) {
        return Err(Refusal::RootCompareFailed);
    }
    Ok(())
}

pub fn publish(
    call: &Call<'_>,
    a: &Publish,
    next: &mut [u8],
    outcome: &mut [u8],
) -> Result<Lengths, Refusal>
    requires { Asks call.now (PublicationAction.Publish a.now) }
    ensures { Answers call.now next.old outcome.old result next.new outcome.new }
{
    let id = requests::text_of(call.request, a.publication_id);
    let root = requests::text_of(call.request, a.destination_root);
    let first = id.len() + 1;
    let second = root.len() + 1;
    let prior = publication::option_at(call.request, 27 + first + second);
    let m = 27 + first + second + prior.len();
    let p = call.locate(image::INTENTS, id);
    let o = call.locate(image::ROOTS, root);
    let stored = tables::row(call.image, p);
    let rest = parts::clip(stored, first, stored.len());
    let shown = parts::clip(call.request, m, call.request.len());
    publish_refusal(call, a, rest, shown, prior, tables::row(call.image, o))?;
    let intents = call.contents.tables[image::INTENTS];
    let bytes = second + call.request.len().saturating_sub(m);
    let fewer = edits::after_remove(intents, p);
    let more = edits::after_insert(call.contents.tables[image::ROOTS], o, bytes);
    let mut d = next::raised(call.contents, call.context.position);
    d.tables[image::INTENTS] = fewer;
    d.tables[image::ROOTS] = more;
    let body = [
        Part::First(intents.at, p.start.saturating_sub(intents.at)),
        Part::First(p.end, o.start.saturating_sub(p.end)),
        Part::Second(27 + first, second),
        Part::Second(m, call.request.len()),
        Part::First(o.end, call.image.len()),
    ];
    next::emit_applied(call, &d, &body, next, outcome)
}
