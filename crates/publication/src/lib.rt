// Pins: pin, unpin; and an expected reference beside the stored one, which publications test too.
#![tactic(auto)]

ghost use Rattle.std.specs.Prelude.{◌≡◌, drop};
ghost use Rattle.refusals.specs.Numbers.{told};
ghost use Rattle.text.specs.Same.{same_of};
ghost use Rattle.requests.specs.declared.PublicationAction.{PublicationAction};
ghost use Rattle.requests.specs.Meaning.{text_of, reference_of};
ghost use Rattle.machine.specs.Tests.{first_of};
ghost use Rattle.next.specs.Call.{Asks, Answers};
ghost use Rattle.publication.specs.References.{option_at};
ghost use Rattle.publication.specs.Tests.{pin_tests, unpin_tests};

use next::Call;
use parts::{Lengths, Part};
use refusals::Refusal;
use requests::{Pin, Unpin};

// The option of a reference that stands at a place.
pub fn option_at<'a>(s: &'a [u8], at: usize) -> &'a [u8]
    ensures { result.now ≡ option_at s.now at }
{
    reader::row_at(&image::MAYBE_REFERENCE, s, at)
}

// Whether a row has, after its first bytes, just what the option has after its flag.
pub fn is_expected(row: &[u8], first: usize, expected: &[u8]) -> bool
    ensures { result ≡ same_of (drop first row.now) (drop 1 expected.now) }
{
    edits::row_holds(row, first, parts::clip(expected, 1, expected.len()))
}

// The first test that refuses a pin; `row` is the stored pin's, whose first bytes are its id.
#[tactic(auto, unfolding(machine::specs::Tests::first_of))]
fn pin_refusal(
    request: &[u8],
    a: &Pin,
    row: &[u8],
    first: usize,
    expected: &[u8],
) -> Result<(), Refusal>
    ensures { told result ≡ first_of (pin_tests (text_of request.now a.now.pin_id) (reference_of request.now a.now.manifest) (same_of (drop first row.now) (drop 1 expected.now))) }
{
    if records::is_empty(request, a.pin_id) {
        return Err(Refusal::InvalidRequest);
    }
    if !records::is_manifest(a.manifest) {
        return Err(Refusal::InvalidRequest);
    }
    if !records::valid_reference(request, a.manifest) {
        return Err(Refusal::InvalidRequest);
    }
    if !is_expected(row, first, expected) {
        return Err(Refusal::PinCompareFailed);
    }
    Ok(())
}

pub fn pin(
    call: &Call<'_>,
    a: &Pin,
    next: &mut [u8],
    outcome: &mut [u8],
) -> Result<Lengths, Refusal>
    requires { Asks call.now (PublicationAction.Pin a.now) }
    ensures { Answers call.now next.old outcome.old result next.new outcome.new }
{
    let id = requests::text_of(call.request, a.pin_id);
    let first = id.len() + 1;
    let p = call.locate(image::PINS, id);
    let expected = option_at(call.request, 27 + first);
    pin_refusal(call.request, a, tables::row(call.image, p), first, expected)?;
    let m = 27 + first + expected.len();
    let bytes = first + call.request.len().saturating_sub(m);
    let after = edits::after_insert(call.contents.tables[image::PINS], p, bytes);
    let mut d = next::raised(call.contents, call.context.position);
    d.tables[image::PINS] = after;
    let intents = call.contents.tables[image::INTENTS];
    let body = [
        Part::First(intents.at, p.start.saturating_sub(intents.at)),
        Part::Second(27, first),
        Part::Second(m, call.request.len()),
        Part::First(p.end, call.image.len()),
    ];
    next::emit_applied(call, &d, &body, next, outcome)
}

// The same for a pin that is to go: its row holds just the reference that was expected.
#[tactic(auto, unfolding(machine::specs::Tests::first_of))]
fn unpin_refusal(
    request: &[u8],
    a: &Unpin,
    row: &[u8],
    first: usize,
    expected: &[u8],
) -> Result<(), Refusal>
    ensures { told result ≡ first_of (unpin_tests (text_of request.now a.now.pin_id) (reference_of request.now a.now.expected) (same_of (drop first row.now) expected.now)) }
{
    if records::is_empty(request, a.pin_id) {
        return Err(Refusal::InvalidRequest);
    }
    if !records::valid_reference(request, a.expected) {
        return Err(Refusal::InvalidRequest);
    }
    if !edits::row_holds(row, first, expected) {
        return Err(Refusal::PinCompareFailed);
    }
    Ok(())
}

pub fn unpin(
    call: &Call<'_>,
    a: &Unpin,
    next: &mut [u8],
    outcome: &mut [u8],
) -> Result<Lengths, Refusal>
    requires { Asks call.now (PublicationAction.Unpin a.now) }
    ensures { Answers call.now next.old outcome.old result next.new outcome.new }
{
    let id = requests::text_of(call.request, a.pin_id);
    let first = id.len() + 1;
    let p = call.locate(image::PINS, id);
    let expected = parts::clip(call.request, 27 + first, call.request.len());
    unpin_refusal(call.request, a, tables::row(call.image, p), first, expected)?;
    let after = edits::after_remove(call.contents.tables[image::PINS], p);
    let mut d = next::raised(call.contents, call.context.position);
    d.tables[image::PINS] = after;
    let intents = call.contents.tables[image::INTENTS];
    let body = [
        Part::First(intents.at, p.start.saturating_sub(intents.at)),
        Part::First(p.end, call.image.len()),
    ];
    next::emit_applied(call, &d, &body, next, outcome)
}
