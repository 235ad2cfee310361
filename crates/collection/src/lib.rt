// The actions on the collection root and on collection jobs.
#![tactic(auto)]

ghost use Rattle.std.specs.Prelude.{◌≡◌, length};
ghost use Rattle.refusals.specs.Numbers.{told};
ghost use Rattle.machine.specs.Tests.{first_of};
ghost use Rattle.state.specs.Maps.{same, same_option};
ghost use Rattle.requests.specs.Meaning.{maybe_text_of};
ghost use Rattle.requests.specs.declared.PublicationAction.{PublicationAction};
ghost use Rattle.next.specs.Call.{Asks, Answers};
ghost use Rattle.collection.specs.Tests.{configure_tests, abandon_tests};

use image::{Contents, Scalars, TextAt};
use next::{Call, Change, PublicationOutcome};
use parts::{Lengths, Part};
use refusals::Refusal;
use requests::{CollectionJobToken, ConfigureCollectionRoot};

// An optional text of one slice and one of another.
pub fn same_maybe(a: &[u8], t: Option<TextAt>, b: &[u8], u: Option<TextAt>) -> bool
    ensures { result ≡ same_option same (maybe_text_of a.now t) (maybe_text_of b.now u) }
{
    t.map(|v| requests::text_of(a, v)) == u.map(|w| requests::text_of(b, w))
}

// The first test that refuses another collection root.
#[tactic(auto, unfolding(machine::specs::Tests::first_of))]
fn configure_refusal(root: &[u8], known: bool, expected: bool, jobs: usize) -> Result<(), Refusal>
    ensures { told result ≡ first_of (configure_tests root.now known expected jobs) }
{
    if root.is_empty() {
        return Err(Refusal::InvalidRequest);
    }
    if !known {
        return Err(Refusal::InvalidRequest);
    }
    if !expected {
        return Err(Refusal::CollectionRootCompareFailed);
    }
    if jobs != 0 {
        return Err(Refusal::CollectionConflict);
    }
    Ok(())
}

pub fn configure_collection_root(
    call: &Call<'_>,
    a: &ConfigureCollectionRoot,
    next: &mut [u8],
    outcome: &mut [u8],
) -> Result<Lengths, Refusal>
    requires { Asks call.now (PublicationAction.ConfigureCollectionRoot a.now) }
    ensures { Answers call.now next.old outcome.old result next.new outcome.new }
{
    let root = requests::text_of(call.request, a.destination_root);
    let known = reserved::located(call.rows(image::ROOTS), root);
    let n = call.contents.scalars;
    let same = same_maybe(call.image, n.collection_root, call.request, a.expected);
    configure_refusal(root, known, same, call.contents.tables[image::JOBS].count)?;
    // the root is the last field of the request
    let at = TextAt {
        at: call.request.len().saturating_sub(root.len()),
        len: root.len(),
    };
    let rooted = Contents {
        scalars: Scalars {
            collection_root: Some(at),
            ..n
        },
        ..*call.contents
    };
    let raised = next::raised(&rooted, call.context.position);
    let first = call.contents.tables[image::INTENTS];
    let change = Change {
        from: call.request,
        contents: &raised,
        body: &[Part::First(first.at, call.image.len())],
        stored: call.image,
        told: &PublicationOutcome::Applied,
    };
    next::emit(call, &change, next, outcome)
}

// The first test that refuses to give a job up. No row is stored where its id is not found.
#[tactic(auto, unfolding(machine::specs::Tests::first_of))]
fn abandon_refusal(stored: &[u8], shown: &[u8], owner: u64, generation: u64) -> Result<(), Refusal>
    ensures { told result ≡ first_of (abandon_tests stored.now shown.now owner generation) }
{
    if stored.is_empty() {
        return Err(Refusal::CollectionJobMissing);
    }
    if !text::same(stored, shown) {
        return Err(Refusal::CollectionJobMismatch);
    }
    if owner != generation {
        return Err(Refusal::CrossGenerationIntent);
    }
    Ok(())
}

pub fn abandon_collection(
    call: &Call<'_>,
    a: &CollectionJobToken,
    next: &mut [u8],
    outcome: &mut [u8],
) -> Result<Lengths, Refusal>
    requires { Asks call.now (PublicationAction.AbandonCollection a.now) }
    ensures { Answers call.now next.old outcome.old result next.new outcome.new }
{
    let id = requests::text_of(call.request, a.job_id);
    let place = call.locate(image::JOBS, id);
    let stored = tables::row(call.image, place);
    // the token is all of the action
    let shown = parts::clip(call.request, 27, call.request.len());
    abandon_refusal(stored, shown, a.owner_generation, call.context.generation)?;
    let tables = call.contents.tables;
    let mut d = next::raised(call.contents, call.context.position);
    d.tables[image::JOBS] = edits::after_remove(tables[image::JOBS], place);
    let first = tables[image::INTENTS];
    let ahead = place.start.saturating_sub(first.at);
    let body = [
        Part::First(first.at, ahead),
        Part::First(place.end, call.image.len()),
    ];
    next::emit_applied(call, &d, &body, next, outcome)
}
