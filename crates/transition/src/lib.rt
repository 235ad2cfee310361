// `apply`: an image and a request, of any bytes, to the next image and the outcome.
#![tactic(auto)]

ghost use Rattle.std.specs.Prelude.{◌≡◌, length};
ghost use Rattle.parts.specs.Answer.{told_of, applied_of, image_of, outcome_of};
ghost use Rattle.parts.specs.Over.{over};
ghost use Rattle.entries.specs.Bytes.{apply_bytes};
ghost use Rattle.next.specs.Call.{asking, Asks, Answers};
ghost use Rattle.transition.specs.Asked.{Asked};

use next::Call;
use parts::Lengths;
use refusals::Refusal;
use requests::PublicationAction;

// The `match` of the Rust's `apply`: each action to its own transition.
#[tactic(auto, using(crate::specs::Asked::with_action))]
fn apply_action(
    call: &Call<'_>,
    action: &PublicationAction,
    next: &mut [u8],
    outcome: &mut [u8],
) -> Result<Lengths, Refusal>
    requires { Asks call.now action.now }
    ensures { Answers call.now next.old outcome.old result next.new outcome.new }
{
    match action {
        PublicationAction::ObserveCommittedFrontier(a) => floor::observe_committed_frontier(
            call, *a, next, outcome,
        ),
        PublicationAction::SetRetentionWindow(a) => floor::set_retention_window(
            call, a, next, outcome,
        ),
        PublicationAction::ObserveRangeMapEpoch(a) => floor::observe_range_map_epoch(
            call, *a, next, outcome,
        ),
        PublicationAction::ConfigureCollectionRoot(a) => collection::configure_collection_root(
            call, a, next, outcome,
        ),
        PublicationAction::AcquireLease(a) => leases::acquire_lease(call, a, next, outcome),
        PublicationAction::RenewLease(a) => leases::renew_lease(call, a, next, outcome),
        PublicationAction::ReleaseLease(a) => leases::release_lease(call, a, next, outcome),
        PublicationAction::AdvanceLeaseClock(a) => clock::advance_lease_clock(
            call, a, next, outcome,
        ),
        PublicationAction::PrepareCollection(a) => collection_jobs::prepare_collection(
            call, a, next, outcome,
        ),
        PublicationAction::PublishCollection(a) => collection_publish::publish_collection(
            call, a, next, outcome,
        ),
        PublicationAction::AbandonCollection(a) => collection::abandon_collection(
            call, a, next, outcome,
        ),
        PublicationAction::Prepare(a) => intents::prepare(call, a, next, outcome),
        PublicationAction::Publish(a) => intents::publish(call, a, next, outcome),
        PublicationAction::Pin(a) => publication::pin(call, a, next, outcome),
        PublicationAction::Unpin(a) => publication::unpin(call, a, next, outcome),
        PublicationAction::ReserveDelete(a) => deletion::reserve_delete(call, a, next, outcome),
        PublicationAction::RetireDelete(a) => deletion::retire_delete(call, a, next, outcome),
    }
}

// Format and context come before every action.
fn apply_request(
    call: &Call<'_>,
    action: &PublicationAction,
    next: &mut [u8],
    outcome: &mut [u8],
) -> Result<Lengths, Refusal>
    requires { Asked call.now.image.now call.now.contents.now call.now.request.now (asking call.now action.now) }
    ensures { Answers call.now next.old outcome.old result next.new outcome.new }
{
    if call.contents.format_version != 1 {
        return Err(Refusal::InvalidRequest);
    }
    if call.context.generation == 0 {
        return Err(Refusal::InvalidRequest);
    }
    if call.context.position.index == 0 {
        return Err(Refusal::InvalidRequest);
    }
    apply_action(call, action, next, outcome)
}

pub fn apply(
    image: &[u8],
    request: &[u8],
    next: &mut [u8],
    outcome: &mut [u8],
) -> Result<Lengths, Refusal>
    ensures answer { told_of result ≡ applied_of (apply_bytes image.now request.now (length next.old) (length outcome.old)) }
    ensures bytes { next.new ≡ over next.old 0 (image_of (apply_bytes image.now request.now (length next.old) (length outcome.old))) }
    ensures told { outcome.new ≡ over outcome.old 0 (outcome_of (apply_bytes image.now request.now (length next.old) (length outcome.old))) }
{
    let contents = image::open(image).ok_or(Refusal::NotAnImage)?;
    let asked = requests::parse(request)?;
    let call = Call {
        image,
        contents: &contents,
        request,
        context: asked.context,
        faults: asked.faults,
    };
    apply_request(&call, &asked.action, next, outcome)
}
