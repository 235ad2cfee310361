// The `is_valid` tests of records, over the places that a request's parts stand at.
#![tactic(auto)]

ghost use Rattle.std.specs.Prelude.{◌≡◌, ◌&&◌};
ghost use Rattle.state.specs.Maps.{contains, is_empty};
ghost use Rattle.state.specs.Records.{Manifest, kind_eq, is_manifest, valid_identity, valid_reference, valid_prior, valid_intent, valid_closure, valid_receipt};
ghost use Rattle.requests.specs.Meaning.{text_of, kind_of, keys_of, identity_of, reference_of, maybe_reference_of, intent_of, closure_of, receipt_of};

use image::TextAt;
use requests::{
    CollectionReceipt, Keys, ObjectIdentity, ObjectKind, ObjectReference, PublicationIntent,
    SnapshotClosure, text_of,
};

pub fn is_empty(s: &[u8], t: TextAt) -> bool
    ensures { result ≡ is_empty (text_of s.now t) }
{
    text_of(s, t).is_empty()
}

// The kind alone decides.
pub fn is_manifest(r: ObjectReference) -> bool
    ensures { result ≡ kind_eq (kind_of r.kind) Manifest }
{
    r.kind == ObjectKind::Manifest
}

#[tactic(auto, unfolding(state::specs::Records::valid_identity))]
pub fn valid_identity(s: &[u8], i: ObjectIdentity) -> bool
    ensures { result ≡ valid_identity (identity_of s.now i) }
{
    text::valid_sha256(text_of(s, i.sha256))
}

#[tactic(auto, unfolding(state::specs::Records::valid_reference))]
pub fn valid_reference(s: &[u8], r: ObjectReference) -> bool
    ensures { result ≡ valid_reference (reference_of s.now r) }
{
    !is_empty(s, r.key) && text::valid_sha256(text_of(s, r.sha256))
}

pub fn valid_prior(s: &[u8], prior: Option<ObjectReference>) -> bool
    ensures { result ≡ valid_prior (maybe_reference_of s.now prior) }
{
    prior.is_none_or(|r| valid_reference(s, r))
}

// Whether a reference is to a manifest, and valid, and its key is in a set.
fn names_manifest(s: &[u8], keys: Keys, r: ObjectReference) -> bool
    ensures { result ≡ (is_manifest (reference_of s.now r) && valid_reference (reference_of s.now r) && contains (reference_of s.now r).key (keys_of s.now keys)) }
{
    is_manifest(r) && valid_reference(s, r) && sets::set_has(s, keys.at, text_of(s, r.key))
}

#[tactic(auto, unfolding(state::specs::Records::valid_intent, state::specs::Records::every))]
pub fn valid_intent(s: &[u8], i: PublicationIntent) -> bool
    ensures { result ≡ valid_intent (intent_of s.now i) }
{
    names_manifest(s, i.object_keys, i.manifest)
        && !is_empty(s, i.destination_root)
        && valid_prior(s, i.expected_prior_root)
        && sets::set_named(s, i.object_keys.at)
}

#[tactic(auto, unfolding(state::specs::Records::valid_closure, state::specs::Records::every))]
pub fn valid_closure(s: &[u8], c: SnapshotClosure) -> bool
    ensures { result ≡ valid_closure (closure_of s.now c) }
{
    names_manifest(s, c.object_keys, c.manifest) && sets::set_named(s, c.object_keys.at)
}

#[tactic(auto, unfolding(state::specs::Records::valid_receipt, state::specs::Records::every))]
pub fn valid_receipt(s: &[u8], r: CollectionReceipt) -> bool
    ensures { result ≡ valid_receipt (receipt_of s.now r) }
{
    names_manifest(s, r.object_keys, r.output_manifest)
        && sets::set_begins(s, r.object_keys.at, text_of(s, r.token.output_namespace))
}
