// The fields of a record, read one after the other.
#![tactic(auto, using(crate::proofs::CursorLaws::cursor_laws))]

ghost use Rattle.std.specs.Prelude.{◌≡◌, ◌+◌, min, length, take, drop, get_or};
ghost use Rattle.parts.specs.Digits.{value};
ghost use Rattle.fields.specs.Format.{kind, option, number};
ghost use Rattle.image.specs.Shapes.{u64, name, keys, position, reference, identity, intent, closure, lease, job, receipt, permit};
ghost use Rattle.requests.specs.Checked.{context};
ghost use Rattle.requests.specs.Cursors.{beyond};
ghost use Rattle.requests.specs.Positions.{number_in, text_in, maybe_text_in, kind_in, keys_in, position_in, context_in, reference_in, maybe_reference_in, identity_in, intent_in, closure_in, lease_token_in, job_token_in, receipt_in, permit_in, window_in, configure_in, acquire_in, renew_in, release_in, clock_in, collect_in, prepare_in, publish_in, pin_in, unpin_in, reserve_in, action_in};
ghost use Rattle.requests.specs.Tags.{byte_of};

use crate::{
    AcquireLease, ActionTag, AdvanceLeaseClock, AuthorityContext, AuthorityPosition,
    CollectionJobToken, CollectionReceipt, ConfigureCollectionRoot, DeletePermit, Keys,
    ObjectIdentity, ObjectKind, ObjectReference, Pin, Prepare, PrepareCollection,
    PublicationAction, PublicationIntent, Publish, ReleaseLease, RenewLease, ReserveDelete,
    SetRetentionWindow, SnapshotClosure, SnapshotLeaseToken, Unpin,
};
use fields::KEYS;
use image::TextAt;

// Each method reads what stands at the cursor's place, and goes behind it. It checks nothing: it is called on bytes that were checked,
// and is total, so that no caller has to show it.
#[derive(Drop)]
pub struct Cursor<'a> {
    pub bytes: &'a [u8],
    pub at: usize,
}

impl<'a> Cursor<'a> {
    // n bytes further, and no further than the end.
    fn skip(&mut self, n: usize)
        ensures { self.new ≡ record self.old { at = min (self.old.at + n) (length self.old.bytes.now) } }
    {
        self.at = self.at.saturating_add(n).min(self.bytes.len());
    }

    pub fn byte(&mut self) -> u8
        ensures value { result ≡ get_or self.old.bytes.now self.old.at 0 }
        ensures on { self.new ≡ beyond kind self.old }
    {
        let b = parts::byte_at(self.bytes, self.at);
        self.skip(1);
        b
    }

    // The number of two bytes.
    pub fn flags(&mut self) -> u16
        ensures value { result ≡ value (take 2 (drop self.old.at self.old.bytes.now)) }
        ensures on { self.new ≡ beyond (number 2) self.old }
    {
        let low = self.byte();
        let high = self.byte();
        u16::from_le_bytes([low, high])
    }

    pub fn number(&mut self) -> u64
        ensures value { result ≡ number_in self.old.bytes.now self.old.at }
        ensures on { self.new ≡ beyond u64 self.old }
    {
        let n = parts::u64_at(self.bytes, self.at);
        self.skip(8);
        n
    }

    fn text(&mut self) -> TextAt
        ensures value { result ≡ text_in self.old.bytes.now self.old.at }
        ensures on { self.new ≡ beyond name self.old }
    {
        let len = self.byte() as usize;
        let text = TextAt { at: self.at, len };
        self.skip(len);
        text
    }

    // Here and of a reference the byte is tested in place: one function for both would take the reader of the value, and be longer.
    fn maybe_text(&mut self) -> Option<TextAt>
        ensures value { result ≡ maybe_text_in self.old.bytes.now self.old.at }
        ensures on { self.new ≡ beyond (option name) self.old }
    {
        if self.byte() == 0 {
            return None;
        }
        Some(self.text())
    }

    fn kind(&mut self) -> ObjectKind
        ensures value { result ≡ kind_in self.old.bytes.now self.old.at }
        ensures on { self.new ≡ beyond kind self.old }
    {
        if self.byte() == 0 {
            ObjectKind::Data
        } else {
            ObjectKind::Manifest
        }
    }

    #[tactic(auto, unfolding(crate::specs::Positions::behind))]
    fn keys(&mut self) -> Keys
        ensures value { result ≡ keys_in self.old.bytes.now self.old.at }
        ensures on { self.new ≡ beyond keys self.old }
    {
        let at = self.at;
        self.at = tables::skip_record(&[KEYS], self.bytes, at);
        Keys {
            at,
            len: self.at.saturating_sub(at),
        }
    }

    fn position(&mut self) -> AuthorityPosition
        ensures value { result ≡ position_in self.old.bytes.now self.old.at }
        ensures on { self.new ≡ beyond position self.old }
    {
        AuthorityPosition {
            term: self.number(),
            index: self.number(),
        }
    }

    pub fn context(&mut self) -> AuthorityContext
        ensures value { result ≡ context_in self.old.bytes.now self.old.at }
        ensures on { self.new ≡ beyond context self.old }
    {
        AuthorityContext {
            generation: self.number(),
            position: self.position(),
        }
    }

    fn reference(&mut self) -> ObjectReference
        ensures value { result ≡ reference_in self.old.bytes.now self.old.at }
        ensures on { self.new ≡ beyond reference self.old }
    {
        ObjectReference {
            kind: self.kind(),
            key: self.text(),
            length: self.number(),
            sha256: self.text(),
        }
    }

    fn maybe_reference(&mut self) -> Option<ObjectReference>
        ensures value { result ≡ maybe_reference_in self.old.bytes.now self.old.at }
        ensures on { self.new ≡ beyond (option reference) self.old }
    {
        if self.byte() == 0 {
            return None;
        }
        Some(self.reference())
    }

    fn identity(&mut self) -> ObjectIdentity
        ensures value { result ≡ identity_in self.old.bytes.now self.old.at }
        ensures on { self.new ≡ beyond identity self.old }
    {
        ObjectIdentity {
            e_tag: self.maybe_text(),
            version: self.maybe_text(),
            length: self.number(),
            sha256: self.text(),
        }
    }

    fn intent(&mut self) -> PublicationIntent
        ensures value { result ≡ intent_in self.old.bytes.now self.old.at }
        ensures on { self.new ≡ beyond intent self.old }
    {
        PublicationIntent {
            object_keys: self.keys(),
            manifest: self.reference(),
            destination_root: self.text(),
            expected_prior_root: self.maybe_reference(),
        }
    }

    fn closure(&mut self) -> SnapshotClosure
        ensures value { result ≡ closure_in self.old.bytes.now self.old.at }
        ensures on { self.new ≡ beyond closure self.old }
    {
        SnapshotClosure {
            manifest: self.reference(),
            object_keys: self.keys(),
        }
    }

    pub fn lease_token(&mut self) -> SnapshotLeaseToken
        ensures value { result ≡ lease_token_in self.old.bytes.now self.old.at }
        ensures on { self.new ≡ beyond lease self.old }
    {
        SnapshotLeaseToken {
            lease_id: self.text(),
            tenant_id: self.text(),
            snapshot_version: self.number(),
            lease_epoch: self.number(),
            owner: self.text(),
            purpose: self.text(),
            deadline_tick: self.number(),
            closure: self.closure(),
            owner_generation: self.number(),
            authority_position: self.position(),
        }
    }

    fn job_token(&mut self) -> CollectionJobToken
        ensures value { result ≡ job_token_in self.old.bytes.now self.old.at }
        ensures on { self.new ≡ beyond job self.old }
    {
        CollectionJobToken {
            job_id: self.text(),
            owner_generation: self.number(),
            authority_position: self.position(),
            frozen_floor: self.number(),
            input_manifest: self.reference(),
            destination_root: self.text(),
            range_map_epoch: self.number(),
            expected_collected_through: self.number(),
            output_namespace: self.text(),
        }
    }

    fn receipt(&mut self) -> CollectionReceipt
        ensures value { result ≡ receipt_in self.old.bytes.now self.old.at }
        ensures on { self.new ≡ beyond receipt self.old }
    {
        CollectionReceipt {
            token: self.job_token(),
            output_manifest: self.reference(),
            object_keys: self.keys(),
        }
    }

    fn permit(&mut self) -> DeletePermit
        ensures value { result ≡ permit_in self.old.bytes.now self.old.at }
        ensures on { self.new ≡ beyond permit self.old }
    {
        DeletePermit {
            key: self.text(),
            identity: self.identity(),
            plan_id: self.text(),
            owner_generation: self.number(),
            authority_position: self.position(),
        }
    }

    fn set_window(&mut self) -> SetRetentionWindow
        ensures { result ≡ window_in self.old.bytes.now self.old.at }
    {
        SetRetentionWindow {
            expected_policy_epoch: self.number(),
            retention_window: self.number(),
        }
    }

    fn configure(&mut self) -> ConfigureCollectionRoot
        ensures { result ≡ configure_in self.old.bytes.now self.old.at }
    {
        ConfigureCollectionRoot {
            expected: self.maybe_text(),
            destination_root: self.text(),
        }
    }

    fn acquire(&mut self) -> AcquireLease
        ensures { result ≡ acquire_in self.old.bytes.now self.old.at }
    {
        AcquireLease {
            lease_id: self.text(),
            tenant_id: self.text(),
            snapshot_version: self.number(),
            owner: self.text(),
            purpose: self.text(),
            deadline_tick: self.number(),
            closure: self.closure(),
        }
    }

    fn renew(&mut self) -> RenewLease
        ensures { result ≡ renew_in self.old.bytes.now self.old.at }
    {
        RenewLease {
            lease_id: self.text(),
            expected_lease_epoch: self.number(),
            new_deadline_tick: self.number(),
        }
    }

    fn release(&mut self) -> ReleaseLease
        ensures { result ≡ release_in self.old.bytes.now self.old.at }
    {
        ReleaseLease {
            lease_id: self.text(),
            expected_lease_epoch: self.number(),
        }
    }

    fn advance_clock(&mut self) -> AdvanceLeaseClock
        ensures { result ≡ clock_in self.old.bytes.now self.old.at }
    {
        AdvanceLeaseClock {
            expected_tick: self.number(),
            next_tick: self.number(),
        }
    }

    fn collect(&mut self) -> PrepareCollection
        ensures { result ≡ collect_in self.old.bytes.now self.old.at }
    {
        PrepareCollection {
            job_id: self.text(),
            frozen_floor: self.number(),
            input_manifest: self.reference(),
            destination_root: self.text(),
            range_map_epoch: self.number(),
            expected_collected_through: self.number(),
            output_namespace: self.text(),
        }
    }

    fn prepare(&mut self) -> Prepare
        ensures { result ≡ prepare_in self.old.bytes.now self.old.at }
    {
        Prepare {
            publication_id: self.text(),
            intent: self.intent(),
        }
    }

    fn publish(&mut self) -> Publish
        ensures { result ≡ publish_in self.old.bytes.now self.old.at }
    {
        Publish {
            publication_id: self.text(),
            destination_root: self.text(),
            expected_prior_root: self.maybe_reference(),
            manifest: self.reference(),
        }
    }

    fn pin(&mut self) -> Pin
        ensures { result ≡ pin_in self.old.bytes.now self.old.at }
    {
        Pin {
            pin_id: self.text(),
            expected: self.maybe_reference(),
            manifest: self.reference(),
        }
    }

    fn unpin(&mut self) -> Unpin
        ensures { result ≡ unpin_in self.old.bytes.now self.old.at }
    {
        Unpin {
            pin_id: self.text(),
            expected: self.reference(),
        }
    }

    fn reserve(&mut self) -> ReserveDelete
        ensures { result ≡ reserve_in self.old.bytes.now self.old.at }
    {
        ReserveDelete {
            plan_id: self.text(),
            mark_epoch: self.number(),
            key: self.text(),
            identity: self.identity(),
        }
    }

    // The fields of an action, which are the last of a request. Inlined, so that no action is copied.
    #[inline(always)]
    pub fn action(mut self, tag: ActionTag) -> PublicationAction
        ensures { result ≡ action_in self.entry.bytes.now (byte_of tag) self.entry.at }
    {
        match tag {
            ActionTag::ObserveCommittedFrontier => {
                PublicationAction::ObserveCommittedFrontier(self.number())
            }
            ActionTag::SetRetentionWindow => {
                PublicationAction::SetRetentionWindow(self.set_window())
            }
            ActionTag::ObserveRangeMapEpoch => {
                PublicationAction::ObserveRangeMapEpoch(self.number())
            }
            ActionTag::ConfigureCollectionRoot => {
                PublicationAction::ConfigureCollectionRoot(self.configure())
            }
            ActionTag::AcquireLease => PublicationAction::AcquireLease(self.acquire()),
            ActionTag::RenewLease => PublicationAction::RenewLease(self.renew()),
            ActionTag::ReleaseLease => PublicationAction::ReleaseLease(self.release()),
            ActionTag::AdvanceLeaseClock => {
                PublicationAction::AdvanceLeaseClock(self.advance_clock())
            }
            ActionTag::PrepareCollection => PublicationAction::PrepareCollection(self.collect()),
            ActionTag::PublishCollection => PublicationAction::PublishCollection(self.receipt()),
            ActionTag::AbandonCollection => PublicationAction::AbandonCollection(self.job_token()),
            ActionTag::Prepare => PublicationAction::Prepare(self.prepare()),
            ActionTag::Publish => PublicationAction::Publish(self.publish()),
            ActionTag::Pin => PublicationAction::Pin(self.pin()),
            ActionTag::Unpin => PublicationAction::Unpin(self.unpin()),
            ActionTag::ReserveDelete => PublicationAction::ReserveDelete(self.reserve()),
            ActionTag::RetireDelete => PublicationAction::RetireDelete(self.permit()),
        }
    }
}
