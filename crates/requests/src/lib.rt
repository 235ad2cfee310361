// Requests and tokens, read by place: an action's case holds numbers and where its texts stand in the request.
#![tactic(auto)]

ghost use Rattle.std.specs.Prelude.{◌≡◌, ◌<◌, drop};
ghost use Rattle.refusals.specs.Numbers.{numbered};
ghost use Rattle.fields.specs.Codes.{walk, codes};
ghost use Rattle.image.specs.Contents.{whole};
ghost use Rattle.requests.specs.Flags.{bit};
ghost use Rattle.requests.specs.Tags.{byte_of, tag_in};
ghost use Rattle.requests.specs.Request.{decode_request, decode_token};
ghost use Rattle.requests.specs.Meaning.{text_of, parsed_of, token_read_of};
ghost use Rattle.requests.specs.Checked.{action_case, checked_of};
ghost use Rattle.requests.specs.Positions.{flags_in, lease_token_in, parsed_in, token_in};

mod cursor;

use cursor::Cursor;
use fields::Code::{Kind, Maybe, Number};
use fields::{Code, KEY, KEYS, NAME, U64};
use image::TextAt;
use refusals::Refusal;

#[derive(Clone, Copy, Debug, PartialEq, Eq)]
pub enum ObjectKind {
    Data,
    Manifest,
}

// What a request and its records hold. Nothing compares or prints it.

// A set of keys: the place of its count byte, and how many bytes it takes, count byte included.
#[derive(Clone, Copy)]
pub struct Keys {
    pub at: usize,
    pub len: usize,
}

#[derive(Clone, Copy)]
pub struct AuthorityPosition {
    pub term: u64,
    pub index: u64,
}

#[derive(Clone, Copy)]
pub struct AuthorityContext {
    pub generation: u64,
    pub position: AuthorityPosition,
}

#[derive(Clone, Copy)]
pub struct PublicationAuthorityFaults {
    pub publish_without_intent: bool,
    pub ignore_root_epoch: bool,
    pub ignore_delete_reservation: bool,
    pub ignore_root_compare: bool,
    pub allow_cross_generation_intent: bool,
    pub retire_by_plan_key_only: bool,
    pub accept_backdated_lease: bool,
    pub omit_lease_root_epoch: bool,
    pub ignore_collection_range_epoch: bool,
    pub advance_collection_without_publication: bool,
    pub ignore_collection_input_root: bool,
}

#[derive(Clone, Copy)]
pub struct ObjectReference {
    pub kind: ObjectKind,
    pub key: TextAt,
    pub length: u64,
    pub sha256: TextAt,
}

#[derive(Clone, Copy)]
pub struct ObjectIdentity {
    pub e_tag: Option<TextAt>,
    pub version: Option<TextAt>,
    pub length: u64,
    pub sha256: TextAt,
}

#[derive(Clone, Copy)]
pub struct PublicationIntent {
    pub object_keys: Keys,
    pub manifest: ObjectReference,
    pub destination_root: TextAt,
    pub expected_prior_root: Option<ObjectReference>,
}

#[derive(Clone, Copy)]
pub struct SnapshotClosure {
    pub manifest: ObjectReference,
    pub object_keys: Keys,
}

#[derive(Clone, Copy)]
pub struct SnapshotLeaseToken {
    pub lease_id: TextAt,
    pub tenant_id: TextAt,
    pub snapshot_version: u64,
    pub lease_epoch: u64,
    pub owner: TextAt,
    pub purpose: TextAt,
    pub deadline_tick: u64,
    pub closure: SnapshotClosure,
    pub owner_generation: u64,
    pub authority_position: AuthorityPosition,
}

#[derive(Clone, Copy)]
pub struct CollectionJobToken {
    pub job_id: TextAt,
    pub owner_generation: u64,
    pub authority_position: AuthorityPosition,
    pub frozen_floor: u64,
    pub input_manifest: ObjectReference,
    pub destination_root: TextAt,
    pub range_map_epoch: u64,
    pub expected_collected_through: u64,
    pub output_namespace: TextAt,
}

#[derive(Clone, Copy)]
pub struct CollectionReceipt {
    pub token: CollectionJobToken,
    pub output_manifest: ObjectReference,
    pub object_keys: Keys,
}

#[derive(Clone, Copy)]
pub struct DeletePermit {
    pub key: TextAt,
    pub identity: ObjectIdentity,
    pub plan_id: TextAt,
    pub owner_generation: u64,
    pub authority_position: AuthorityPosition,
}

#[derive(Clone, Copy)]
pub struct SetRetentionWindow {
    pub expected_policy_epoch: u64,
    pub retention_window: u64,
}

#[derive(Clone, Copy)]
pub struct ConfigureCollectionRoot {
    pub expected: Option<TextAt>,
    pub destination_root: TextAt,
}

#[derive(Clone, Copy)]
pub struct AcquireLease {
    pub lease_id: TextAt,
    pub tenant_id: TextAt,
    pub snapshot_version: u64,
    pub owner: TextAt,
    pub purpose: TextAt,
    pub deadline_tick: u64,
    pub closure: SnapshotClosure,
}

#[derive(Clone, Copy)]
pub struct RenewLease {
    pub lease_id: TextAt,
    pub expected_lease_epoch: u64,
    pub new_deadline_tick: u64,
}

#[derive(Clone, Copy)]
pub struct ReleaseLease {
    pub lease_id: TextAt,
    pub expected_lease_epoch: u64,
}

#[derive(Clone, Copy)]
pub struct AdvanceLeaseClock {
    pub expected_tick: u64,
    pub next_tick: u64,
}

#[derive(Clone, Copy)]
pub struct PrepareCollection {
    pub job_id: TextAt,
    pub frozen_floor: u64,
    pub input_manifest: ObjectReference,
    pub destination_root: TextAt,
    pub range_map_epoch: u64,
    pub expected_collected_through: u64,
    pub output_namespace: TextAt,
}

#[derive(Clone, Copy)]
pub struct Prepare {
    pub publication_id: TextAt,
    pub intent: PublicationIntent,
}

#[derive(Clone, Copy)]
pub struct Publish {
    pub publication_id: TextAt,
    pub destination_root: TextAt,
    pub expected_prior_root: Option<ObjectReference>,
    pub manifest: ObjectReference,
}

#[derive(Clone, Copy)]
pub struct Pin {
    pub pin_id: TextAt,
    pub expected: Option<ObjectReference>,
    pub manifest: ObjectReference,
}

#[derive(Clone, Copy)]
pub struct Unpin {
    pub pin_id: TextAt,
    pub expected: ObjectReference,
}

#[derive(Clone, Copy)]
pub struct ReserveDelete {
    pub plan_id: TextAt,
    pub mark_epoch: u64,
    pub key: TextAt,
    pub identity: ObjectIdentity,
}

#[derive(Clone, Copy)]
pub enum PublicationAction {
    ObserveCommittedFrontier(u64),
    SetRetentionWindow(SetRetentionWindow),
    ObserveRangeMapEpoch(u64),
    ConfigureCollectionRoot(ConfigureCollectionRoot),
    AcquireLease(AcquireLease),
    RenewLease(RenewLease),
    ReleaseLease(ReleaseLease),
    AdvanceLeaseClock(AdvanceLeaseClock),
    PrepareCollection(PrepareCollection),
    PublishCollection(CollectionReceipt),
    AbandonCollection(CollectionJobToken),
    Prepare(Prepare),
    Publish(Publish),
    Pin(Pin),
    Unpin(Unpin),
    ReserveDelete(ReserveDelete),
    RetireDelete(DeletePermit),
}

#[derive(Clone, Copy)]
pub struct Request {
    pub context: AuthorityContext,
    pub faults: PublicationAuthorityFaults,
    pub action: PublicationAction,
}

// The cases of an action, by the byte before its fields.
#[derive(Clone, Copy)]
enum ActionTag {
    ObserveCommittedFrontier,
    SetRetentionWindow,
    ObserveRangeMapEpoch,
    ConfigureCollectionRoot,
    AcquireLease,
    RenewLease,
    ReleaseLease,
    AdvanceLeaseClock,
    PrepareCollection,
    PublishCollection,
    AbandonCollection,
    Prepare,
    Publish,
    Pin,
    Unpin,
    ReserveDelete,
    RetireDelete,
}

// Generation, term, index and fault flags.
const HEAD: [Code; 4] = [U64, U64, U64, Number(2)];

// One past the highest number of eleven flags.
const FLAGS_END: u16 = 2048;

impl TryFrom<u8> for ActionTag {
    type Error = Refusal;

    fn try_from(byte: u8) -> Result<ActionTag, Refusal>
        ensures { numbered result ≡ tag_in byte }
    {
        Ok(match byte {
            1 => ActionTag::ObserveCommittedFrontier,
            2 => ActionTag::SetRetentionWindow,
            3 => ActionTag::ObserveRangeMapEpoch,
            4 => ActionTag::ConfigureCollectionRoot,
            5 => ActionTag::AcquireLease,
            6 => ActionTag::RenewLease,
            7 => ActionTag::ReleaseLease,
            8 => ActionTag::AdvanceLeaseClock,
            9 => ActionTag::PrepareCollection,
            10 => ActionTag::PublishCollection,
            11 => ActionTag::AbandonCollection,
            12 => ActionTag::Prepare,
            13 => ActionTag::Publish,
            14 => ActionTag::Pin,
            15 => ActionTag::Unpin,
            16 => ActionTag::ReserveDelete,
            17 => ActionTag::RetireDelete,
            _ => return Err(Refusal::Malformed),
        })
    }
}

impl ActionTag {
    // The shape of its fields, a code for each.
    fn shape(self) -> &'static [Code]
        ensures { result.now ≡ codes (action_case (byte_of self)).shape }
    {
        match self {
            ActionTag::ObserveCommittedFrontier => &[U64],
            ActionTag::SetRetentionWindow => &[U64, U64],
            ActionTag::ObserveRangeMapEpoch => &[U64],
            ActionTag::ConfigureCollectionRoot => &[Maybe(1), NAME, NAME],
            ActionTag::AcquireLease => &[
                NAME, NAME, U64, NAME, NAME, U64, Kind, KEY, U64, NAME, KEYS,
            ],
            ActionTag::RenewLease => &[NAME, U64, U64],
            ActionTag::ReleaseLease => &[NAME, U64],
            ActionTag::AdvanceLeaseClock => &[U64, U64],
            ActionTag::PrepareCollection => &[NAME, U64, Kind, KEY, U64, NAME, NAME, U64, U64, KEY],
            ActionTag::PublishCollection => &[
                NAME, U64, U64, U64, U64, Kind, KEY, U64, NAME, NAME, U64, U64, KEY, Kind, KEY,
                U64, NAME, KEYS,
            ],
            ActionTag::AbandonCollection => &image::JOB,
            ActionTag::Prepare => &[
                NAME,
                KEYS,
                Kind,
                KEY,
                U64,
                NAME,
                NAME,
                Maybe(4),
                Kind,
                KEY,
                U64,
                NAME,
            ],
            ActionTag::Publish => &[
                NAME,
                NAME,
                Maybe(4),
                Kind,
                KEY,
                U64,
                NAME,
                Kind,
                KEY,
                U64,
                NAME,
            ],
            ActionTag::Pin => &[NAME, Maybe(4), Kind, KEY, U64, NAME, Kind, KEY, U64, NAME],
            ActionTag::Unpin => &image::REFERENCE_ROW,
            ActionTag::ReserveDelete => &[
                NAME,
                U64,
                KEY,
                Maybe(1),
                NAME,
                Maybe(1),
                NAME,
                U64,
                NAME,
            ],
            ActionTag::RetireDelete => &image::PERMIT,
        }
    }
}

// Whether the i-th bit is set.
fn has(flags: u16, i: u32) -> bool
    requires { i < 16 }
    ensures { result ≡ bit i flags }
{
    (flags >> i) & 1 == 1
}

impl TryFrom<u16> for PublicationAuthorityFaults {
    type Error = Refusal;

    fn try_from(flags: u16) -> Result<PublicationAuthorityFaults, Refusal>
        ensures { numbered result ≡ flags_in flags }
    {
        if FLAGS_END <= flags {
            return Err(Refusal::Malformed);
        }
        Ok(PublicationAuthorityFaults {
            publish_without_intent: has(flags, 0),
            ignore_root_epoch: has(flags, 1),
            ignore_delete_reservation: has(flags, 2),
            ignore_root_compare: has(flags, 3),
            allow_cross_generation_intent: has(flags, 4),
            retire_by_plan_key_only: has(flags, 5),
            accept_backdated_lease: has(flags, 6),
            omit_lease_root_epoch: has(flags, 7),
            ignore_collection_range_epoch: has(flags, 8),
            advance_collection_without_publication: has(flags, 9),
            ignore_collection_input_root: has(flags, 10),
        })
    }
}

// Whether the record of these codes stands whole at a place and ends the slice, or its first fault.
#[tactic(auto, using(crate::proofs::CheckedLaws::checks))]
fn check_record(codes: &[Code], s: &[u8], at: usize) -> Result<(), Refusal>
    ensures { numbered result ≡ checked_of (whole (walk 0 codes.now (drop at s.now))) }
{
    if fields::walk_record(codes, s, at)? < s.len() {
        return Err(Refusal::Malformed);
    }
    Ok(())
}

// Reads a request: its head, its flags, the action byte, the action's fields, nothing after; or its first fault.
#[tactic(auto, using(crate::proofs::Heads::parses))]
pub fn parse(s: &[u8]) -> Result<Request, Refusal>
    ensures result_value { parsed_of s.now (numbered result) ≡ decode_request s.now }
    ensures placed { numbered result ≡ parsed_in s.now (decode_request s.now) }
{
    fields::walk_record(&HEAD, s, 0)?;
    let mut cursor = Cursor { bytes: s, at: 0 };
    let context = cursor.context();
    let faults = PublicationAuthorityFaults::try_from(cursor.flags())?;
    // past the end the byte is 0, which is no action's
    let tag = ActionTag::try_from(cursor.byte())?;
    check_record(tag.shape(), s, cursor.at)?;
    Ok(Request {
        context,
        faults,
        action: cursor.action(tag),
    })
}

// The text that stands at a place.
pub fn text_of<'a>(s: &'a [u8], t: TextAt) -> &'a [u8]
    ensures { result.now ≡ text_of s.now t }
{
    parts::clip(s, t.at, t.len)
}

// The lease token at a place, its fields read without checks; also for a token as a row of the image holds it.
pub fn lease_token_at(s: &[u8], at: usize) -> SnapshotLeaseToken
    ensures { result ≡ lease_token_in s.now at }
{
    let mut cursor = Cursor { bytes: s, at };
    cursor.lease_token()
}

// Reads a token: its fields, nothing after; or its first fault.
pub fn parse_token(s: &[u8]) -> Result<SnapshotLeaseToken, Refusal>
    ensures result_value { token_read_of s.now (numbered result) ≡ decode_token s.now }
    ensures placed { numbered result ≡ token_in s.now (decode_token s.now) }
{
    check_record(&image::LEASE, s, 0)?;
    Ok(lease_token_at(s, 0))
}
