// Why a call says no, and the number of each reason, which is what C is told.
#![tactic(auto)]

ghost use Rattle.std.specs.Prelude.{◌≡◌};
ghost use Rattle.refusals.specs.Numbers.{number};

#[derive(Clone, Copy, Debug, PartialEq, Eq)]
pub enum Refusal {
    // of `apply`: the Rust's `PublicationCommandStatus`, in declared order
    InvalidRequest = 2,
    PublicationExists = 3,
    PublicationIntentMissing = 4,
    PublicationIntentMismatch = 5,
    CrossGenerationIntent = 6,
    RootCompareFailed = 7,
    PinCompareFailed = 8,
    RootIntentEpochChanged = 9,
    ObjectDeletionReserved = 10,
    ObjectNamedByIntent = 11,
    DeleteReservationExists = 12,
    DeleteReservationMissing = 13,
    CrossGenerationDeletePermit = 14,
    DeletePlanMismatch = 15,
    CommittedFrontierRetreated = 16,
    RetentionPolicyEpochMismatch = 17,
    RetentionPolicyUnconfigured = 18,
    SnapshotBelowFloor = 19,
    SnapshotAheadOfFrontier = 20,
    LeaseExists = 21,
    LeaseMissing = 22,
    LeaseEpochMismatch = 23,
    LeaseDeadlineInvalid = 24,
    LeaseClockMismatch = 25,
    LeaseClockRetreated = 26,
    RangeMapEpochRetreated = 27,
    RangeMapEpochMismatch = 28,
    CollectionJobExists = 29,
    CollectionJobMissing = 30,
    CollectionJobMismatch = 31,
    CollectionConflict = 32,
    CollectionFloorInvalid = 33,
    CollectionFrontierMismatch = 34,
    CollectionReceiptMismatch = 35,
    CollectionRootCompareFailed = 36,
    // of the bytes that a call was lent
    NotAnImage = 40,
    Malformed = 41,
    OverLimit = 42,
    NotUtf8 = 43,
    TableFull = 44,
    NoRoom = 45,
    NoOutcomeRoom = 46,
}

impl Refusal {
    pub fn number(self) -> u32
        ensures { result ≡ number self }
    {
        self as u32
    }
}
