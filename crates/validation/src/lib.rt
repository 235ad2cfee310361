// Whether a lease token is the active one of an image.
#![tactic(auto)]

ghost use Rattle.std.specs.Prelude.{◌≡◌, ◌≢◌, ◌≤◌};
ghost use Rattle.entries.specs.Bytes.{validate_bytes};
ghost use Rattle.refusals.specs.declared.Refusal.{Refusal};
ghost use Rattle.validation.specs.Errors.{number, told};
ghost use Rattle.validation.specs.declared.SnapshotLeaseValidationError.TheVariants.{Unread};
ghost use Rattle.validation.specs.Validation.{tests};

use image::Contents;
use refusals::Refusal;
use requests::SnapshotLeaseToken;

// The Rust's `SnapshotLeaseValidationError`, in declared order; and why bytes that were lent are no image or no token.
#[derive(Clone, Copy, Debug, PartialEq, Eq)]
pub enum SnapshotLeaseValidationError {
    AuthorityFormatInvalid,
    LeaseMissing,
    TokenMismatch,
    LeaseExpired,
    Unread(Refusal),
}

impl From<Refusal> for SnapshotLeaseValidationError {
    ghost from_gives = { λ r e. e ≡ Unread r };

    fn from(refusal: Refusal) -> SnapshotLeaseValidationError {
        SnapshotLeaseValidationError::Unread(refusal)
    }
}

impl SnapshotLeaseValidationError {
    pub fn number(self) -> u32
        ensures { result ≡ number self }
    {
        match self {
            SnapshotLeaseValidationError::AuthorityFormatInvalid => 1,
            SnapshotLeaseValidationError::LeaseMissing => 2,
            SnapshotLeaseValidationError::TokenMismatch => 3,
            SnapshotLeaseValidationError::LeaseExpired => 4,
            SnapshotLeaseValidationError::Unread(refusal) => refusal.number(),
        }
    }
}

// The Rust's tests in its order, on an image that was opened and a token that was read.
fn validate_opened(
    image: &[u8],
    c: &Contents,
    token: &[u8],
    t: &SnapshotLeaseToken,
) -> Result<(), SnapshotLeaseValidationError>
    ensures answers { told result ≡ tests image.now c.now token.now t.now }
    ensures never_unread { (r : Refusal) → result ≢ Err (Unread r) }
{
    if c.format_version != 1 {
        return Err(SnapshotLeaseValidationError::AuthorityFormatInvalid);
    }
    let active = c
        .rows(image, image::LEASES)
        .find(requests::text_of(token, t.lease_id))
        .ok_or(SnapshotLeaseValidationError::LeaseMissing)?;
    if !text::same(active, token) {
        return Err(SnapshotLeaseValidationError::TokenMismatch);
    }
    if t.deadline_tick <= c.scalars.lease_clock_tick {
        return Err(SnapshotLeaseValidationError::LeaseExpired);
    }
    Ok(())
}

// Some refusals have the numbers 2 to 4 too; those that `Unread` holds have 40 or more, so that each number has one answer.
pub fn validate_active_snapshot_lease(
    image: &[u8],
    token: &[u8],
) -> Result<(), SnapshotLeaseValidationError>
    ensures answers { told result ≡ validate_bytes image.now token.now }
    ensures unread { (r : Refusal) → result ≡ Err (Unread r) → 40 ≤ number (Unread r) }
{
    let c = image::open(image).ok_or(Refusal::NotAnImage)?;
    let t = requests::parse_token(token)?;
    validate_opened(image, &c, token, &t)
}
