// The next image and the outcome, measured and then written: the one way in which a transition answers.
#![tactic(auto)]

ghost use Rattle.std.specs.Prelude.{◌≡◌, ◌∷◌, ◌≤◌, ◌<◌, length, cond, not, ◌&&◌, eqb};
ghost use Rattle.machine.specs.Next.{up};
ghost use Rattle.parts.specs.Gather.{gather_of, Filled};
ghost use Rattle.parts.specs.declared.Part.{Part};
ghost use Rattle.image.specs.Front.{front_of, contents_over_limit, Small};
ghost use Rattle.image.specs.Rows.{RowsOf};
ghost use Rattle.next.specs.Contents.{revised, raised};
ghost use Rattle.next.specs.Rows.{place_in};
ghost use Rattle.next.specs.Emit.{Emitted, EmittedAs};
ghost use Rattle.next.specs.declared.PublicationOutcome.{PublicationOutcome};
ghost use Rattle.next.specs.Outcome.{PermitEnds, AcquiredEnds, RenewedEnds, JobEnds, ReceiptEnds, permit_parts_of, acquired_parts_of, renewed_parts_of, prepared_parts_of, published_parts_of, RowsStand, Listed, ExpiredAs, outcome_bytes, Fits};

use image::{Contents, Scalars};
use parts::{Lengths, Part};
use refusals::Refusal;
use requests::{
    AuthorityContext, AuthorityPosition, CollectionJobToken, CollectionReceipt, DeletePermit,
    PublicationAuthorityFaults, SnapshotLeaseToken,
};
use tables::{Place, TableRows};

// The ids of the leases that end at a tick: where the leases stand in the image, and how many they are.
#[derive(Clone, Copy)]
pub struct LeasesExpired {
    pub at: usize,
    pub count: usize,
    pub tick: u64,
}

// What an accepted action tells: numbers, and where texts and keys stand, in the request or, of a lease that is renewed or of
// leases that end, in what is stored. `outcome_bytes` gives each case its number and its fields.
#[derive(Clone, Copy)]
pub enum PublicationOutcome {
    Applied,
    DeleteReserved(DeletePermit),
    LeaseAcquired(SnapshotLeaseToken),
    LeaseRenewed(SnapshotLeaseToken),
    LeasesExpired(LeasesExpired),
    CollectionPrepared(CollectionJobToken),
    CollectionPublished(CollectionReceipt),
}

// What a call was lent, opened and read: the image and what it holds, the request with its context and its fault flags. What `Asks`
// says is a clause and no invariant here: it ties the call to its action, which is an argument of its own.
#[derive(Clone, Copy)]
pub struct Call<'a> {
    pub image: &'a [u8],
    pub contents: &'a Contents,
    pub request: &'a [u8],
    pub context: AuthorityContext,
    pub faults: PublicationAuthorityFaults,
}

impl<'a> Call<'a> {
    // The rows of a table of the image.
    pub fn rows(&self, table: usize) -> TableRows<'a>
        requires { table < 6 }
        ensures { RowsOf self.now.image.now self.now.contents.now table result }
    {
        self.contents.rows(self.image, table)
    }

    // Where the row of a table with an id stands in the image, or would stand.
    pub fn locate(&self, table: usize, id: &[u8]) -> Place
        requires { table < 6 }
        ensures { result ≡ place_in self.now table id.now }
    {
        self.rows(table).locate(id)
    }
}

// What an accepted action changes and tells: the contents after it, whose root's text stands in `from`; the parts of its tables, of
// the image and the request; and its outcome, of what is stored, as a lease that is renewed or leases that end, and the request.
#[derive(Clone, Copy)]
pub struct Change<'a> {
    pub from: &'a [u8],
    pub contents: &'a Contents,
    pub body: &'a [Part],
    pub stored: &'a [u8],
    pub told: &'a PublicationOutcome,
}

// The parts of each outcome: its number, and then its fields. Fields that stand side by side, as they do in the request that
// asks for them or in the lease that is renewed, are one run: it starts at the first one's length byte.
fn permit_parts(o: &DeletePermit) -> [Part; 6]
    requires { PermitEnds o.now }
    ensures { result ≡ Part.Number 1 1 ∷ permit_parts_of o.now }
{
    let hash = o.identity.sha256;
    let plan = o.plan_id;
    let p = o.authority_position;
    let start = o.key.at.saturating_sub(1);
    [
        Part::Number(1, 1),
        Part::Second(start, (hash.at + hash.len).saturating_sub(start)),
        Part::Second(plan.at.saturating_sub(1), plan.len + 1),
        Part::Number(o.owner_generation, 8),
        Part::Number(p.term, 8),
        Part::Number(p.index, 8),
    ]
}

// In the request the epoch is not there: the version is followed by the owner.
fn acquired_parts(o: &SnapshotLeaseToken) -> [Part; 7]
    requires { AcquiredEnds o.now }
    ensures { result ≡ Part.Number 2 1 ∷ acquired_parts_of o.now }
{
    let keys = o.closure.object_keys;
    let p = o.authority_position;
    let start = o.lease_id.at.saturating_sub(1);
    let rest = o.owner.at.saturating_sub(1);
    [
        Part::Number(2, 1),
        Part::Second(start, rest.saturating_sub(start)),
        Part::Number(o.lease_epoch, 8),
        Part::Second(rest, (keys.at + keys.len).saturating_sub(rest)),
        Part::Number(o.owner_generation, 8),
        Part::Number(p.term, 8),
        Part::Number(p.index, 8),
    ]
}

// In the lease that is renewed the old epoch stands before the owner, and the old deadline after the purpose.
fn renewed_parts(o: &SnapshotLeaseToken) -> [Part; 9]
    requires { RenewedEnds o.now }
    ensures { result ≡ Part.Number 3 1 ∷ renewed_parts_of o.now }
{
    let purpose = o.purpose;
    let keys = o.closure.object_keys;
    let p = o.authority_position;
    let start = o.lease_id.at.saturating_sub(1);
    let rest = o.owner.at.saturating_sub(1);
    let deadline = purpose.at + purpose.len;
    let closure = deadline + 8;
    [
        Part::Number(3, 1),
        Part::First(start, rest.saturating_sub(start + 8)),
        Part::Number(o.lease_epoch, 8),
        Part::First(rest, deadline.saturating_sub(rest)),
        Part::Number(o.deadline_tick, 8),
        Part::First(closure, (keys.at + keys.len).saturating_sub(closure)),
        Part::Number(o.owner_generation, 8),
        Part::Number(p.term, 8),
        Part::Number(p.index, 8),
    ]
}

// In the request generation and position are not there: the id is followed by the floor.
fn prepared_parts(o: &CollectionJobToken) -> [Part; 6]
    requires { JobEnds o.now }
    ensures { result ≡ Part.Number 5 1 ∷ prepared_parts_of o.now }
{
    let id = o.job_id;
    let namespace = o.output_namespace;
    let p = o.authority_position;
    let rest = id.at + id.len;
    [
        Part::Number(5, 1),
        Part::Second(id.at.saturating_sub(1), id.len + 1),
        Part::Number(o.owner_generation, 8),
        Part::Number(p.term, 8),
        Part::Number(p.index, 8),
        Part::Second(rest, (namespace.at + namespace.len).saturating_sub(rest)),
    ]
}

fn published_parts(o: &CollectionReceipt) -> [Part; 2]
    requires { ReceiptEnds o.now }
    ensures { result ≡ Part.Number 6 1 ∷ published_parts_of o.now }
{
    let keys = o.object_keys;
    let start = o.token.job_id.at.saturating_sub(1);
    [
        Part::Number(6, 1),
        Part::Second(start, (keys.at + keys.len).saturating_sub(start)),
    ]
}

// A part for each place, with the bytes of the id that stands there.
fn ids(parts: &mut [Part], s: &[u8], places: &[usize])
    requires { (length places.now ≤ 64) × (length parts.old ≡ 66) × Filled 2 parts.old }
    ensures { Listed s.now places.now 2 parts.old parts.new }
{
    for (i, place) in places.iter().enumerate() {
        let id = fields::text_at(s, *place);
        parts[i + 2] = Part::First(*place, id.len() + 1);
    }
}

// Fixed memory: an array for all leases that there can be, and the number before them; as many as ended are filled.
fn expired_parts(s: &[u8], o: &LeasesExpired) -> [Part; 66]
    requires { RowsStand s.now o.now }
    ensures { ExpiredAs s.now o.now result }
{
    let mut parts = [Part::EMPTY; 66];
    let mut places = [0; 64];
    let leases = TableRows {
        codes: &image::LEASE,
        bytes: s,
        at: o.at,
        left: o.count,
    };
    let ended = expiry::in_order(leases, o.tick, &mut places);
    parts[0] = Part::Number(4, 1);
    parts[1] = Part::Number(ended as u64, 1);
    ids(&mut parts, s, &places[..ended]);
    parts
}

// The head of the next image, its tables and what is told, measured and then written.
fn commit(
    call: &Call<'_>,
    change: &Change<'_>,
    told: &[Part],
    next: &mut [u8],
    outcome: &mut [u8],
) -> Result<Lengths, Refusal>
    requires { Small change.now.contents.now }
    ensures { Emitted call.now.image.now call.now.request.now change.now.body.now next.old outcome.old next.new outcome.new result (contents_over_limit change.now.contents.now)
        (front_of change.now.from.now change.now.contents.now) (gather_of change.now.stored.now call.now.request.now told.now) }
{
    let front = image::front_of(change.from, change.contents);
    let over = change.contents.over_limit();
    parts::emit(
        over,
        call.image,
        call.request,
        change.stored,
        front.as_slice(),
        change.body,
        told,
        next,
        outcome,
    )
}

// The same with what is told, a function for each: a call lays the parts of its own outcome alone. In one function it would lay those
// of all, some 650 instructions, a quarter of the smallest call.
fn commit_permit(
    call: &Call<'_>,
    change: &Change<'_>,
    permit: &DeletePermit,
    next: &mut [u8],
    outcome: &mut [u8],
) -> Result<Lengths, Refusal>
    requires { Small change.now.contents.now × Fits change.now.stored.now call.now.request.now (PublicationOutcome.DeleteReserved permit.now) }
    ensures { EmittedAs call.now change.now (PublicationOutcome.DeleteReserved permit.now) next.old outcome.old result next.new outcome.new }
{
    commit(call, change, &permit_parts(permit), next, outcome)
}

fn commit_acquired(
    call: &Call<'_>,
    change: &Change<'_>,
    token: &SnapshotLeaseToken,
    next: &mut [u8],
    outcome: &mut [u8],
) -> Result<Lengths, Refusal>
    requires { Small change.now.contents.now × Fits change.now.stored.now call.now.request.now (PublicationOutcome.LeaseAcquired token.now) }
    ensures { EmittedAs call.now change.now (PublicationOutcome.LeaseAcquired token.now) next.old outcome.old result next.new outcome.new }
{
    commit(call, change, &acquired_parts(token), next, outcome)
}

fn commit_renewed(
    call: &Call<'_>,
    change: &Change<'_>,
    token: &SnapshotLeaseToken,
    next: &mut [u8],
    outcome: &mut [u8],
) -> Result<Lengths, Refusal>
    requires { Small change.now.contents.now × Fits change.now.stored.now call.now.request.now (PublicationOutcome.LeaseRenewed token.now) }
    ensures { EmittedAs call.now change.now (PublicationOutcome.LeaseRenewed token.now) next.old outcome.old result next.new outcome.new }
{
    commit(call, change, &renewed_parts(token), next, outcome)
}

fn commit_prepared(
    call: &Call<'_>,
    change: &Change<'_>,
    token: &CollectionJobToken,
    next: &mut [u8],
    outcome: &mut [u8],
) -> Result<Lengths, Refusal>
    requires { Small change.now.contents.now × Fits change.now.stored.now call.now.request.now (PublicationOutcome.CollectionPrepared token.now) }
    ensures { EmittedAs call.now change.now (PublicationOutcome.CollectionPrepared token.now) next.old outcome.old result next.new outcome.new }
{
    commit(call, change, &prepared_parts(token), next, outcome)
}

fn commit_published(
    call: &Call<'_>,
    change: &Change<'_>,
    receipt: &CollectionReceipt,
    next: &mut [u8],
    outcome: &mut [u8],
) -> Result<Lengths, Refusal>
    requires { Small change.now.contents.now × Fits change.now.stored.now call.now.request.now (PublicationOutcome.CollectionPublished receipt.now) }
    ensures { EmittedAs call.now change.now (PublicationOutcome.CollectionPublished receipt.now) next.old outcome.old result next.new outcome.new }
{
    commit(call, change, &published_parts(receipt), next, outcome)
}

fn commit_expired(
    call: &Call<'_>,
    change: &Change<'_>,
    leases: &LeasesExpired,
    next: &mut [u8],
    outcome: &mut [u8],
) -> Result<Lengths, Refusal>
    requires { Small change.now.contents.now × RowsStand change.now.stored.now leases.now }
    ensures { EmittedAs call.now change.now (PublicationOutcome.LeasesExpired leases.now) next.old outcome.old result next.new outcome.new }
{
    let told = expired_parts(change.stored, leases);
    commit(call, change, &told[..leases.count + 2], next, outcome)
}

// The one way in which an accepted action answers. `next` and `outcome` are two parameters here as everywhere: C lends them as two
// slices, and every contract tells both apart.
pub fn emit(
    call: &Call<'_>,
    change: &Change<'_>,
    next: &mut [u8],
    outcome: &mut [u8],
) -> Result<Lengths, Refusal>
    requires { Small change.now.contents.now × Fits change.now.stored.now call.now.request.now change.now.told.now }
    ensures { EmittedAs call.now change.now change.now.told.now next.old outcome.old result next.new outcome.new }
{
    match change.told {
        PublicationOutcome::Applied => commit(call, change, &[Part::Number(0, 1)], next, outcome),
        PublicationOutcome::DeleteReserved(permit) => {
            commit_permit(call, change, permit, next, outcome)
        }
        PublicationOutcome::LeaseAcquired(token) => {
            commit_acquired(call, change, token, next, outcome)
        }
        PublicationOutcome::LeaseRenewed(token) => {
            commit_renewed(call, change, token, next, outcome)
        }
        PublicationOutcome::LeasesExpired(leases) => {
            commit_expired(call, change, leases, next, outcome)
        }
        PublicationOutcome::CollectionPrepared(token) => {
            commit_prepared(call, change, token, next, outcome)
        }
        PublicationOutcome::CollectionPublished(receipt) => {
            commit_published(call, change, receipt, next, outcome)
        }
    }
}

// The same where nothing is told but that the request was applied, and all that is kept stands in the image.
pub fn emit_applied(
    call: &Call<'_>,
    contents: &Contents,
    body: &[Part],
    next: &mut [u8],
    outcome: &mut [u8],
) -> Result<Lengths, Refusal>
    requires { Small contents.now }
    ensures { Emitted call.now.image.now call.now.request.now body.now next.old outcome.old next.new outcome.new result (contents_over_limit contents.now)
        (front_of call.now.image.now contents.now) (outcome_bytes call.now.image.now call.now.request.now PublicationOutcome.Applied) }
{
    emit(
        call,
        &Change {
            from: call.image,
            contents,
            body,
            stored: call.image,
            told: &PublicationOutcome::Applied,
        },
        next,
        outcome,
    )
}

// The step of every epoch, by the rule's own name, so that it stands once.
pub fn up(n: u64) -> u64
    ensures { result ≡ up n }
{
    n.saturating_add(1)
}

// An epoch after a change of leases, which some cases leave where it is.
pub fn up_unless(omit: bool, n: u64) -> u64
    ensures { result ≡ cond omit n (up n) }
{
    if omit { n } else { up(n) }
}

// Whether a number shown is another than the one stored, where a fault flag does not say to pass over it.
pub fn differ_unless(ignore: bool, a: u64, b: u64) -> bool
    ensures { result ≡ not ignore && not (eqb a b) }
{
    !ignore && a != b
}

// The contents at a revision.
pub fn revised(c: &Contents, p: AuthorityPosition) -> Contents
    ensures { result ≡ revised c.now p }
{
    let scalars = Scalars {
        term: p.term,
        index: p.index,
        ..c.scalars
    };
    Contents { scalars, ..*c }
}

// The contents at a revision, with the root intent epoch raised.
pub fn raised(c: &Contents, p: AuthorityPosition) -> Contents
    ensures { result ≡ raised c.now p }
{
    let scalars = Scalars {
        term: p.term,
        index: p.index,
        root_intent_epoch: up(c.scalars.root_intent_epoch),
        ..c.scalars
    };
    Contents { scalars, ..*c }
}
