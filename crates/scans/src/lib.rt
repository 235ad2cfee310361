// Whether a key is in use: what the rows of intents, leases and jobs name, row by row.
#![tactic(auto)]

ghost use Rattle.std.specs.Prelude.{◌≡◌};
ghost use Rattle.state.specs.Maps.{any};
ghost use Rattle.tables.specs.Seek.{rows_left};
ghost use Rattle.scans.specs.Scans.{names_at, uses_at};

use fields::Code;
use image::JOB;
use tables::TableRows;

// Whether a row names the key in its set that stands after the fields `hops`.
#[tactic(auto, using(crate::proofs::Steps::after_head), unfolding(crate::specs::Scans::names_at))]
fn names(hops: &[Code], row: &[u8], key: &[u8]) -> bool
    ensures { result ≡ names_at hops.now key.now row.now }
{
    sets::set_has(row, tables::skip_record(hops, row, 0), key)
}

// Whether one of the rows names the key in its set that stands after the fields `hops`.
pub fn any_names(mut rows: TableRows<'_>, hops: &[Code], key: &[u8]) -> bool
    ensures { result ≡ any (names_at hops.now key.now) (rows_left rows.entry) }
{
    rows.any(|row| names(hops, row, key))
}

// Whether the key is the input manifest's of a job, or begins with its output namespace.
#[tactic(auto, unfolding(crate::specs::Scans::uses_at))]
fn job_uses(job: &[u8], key: &[u8]) -> bool
    ensures { result ≡ uses_at key.now job.now }
{
    let manifest = tables::text_after(&JOB[..image::JOB_MANIFEST_KEY], job, 0);
    let namespace = tables::text_after(&JOB[..image::JOB_NAMESPACE], job, 0);
    text::same(manifest, key) || text::starts_with(key, namespace)
}

// The same of the job at the head of some bytes, which is read by its own bytes alone.
fn row_uses(row: &[u8], key: &[u8]) -> bool
    ensures { result ≡ uses_at key.now row.now }
{
    job_uses(reader::row_at(&JOB, row, 0), key)
}

// Whether one of the jobs uses the key.
pub fn any_uses(mut rows: TableRows<'_>, key: &[u8]) -> bool
    ensures { result ≡ any (uses_at key.now) (rows_left rows.entry) }
{
    rows.any(|row| row_uses(row, key))
}
