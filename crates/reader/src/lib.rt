// A row of a table by its own bytes. `TableRows` of tables goes from each row to the next.
#![tactic(auto)]

ghost use Rattle.std.specs.Prelude.{◌≡◌, drop};
ghost use Rattle.reader.specs.Records.{record_of};

use fields::Code;

// The record of these codes that starts at a place, as a part of s.
#[tactic(auto, using(crate::proofs::Steps::record_part))]
pub fn row_at<'a>(codes: &[Code], s: &'a [u8], at: usize) -> &'a [u8]
    ensures { result.now ≡ record_of codes.now (drop at s.now) }
{
    let e = tables::skip_record(codes, s, at);
    parts::clip(s, at, e.saturating_sub(at))
}
