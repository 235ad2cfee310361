// Records and tables of bytes that were checked before: hops by length bytes, lookup by id, rows one by one.
#![tactic(auto)]

ghost use Rattle.std.specs.Prelude.{◌≡◌, ◌-◌, take, drop, option_copied};
ghost use Rattle.std.specs.Iterator.{YieldsFirstRef, item_count};
ghost use Rattle.fields.specs.Codes.{hops, hop_set, past, passed, skip};
ghost use Rattle.fields.specs.Walks.{place_of};
ghost use Rattle.fields.specs.Rows.{text_here};
ghost use Rattle.parts.specs.Digits.{value};
ghost use Rattle.parts.specs.Gather.{run};
ghost use Rattle.tables.specs.Skips.{left_over, past_over};
ghost use Rattle.tables.specs.Seek.{seek, placed, found, rows_left, after_row};

use fields::{Code, Hop};
use std::cmp::Ordering;

// Where a row starts and ends. No Option: start and end are the same where there is none, and a change puts what it writes in
// place of start..end in both cases.
#[derive(Clone, Copy, Debug, PartialEq, Eq)]
pub struct Place {
    pub start: usize,
    pub end: usize,
}

// The rows of a table from one on: their codes, the bytes they stand in, where the next one starts, and how many are left.
#[derive(Clone, Copy, Debug, PartialEq, Eq)]
pub struct TableRows<'a> {
    pub codes: &'a [Code],
    pub bytes: &'a [u8],
    pub at: usize,
    pub left: usize,
}

// n bytes further. Each hop promises what is left from its place on, so that it asks for no bound: past the end nothing is left.
#[tactic(auto, using(crate::proofs::Steps::hop_steps))]
fn further(s: &[u8], at: usize, n: u8) -> usize
    ensures { drop result s.now ≡ drop n (drop at s.now) }
{
    fields::within(s, at) + n as usize
}

#[tactic(auto, using(crate::proofs::Steps::hop_steps))]
fn hop_texts(s: &[u8], at: usize, n: u8) -> usize
    ensures { drop result s.now ≡ hops n (drop at s.now) }
{
    let mut p = at;
    for _ in 0..n {
        p = fields::after_text(s, p);
    }
    p
}

#[tactic(auto, using(crate::proofs::Steps::hop_steps))]
fn hop_keys(s: &[u8], at: usize) -> usize
    ensures { drop result s.now ≡ hop_set (drop at s.now) }
{
    match s.get(at) {
        Some(n) => hop_texts(s, at + 1, *n),
        None => at,
    }
}

// Past one code. Where the byte of an option is 0, the codes of its value are passed over.
#[tactic(auto, using(crate::proofs::Steps::hop_steps), unfolding(fields::specs::Codes::past, fields::specs::Codes::passed))]
fn hop_code(code: Code, s: &[u8], at: usize) -> Hop
    ensures rest { drop result.at s.now ≡ past code (drop at s.now) }
    ensures over { result.over ≡ passed code (drop at s.now) }
{
    match code {
        Code::Number(n) => Hop::to(further(s, at, n)),
        Code::Kind => Hop::to(further(s, at, 1)),
        Code::Text(_) => Hop::to(fields::after_text(s, at)),
        Code::Keys(_, _) => Hop::to(hop_keys(s, at)),
        Code::Maybe(codes) => Hop {
            at: further(s, at, 1),
            over: match s.get(at) {
                Some(0) => codes as usize,
                _ => 0,
            },
        },
    }
}

// The same where so many codes are yet to be passed over.
#[tactic(auto, using(crate::proofs::Steps::on_steps))]
fn hop_on(from: Hop, code: Code, s: &[u8]) -> Hop
    ensures rest { drop result.at s.now ≡ past_over from.over code (drop from.at s.now) }
    ensures over { result.over ≡ left_over from.over code (drop from.at s.now) }
{
    if from.over == 0 {
        return hop_code(code, s, from.at);
    }
    Hop {
        at: from.at,
        over: from.over - 1,
    }
}

// Where the record of these codes ends that starts at a place.
#[tactic(auto, using(crate::proofs::Steps::skip_steps))]
pub fn skip_record(codes: &[Code], s: &[u8], at: usize) -> usize
    ensures { result ≡ place_of s.now (skip 0 codes.now (drop at s.now)) }
{
    let mut here = Hop::to(at);
    for code in codes {
        here = hop_on(here, *code, s);
    }
    fields::within(s, here.at)
}

// The row that `locate` found, as a part of s. No Option, as `find` gives: it is empty where there is none, which no row is, and
// what a row holds after its id is compared with what a request expects, and both are empty where there is none.
pub fn row<'a>(s: &'a [u8], p: Place) -> &'a [u8]
    ensures { result.now ≡ run s.now p.start (p.end - p.start) }
{
    parts::clip(s, p.start, p.end.saturating_sub(p.start))
}

// The number that stands in the record at a place behind some of its fields.
#[tactic(auto, using(crate::specs::Skips::after_record))]
pub fn number_after(before: &[Code], s: &[u8], at: usize) -> u64
    ensures { result ≡ value (take 8 (skip 0 before.now (drop at s.now))) }
{
    parts::u64_at(s, skip_record(before, s, at))
}

// The text that stands in the record at a place behind some of its fields.
#[tactic(auto, using(crate::specs::Skips::after_record))]
pub fn text_after<'a>(before: &[Code], s: &'a [u8], at: usize) -> &'a [u8]
    ensures { result.now ≡ text_here (skip 0 before.now (drop at s.now)) }
{
    fields::text_at(s, skip_record(before, s, at))
}

impl<'a> TableRows<'a> {
    // Where the row with an id stands, or would stand. A loop by place, which goes over no row but those before the id.
    #[tactic(auto, using(crate::proofs::Steps::seek_steps))]
    pub fn locate(self, id: &[u8]) -> Place
        ensures { result ≡ placed self.entry.bytes.now (seek self.entry.codes.now self.entry.left id.now (drop self.entry.at self.entry.bytes.now)) }
    {
        let mut p = fields::within(self.bytes, self.at);
        for _ in 0..self.left {
            match text::compare(id, fields::text_at(self.bytes, p)).order {
                Ordering::Less => return Place { start: p, end: p },
                Ordering::Equal => {
                    return Place {
                        start: p,
                        end: skip_record(self.codes, self.bytes, p),
                    };
                }
                Ordering::Greater => p = skip_record(self.codes, self.bytes, p),
            }
        }
        Place { start: p, end: p }
    }

    // The row with an id, as a part of the bytes.
    #[tactic(auto, using(crate::proofs::Steps::find_steps))]
    pub fn find(self, id: &[u8]) -> Option<&'a [u8]>
        ensures { option_copied result ≡ found (seek self.entry.codes.now self.entry.left id.now (drop self.entry.at self.entry.bytes.now)) }
    {
        let place = self.locate(id);
        if place.start == place.end {
            return None;
        }
        Some(row(self.bytes, place))
    }

    // The rows but for the first of them.
    pub fn after_first(self) -> TableRows<'a>
        ensures { result ≡ after_row self.entry }
    {
        TableRows {
            at: skip_record(self.codes, self.bytes, self.at),
            left: self.left.saturating_sub(1),
            ..self
        }
    }
}

// Each row as the bytes from its start to the end of all; where it starts is `at` before the call.
impl<'a> Iterator for TableRows<'a> {
    type Item = &'a [u8];

    ghost next_gives = { YieldsFirstRef rows_left };

    ghost remaining = { item_count rows_left };

    #[tactic(auto, using(crate::proofs::Steps::row_steps))]
    fn next(&mut self) -> Option<&'a [u8]> {
        if self.left == 0 {
            return None;
        }
        let row = &self.bytes[fields::within(self.bytes, self.at)..];
        *self = self.after_first();
        Some(row)
    }
}
