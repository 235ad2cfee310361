// Walks over the bytes of a record: a shape is a list of codes, and one walker reads any shape.
#![tactic(auto)]

ghost use Rattle.std.specs.Prelude.{◌≡◌, ◌≤◌, IfOk, None, min, length, drop, option_copied};
ghost use Rattle.refusals.specs.Numbers.{numbered};
ghost use Rattle.fields.specs.Format.{byte, many, read_kind, read_text, after, rows, itself, read_set};
ghost use Rattle.fields.specs.Codes.{read_flag, step, advance, walk, forget, hop};
ghost use Rattle.fields.specs.Walks.{read, read_bytes, place_of, walk_of};
ghost use Rattle.fields.specs.Rows.{text_here, walk_rows};

use refusals::Refusal;

// What a record has in turn: one for each field, and one more for an option.
#[derive(Clone, Copy, Debug, PartialEq, Eq)]
pub enum Code {
    // a number of so many bytes
    Number(u8),
    Kind,
    // a text, and how long it may be
    Text(u8),
    // a set of keys: how many there may be, and how long each
    Keys(u8, u8),
    // the byte of an option: where it is 0, so many codes that follow are passed over
    Maybe(u8),
}

pub const U64: Code = Code::Number(8);

pub const NAME: Code = Code::Text(64);

pub const KEY: Code = Code::Text(128);

pub const KEYS: Code = Code::Keys(16, 128);

// The place after one code, and how many codes after it are passed over.
#[derive(Clone, Copy, Debug, PartialEq, Eq)]
pub struct Hop {
    pub at: usize,
    pub over: usize,
}

impl Hop {
    // The place after a code that passes over none.
    pub fn to(at: usize) -> Hop
        ensures { result ≡ record { at = at; over = 0 } }
    {
        Hop { at, over: 0 }
    }
}

// What is left of the bytes of a record. Each method reads what stands at the front, and goes behind it. They are laid into `record`, but
// for the loop over the texts of a set: called one by one, they make the test of a small image an eighth longer.
#[derive(Drop)]
struct Walker<'a> {
    rest: &'a [u8],
}

impl<'a> Walker<'a> {
    // From a place on.
    fn at(s: &'a [u8], at: usize) -> Walker<'a>
        ensures { result.rest.now ≡ drop at s.now }
    {
        Walker {
            rest: &s[within(s, at)..],
        }
    }

    #[tactic(auto, using(crate::proofs::WalkSteps::reads))]
    #[inline(always)]
    fn byte(&mut self) -> Result<u8, Refusal>
        ensures { read result self.new.rest.now ≡ byte self.old.rest.now }
    {
        let (first, rest) = self.rest.split_first().ok_or(Refusal::Malformed)?;
        self.rest = rest;
        Ok(*first)
    }

    #[tactic(auto, using(crate::proofs::WalkSteps::reads))]
    #[inline(always)]
    fn bytes(&mut self, n: u8) -> Result<&'a [u8], Refusal>
        ensures { read_bytes result self.new.rest.now ≡ many n self.old.rest.now }
    {
        let (bytes, rest) = self
            .rest
            .split_at_checked(n as usize)
            .ok_or(Refusal::Malformed)?;
        self.rest = rest;
        Ok(bytes)
    }

    #[tactic(auto, using(crate::proofs::WalkSteps::kinds))]
    #[inline(always)]
    fn kind(&mut self) -> Result<(), Refusal>
        ensures { read result self.new.rest.now ≡ forget (read_kind self.old.rest.now) }
    {
        if self.byte()? >= 2 {
            return Err(Refusal::Malformed);
        }
        Ok(())
    }

    // A text: first its limit, then an early end, then UTF-8.
    #[tactic(auto, unfolding(crate::specs::Format::read_text))]
    #[inline(always)]
    fn text(&mut self, limit: u8) -> Result<&'a [u8], Refusal>
        ensures { read_bytes result self.new.rest.now ≡ read_text limit self.old.rest.now }
    {
        let n = self.byte()?;
        if n > limit {
            return Err(Refusal::OverLimit);
        }
        let text = self.bytes(n)?;
        if !text::is_utf8(text) {
            return Err(Refusal::NotUtf8);
        }
        Ok(text)
    }

    // n texts, each after the one before it.
    // Not by `rows` of one text code: `rows` comes here by `code` and `keys`, and six methods would call each other in a circle.
    #[tactic(auto, using(crate::proofs::WalkSteps::loops))]
    #[inline(never)]
    fn texts(&mut self, limit: u8, n: u8) -> Result<(), Refusal>
        ensures { read result self.new.rest.now ≡ forget (rows (read_text limit) itself n None self.old.rest.now) }
    {
        let mut before = None;
        for _ in 0..n {
            let text = self.text(limit)?;
            if !is_after(before, text) {
                return Err(Refusal::Malformed);
            }
            before = Some(text);
        }
        Ok(())
    }

    #[tactic(auto, unfolding(crate::specs::Format::read_set))]
    #[inline(always)]
    fn keys(&mut self, most: u8, limit: u8) -> Result<(), Refusal>
        ensures { read result self.new.rest.now ≡ forget (read_set most limit self.old.rest.now) }
    {
        let n = self.byte()?;
        if n > most {
            return Err(Refusal::OverLimit);
        }
        self.texts(limit, n)
    }

    // The byte of an option: how many codes are passed over.
    #[tactic(auto, using(crate::proofs::WalkSteps::flags))]
    #[inline(always)]
    fn flag(&mut self, codes: u8) -> Result<u8, Refusal>
        ensures { read result self.new.rest.now ≡ read_flag codes self.old.rest.now }
    {
        match self.byte()? {
            0 => Ok(codes),
            1 => Ok(0),
            _ => Err(Refusal::Malformed),
        }
    }

    // One code: how many codes after it are passed over.
    #[tactic(auto, using(crate::proofs::WalkSteps::done, crate::proofs::WalkSteps::failed), unfolding(crate::specs::Codes::step))]
    #[inline(always)]
    fn code(&mut self, code: Code) -> Result<u8, Refusal>
        ensures { read result self.new.rest.now ≡ step code self.old.rest.now }
    {
        match code {
            Code::Number(n) => {
                self.bytes(n)?;
                Ok(0)
            }
            Code::Kind => {
                self.kind()?;
                Ok(0)
            }
            Code::Text(limit) => {
                self.text(limit)?;
                Ok(0)
            }
            Code::Keys(most, limit) => {
                self.keys(most, limit)?;
                Ok(0)
            }
            Code::Maybe(codes) => self.flag(codes),
        }
    }

    // The same where so many codes are yet to be passed over.
    #[tactic(auto, using(crate::proofs::WalkSteps::advance_here, crate::proofs::WalkSteps::advance_pass))]
    #[inline(always)]
    fn advance(&mut self, over: u8, code: Code) -> Result<u8, Refusal>
        ensures { read result self.new.rest.now ≡ advance over code self.old.rest.now }
    {
        if over == 0 {
            return self.code(code);
        }
        Ok(over - 1)
    }

    #[tactic(auto, using(crate::proofs::WalkSteps::loops))]
    fn record(&mut self, codes: &[Code]) -> Result<(), Refusal>
        ensures { read result self.new.rest.now ≡ walk 0 codes.now self.old.rest.now }
    {
        let mut over = 0;
        for code in codes {
            over = self.advance(over, *code)?;
        }
        Ok(())
    }

    // n rows of these codes, the text of each after that of the row before it.
    #[tactic(auto, using(crate::proofs::WalkSteps::loops))]
    fn rows(&mut self, codes: &[Code], n: usize) -> Result<(), Refusal>
        ensures { read result self.new.rest.now ≡ walk_rows codes.now n None self.old.rest.now }
    {
        let mut before = None;
        for _ in 0..n {
            let text = text_at(self.rest, 0);
            self.record(codes)?;
            if !is_after(before, text) {
                return Err(Refusal::Malformed);
            }
            before = Some(text);
        }
        Ok(())
    }
}

// Whether a text stands after the one before it, if there is one.
#[tactic(auto, unfolding(crate::specs::Format::after))]
fn is_after(before: Option<&[u8]>, text: &[u8]) -> bool
    ensures { result ≡ after (option_copied before.entry) text.now }
{
    match before {
        None => true,
        Some(b) => text::compare(b, text).order.is_lt(),
    }
}

// A place no later than the end.
pub fn within(s: &[u8], at: usize) -> usize
    ensures { result ≡ min at (length s.now) }
{
    at.min(s.len())
}

// Where the record of these codes ends that starts at a place, or its first fault.
#[tactic(auto, using(crate::proofs::WalkSteps::record_short))]
pub fn walk_record(codes: &[Code], s: &[u8], at: usize) -> Result<usize, Refusal>
    ensures read { numbered result ≡ walk_of s.now (walk 0 codes.now (drop at s.now)) }
    ensures within { IfOk result (λ e. e ≤ length s.now) }
{
    let mut walker = Walker::at(s, at);
    walker.record(codes)?;
    Ok(s.len() - walker.rest.len())
}

// The text at a place: its length byte, and so many bytes or what there is of them.
#[tactic(auto, using(crate::proofs::WalkSteps::text_here_none, crate::proofs::WalkSteps::text_here_some))]
pub fn text_at<'a>(s: &'a [u8], at: usize) -> &'a [u8]
    ensures { result.now ≡ text_here (drop at s.now) }
{
    match s.get(at) {
        Some(n) => parts::clip(s, at + 1, *n as usize),
        None => &[],
    }
}

// The place after the text at a place; the end where the bytes end before.
#[tactic(auto, using(crate::proofs::WalkSteps::after_text_none, crate::proofs::WalkSteps::after_text_some))]
pub fn after_text(s: &[u8], at: usize) -> usize
    ensures { result ≡ place_of s.now (hop (drop at s.now)) }
{
    match s.get(at) {
        Some(n) => (at + 1 + *n as usize).min(s.len()),
        None => s.len(),
    }
}

// Where n rows of these codes end that start at a place, or the first fault; each row's text stands after that of the row before it.
// The four come one by one, from an entry of bytes that are not yet known to be an image; rows that are known are `TableRows`.
#[tactic(auto, using(crate::proofs::WalkSteps::rows_short))]
pub fn walk_rows(codes: &[Code], s: &[u8], at: usize, n: usize) -> Result<usize, Refusal>
    ensures { numbered result ≡ walk_of s.now (walk_rows codes.now n None (drop at s.now)) }
{
    let mut walker = Walker::at(s, at);
    walker.rows(codes, n)?;
    Ok(s.len() - walker.rest.len())
}
