// The image: opened once, then read by place.
#![tactic(auto)]

ghost use Rattle.std.specs.Prelude.{◌≡◌, ◌++◌, ◌+◌, ◌-◌, ◌*◌, ◌≤◌, ◌<◌, length, take, drop, replicate};
ghost use Rattle.refusals.specs.Numbers.{numbered, told};
ghost use Rattle.parts.specs.Digits.{digits, value};
ghost use Rattle.parts.specs.Over.{Wrote};
ghost use Rattle.parts.specs.Answer.{written_of, laid_over};
ghost use Rattle.state.specs.Maps.{is_some};
ghost use Rattle.state.specs.Records.{default};
ghost use Rattle.fields.specs.Format.{enc_option};
ghost use Rattle.fields.specs.Walks.{walk_of};
ghost use Rattle.image.specs.Layout.{encode_image, read_image, decode_in, decode_image, written};
ghost use Rattle.image.specs.ImageParts.{words, entries_from};
ghost use Rattle.image.specs.Opened.{opened_of, test_of, measures_in, root_bytes, root_width};
ghost use Rattle.image.specs.Front.{entry_bytes, head_of, scalars_size, scalars_front, front_of, window_width, Light, Small, contents_over_limit};
ghost use Rattle.image.specs.Placed.{bytes_of, form_of, entry_size, first_of, scalars_body, table_body, row_codes, in_place, body_at, maybe_number_at, maybe_text_at, scalars_at, contents_at};
ghost use Rattle.image.specs.Rows.{RowsOf};
ghost use Rattle.image.specs.Walked.{walk_body, walk_image_in};

use fields::{Code, KEY, KEYS, NAME, U64};
use parts::Part;
use refusals::Refusal;
use std::array;
use tables::TableRows;

// An entry of the contents: where a body starts, its bytes, and its rows. The scalars count as one row.
#[derive(Clone, Copy, Debug, Default, PartialEq, Eq)]
pub struct Table {
    pub at: usize,
    pub size: usize,
    pub count: usize,
}

// A text's bytes, by place. No slice: fields that stand side by side are written as one run, which slices of their own do not tell.
#[derive(Clone, Copy, Debug, PartialEq, Eq)]
pub struct TextAt {
    pub at: usize,
    pub len: usize,
}

// The scalars, in the order of the state's fields.
#[derive(Clone, Copy, Debug, Default, PartialEq, Eq)]
pub struct Scalars {
    pub term: u64,
    pub index: u64,
    pub root_intent_epoch: u64,
    pub observed_commit_frontier: u64,
    pub retention_window: Option<u64>,
    pub retention_policy_epoch: u64,
    pub policy_floor: u64,
    pub minimum_readable_version: u64,
    pub physically_collected_through: u64,
    pub lease_clock_tick: u64,
    pub lease_epoch: u64,
    pub range_map_epoch: u64,
    pub collection_root: Option<TextAt>,
}

// The tables in their order. Numbers and no enum: they are the indices of the array of tables, over which loops count.
pub const INTENTS: usize = 0;

pub const ROOTS: usize = 1;

pub const PINS: usize = 2;

pub const RESERVATIONS: usize = 3;

pub const LEASES: usize = 4;

pub const JOBS: usize = 5;

pub const TABLES: usize = 6;

#[derive(Clone, Copy, Debug, Default, PartialEq, Eq)]
pub struct Contents {
    pub format_version: u32,
    pub scalars: Scalars,
    pub tables: [Table; TABLES],
}

// How many bytes the count of an entry has.
#[derive(Clone, Copy, Debug, PartialEq, Eq)]
pub enum CountWidth {
    One = 1,
    Two = 2,
}

// A form as the code has it: how wide the counts of its entries are, and the most rows of each table.
#[derive(Clone, Copy, Debug, PartialEq, Eq)]
pub struct Layout {
    pub counts: CountWidth,
    pub most: [usize; TABLES],
}

// The bytes of an image up to its tables, at the head of an array.
#[derive(Clone, Copy)]
pub struct Front {
    pub bytes: [u8; 232],
    pub len: usize,
    ghost fits: { len ≤ length bytes },
}

impl Front {
    pub fn as_slice(&self) -> &[u8]
        ensures { result.now ≡ take self.now.len self.now.bytes }
    {
        &self.bytes[..self.len]
    }
}

// The shapes of records, a code for each field, and where a field stands in them.
pub const REFERENCE: [Code; 4] = [Code::Kind, KEY, U64, NAME];

pub const MAYBE_REFERENCE: [Code; 5] = [Code::Maybe(4), Code::Kind, KEY, U64, NAME];

pub const SCALARS: [Code; 15] = [
    U64,
    U64,
    U64,
    U64,
    Code::Maybe(1),
    U64,
    U64,
    U64,
    U64,
    U64,
    U64,
    U64,
    U64,
    Code::Maybe(1),
    NAME,
];

pub const INTENT: [Code; 13] = [
    NAME,
    U64,
    KEYS,
    Code::Kind,
    KEY,
    U64,
    NAME,
    NAME,
    Code::Maybe(4),
    Code::Kind,
    KEY,
    U64,
    NAME,
];

pub const INTENT_OWNER: usize = 1;

pub const INTENT_KEYS: usize = 2;

pub const INTENT_MANIFEST: usize = 3;

pub const INTENT_ROOT: usize = 7;

pub const INTENT_PRIOR: usize = 8;

pub const REFERENCE_ROW: [Code; 5] = [NAME, Code::Kind, KEY, U64, NAME];

pub const PERMIT: [Code; 11] = [
    KEY,
    Code::Maybe(1),
    NAME,
    Code::Maybe(1),
    NAME,
    U64,
    NAME,
    NAME,
    U64,
    U64,
    U64,
];

pub const PERMIT_PLAN: usize = 7;

pub const LEASE: [Code; 15] = [
    NAME,
    NAME,
    U64,
    U64,
    NAME,
    NAME,
    U64,
    Code::Kind,
    KEY,
    U64,
    NAME,
    KEYS,
    U64,
    U64,
    U64,
];

pub const LEASE_VERSION: usize = 2;

pub const LEASE_EPOCH: usize = 3;

pub const LEASE_DEADLINE: usize = 6;

pub const LEASE_KEYS: usize = 11;

pub const JOB: [Code; 13] = [
    NAME,
    U64,
    U64,
    U64,
    U64,
    Code::Kind,
    KEY,
    U64,
    NAME,
    NAME,
    U64,
    U64,
    KEY,
];

pub const JOB_MANIFEST_KEY: usize = 6;

pub const JOB_ROOT: usize = 9;

pub const JOB_NAMESPACE: usize = 12;

// The form that is read and written: counts of one byte, and the most rows of each table.
pub const BASE: Layout = Layout {
    counts: CountWidth::One,
    most: [32, 32, 32, 128, 64, 8],
};

impl Table {
    // The end of a body that was walked from `at` to there; a fault where that is not what its entry says.
    fn in_place(&self, at: usize, end: usize) -> Result<usize, Refusal>
        ensures { numbered result ≡ in_place self.now at (Ok end) }
    {
        if self.at != at || self.size != end.saturating_sub(at) {
            return Err(Refusal::Malformed);
        }
        Ok(end)
    }
}

// Where the scalars end that start at `at`, or the first fault.
#[tactic(auto, unfolding(crate::specs::Walked::walk_body))]
fn scalars_end(entry: Table, s: &[u8], at: usize) -> Result<usize, Refusal>
    ensures { numbered result ≡ in_place entry at (walk_of s.now (walk_body scalars_body entry.count (drop at s.now))) }
{
    if entry.count != 1 {
        return Err(Refusal::Malformed);
    }
    entry.in_place(at, fields::walk_record(&SCALARS, s, at)?)
}

// The shape of the rows of a table.
pub fn row_shape(table: usize) -> &'static [Code]
    ensures { result.now ≡ row_codes table }
{
    match table {
        INTENTS => &INTENT,
        ROOTS | PINS => &REFERENCE_ROW,
        RESERVATIONS => &PERMIT,
        LEASES => &LEASE,
        _ => &JOB,
    }
}

// Where a table ends that starts at `at`, or the first fault.
#[tactic(auto, unfolding(crate::specs::Walked::walk_body))]
fn table_end(table: usize, most: usize, entry: Table, s: &[u8], at: usize) -> Result<usize, Refusal>
    ensures { numbered result ≡ in_place entry at (walk_of s.now (walk_body (table_body table most) entry.count (drop at s.now))) }
{
    // of a small image most tables are empty: no walk begins for them
    if entry.count == 0 {
        return entry.in_place(at, fields::within(s, at));
    }
    if most < entry.count {
        return Err(Refusal::OverLimit);
    }
    entry.in_place(at, fields::walk_rows(row_shape(table), s, at, entry.count)?)
}

impl CountWidth {
    fn count_at(self, s: &[u8], at: usize) -> usize
        requires { at ≤ 1000 }
        ensures { result ≡ value (take (bytes_of self) (drop at s.now)) }
    {
        let low = parts::byte_at(s, at) as usize;
        match self {
            CountWidth::One => low,
            CountWidth::Two => low + 256 * parts::byte_at(s, at + 1) as usize,
        }
    }
}

impl Layout {
    // The bytes of an entry: a place of four, a size of four, and a count.
    fn entry_size(&self) -> usize
        ensures { result ≡ entry_size (bytes_of self.now.counts) }
    {
        8 + self.counts as usize
    }

    // Where the first body stands: behind the version and the entries.
    fn first(&self) -> usize
        ensures { result ≡ first_of (bytes_of self.now.counts) }
    {
        4 + self.entry_size() * (1 + TABLES)
    }

    // The entry of a body, of which the scalars are the first. Its bytes are there, so that each number is one load; `contents`
    // and `bodies_end` ask for those of all entries for that.
    fn entry(&self, s: &[u8], body: usize) -> Table
        requires number { body ≤ 6 }
        requires header { first_of (bytes_of self.now.counts) ≤ length s.now }
        ensures { result ≡ body_at s.now (bytes_of self.now.counts) body }
    {
        let size = self.entry_size();
        let start = 4 + size * body;
        let entry = &s[start..start + size];
        Table {
            at: parts::u32_at(entry, 0) as usize,
            size: parts::u32_at(entry, 4) as usize,
            count: self.counts.count_at(entry, 8),
        }
    }

    fn contents(&self, s: &[u8]) -> Contents
        requires { first_of (bytes_of self.now.counts) ≤ length s.now }
        ensures { result ≡ contents_at s.now (bytes_of self.now.counts) }
    {
        Contents {
            format_version: parts::u32_at(s, 0),
            scalars: scalars_at(s, self.first()),
            tables: array::from_fn(|table| self.entry(s, table + 1)),
        }
    }

    // Where the bodies end, each of which starts where the one before it ended; or the first fault.
    fn bodies_end(&self, s: &[u8]) -> Result<usize, Refusal>
        requires { first_of (bytes_of self.now.counts) ≤ length s.now }
        ensures { numbered result ≡ walk_of s.now (walk_image_in (form_of self.now) s.now) }
    {
        let mut at = scalars_end(self.entry(s, 0), s, self.first())?;
        for (table, most) in self.most.iter().enumerate() {
            at = table_end(table, *most, self.entry(s, table + 1), s, at)?;
        }
        Ok(at)
    }

    // Whether the bytes are an image in this form.
    fn is_image(&self, s: &[u8]) -> bool
        ensures { result ≡ is_some (decode_in (form_of self.now) s.now) }
    {
        (self.first()..=parts::LONGEST).contains(&s.len()) && self.bodies_end(s) == Ok(s.len())
    }
}

// Here and of a text the byte is tested in place: one function for both would take the reader of the value, and be longer.
fn maybe_number_at(s: &[u8], p: usize) -> Option<u64>
    requires { p ≤ 1000 }
    ensures { result ≡ maybe_number_at s.now p }
{
    if parts::byte_at(s, p) == 0 {
        return None;
    }
    Some(parts::u64_at(s, p + 1))
}

fn maybe_text_at(s: &[u8], p: usize) -> Option<TextAt>
    requires { p ≤ 1000 }
    ensures { result ≡ maybe_text_at s.now p }
{
    if parts::byte_at(s, p) == 0 {
        return None;
    }
    let len = parts::byte_at(s, p + 1) as usize;
    Some(TextAt { at: p + 2, len })
}

fn window_width(w: Option<u64>) -> usize
    ensures { result ≡ window_width w }
{
    if w.is_some() { 8 } else { 0 }
}

// The scalars stand at `at`, and go on after the window.
fn scalars_at(s: &[u8], at: usize) -> Scalars
    requires { at ≤ 900 }
    ensures { result ≡ scalars_at s.now at }
{
    let retention_window = maybe_number_at(s, at + 32);
    let p = at + 33 + window_width(retention_window);
    Scalars {
        term: parts::u64_at(s, at),
        index: parts::u64_at(s, at + 8),
        root_intent_epoch: parts::u64_at(s, at + 16),
        observed_commit_frontier: parts::u64_at(s, at + 24),
        retention_window,
        retention_policy_epoch: parts::u64_at(s, p),
        policy_floor: parts::u64_at(s, p + 8),
        minimum_readable_version: parts::u64_at(s, p + 16),
        physically_collected_through: parts::u64_at(s, p + 24),
        lease_clock_tick: parts::u64_at(s, p + 32),
        lease_epoch: parts::u64_at(s, p + 40),
        range_map_epoch: parts::u64_at(s, p + 48),
        collection_root: maybe_text_at(s, p + 56),
    }
}

// Whether the bytes are an image, in the form that their first offset tells.
fn is_image(s: &[u8]) -> bool
    ensures { result ≡ is_some (read_image s.now) }
{
    let offset = parts::u32_at(s, 4) as usize;
    offset == BASE.first() && BASE.is_image(s)
}

// Tests the whole image, and reads its contents.
pub fn open(s: &[u8]) -> Option<Contents>
    ensures { result ≡ opened_of (read_image s.now) }
{
    if !is_image(s) {
        return None;
    }
    Some(BASE.contents(s))
}

pub fn test_image(image: &[u8]) -> Result<(), Refusal>
    ensures { told result ≡ test_of (decode_image image.now) }
{
    if !is_image(image) {
        return Err(Refusal::NotAnImage);
    }
    Ok(())
}

impl Contents {
    // Whether a table has more rows than the form that is written allows.
    pub fn over_limit(&self) -> bool
        ensures { result ≡ contents_over_limit self.now }
    {
        self.tables
            .iter()
            .zip(&BASE.most)
            .any(|(t, most)| *most < t.count)
    }

    // The rows of a table of the image that has these contents.
    pub fn rows<'a>(&self, image: &'a [u8], table: usize) -> TableRows<'a>
        requires { table < 6 }
        ensures { RowsOf image.now self.now table result }
    {
        let place = self.tables[table];
        TableRows {
            codes: row_shape(table),
            bytes: image,
            at: place.at,
            left: place.count,
        }
    }
}

// Numbers of eight bytes, one after the other.
fn put_numbers(out: &mut [u8], at: usize, ns: &[u64]) -> usize
    requires { at + 8 * length ns.now ≤ length out.old }
    ensures { Wrote out.old at (words ns.now) result out.new }
{
    let mut p = at;
    for n in ns {
        p = parts::put_digits(out, p, *n, 8);
    }
    p
}

// An entry of the form that is written.
fn put_entry(out: &mut [u8], at: usize, entry: Table) -> usize
    requires { at + 9 ≤ length out.old }
    ensures { Wrote out.old at (entry_bytes entry) result out.new }
{
    let p = parts::put_digits(out, at, entry.at as u64, 4);
    let q = parts::put_digits(out, p, entry.size as u64, 4);
    parts::put_digits(out, q, entry.count as u64, 1)
}

// The entries of the tables, the first of which stands at `start`.
fn put_entries(out: &mut [u8], at: usize, start: usize, ts: &[Table; TABLES]) -> usize
    requires room { at + 54 ≤ length out.old }
    requires low { start ≤ 1000000 }
    requires light { Light (measures_in ts.now) }
    ensures { Wrote out.old at (entries_from written.widths start (measures_in ts.now)) result out.new }
{
    let mut p = at;
    let mut place = start;
    for t in ts {
        p = put_entry(out, p, Table { at: place, ..*t });
        place += t.size;
    }
    p
}

fn put_window(out: &mut [u8], at: usize, w: Option<u64>) -> usize
    requires { at + 9 ≤ length out.old }
    ensures { Wrote out.old at (enc_option (digits 8) w) result out.new }
{
    match w {
        None => parts::put_digits(out, at, 0, 1),
        Some(n) => {
            let p = parts::put_digits(out, at, 1, 1);
            parts::put_digits(out, p, n, 8)
        }
    }
}

// The root's text comes from x; its length byte stands before its bytes.
fn put_root(out: &mut [u8], at: usize, x: &[u8], root: Option<TextAt>) -> usize
    requires { at + 1 + root_width root ≤ length out.old }
    ensures { Wrote out.old at (root_bytes x.now root) result out.new }
{
    match root {
        None => parts::put_digits(out, at, 0, 1),
        Some(t) => {
            let p = parts::put_digits(out, at, 1, 1);
            parts::put(out, p, parts::clip(x, t.at.saturating_sub(1), t.len + 1))
        }
    }
}

// The version and the entries.
fn put_head(out: &mut [u8], c: &Contents, size: usize) -> usize
    requires room { 67 ≤ length out.old }
    requires low { size ≤ 1000 }
    requires small { Small c.now }
    ensures { Wrote out.old 0 (head_of c.now size) result out.new }
{
    let p = parts::put_digits(out, 0, c.format_version as u64, 4);
    let scalars = Table {
        at: BASE.first(),
        size,
        count: 1,
    };
    let q = put_entry(out, p, scalars);
    put_entries(out, q, scalars.at + size, &c.tables)
}

impl Scalars {
    // Eleven numbers, the bytes of the two options, and what the options hold.
    fn size(&self) -> usize
        requires { root_width self.now.collection_root ≤ 65 }
        ensures { result ≡ scalars_size self.now }
    {
        90 + window_width(self.retention_window) + self.collection_root.map_or(0, |t| t.len + 1)
    }
}

// The scalars; the root's text comes from x.
fn put_scalars(out: &mut [u8], at: usize, x: &[u8], n: &Scalars) -> usize
    requires room { at + 163 ≤ length out.old }
    requires root { root_width n.now.collection_root ≤ 65 }
    ensures { Wrote out.old at (scalars_front x.now n.now) result out.new }
{
    let before = [
        n.term,
        n.index,
        n.root_intent_epoch,
        n.observed_commit_frontier,
    ];
    let after = [
        n.retention_policy_epoch,
        n.policy_floor,
        n.minimum_readable_version,
        n.physically_collected_through,
        n.lease_clock_tick,
        n.lease_epoch,
        n.range_map_epoch,
    ];
    let p = put_numbers(out, at, &before);
    let q = put_window(out, p, n.retention_window);
    let r = put_numbers(out, q, &after);
    put_root(out, r, x, n.collection_root)
}

// The front of an image whose contents are c; the root's text comes from x. `Small` is no invariant of `Contents`: what is read
// from any bytes need not be small.
pub fn front_of(x: &[u8], c: &Contents) -> Front
    requires { Small c.now }
    ensures bytes { result.bytes ≡ front_of x.now c.now ++ replicate (232 - length (front_of x.now c.now)) 0 }
    ensures len { result.len ≡ length (front_of x.now c.now) }
{
    let size = c.scalars.size();
    let mut bytes = [0; 232];
    let p = put_head(&mut bytes, c, size);
    let len = put_scalars(&mut bytes, p, x, &c.scalars);
    Front { bytes, len }
}

// Writes the default image, and answers its length; where it does not fit, no byte changes.
pub fn default_image(out: &mut [u8]) -> Result<usize, Refusal>
    ensures answer { numbered result ≡ written_of out.old (encode_image default) }
    ensures bytes { out.new ≡ laid_over out.old (encode_image default) }
{
    let contents = Contents {
        format_version: 1,
        ..Contents::default()
    };
    let front = front_of(b"", &contents);
    let bytes = front.as_slice();
    parts::write(bytes, b"", &[Part::First(0, bytes.len())], out)
}
