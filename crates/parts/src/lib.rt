// Parts of slices, little-endian numbers, and the one writer: every image and every outcome is gathered from parts.
#![tactic(auto)]

ghost use Rattle.std.specs.Prelude.{◌≡◌, ◌++◌, ◌+◌, ◌≤◌, length, take, drop, get_or};
ghost use Rattle.refusals.specs.Numbers.{numbered};
ghost use Rattle.parts.specs.Digits.{digits, value, padded};
ghost use Rattle.parts.specs.Over.{Wrote};
ghost use Rattle.parts.specs.Gather.{piece_of, gather_of};
ghost use Rattle.parts.specs.Answer.{written_of, laid_over, settle, Gave};
ghost use Rattle.parts.specs.Size.{size_in};

use refusals::Refusal;

// No image is longer.
pub const LONGEST: usize = 65535;

// A part of what is written: of the first source or of the second where it starts, and how many bytes, as far as the source
// goes; or a number, and in how many bytes.
#[derive(Clone, Copy, Debug, PartialEq, Eq)]
pub enum Part {
    First(usize, usize),
    Second(usize, usize),
    Number(u64, usize),
}

// How many bytes an accepted call wrote.
#[derive(Clone, Copy, Debug, PartialEq, Eq)]
pub struct Lengths {
    pub image: usize,
    pub outcome: usize,
}

// s from `at` on.
fn tail<'a>(s: &'a [u8], at: usize) -> &'a [u8]
    ensures { result.now ≡ drop at s.now }
{
    s.get(at..).unwrap_or(&[])
}

// n bytes of s from `at` on, as far as s goes.
pub fn clip<'a>(s: &'a [u8], at: usize, n: usize) -> &'a [u8]
    ensures { result.now ≡ take n (drop at s.now) }
{
    let rest = tail(s, at);
    rest.get(..n).unwrap_or(rest)
}

// 0 past the end.
pub fn byte_at(s: &[u8], at: usize) -> u8
    ensures { result ≡ get_or s.now at 0 }
{
    s.get(at).copied().unwrap_or(0)
}

// The N bytes from `at` on, with zeros where s ends.
fn bytes_at<const N: usize>(s: &[u8], at: usize) -> [u8; N]
    ensures { result ≡ padded N (drop at s.now) }
{
    let rest = tail(s, at);
    match rest.first_chunk::<N>() {
        Some(bytes) => *bytes,
        None => {
            let mut bytes = [0; N];
            put(&mut bytes, 0, rest);
            bytes
        }
    }
}

// The number of the eight bytes from `at` on; fewer where s ends.
pub fn u64_at(s: &[u8], at: usize) -> u64
    ensures { result ≡ value (take 8 (drop at s.now)) }
{
    u64::from_le_bytes(bytes_at(s, at))
}

// The number of the four bytes from `at` on; fewer where s ends.
pub fn u32_at(s: &[u8], at: usize) -> u32
    ensures { result ≡ value (take 4 (drop at s.now)) }
{
    u32::from_le_bytes(bytes_at(s, at))
}

// No writer holds out and at: what a contract says of a written slice is said of the whole slice, with what stands before and behind.
// A loop and not `copy_from_slice`, which asks the C library for `memmove`: this is compiled to a vector copy in place.
pub fn put(out: &mut [u8], at: usize, x: &[u8]) -> usize
    requires { at + length x.now ≤ length out.old }
    ensures { Wrote out.old at x.now result out.new }
{
    let end = at + x.len();
    for (i, byte) in x.iter().enumerate() {
        out[at + i] = *byte;
    }
    end
}

// The lowest n bytes of v. By hand: a number of any width; the library has whole ones only.
pub fn put_digits(out: &mut [u8], at: usize, v: u64, n: usize) -> usize
    requires { at + n ≤ length out.old }
    ensures { Wrote out.old at (digits n v) result out.new }
{
    let end = at + n;
    let mut rest = v;
    for byte in &mut out[at..end] {
        *byte = (rest % 256) as u8;
        rest /= 256;
    }
    end
}

impl Part {
    // A part with no bytes, and all of zeros, so that an array of them is laid at once.
    pub const EMPTY: Part = Part::First(0, 0);

    fn size(self, a: &[u8], b: &[u8]) -> usize
        ensures { result ≡ length (piece_of a.now b.now self) }
    {
        match self {
            Part::First(at, n) => clip(a, at, n).len(),
            Part::Second(at, n) => clip(b, at, n).len(),
            Part::Number(_, n) => n,
        }
    }

    fn put(self, out: &mut [u8], at: usize, a: &[u8], b: &[u8]) -> usize
        requires { at + length (piece_of a.now b.now self) ≤ length out.old }
        ensures { Wrote out.old at (piece_of a.now b.now self) result out.new }
    {
        match self {
            Part::First(from, n) => put(out, at, clip(a, from, n)),
            Part::Second(from, n) => put(out, at, clip(b, from, n)),
            Part::Number(v, n) => put_digits(out, at, v, n),
        }
    }
}

// How many bytes the parts gather to, if they are no more than a limit, which stops the sum before it can overflow.
fn measure(a: &[u8], b: &[u8], parts: &[Part], limit: usize) -> Option<usize>
    ensures { result ≡ size_in limit (length (gather_of a.now b.now parts.now)) }
{
    let mut total = 0;
    for part in parts {
        let size = part.size(a, b);
        if limit - total < size {
            return None;
        }
        total += size;
    }
    Some(total)
}

fn gather(out: &mut [u8], at: usize, a: &[u8], b: &[u8], parts: &[Part]) -> usize
    requires { at + length (gather_of a.now b.now parts.now) ≤ length out.old }
    ensures { Wrote out.old at (gather_of a.now b.now parts.now) result out.new }
{
    let mut end = at;
    for part in parts {
        end = part.put(out, end, a, b);
    }
    end
}

// Gathers the parts into out. Where they do not fit, no byte changes.
pub fn write(a: &[u8], b: &[u8], parts: &[Part], out: &mut [u8]) -> Result<usize, Refusal>
    ensures answer { numbered result ≡ written_of out.old (gather_of a.now b.now parts.now) }
    ensures bytes { out.new ≡ laid_over out.old (gather_of a.now b.now parts.now) }
{
    let n = measure(a, b, parts, out.len()).ok_or(Refusal::NoRoom)?;
    gather(out, 0, a, b, parts);
    Ok(n)
}

// Measures all, and then writes: the image is the bytes of head and what body gathers from a and b, and the outcome is told,
// gathered from c and b. Nothing else writes a call's answer, so no lent byte changes before everything is known to fit.
pub fn emit(
    over_limit: bool,
    a: &[u8],
    b: &[u8],
    c: &[u8],
    head: &[u8],
    body: &[Part],
    told: &[Part],
    next: &mut [u8],
    outcome: &mut [u8],
) -> Result<Lengths, Refusal>
    ensures { Gave (settle over_limit (head.now ++ gather_of a.now b.now body.now) (gather_of c.now b.now told.now) (length next.old) (length outcome.old))
        next.old outcome.old result next.new outcome.new }
{
    if over_limit {
        return Err(Refusal::TableFull);
    }
    let x = head.len();
    if LONGEST < x {
        return Err(Refusal::NoRoom);
    }
    let y = measure(a, b, body, LONGEST - x).ok_or(Refusal::NoRoom)?;
    if next.len() < x + y {
        return Err(Refusal::NoRoom);
    }
    let z = measure(c, b, told, outcome.len()).ok_or(Refusal::NoOutcomeRoom)?;
    let p = put(next, 0, head);
    gather(next, p, a, b, body);
    gather(outcome, 0, c, b, told);
    Ok(Lengths {
        image: x + y,
        outcome: z,
    })
}
