// Runs the text layer on the cases of standard input, a line each, and writes each line with its answer.
//
//   u HEX         is_utf8 of the bytes that HEX writes
//   l HEX         is_utf8 of each byte from 00 to FF with the bytes that HEX writes after it: a digit each
//   h TEXT        valid_sha256
//   c TEXT TEXT   compare: the order and the steps
//   w NN MM       compare of two texts of these lengths, up to 24 (decimal): for each place at which they can first differ,
//                 with the first text smaller there and with the second, and for no difference, the sign and the steps
//   s TEXT TEXT   same
//   p TEXT TEXT   starts_with: whether the first begins with the second
//   e TEXT B      ends_with_byte
//
// Any other line is written as it is.
#![tactic(auto)]

ghost use Rattle.std.specs.Prelude.{◌≡◌, ◌≤◌, length};

use std::cmp::Ordering;
use std::fmt::{self, Write};
use text::Compared;

// The numbers of the standard input and output.
const STDIN: i32 = 0;

const STDOUT: i32 = 1;

// The value of a hex digit, and 0 of any other byte.
fn digit(x: u8) -> u8
    ensures { result ≤ 15 }
{
    match x {
        b'0'..=b'9' => x - b'0',
        b'A'..=b'F' => x - b'A' + 10,
        _ => 0,
    }
}

// The byte that two hex digits write.
fn byte(high: u8, low: u8) -> u8 {
    digit(high) * 16 + digit(low)
}

// is_utf8 of first and up to 8 bytes that hex writes.
fn after(first: u8, hex: &[u8]) -> bool {
    let (pairs, _) = hex.as_chunks::<2>();
    let mut text = [first; 9];
    for (place, [high, low]) in text[1..].iter_mut().zip(pairs) {
        *place = byte(*high, *low);
    }
    text::is_utf8(&text[..=pairs.len().min(8)])
}

fn from_hex(hex: &[u8]) -> bool {
    match hex {
        [high, low, rest @ ..] => after(byte(*high, *low), rest),
        _ => text::is_utf8(b""),
    }
}

// Bytes that two texts have where they differ, by turns: the neighbours of 0x80, the ends of all bytes, and two above 0x80.
// In 24 bytes each of the three stands at each place of a word.
const SMALLER: [u8; 24] = [
    0x7F, 0x00, 0xFE, 0x7F, 0x00, 0xFE, 0x7F, 0x00, 0xFE, 0x7F, 0x00, 0xFE, 0x7F, 0x00, 0xFE, 0x7F,
    0x00, 0xFE, 0x7F, 0x00, 0xFE, 0x7F, 0x00, 0xFE,
];

const LARGER: [u8; 24] = [
    0x80, 0xFF, 0xFF, 0x80, 0xFF, 0xFF, 0x80, 0xFF, 0xFF, 0x80, 0xFF, 0xFF, 0x80, 0xFF, 0xFF, 0x80,
    0xFF, 0xFF, 0x80, 0xFF, 0xFF, 0x80, 0xFF, 0xFF,
];

// What is answered to a case.
#[derive(Clone, Copy)]
enum Answer<'a> {
    Truth(bool),
    Order(Compared),
    // the bytes that the digits write, after each byte
    EachLead { hex: &'a [u8] },
    // two lengths
    EachPlace { n: usize, m: usize },
}

// The number that two digits write.
fn number(tens: u8, ones: u8) -> usize {
    usize::from(digit(tens)) * 10 + usize::from(digit(ones))
}

fn ends_with(s: &[u8], b: &[u8]) -> bool {
    b.first().is_some_and(|x| text::ends_with_byte(s, *x))
}

impl<'a> Answer<'a> {
    // To a line, where it is a case.
    fn of(line: &'a [u8]) -> Option<Answer<'a>> {
        let [case, _, rest @ ..] = line else {
            return None;
        };
        match *case {
            b'u' => Some(Answer::Truth(from_hex(rest))),
            b'l' => Some(Answer::EachLead { hex: rest }),
            b'h' => Some(Answer::Truth(text::valid_sha256(rest))),
            b'w' => Answer::of_lengths(rest),
            _ => Answer::of_texts(*case, rest),
        }
    }

    fn of_lengths(s: &[u8]) -> Option<Answer<'a>> {
        let [a, b, _, c, d, ..] = s else {
            return None;
        };
        Some(Answer::EachPlace {
            n: number(*a, *b),
            m: number(*c, *d),
        })
    }

    // To a case of two texts with a space between.
    fn of_texts(case: u8, s: &[u8]) -> Option<Answer<'a>> {
        let at = s.iter().position(|x| *x == b' ')?;
        let (a, b) = (&s[..at], &s[at + 1..]);
        match case {
            b'c' => Some(Answer::Order(text::compare(a, b))),
            b's' => Some(Answer::Truth(text::same(a, b))),
            b'p' => Some(Answer::Truth(text::starts_with(a, b))),
            b'e' => Some(Answer::Truth(ends_with(a, b))),
            _ => None,
        }
    }
}

impl fmt::Display for Answer<'_> {
    fn fmt<W: fmt::Write>(&self, f: &mut fmt::Formatter<W>) -> fmt::Result {
        match *self {
            Answer::Truth(true) => write!(f, " yes"),
            Answer::Truth(false) => write!(f, " no"),
            Answer::Order(Compared { order, steps }) => {
                let order = match order {
                    Ordering::Less => " less ",
                    Ordering::Equal => " equal ",
                    Ordering::Greater => " greater ",
                };
                write!(f, "{order}{steps}")
            }
            Answer::EachLead { hex } => each_lead(f, hex),
            Answer::EachPlace { n, m } => each_place(f, n.min(24), m.min(24)),
        }
    }
}

fn each_lead<W: fmt::Write>(f: &mut fmt::Formatter<W>, hex: &[u8]) -> fmt::Result {
    write!(f, " ")?;
    for x in 0..=255 {
        let digit = u8::from(after(x, hex));
        write!(f, "{digit}")?;
    }
    Ok(())
}

fn compare<W: fmt::Write>(f: &mut fmt::Formatter<W>, a: &[u8], b: &[u8]) -> fmt::Result {
    let Compared { order, steps } = text::compare(a, b);
    let sign = match order {
        Ordering::Less => "<",
        Ordering::Equal => "=",
        Ordering::Greater => ">",
    };
    write!(f, "{sign}{steps}")
}

// Before the place of the first difference both texts are the same, and after it each byte says the contrary.
fn each_place<W: fmt::Write>(f: &mut fmt::Formatter<W>, n: usize, m: usize) -> fmt::Result
    requires { (n ≤ 24) × (m ≤ 24) }
{
    write!(f, " ")?;
    let mut a = LARGER;
    let mut b = SMALLER;
    for d in 0..n.min(m) {
        a[d] = SMALLER[d];
        b[d] = LARGER[d];
        compare(f, &a[..n], &b[..m])?;
        compare(f, &b[..n], &a[..m])?;
        b[d] = SMALLER[d];
    }
    compare(f, &b[..n], &b[..m])
}

// Standard output, by the library io: each piece of a text is a write of its own, and what cannot be written is passed over,
// that piece alone.
#[derive(Clone, Copy)]
struct Output;

impl fmt::Write for Output {
    fn write_str(&mut self, s: &str) -> fmt::Result {
        io::write_all(STDOUT, s.as_bytes());
        Ok(())
    }
}

// Line by line.
fn run(cases: &[u8]) {
    for line in cases.split_inclusive(|x| *x == b'\n') {
        let line = line.strip_suffix(b"\n").unwrap_or(line);
        io::write_all(STDOUT, line);
        if let Some(answer) = Answer::of(line) {
            let _ = write!(Output, "{answer}");
        }
        io::write_all(STDOUT, b"\n");
    }
}

fn main() {
    let mut cases = [0; 65536];
    // by the library io, into the whole room: `io::copy` of std reads 8,192 bytes at a time, and loses what a message has beyond
    // them; a read that fails ends the cases
    let read = io::read_full(STDIN, &mut cases);
    run(&cases[..read]);
}
