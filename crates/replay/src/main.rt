// Replays the answers of the Rust, as the change requests change them: the cases of standard input, numbers little-endian, each
// after a byte that says its kind.
//
//   0 load        length, image: the image that stands from here
//   1 apply       length, request; room, outcome room; status; length, next image; length, outcome
//   2 validate    length, token; the number
//   3 test        the number
//
// Every length, room and number has 4 bytes. Where 0 is the status, the next image stands from here. Writes a line for each
// case with the answer given, and `differs` where it is another one or a byte past it changed; then how many were the same.
#![tactic(auto)]

ghost use Rattle.std.specs.Prelude.{◌≡◌, ◌≤◌, length};
ghost use Rattle.std.specs.Iterator.{at_most};

use parts::Lengths;
use refusals::Refusal;
use std::fmt::{self, Write};

// The numbers of the standard input and output.
const STDIN: i32 = 0;

const STDOUT: i32 = 1;

// What a lent byte holds before a call.
const FILLING: u8 = 165;

// A call of `apply`: what it is given, and what it should answer.
#[derive(Clone, Copy)]
struct Call<'a> {
    request: &'a [u8],
    room: usize,
    outcome_room: usize,
    status: u32,
    next: &'a [u8],
    outcome: &'a [u8],
}

#[derive(Clone, Copy)]
enum Case<'a> {
    Load { image: &'a [u8] },
    Apply(Call<'a>),
    Validate { token: &'a [u8], expected: u32 },
    Test { expected: u32 },
    // of a kind that there is none of
    Unknown,
}

// The cases that are left, in bytes. Where the bytes end too early, a number or a part has those that there are.
#[derive(Drop)]
struct Cases<'a> {
    left: &'a [u8],
}

impl<'a> Cases<'a> {
    // The next n bytes.
    fn bytes(&mut self, n: usize) -> &'a [u8]
        ensures few { length result.now ≤ n }
        ensures on { length self.new.left.now ≤ length self.old.left.now }
    {
        let left = self.left;
        let (bytes, left) = left.split_at(n.min(left.len()));
        self.left = left;
        bytes
    }

    fn number(&mut self) -> u32
        ensures { length self.new.left.now ≤ length self.old.left.now }
    {
        let bytes = self.bytes(4);
        let mut number = [0; 4];
        number[..bytes.len()].copy_from_slice(bytes);
        u32::from_le_bytes(number)
    }

    // A length, and so many bytes.
    fn part(&mut self) -> &'a [u8]
        ensures { length self.new.left.now ≤ length self.old.left.now }
    {
        let n = self.number() as usize;
        self.bytes(n)
    }

    fn call(&mut self) -> Call<'a>
        ensures { length self.new.left.now ≤ length self.old.left.now }
    {
        Call {
            request: self.part(),
            room: self.number() as usize,
            outcome_room: self.number() as usize,
            status: self.number(),
            next: self.part(),
            outcome: self.part(),
        }
    }
}

impl<'a> Iterator for Cases<'a> {
    type Item = Case<'a>;

    ghost remaining = { λ s. at_most (length s.left.now) };

    fn next(&mut self) -> Option<Case<'a>> {
        let (kind, left) = self.left.split_first()?;
        self.left = left;
        Some(match *kind {
            0 => Case::Load { image: self.part() },
            1 => Case::Apply(self.call()),
            2 => Case::Validate {
                token: self.part(),
                expected: self.number(),
            },
            3 => Case::Test {
                expected: self.number(),
            },
            _ => {
                // nobody can say where the next case would begin
                self.left = &[];
                Case::Unknown
            }
        })
    }
}

// Whether s is what was wanted and then the filling. A fold and not `all`, which stops early: so it is compiled to vectors.
fn holds(s: &[u8], wanted: &[u8]) -> bool {
    s.strip_prefix(wanted).is_some_and(|rest| {
        rest.iter().fold(true, |same, b| same & (*b == FILLING))
    })
}

// What a case answers, where it is a call, and whether that is what was expected.
#[derive(Clone, Copy)]
struct Answer {
    number: Option<u32>,
    same: bool,
}

impl Answer {
    fn expecting(number: u32, expected: u32) -> Answer {
        Answer {
            number: Some(number),
            same: number == expected,
        }
    }
}

// The image that stands, and what is lent to a call for the next image and the outcome.
#[derive(Drop)]
struct Replay<'a> {
    image: &'a [u8],
    next: [u8; 65536],
    outcome: [u8; 16384],
}

impl<'a> Replay<'a> {
    // One call with so much room in both lent slices, or none where there is not so much.
    fn apply(&mut self, call: &Call) -> Option<Result<Lengths, Refusal>> {
        self.next.fill(FILLING);
        self.outcome.fill(FILLING);
        let next = self.next.get_mut(..call.room)?;
        let outcome = self.outcome.get_mut(..call.outcome_room)?;
        Some(transition::apply(self.image, call.request, next, outcome))
    }

    // Whether a call gave the wanted lengths and bytes.
    fn gave(&self, lengths: Lengths, call: &Call) -> bool {
        lengths.image == call.next.len()
            && lengths.outcome == call.outcome.len()
            && holds(&self.next, call.next)
            && holds(&self.outcome, call.outcome)
    }

    fn answer(&mut self, case: Case<'a>) -> Answer {
        match case {
            Case::Load { image } => {
                self.image = image;
                Answer {
                    number: None,
                    same: true,
                }
            }
            Case::Apply(call) => {
                let applied = self.apply(&call);
                let number = match applied {
                    Some(Err(refusal)) => refusal.number(),
                    _ => 0,
                };
                // Where the room is not there: no call answers 0 and no image.
                let lengths = match applied {
                    Some(Ok(lengths)) => lengths,
                    _ => Lengths {
                        image: 0,
                        outcome: 0,
                    },
                };
                if number == 0 {
                    self.image = call.next;
                }
                Answer {
                    number: Some(number),
                    same: number == call.status && self.gave(lengths, &call),
                }
            }
            Case::Validate { token, expected } => {
                let number = match validation::validate_active_snapshot_lease(self.image, token) {
                    Ok(()) => 0,
                    Err(error) => error.number(),
                };
                Answer::expecting(number, expected)
            }
            Case::Test { expected } => {
                let number = match image::test_image(self.image) {
                    Ok(()) => 0,
                    Err(refusal) => refusal.number(),
                };
                Answer::expecting(number, expected)
            }
            Case::Unknown => Answer {
                number: Some(0),
                same: false,
            },
        }
    }
}

// What is printed of a case.
#[derive(Clone, Copy)]
struct Line<'a> {
    count: u64,
    case: Case<'a>,
    answer: Answer,
}

impl fmt::Display for Line<'_> {
    fn fmt<W: fmt::Write>(&self, f: &mut fmt::Formatter<W>) -> fmt::Result {
        let count = self.count;
        let kind = match self.case {
            Case::Load { .. } => " load",
            Case::Apply(_) => " apply ",
            Case::Validate { .. } => " validate ",
            Case::Test { .. } => " test ",
            Case::Unknown => " no case ",
        };
        write!(f, "{count}{kind}")?;
        if let Some(number) = self.answer.number {
            write!(f, "{number}")?;
        }
        if !self.answer.same {
            write!(f, " differs")?;
        }
        Ok(())
    }
}

// Standard output, by the library io: each piece of a text is a write of its own, and what cannot be written is passed over,
// that piece alone.
#[derive(Clone, Copy)]
struct Output;

impl fmt::Write for Output {
    fn write_str(&mut self, s: &str) -> fmt::Result {
        io::write_all(STDOUT, s.as_bytes());
        Ok(())
    }
}

// Case by case, up to the end of the cases.
fn run(cases: &[u8]) {
    let mut replay = Replay {
        image: &[],
        next: [0; 65536],
        outcome: [0; 16384],
    };
    let mut same = 0u64;
    for (count, case) in (1u64..).zip(Cases { left: cases }) {
        let answer = replay.answer(case);
        let line = Line {
            count,
            case,
            answer,
        };
        let _ = writeln!(Output, "{line}");
        if answer.same {
            same = same.saturating_add(1);
        }
    }
    let _ = writeln!(Output, "same {same}");
}

// Room for the cases. Its clause says only the length: a proof that sees half a million zeros takes too long.
fn room_for_cases() -> [u8; 524288]
    ensures { 524288 ≡ length result }
{
    [0; 524288]
}

fn main() {
    let mut cases = room_for_cases();
    // by the library io, into the whole room: `io::copy` of std reads 8,192 bytes at a time, and loses what a message has beyond
    // them; a read that fails ends the cases
    let read = io::read_full(STDIN, &mut cases);
    run(&cases[..read]);
}
