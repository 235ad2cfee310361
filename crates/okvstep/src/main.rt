// Steps the authority from its default state by the frames of standard input: a length of 4 bytes, and a request.
// Prints a header, a line for each frame, and `end`, or `end bad` at a frame that is cut or longer than 8,192 bytes.
#![tactic(auto)]

ghost use Rattle.std.specs.Prelude.{◌≡◌, ◌+◌, ◌-◌, ◌^◌, ◌<◌, ◌≤◌, length, take, Some};
ghost use Rattle.parts.specs.Answer.{image_of, status_of};
ghost use Rattle.parts.specs.Over.{over};
ghost use Rattle.okvstep.specs.Moments.{room, line_of, line_text, image_at, answered_at, left_at, AtMoment};

use std::fmt::{self, Write};

// The numbers of the standard input and output.
const STDIN: i32 = 0;

const STDOUT: i32 = 1;

// The bytes that are lent for an image, for an outcome and for a request.
const ROOM: usize = 16384;

const OUTCOME_ROOM: usize = 8192;

const REQUEST_ROOM: usize = 8192;

// A run steps no more frames than the claims of a history speak of: fewer than 2^64 - 1.
const MOST_FRAMES: u64 = u64::MAX - 1;

// What is printed of a frame: its number, the number answered, and six numbers of the state after it.
#[derive(Clone, Copy)]
struct Line {
    step: u64,
    status: u32,
    frontier: u64,
    policy: u64,
    readable: u64,
    collected: u64,
    clock: u64,
    epoch: u64,
}

impl fmt::Display for Line {
    ghost output = { λ l. Some (line_text l) };

    fn fmt<W: fmt::Write>(&self, f: &mut fmt::Formatter<W>) -> fmt::Result {
        let Line {
            step,
            status,
            frontier,
            policy,
            readable,
            collected,
            clock,
            epoch,
        } = *self;
        write!(
            f,
            "{step} {status} {frontier} {policy} {readable} {collected} {clock} {epoch}"
        )
    }
}

// The line of a frame, with the numbers of the state that the image holds: there is one at every moment.
fn line_of(step: u64, status: u32, image: &[u8]) -> Line
    ensures { result ≡ line_of step status image.now }
{
    // zeros where the bytes are no image
    let n = image::open(image).unwrap_or_default().scalars;
    Line {
        step,
        status,
        frontier: n.observed_commit_frontier,
        policy: n.policy_floor,
        readable: n.minimum_readable_version,
        collected: n.physically_collected_through,
        clock: n.lease_clock_tick,
        epoch: n.root_intent_epoch,
    }
}

// The first n bytes of the next image become those of the image.
fn keep(image: &mut [u8], next: &[u8], n: usize)
    requires { n ≤ length image.old }
    ensures { image.new ≡ over image.old 0 (take n next.now) }
{
    let n = n.min(next.len());
    image[..n].copy_from_slice(&next[..n]);
}

// The authority after some frames: how many there were, the size of the image that they left and its bytes, and what is lent
// to a call for the next image and the outcome.
#[derive(Drop)]
struct Authority {
    frames: u64,
    size: usize,
    image: [u8; ROOM],
    next: [u8; ROOM],
    outcome: [u8; OUTCOME_ROOM],
}

// `AtMoment` stands in clauses: an invariant goes with a view of the whole value, and then no clause could name the fields.
impl Authority {
    // Before the first frame, with the default image.
    fn new() -> Authority
        ensures first { result.frames ≡ 0 }
        ensures moment { AtMoment result }
    {
        let mut image = [0; ROOM];
        let size = image::default_image(&mut image).unwrap_or(0);
        Authority {
            frames: 0,
            size,
            image,
            next: [0; ROOM],
            outcome: [0; OUTCOME_ROOM],
        }
    }

    // One request, on the image that the frames before it left: it leaves the image that the next one is stepped on.
    fn step(&mut self, request: &[u8]) -> Line
        requires few { self.old.frames < 2 ^ 64 - 1 }
        requires moment { AtMoment self.old }
        ensures frames { self.new.frames ≡ self.old.frames + 1 }
        ensures line { result ≡ line_of (self.old.frames + 1) (status_of (answered_at self.old request.now)) (left_at self.old request.now) }
        ensures size { self.new.size ≡ length (left_at self.old request.now) }
        ensures bytes { self.new.image ≡ over self.old.image 0 (image_of (answered_at self.old request.now)) }
        ensures moment { AtMoment self.new }
    {
        let applied = transition::apply(
            &self.image[..self.size],
            request,
            &mut self.next,
            &mut self.outcome,
        );
        self.frames += 1;
        let mut size = self.size;
        let status = match applied {
            Ok(lengths) => {
                keep(&mut self.image, &self.next, lengths.image);
                size = lengths.image;
                0
            }
            Err(refusal) => refusal.number(),
        };
        let line = line_of(self.frames, status, &self.image[..size]);
        self.size = size;
        line
    }
}

// A frame that is cut, too long or not to be read.
#[derive(Clone, Copy, Debug, PartialEq, Eq)]
struct BadFrame;

// The next request, read to the front of `frame`; none at the end of the input. It is read by the library io: std's reader
// takes a byte ahead, and where the input comes in messages the rest of that message is lost.
fn read_frame(frame: &mut [u8]) -> Result<Option<&[u8]>, BadFrame> {
    let mut head = [0; 4];
    match io::read_full(STDIN, &mut head) {
        // the input also ends where nothing can be read of it
        0 => return Ok(None),
        4 => {}
        _ => return Err(BadFrame),
    }
    let size = u32::from_le_bytes(head) as usize;
    let request = frame.get_mut(..size).ok_or(BadFrame)?;
    if io::read_full(STDIN, request) < size {
        return Err(BadFrame);
    }
    Ok(Some(request))
}

// Standard output, by the library io: each piece of a text is a write of its own, and what cannot be written is passed over,
// that piece alone.
#[derive(Clone, Copy)]
struct Output;

impl fmt::Write for Output {
    fn write_str(&mut self, s: &str) -> fmt::Result {
        io::write_all(STDOUT, s.as_bytes());
        Ok(())
    }
}

fn print<D: fmt::Display + Drop>(text: D) {
    let _ = Output.write(text);
}

fn print_line(line: Line) {
    let _ = Output.writeln(line);
}

// Frame by frame, up to the end of the input.
fn run(authority: &mut Authority)
    requires few { authority.old.frames < 2 ^ 64 - 1 }
    requires moment { AtMoment authority.old }
    ensures few { authority.new.frames < 2 ^ 64 - 1 }
    ensures moment { AtMoment authority.new }
{
    let mut frame = [0; REQUEST_ROOM];
    for _ in authority.frames..MOST_FRAMES {
        match read_frame(&mut frame) {
            Ok(Some(request)) => print_line(authority.step(request)),
            Ok(None) => return print("end\n"),
            Err(BadFrame) => return print("end bad\n"),
        }
    }
}

fn main() {
    print("step status frontier policy readable collected clock epoch\n");
    run(&mut Authority::new());
}
