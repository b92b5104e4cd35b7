// Calls of the stream parser, read from standard input, each as an octet, its kind, and what the kind asks; numbers have four octets,
// high first. 0 fresh: the record all 0, the buffer's 65,536 octets all 170, and how many of these the calls are given; 1 feed: the
// length of a piece, and the piece; 2 record: 16 octets, which become the record; 3 room: how many octets of the buffer the calls are
// given; 4 tell: options, which say the protocol version. For each piece a line with the answer, as stomp_feed gives it, and the sum of
// the buffer's 65,536 octets, both in decimal; then the record, the buffer's front, and a line end. The front is the item found, or what
// was taken of the item. For each version told a line with the answer, as stomp_feed_tell gives it, then the record and a line end.
#![tactic(auto)]

ghost use Rattle.std.specs.Prelude.{◌≤◌};

use frames::stream_calls::{stomp_feed, stomp_feed_tell};
use listing::calls::{CallError, at_most, each_call, read_head, read_rest, read_text, tell};
use std::io;
use std::io::{Read, Write};

// What a call asks for.
#[derive(Clone, Copy)]
enum Kind {
    Fresh,
    Feed,
    Record,
    Room,
    Tell,
}

impl TryFrom<u8> for Kind {
    type Error = CallError;

    fn try_from(kind: u8) -> Result<Kind, CallError> {
        match kind {
            0 => Ok(Kind::Fresh),
            1 => Ok(Kind::Feed),
            2 => Ok(Kind::Record),
            3 => Ok(Kind::Room),
            4 => Ok(Kind::Tell),
            _ => Err(CallError::UnknownKind),
        }
    }
}

// A stream parser as the calls for C have it: its record, its buffer, and how many octets of that the calls are given; and space for the
// pieces, which is cleared once.
#[derive(Drop)]
struct Stream {
    state: [u8; 16],
    buffer: [u8; 65536],
    space: [u8; 65536],
    given: usize,
    ghost held: { given ≤ 65536 },
}

fn read_number<R: Read>(input: &mut R) -> Result<u32, CallError> {
    Ok(u32::from_be_bytes(read_rest(input)?))
}

// The sum of the octets.
fn sum(d: &[u8; 65536]) -> u64 {
    let mut total = 0u64;
    for x in d {
        total += u64::from(*x);
    }
    total
}

// The octets that a record says are held.
fn held(state: &[u8; 16]) -> u64 {
    u64::from(u16::from_be_bytes([state[10], state[11]]))
}

// How many octets the item has by the answer, or those before the octet refused, or those held.
fn front(answer: u64, held: u64) -> u64 {
    let rest = answer / 262144;
    match answer % 4 {
        0 => held,
        1 => rest,
        2 => rest / 1024 % 65536 + rest / 67108864 + 1,
        _ => rest / 256,
    }
}

impl Stream {
    // How many octets the calls are given from now on.
    fn room<R: Read>(&mut self, input: &mut R) -> Result<(), CallError> {
        self.given = at_most(read_number(input)?);
        Ok(())
    }

    fn fresh<R: Read>(&mut self, input: &mut R) -> Result<(), CallError> {
        self.state = [0; 16];
        self.buffer = [170; 65536];
        self.room(input)
    }

    // Octets become the record.
    fn set<R: Read>(&mut self, input: &mut R) -> Result<(), CallError> {
        self.state = read_rest(input)?;
        Ok(())
    }

    fn feed<R: Read, W: Write>(&mut self, input: &mut R, output: &mut W) -> Result<(), CallError> {
        let len = read_number(input)?;
        let piece = read_text(input, &mut self.space, len)?;
        let buffer = &mut self.buffer[..];
        let answer = stomp_feed(&mut self.state, &mut buffer[..self.given], piece);
        let total = sum(&self.buffer);
        writeln!(output, "{answer} {total}")?;
        output.write_all(&self.state)?;
        let n = front(answer, held(&self.state)).min(65536) as usize;
        output.write_all(&self.buffer[..n])?;
        output.write_all(b"\n")?;
        Ok(())
    }

    // The version of the options is told: whether it was taken, and the record.
    fn tell<R: Read, W: Write>(&mut self, input: &mut R, output: &mut W) -> Result<(), CallError> {
        let answer = stomp_feed_tell(&mut self.state, read_number(input)?);
        writeln!(output, "{answer}")?;
        output.write_all(&self.state)?;
        output.write_all(b"\n")?;
        Ok(())
    }

    // Reads a call and answers it: whether there is one.
    fn call<R: Read, W: Write>(
        &mut self,
        input: &mut R,
        output: &mut W,
    ) -> Result<bool, CallError> {
        let Some(first) = read_head::<1, R>(input)? else {
            return Ok(false);
        };
        match Kind::try_from(first[0])? {
            Kind::Fresh => self.fresh(input)?,
            Kind::Feed => self.feed(input, output)?,
            Kind::Record => self.set(input)?,
            Kind::Room => self.room(input)?,
            Kind::Tell => self.tell(input, output)?,
        }
        Ok(true)
    }
}

fn main(rt: HostRuntime) -> io::Result<()> {
    let mut output = rt.stdout();
    // Made here: a function that gave it would need room for it twice.
    let mut stream = Stream {
        state: [0; 16],
        buffer: [170; 65536],
        space: [0; 65536],
        given: 65536,
    };
    let made = each_call(&mut rt.stdin(), |input| stream.call(input, &mut output));
    tell(&rt, "feed_calls", made)
}
