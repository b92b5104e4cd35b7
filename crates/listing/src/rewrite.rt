// The rewriting of a stream: each frame decoded and encoded again in one protocol version, each heart-beat one line end.
ghost use Rattle.std.specs.Prelude.{◌≡◌, ◌+◌, ◌≤◌, length, IfOk};
ghost use Rattle.frames.specs.Replies.{used_of};
ghost use Rattle.frames.specs.Answers.{item_says};
ghost use Rattle.listing.specs.Buffers.{LaysAtMost};

use crate::buffers::{Input, Output, SIZE};
use crate::line::Refused;
use crate::stream::{Place, Stage, StreamError};
use frames::decode::{DecodeError, decode};
use frames::encode::{EncodeError, encode};
use frames::parse::{Frame, Item, Refusal};
use frames::version::Version;
use std::io;
use std::io::{Read, Write};

// What is asked: the version that items are read and written in, and a length line in each frame that has a body.
#[derive(Clone, Copy)]
pub struct Asked {
    pub version: Version,
    pub counted: bool,
}

// Why a frame is not written again: it is not decoded, or not encoded.
#[derive(Clone, Copy)]
enum Unwritten {
    NotDecoded(DecodeError),
    NotEncoded(EncodeError),
}

impl From<DecodeError> for Unwritten {
    fn from(e: DecodeError) -> Unwritten {
        Unwritten::NotDecoded(e)
    }
}

impl From<EncodeError> for Unwritten {
    fn from(e: EncodeError) -> Unwritten {
        Unwritten::NotEncoded(e)
    }
}

impl Unwritten {
    // Its number.
    fn number(self) -> u32 {
        match self {
            Unwritten::NotDecoded(e) => e.number(),
            Unwritten::NotEncoded(e) => e.number(),
        }
    }
}

// A frame decoded into the block and encoded again at the front of out: how many octets it has.
fn recode(
    asked: Asked,
    octets: &[u8],
    frame: Frame,
    block: &mut [u8],
    out: &mut [u8],
) -> Result<usize, Unwritten>
    ensures used { IfOk result (λ n. n ≤ length out.old) }
    ensures block { length block.new ≡ length block.old }
    ensures out { length out.new ≡ length out.old }
{
    let n = decode(asked.version, octets, block)?.min(block.len());
    let Some(body) = octets
        .get(frame.body..)
        .and_then(|rest| rest.get(..frame.body_len))
    else {
        return Err(Unwritten::NotDecoded(DecodeError::NotFrame));
    };
    let used = encode(
        asked.version,
        frame.command,
        &block[..n],
        body,
        out,
        asked.counted,
    )?;
    Ok(used.min(out.len()))
}

// Says that an item is refused or not whole.
fn complain<E: Write>(
    errors: &mut E,
    start: u64,
    reply: Result<Option<Item>, Refusal>,
) -> io::Result<()> {
    let mut text = [0u8; 4096];
    let n = crate::line::put_line(&mut text, start, reply.map_err(Refused::from), false);
    errors.write_all(b"rewrite: ")?;
    errors.write_all(&text[..n])
}

// A stream that is rewritten: how far it is read, the block of the frame under way, the octets that are not yet written, and where the
// next item starts.
#[derive(Drop)]
struct Rewriting {
    asked: Asked,
    input: Input,
    block: [u8; SIZE],
    image: Output,
    place: Place,
}

impl Rewriting {
    // An item again, after the octets laid out.
    fn lay(&mut self, item: Item) -> Result<(), Unwritten>
        requires within { self.old.input.lo + used_of (item_says item) ≤ self.old.input.hi }
        requires room { self.old.image.used + 1 ≤ 65536 }
        ensures input { self.new.input ≡ self.old.input }
        ensures place { self.new.place ≡ self.old.place }
        ensures image { LaysAtMost 65536 self.old.image self.new.image }
    {
        let Item::Frame(frame) = item else {
            self.image.lay_word(b"\n");
            return Ok(());
        };
        let octets = &self.input.held()[..frame.len];
        let used = self.image.used;
        let out = &mut self.image.octets[used..];
        self.image.used = used + recode(self.asked, octets, frame, &mut self.block, out)?;
        Ok(())
    }

    // One item more, or nothing more where it cannot be written: then the frames before it are written, and a message.
    fn item<W: Write, E: Write>(
        &mut self,
        writer: &mut W,
        errors: &mut E,
        item: Item,
    ) -> io::Result<()>
        requires within { self.old.input.lo + used_of (item_says item) ≤ self.old.input.hi }
        requires room { self.old.image.used + 1 ≤ 65536 }
        ensures { (self.old.input.lo ≤ self.new.input.lo) × (self.new.input.hi ≡ self.old.input.hi) }
    {
        if let Err(e) = self.lay(item) {
            self.image.flush(writer)?;
            let (start, code) = (self.place.start, e.number());
            writeln!(errors, "rewrite: {start} unwritten {code}")?;
            self.place.stage = Stage::Whole;
            return Ok(());
        }
        self.input.pass(item.len());
        self.place.count(item.len());
        Ok(())
    }

    // The reply is no item: more octets, or the end, with a message unless nothing is left.
    fn no_item<R: Read, E: Write>(
        &mut self,
        reader: &mut R,
        errors: &mut E,
        reply: Result<Option<Item>, Refusal>,
    ) -> io::Result<()>
        ensures { self.new.image ≡ self.old.image }
    {
        if matches!(reply, Ok(None)) {
            if !self.input.ended {
                return self.input.refill(reader);
            }
            if self.input.held().is_empty() {
                self.place.stage = Stage::Whole;
                return Ok(());
            }
        }
        complain(errors, self.place.start, reply)?;
        self.place.stage = Stage::Whole;
        Ok(())
    }

    // One item, or one reading, or one writing. The room that is kept is that of the longest frame. What is laid out is written before octets
    // are read, and before a message, so that it is not lost where these fail.
    fn turn<R: Read, W: Write, E: Write>(
        &mut self,
        reader: &mut R,
        writer: &mut W,
        errors: &mut E,
    ) -> io::Result<()> {
        if self.image.room() < frames::limits::FRAME {
            return self.image.flush(writer);
        }
        let reply = self.input.reply(self.asked.version);
        if let Ok(Some(item)) = reply {
            return self.item(writer, errors, item);
        }
        self.image.flush(writer)?;
        self.no_item(reader, errors, reply)
    }
}

// Rewrites the octets of a reader to a writer, up to their end or to what cannot be read or written, which a line on another writer tells;
// or says why not all were. Where a reading failed, or a writing that is not one of frames, the frames before it are written.
pub fn rewrite<R: Read, W: Write, E: Write>(
    reader: &mut R,
    writer: &mut W,
    errors: &mut E,
    asked: Asked,
) -> Result<(), StreamError> {
    let mut rewriting = Rewriting {
        asked,
        input: Input::new(),
        block: [0; SIZE],
        image: Output::new(),
        place: Place::FIRST,
    };
    for _ in 0..u64::MAX {
        if rewriting.place.stage != Stage::Open {
            break;
        }
        rewriting.turn(reader, writer, errors)?;
    }
    rewriting.image.flush(writer)?;
    if rewriting.place.stage == Stage::Whole {
        return Ok(());
    }
    Err(StreamError::Uncounted)
}
