// The listing of a stream: its octets pass through one buffer, and the lines of its items through another.
ghost use Rattle.std.specs.Prelude.{◌≡◌};
ghost use Rattle.frames.specs.Replies.{used_of};
ghost use Rattle.frames.specs.Answers.{parsed_says};

use crate::buffers::{Input, Output};
use crate::line::Refused;
use frames::version::Version;
use std::io;
use std::io::{Read, Write};

// How a loop over a stream goes: there may be more of it; the last of it is laid out; or counting failed.
#[derive(Clone, Copy, PartialEq, Eq)]
pub(crate) enum Stage {
    Open,
    Whole,
    Uncounted,
}

// Why a stream was not gone through whole: its octets cannot be counted, or a reading or a writing failed.
#[derive(Clone, Copy)]
pub enum StreamError {
    Uncounted,
    Io(io::Error),
}

impl From<io::Error> for StreamError {
    ghost use Rattle.listing.specs.declared.stream.StreamError.{StreamError};

    ghost from_gives = { λ e r. r ≡ StreamError.Io e };

    fn from(e: io::Error) -> StreamError {
        StreamError::Io(e)
    }
}

// Where the next item starts in a stream, and how the loop over it goes.
#[derive(Clone, Copy)]
pub(crate) struct Place {
    pub start: u64,
    pub stage: Stage,
}

impl Place {
    // Before the first octet.
    pub(crate) const FIRST: Place = Place {
        start: 0,
        stage: Stage::Open,
    };

    // An item of n octets is done with. After the largest position there is none, and counting fails.
    pub(crate) fn count(&mut self, n: usize) {
        match self.start.checked_add(n as u64) {
            Some(start) => self.start = start,
            None => self.stage = Stage::Uncounted,
        }
    }
}

// A stream that is listed: how far it is read, the lines that are not yet written, and where the next item starts.
#[derive(Drop)]
struct Listing {
    input: Input,
    lines: Output,
    place: Place,
}

impl Listing {
    // One line, or one reading, or one writing. The lines laid out are written before octets are read, so that a reading that fails leaves
    // none unwritten.
    fn turn<R: Read, W: Write>(&mut self, reader: &mut R, writer: &mut W) -> io::Result<()> {
        if self.lines.room() < 160 {
            return self.lines.flush(writer);
        }
        let reply = self.input.reply(Version::V12);
        if matches!(reply, Ok(None)) && !self.input.ended {
            self.lines.flush(writer)?;
            return self.input.refill(reader);
        }
        let nothing_left = self.input.held().is_empty();
        let told = reply.map_err(Refused::from);
        self.lines.lay_line(self.place.start, told, nothing_left);
        match reply {
            Ok(Some(item)) => {
                self.input.pass(item.len());
                self.place.count(item.len());
            }
            Ok(None) | Err(_) => self.place.stage = Stage::Whole,
        }
        Ok(())
    }
}

// Lists the octets of a reader on a writer, to their end, a line for each item; or says why the last line is not written. The lines laid
// out before a reading are written before it, so that one that fails loses none of them.
pub fn list<R: Read, W: Write>(reader: &mut R, writer: &mut W) -> Result<(), StreamError> {
    let mut listing = Listing {
        input: Input::new(),
        lines: Output::new(),
        place: Place::FIRST,
    };
    for _ in 0..u64::MAX {
        if listing.place.stage != Stage::Open {
            break;
        }
        listing.turn(reader, writer)?;
    }
    listing.lines.flush(writer)?;
    if listing.place.stage == Stage::Whole {
        return Ok(());
    }
    Err(StreamError::Uncounted)
}
