// The replay of a client's stream: its items drive one session, and each gets a line with the session's answer. The stream goes through
// the stream parser, which is told the protocol version that the opening frame chose. Where the stream is the log of both sides, a MESSAGE
// is one that the server sent: it is recorded as a delivery.
ghost use Rattle.std.specs.Prelude.{◌≡◌, ◌+◌, ◌≤◌, IfOk};
ghost use Rattle.listing.specs.Buffers.{LaysAtMost, first_value_in};

use crate::buffers::{Input, Output, SIZE};
use crate::line::Refused as Told;
use crate::stream::{Place, Stage};
use frames::decode::{DecodeError, decode};
use frames::limits::FRAME;
use frames::parse::Item;
use frames::stream::{FeedError, StreamParser, Taken};
use frames::version::Version;
use sessions::commands::{CONNECT, MESSAGE, STOMP};
use sessions::in_place::{deliver_in_place, frame_in_place, heart_beat_in_place};
use sessions::refusals::Refusal;
use sessions::session::{Acceptance, Session};
use std::io;
use std::io::{Read, Write};

// What the session did with an item: accepted it, or recorded it as a delivery.
#[derive(Clone, Copy)]
enum Done {
    Accepted(Acceptance),
    Delivered,
}

// Why an item is refused: its frame is not decoded, or the session refuses it.
#[derive(Clone, Copy)]
enum Refused {
    NotDecoded(DecodeError),
    BySession(Refusal),
}

impl From<DecodeError> for Refused {
    fn from(e: DecodeError) -> Refused {
        Refused::NotDecoded(e)
    }
}

impl From<Refusal> for Refused {
    fn from(e: Refusal) -> Refused {
        Refused::BySession(e)
    }
}

impl Refused {
    // Its number.
    fn number(self) -> u32 {
        match self {
            Refused::NotDecoded(e) => e.number(),
            Refused::BySession(e) => e.number(),
        }
    }
}

// Why a stream was not replayed whole: the offers are refused (34), its octets cannot be counted, or a reading or a writing failed.
#[derive(Clone, Copy)]
pub enum ReplayError {
    Unmade,
    Uncounted,
    Io(io::Error),
}

impl From<io::Error> for ReplayError {
    ghost use Rattle.listing.specs.declared.replay.ReplayError.{ReplayError};

    ghost from_gives = { λ e r. r ≡ ReplayError.Io e };

    fn from(e: io::Error) -> ReplayError {
        ReplayError::Io(e)
    }
}

// The first value of a header, or nothing.
fn first_value<'a>(block: &'a [u8], name: &[u8]) -> &'a [u8]
    ensures { result.now ≡ first_value_in block.now name.now }
{
    match headers::find(block, name) {
        Ok(Some(p)) => &block[p.start..p.start + p.len],
        Ok(None) => &[],
        Err(_) => &[],
    }
}

// A MESSAGE that the server sent: a delivery for its subscription, named by its message-id in version 1.1, by its ack in 1.2.
fn deliver(session: &mut Session, version: Version, block: &[u8]) -> Result<Done, Refused> {
    let id = first_value(block, b"subscription");
    let label = match version {
        Version::V11 => first_value(block, b"message-id"),
        Version::V12 => first_value(block, b"ack"),
    };
    deliver_in_place(session, id, label)?;
    Ok(Done::Delivered)
}

// Whether an item is a frame that opens a session.
fn is_opening(item: Item) -> bool {
    match item {
        Item::Frame(frame) => frame.command == CONNECT || frame.command == STOMP,
        Item::HeartBeat(_) => false,
    }
}

// The start of an item, and what it is. Lines are laid out by hand, in a buffer of fixed size: a contract says how much room each part needs
// and takes at most, and no clause would say that of write!.
fn lay_start(lines: &mut Output, start: u64, item: Item)
    requires { lines.old.used + 48 ≤ 65536 }
    ensures { LaysAtMost 48 lines.old lines.new }
{
    lines.lay_number(start, b' ');
    let Item::Frame(frame) = item else {
        return lines.lay_word(b"beat ");
    };
    lines.lay_word(b"frame ");
    lines.lay_number(u64::from(frame.command), b' ');
}

// What an opening came to: the highest shared version, and how often each side is heard.
fn lay_opened(lines: &mut Output, session: &Session)
    requires { lines.old.used + 106 ≤ 65536 }
    ensures { LaysAtMost 106 lines.old lines.new }
{
    let version = session.highest_shared();
    lines.lay_word(b"version ");
    lines.lay_number(u64::from(version / 10), b'.');
    lines.lay_number(u64::from(version % 10), b' ');
    lines.lay_word(b"client ");
    lines.lay_number(u64::from(session.agreed.inbound), b' ');
    lines.lay_word(b"server ");
    lines.lay_number(u64::from(session.agreed.outbound), b'\n');
}

// How many later entries follow the first destination, id and transaction, and an octet after that; only the octet where none do.
fn lay_overwritten(lines: &mut Output, a: Acceptance, behind: u8)
    requires { lines.old.used + 76 ≤ 65536 }
    ensures { LaysAtMost 76 lines.old lines.new }
{
    if a.later_destinations == 0 && a.later_ids == 0 && a.later_transactions == 0 {
        return lines.lay_word(&[behind]);
    }
    lines.lay_word(b" overwritten ");
    lines.lay_number(a.later_destinations as u64, b' ');
    lines.lay_number(a.later_ids as u64, b' ');
    lines.lay_number(a.later_transactions as u64, behind);
}

// That a receipt is owed, or nothing.
fn lay_receipt(lines: &mut Output, receipt: bool)
    requires { lines.old.used + 8 ≤ 65536 }
    ensures { LaysAtMost 8 lines.old lines.new }
{
    if receipt {
        lines.lay_word(b" receipt");
    }
}

// That an item was accepted, to the line's end.
fn lay_accepted(lines: &mut Output, a: Acceptance, opening: bool, session: &Session)
    requires { lines.old.used + 198 ≤ 65536 }
    ensures { LaysAtMost 198 lines.old lines.new }
{
    lines.lay_word(b"accepted");
    lay_receipt(lines, a.receipt);
    if !opening {
        return lay_overwritten(lines, a, b'\n');
    }
    lay_overwritten(lines, a, b' ');
    lay_opened(lines, session);
}

// The line of an item.
fn lay_turn(
    lines: &mut Output,
    start: u64,
    item: Item,
    came_to: Result<Done, Refused>,
    session: &Session,
)
    requires { lines.old.used + 246 ≤ 65536 }
    ensures { LaysAtMost 246 lines.old lines.new }
{
    lay_start(lines, start, item);
    match came_to {
        Ok(Done::Accepted(a)) => lay_accepted(lines, a, is_opening(item), session),
        Ok(Done::Delivered) => lines.lay_word(b"delivered\n"),
        Err(e) => {
            lines.lay_word(b"refused ");
            lines.lay_number(u64::from(e.number()), b'\n');
        }
    }
}

// A stream that is replayed: how far it is read; the stream parser, and its buffer for the item under way; the block of the frame under
// way; the lines that are not yet written; where the next item starts; the version that items are read by; the session by then; and
// whether the stream is a log of both sides.
#[derive(Drop)]
struct Replaying {
    input: Input,
    parser: StreamParser,
    buffer: [u8; FRAME],
    block: [u8; SIZE],
    lines: Output,
    place: Place,
    version: Version,
    session: Session,
    log: bool,
}

impl Replaying {
    ghost use Rattle.std.specs.Prelude.{◌-◌, false};
    ghost use Rattle.frames.specs.Replies.{Invalid};
    ghost use Rattle.frames.specs.Answers.{feed_number};
    ghost use Rattle.listing.specs.Lines.{line_of};
    ghost use Rattle.listing.specs.Buffers.{Lays, line_in};

    // What the stream parser makes of the octets that are held; those that it takes are done with.
    fn read(&mut self) -> Result<Taken, FeedError>
        ensures lines { self.new.lines ≡ self.old.lines }
        ensures place { self.new.place ≡ self.old.place }
        ensures taken { IfOk result (λ t. self.new.input.lo ≡ self.old.input.lo + t.octets) }
        ensures read { (self.new.input.hi ≡ self.old.input.hi) × (self.new.input.octets ≡ self.old.input.octets) }
    {
        let step = frames::stream::feed(self.parser, &mut self.buffer, self.input.held());
        self.parser = step.parser;
        let taken = step.answer?;
        self.input.pass(taken.octets);
        Ok(taken)
    }

    // The item at the front of the buffer given to the session, or the refusal of a frame whose block was not decoded.
    fn give(&mut self, item: Item) -> Result<Done, Refused>
        ensures lines { self.new.lines ≡ self.old.lines }
        ensures input { self.new.input ≡ self.old.input }
        ensures place { self.new.place ≡ self.old.place }
    {
        let Item::Frame(frame) = item else {
            return Ok(Done::Accepted(heart_beat_in_place(&mut self.session, 0)?));
        };
        let octets = &self.buffer[..frame.len.min(FRAME)];
        let n = decode(self.version, octets, &mut self.block)?;
        let block = &self.block[..n.min(SIZE)];
        if self.log && frame.command == MESSAGE {
            return deliver(&mut self.session, self.version, block);
        }
        let acceptance = frame_in_place(&mut self.session, frame.command, block, 0)?;
        Ok(Done::Accepted(acceptance))
    }

    // The items after one that opened the session are read by the version that it chose: the stream parser is told.
    fn choose(&mut self)
        ensures lines { self.new.lines ≡ self.old.lines }
        ensures input { self.new.input ≡ self.old.input }
        ensures place { self.new.place ≡ self.old.place }
    {
        self.version = if self.session.highest_shared() == 11 {
            Version::V11
        } else {
            Version::V12
        };
        if let Some(told) = frames::stream::tell(self.parser, self.version) {
            self.parser = told;
        }
    }

    // One item more, which is at the front of the buffer.
    fn item(&mut self, item: Item)
        requires { self.old.lines.used + 246 ≤ 65536 }
        ensures lines { LaysAtMost 246 self.old.lines self.new.lines }
        ensures input { self.new.input ≡ self.old.input }
    {
        let came_to = self.give(item);
        lay_turn(
            &mut self.lines,
            self.place.start,
            item,
            came_to,
            &self.session,
        );
        if came_to.is_ok() && is_opening(item) {
            self.choose();
        }
        self.place.count(item.len());
    }

    // No item more: octets are read, or the last line is laid out where there are none or the item was refused. The lines laid out are
    // written before octets are read, so that a reading that fails leaves none unwritten.
    fn no_item<R: Read, W: Write>(
        &mut self,
        reader: &mut R,
        writer: &mut W,
        taken: Taken,
    ) -> io::Result<()> {
        if matches!(taken.reply, Ok(None)) && !self.input.ended {
            self.lines.flush(writer)?;
            return self.input.refill(reader);
        }
        let nothing_left = self.parser.scan.at == 0;
        let told = taken.reply.map_err(Told::from);
        self.lines.lay_line(self.place.start, told, nothing_left);
        self.place.stage = Stage::Whole;
        Ok(())
    }

    // The call of the stream parser is refused: that is the last line.
    fn stop(&mut self, e: FeedError)
        ensures { Lays (line_in (65536 - self.old.lines.used) (line_of self.old.place.start (Invalid (feed_number e) 0) false)) self.old.lines self.new.lines }
    {
        let told = Told {
            number: e.number(),
            offset: 0,
        };
        self.lines.lay_line(self.place.start, Err(told), false);
        self.place.stage = Stage::Whole;
    }

    // One item, or one reading, or one writing.
    fn turn<R: Read, W: Write>(&mut self, reader: &mut R, writer: &mut W) -> io::Result<()> {
        if self.lines.room() < 246 {
            return self.lines.flush(writer);
        }
        match self.read() {
            Ok(taken) => match taken.reply {
                Ok(Some(item)) => self.item(item),
                _ => self.no_item(reader, writer, taken)?,
            },
            Err(e) => self.stop(e),
        }
        Ok(())
    }
}

// Replays the octets of a reader with a session of these offers and versions 1.1 and 1.2, at time 0: a line on a writer for each item, and
// the last one as a listing has it; or says why it was not replayed whole. In a log of both sides a MESSAGE is a delivery. The lines laid
// out before a reading are written before it, so that one that fails loses none of them.
pub fn replay<R: Read, W: Write>(
    reader: &mut R,
    writer: &mut W,
    sends: u32,
    wants: u32,
    log: bool,
) -> Result<(), ReplayError> {
    let made = Session::new(sends, wants, [false, true, true]);
    if made.answer.is_err() {
        return Err(ReplayError::Unmade);
    }
    let mut replaying = Replaying {
        input: Input::new(),
        parser: frames::stream::new_stream(),
        buffer: [0; FRAME],
        block: [0; SIZE],
        lines: Output::new(),
        place: Place::FIRST,
        version: Version::V12,
        session: made.session,
        log,
    };
    for _ in 0..u64::MAX {
        if replaying.place.stage != Stage::Open {
            break;
        }
        replaying.turn(reader, writer)?;
    }
    replaying.lines.flush(writer)?;
    if replaying.place.stage == Stage::Whole {
        return Ok(());
    }
    Err(ReplayError::Uncounted)
}
