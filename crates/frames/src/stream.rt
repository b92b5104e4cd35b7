// Parsing a stream as it arrives, piece by piece: a record keeps how far the item under way is read, and the caller's buffer its
// octets.
ghost use Rattle.std.specs.Prelude.{◌≡◌, true, cond, is_some, unwrap_or};
ghost use Rattle.frames.specs.Scanning.{nothing_read};
ghost use Rattle.frames.specs.Streams.{fits_version, is_resumable, is_whole};
ghost use Rattle.frames.specs.Streams.{feed_answer, feed_state, feed_buffer, by_version, is_taken, tell_state};
ghost use Rattle.frames.specs.Answers.{feed_number, fed_says};

use crate::limits;
use crate::parse::{Item, Reason, Refusal};
use crate::state::Scan;
use crate::version::Version;

// How far the item under way is read, or the refusal that is repeated.
#[derive(Clone, Copy)]
pub struct StreamParser {
    pub scan: Scan,
}

// What parsing replies to the octets of the item so far, and how many octets of the piece it takes.
#[derive(Clone, Copy)]
pub struct Taken {
    pub reply: Result<Option<Item>, Refusal>,
    pub octets: usize,
}

// Why a call takes nothing: the buffer is shorter than 49,228 octets (70), or the record not valid (71).
#[derive(Clone, Copy)]
pub enum FeedError {
    ShortBuffer = 70,
    InvalidParser = 71,
}

impl FeedError {
    // Its number.
    pub fn number(self) -> u32
        ensures { result ≡ feed_number self }
    {
        self as u32
    }
}

// An answer, and the stream parser that is left.
#[derive(Clone, Copy)]
pub struct Step {
    pub answer: Result<Taken, FeedError>,
    pub parser: StreamParser,
}

// Before the first octet of a stream, in version 1.2.
pub fn new_stream() -> StreamParser
    ensures { result.scan ≡ nothing_read true }
{
    let scan = crate::state::nothing_read(true);
    StreamParser { scan }
}

// Whether a state is one that its version can have: only 1.2 is ever after a 13 that begins a line end, or refused there.
fn fits_version(st: Scan) -> bool
    ensures { result ≡ fits_version st }
{
    if st.crlf {
        return true;
    }
    match st.phase {
        Scan::HEART_BEAT_CR | Scan::COMMAND_CR | Scan::LINE_CR | Scan::BLANK_CR => false,
        _ => st.code != Reason::No10 as u32,
    }
}

// Whether a run can be taken up from a state: the rule of 71, in constant time.
fn is_resumable(st: Scan) -> bool
    ensures { result ≡ is_resumable st }
{
    if !crate::valid::is_valid(st) {
        return false;
    }
    if limits::HELD < st.at {
        return false;
    }
    if !fits_version(st) {
        return false;
    }
    if st.phase < Scan::HEART_BEAT_READ {
        return true;
    }
    (st.phase == Scan::REFUSED) & Reason::of_number(st.code).is_some()
}

// The state itself, or that before the first octet where it has a whole item.
fn next_item(st: Scan) -> Scan
    ensures { result ≡ cond (is_whole st) (nothing_read st.crlf) st }
{
    if (st.phase == Scan::HEART_BEAT_READ) | (st.phase == Scan::FRAME_READ) {
        return crate::state::nothing_read(st.crlf);
    }
    st
}

// One piece: the reply to the octets of the item so far, those that the buffer's front has and the piece; the piece is taken up to the
// item's end, or up to the octet refused, or whole, and what is taken is in the buffer after what was there of the item. The
// rest of the piece is handed in again, with the parser that is left.
pub fn feed(parser: StreamParser, buffer: &mut [u8], piece: &[u8]) -> Step
    ensures { (fed_says result.answer ≡ feed_answer parser.scan buffer.old piece.now)
        × (result.parser.scan ≡ feed_state parser.scan buffer.old piece.now)
        × (buffer.new ≡ feed_buffer parser.scan buffer.old piece.now) }
{
    let st = parser.scan;
    if buffer.len() < limits::FRAME {
        return Step {
            answer: Err(FeedError::ShortBuffer),
            parser,
        };
    }
    if !is_resumable(st) {
        return Step {
            answer: Err(FeedError::InvalidParser),
            parser,
        };
    }
    let next = crate::run::run_on(piece, st);
    let at = st.at;
    let octets = next.at - at;
    let n = octets.min(buffer.len() - at);
    headers::copy(buffer, at, &piece[0..n]);
    let reply = crate::parse::reply(next);
    let scan = next_item(next);
    Step {
        answer: Ok(Taken { reply, octets }),
        parser: StreamParser { scan },
    }
}

// The record with a version.
fn with_version(st: Scan, version: Version) -> Scan
    ensures { result ≡ by_version version st }
{
    Scan {
        crlf: crate::version::has_crlf(version),
        ..st
    }
}

// The items from here on are read by a protocol version: the stream parser that is left where it is taken. It is taken only between
// items: inside an item, after a refusal or with an invalid record nothing changes.
pub fn tell(parser: StreamParser, version: Version) -> Option<StreamParser>
    ensures { (is_some result ≡ is_taken parser.scan)
        × ((unwrap_or result parser).scan ≡ tell_state version parser.scan) }
{
    let st = parser.scan;
    if !is_resumable(st) | (st.phase != Scan::START) {
        return None;
    }
    let scan = with_version(st, version);
    Some(StreamParser { scan })
}
