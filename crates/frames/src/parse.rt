// Parsing: the reply to any octets.
ghost use Rattle.std.specs.Prelude.{◌≡◌, true, is_some, IfSome, ◌+◌, ◌*◌, ◌%◌, ◌≤◌};
ghost use Rattle.frames.specs.Parsing.{parsed};
ghost use Rattle.frames.specs.Replies.{used_of};
ghost use Rattle.frames.specs.Refusals.{numbered};
ghost use Rattle.frames.specs.Scanning.{scan_reply};
ghost use Rattle.frames.specs.Exactness.{Exact};
ghost use Rattle.frames.specs.Streams.{is_number, is_numbered};
ghost use Rattle.frames.specs.Answers.{row_of, item_says, parsed_says};

use crate::state::Scan;
use crate::version::Version;

// A frame: the octets that it has, its command, the number of its headers, and where its body begins and how long it is.
#[derive(Clone, Copy)]
pub struct Frame {
    pub len: usize,
    // A number, and no enum: C gives and gets it, and a stream parser that C made up may have any.
    pub command: u32,
    pub headers: usize,
    pub body: usize,
    pub body_len: usize,
}

// An item: a heart-beat, with the octets that it has, or a frame.
#[derive(Clone, Copy)]
pub enum Item {
    HeartBeat(usize),
    Frame(Frame),
}

impl Frame {
    // What is told of it beside its octets, in one number.
    pub(crate) fn packed(self) -> u64
        requires { (self.headers ≤ 64) × (self.body ≤ 70000) × (self.body_len ≤ 70000) }
        ensures { result ≡ self.command % 16 + 16 * (self.headers + 64 * (self.body + 65536 * self.body_len)) }
    {
        // No From goes from usize to u64, so it is cast, here and below.
        let body = (self.body as u64) + 65536 * (self.body_len as u64);
        u64::from(self.command % 16) + 16 * ((self.headers as u64) + 64 * body)
    }
}

impl Item {
    // The octets that it has.
    pub fn len(self) -> usize
        ensures { result ≡ used_of (item_says self) }
    {
        match self {
            Item::HeartBeat(n) => n,
            Item::Frame(frame) => frame.len,
        }
    }
}

// Why an octet is refused. The numbers are those of the table of refusals.
#[derive(Clone, Copy)]
pub enum Reason {
    // It leaves no command, and does not begin a heart-beat.
    NoCommand = 1,

    // It follows 13 and is not 10; never in version 1.1.
    No10 = 2,

    // It is a colon with an empty name.
    Nameless = 3,

    // It makes the line, with what it still owes, longer than 512.
    LongLine = 4,

    // It begins a 33rd header line.
    ManyLines = 5,

    // It spoils the first content-length.
    BadLength = 6,

    // It is where only octet 0 can be.
    PastBody = 7,

    // It is a second colon.
    SecondColon = 8,

    // It begins a line end before the colon.
    NoColon = 9,

    // It is no escape's letter after a backslash.
    WrongEscape = 10,

    // An octet that no character has there.
    NotUtf8 = 11,
}

impl Reason {
    // Its number.
    pub fn number(self) -> u32
        ensures { result ≡ numbered (row_of self) }
    {
        self as u32
    }

    // The reason that has a number, where it is one of the table.
    pub(crate) fn of_number(number: u32) -> Option<Reason>
        ensures { (is_some result ≡ is_number number) × IfSome result (λ r. numbered (row_of r) ≡ number) }
    {
        match number {
            1 => Some(Reason::NoCommand),
            2 => Some(Reason::No10),
            3 => Some(Reason::Nameless),
            4 => Some(Reason::LongLine),
            5 => Some(Reason::ManyLines),
            6 => Some(Reason::BadLength),
            7 => Some(Reason::PastBody),
            8 => Some(Reason::SecondColon),
            9 => Some(Reason::NoColon),
            10 => Some(Reason::WrongEscape),
            11 => Some(Reason::NotUtf8),
            _ => None,
        }
    }
}

// A refusal: why, and the first octet that no item can have there.
#[derive(Clone, Copy)]
pub struct Refusal {
    pub reason: Reason,
    pub offset: usize,
}

impl Refusal {
    // Both in one number.
    pub(crate) fn packed(self) -> u64
        requires { self.offset ≤ 70000 }
        ensures { result ≡ numbered (row_of self.reason) + 256 * self.offset }
    {
        u64::from(self.reason.number()) + 256 * (self.offset as u64)
    }
}

// The reply that a state has: the item that is read, none yet, or the refusal.
pub(crate) fn reply(st: Scan) -> Result<Option<Item>, Refusal>
    requires { is_numbered st ≡ true }
    ensures { parsed_says result ≡ scan_reply st }
{
    let phase = st.phase;
    if phase == Scan::HEART_BEAT_READ {
        return Ok(Some(Item::HeartBeat(st.at)));
    }
    if phase == Scan::FRAME_READ {
        let body = st.at.saturating_sub(1).saturating_sub(st.len);
        return Ok(Some(Item::Frame(Frame {
            len: st.at,
            command: st.command,
            headers: st.lines,
            body,
            body_len: st.len,
        })));
    }
    if phase == Scan::REFUSED {
        return Err(Refusal {
            reason: Reason::of_number(st.code).unwrap(),
            offset: st.at,
        });
    }
    Ok(None)
}

// The reply to the octets, in a protocol version: the item that they begin with, that they can still be finished, or where and why not.
pub fn parse(version: Version, octets: &[u8]) -> Result<Option<Item>, Refusal>
    ensures { (parsed_says result ≡ parsed version octets.now)
        × Exact version octets.now (parsed_says result) }
{
    let begin = crate::state::nothing_read(crate::version::has_crlf(version));
    reply(crate::run::run(octets, 0, begin))
}
