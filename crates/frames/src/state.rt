// The state of a scan: what of an item has been read, in numbers, and the moves to the next one.
ghost use Rattle.std.specs.Prelude.{◌≡◌};
ghost use Rattle.frames.specs.Scanning.{Valid, style_of, nothing_read, to_phase, in_head, in_line, in_part, frame_read, invalid, skip};
ghost use Rattle.frames.specs.Refusals.{numbered};
ghost use Rattle.frames.specs.Answers.{row_of};

use crate::parse::Reason;
use crate::word::style_of;
use headers::Style;

// How far an item is read. The small fields stand together at the end, so that the state has no gaps inside, which are slow to copy.
// Phase, command and code are numbers, and any numbers. So are matched, where 15 stands for another name, rest, an octet that codes how
// far a character is read, and size, which stands beside sized and is no Option: they are fields of the record of 16 octets that C
// keeps, any octets may be there, specs/Scanning reads them as numbers, and its definitions order the phases.
#[derive(Clone, Copy)]
pub struct Scan {
    // Header lines read.
    pub lines: usize,
    // How many octets of content-length the name is, or OTHER_NAME once it is another.
    pub matched: usize,
    // The content-length, or the number of its digits so far.
    pub size: usize,
    // The octets of the header line, its colon counted, or of the body.
    pub len: usize,
    // The octets of the item.
    pub at: usize,
    // Where the next octet is.
    pub phase: u8,
    // How far a character is read, inside one: 92 after a backslash, its first octet, or how many octets of it are to come; otherwise 0.
    pub rest: u8,
    // Whether a content-length is declared.
    pub sized: bool,
    // Whether octet 13 begins a line end, as in version 1.2.
    pub crlf: bool,
    // The number of the refusal.
    pub code: u32,
    // The command's number; while its word is read, the first command that begins so.
    pub command: u32,
}

// The phases: where the next octet is.
impl Scan {
    // At the start.
    pub const START: u8 = 0;

    // After the 13 of a heart-beat.
    pub const HEART_BEAT_CR: u8 = 1;

    // In a command.
    pub const IN_COMMAND: u8 = 2;

    // After the 13 of its line end.
    pub const COMMAND_CR: u8 = 3;

    // Where a line or the empty line begins.
    pub const LINE_START: u8 = 4;

    // In a name.
    pub const IN_NAME: u8 = 5;

    // Inside a character of it.
    pub const NAME_PART: u8 = 6;

    // In a value.
    pub const IN_VALUE: u8 = 7;

    // Inside a character of it.
    pub const VALUE_PART: u8 = 8;

    // In the first content-length.
    pub const IN_LENGTH: u8 = 9;

    // After the 13 of a line's end.
    pub const LINE_CR: u8 = 10;

    // After the 13 of the empty line.
    pub const BLANK_CR: u8 = 11;

    // In a body without a length.
    pub const IN_BODY: u8 = 12;

    // In a body with one.
    pub const IN_COUNTED: u8 = 13;

    // A heart-beat is read.
    pub const HEART_BEAT_READ: u8 = 14;

    // A frame is read.
    pub const FRAME_READ: u8 = 15;

    // Refused.
    pub const REFUSED: u8 = 16;
}

// Before the first octet.
pub(crate) fn nothing_read(crlf: bool) -> Scan
    ensures { result ≡ nothing_read crlf }
{
    Scan {
        phase: Scan::START,
        command: 0,
        lines: 0,
        matched: 0,
        sized: false,
        size: 0,
        len: 0,
        at: 0,
        code: 0,
        rest: 0,
        crlf,
    }
}

// A scan that passes the tests for states of a run, as every one that a run leaves does: one octet more overflows none of its numbers.
#[derive(Clone, Copy)]
pub(crate) struct ValidScan {
    pub scan: Scan,
    ghost valid: { Valid scan },
}

// What the command makes of header text, and the moves to the next state.
impl ValidScan {
    // What the command makes of header text.
    pub(crate) fn style(self) -> Style
        ensures { result ≡ style_of self.scan.crlf self.scan.command }
    {
        style_of(self.scan.crlf, self.scan.command)
    }

    // One octet on, outside a head.
    pub(crate) fn to_phase(self, phase: u8, command: u32) -> Scan
        ensures { result ≡ to_phase self.scan phase command }
    {
        Scan {
            phase,
            command,
            at: self.scan.at + 1,
            ..nothing_read(self.scan.crlf)
        }
    }

    // One octet on, in a head that has so many lines and that length.
    pub(crate) fn in_head(self, phase: u8, lines: usize, sized: bool, size: usize) -> Scan
        ensures { result ≡ in_head self.scan phase lines sized size }
    {
        Scan {
            lines,
            sized,
            size,
            ..self.to_phase(phase, self.scan.command)
        }
    }

    // One octet on, inside a character of a line that is read as far as rest says.
    pub(crate) fn in_part(
        self,
        phase: u8,
        matched: usize,
        size: usize,
        len: usize,
        rest: u8,
    ) -> Scan
        ensures { result ≡ in_part self.scan phase matched size len rest }
    {
        Scan {
            matched,
            len,
            rest,
            ..self.in_head(phase, self.scan.lines, self.scan.sized, size)
        }
    }

    // One octet on, in a line or a body.
    pub(crate) fn in_line(self, phase: u8, matched: usize, size: usize, len: usize) -> Scan
        ensures { result ≡ in_line self.scan phase matched size len }
    {
        self.in_part(phase, matched, size, len, 0)
    }

    // A frame is read.
    pub(crate) fn frame_read(self) -> Scan
        ensures { result ≡ frame_read self.scan }
    {
        Scan {
            lines: self.scan.lines,
            len: self.scan.len,
            ..self.to_phase(Scan::FRAME_READ, self.scan.command)
        }
    }

    // The octet is refused.
    pub(crate) fn refused(self, reason: Reason) -> Scan
        ensures { result ≡ invalid self.scan (numbered (row_of reason)) }
    {
        Scan {
            phase: Scan::REFUSED,
            at: self.scan.at,
            code: reason.number(),
            ..nothing_read(self.scan.crlf)
        }
    }

    // The state k octets on, in the same phase.
    pub(crate) fn skip(self, k: usize) -> ValidScan
        requires { Valid (skip k self.scan) }
        ensures { result.scan ≡ skip k self.scan }
    {
        ValidScan {
            scan: Scan {
                len: self.scan.len + k,
                at: self.scan.at + k,
                ..self.scan
            },
        }
    }
}
