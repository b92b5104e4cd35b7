// The sizes of frames.

// The header lines of a frame.
pub const LINES: usize = 32;

// The octets of a raw header line, its line end not counted.
pub const LINE: usize = headers::LINE_MAX;

// The octets of a line before a backslash: the escape owes its letter.
pub const LINE_BEFORE_ESCAPE: usize = LINE - 1;

// The octets of a name, and of a name and a value together: the line has its colon too.
pub const NAME: usize = headers::TEXT_MAX;

// The octets of a name before a backslash.
pub const NAME_BEFORE_ESCAPE: usize = NAME - 1;

// The octets of a body.
pub const BODY: usize = 32768;

// The octets of the longest header block that decoding writes.
pub const BLOCK: usize = 16544;

// The octets of the longest frame.
pub const FRAME: usize = 49228;

// The octets of an item that is not whole yet.
pub const HELD: usize = FRAME - 1;
