// One call of headers, and its answer shown.
use crate::show::{front, written, yes_or_no};
use headers::{Field, LineError, Malformed, Style, TooShort, Unwritable};
use std::io;
use std::io::Write;

// How text is written in version 1.2.
pub(crate) const ESCAPED: Style = Style {
    escapes: true,
    crlf: true,
};

// The same without escapes.
pub(crate) const PLAIN: Style = Style {
    escapes: false,
    crlf: true,
};

// How text is written in version 1.1.
pub(crate) const OLDER: Style = Style {
    escapes: true,
    crlf: false,
};

// The numbers that are shown for what headers refuses, as frames has them: a record that does not fit, a block that is not whole, a line
// that cannot be written, and a line or a number that does not fit.
const NO_ROOM_FOR_RECORD: u32 = 21;

const MALFORMED: u32 = 22;

const UNWRITABLE: u32 = 53;

const NO_ROOM_FOR_TEXT: u32 = 56;

// Writes a record of raw text into room octets, and shows what was written.
pub(crate) fn record<W: Write>(
    output: &mut W,
    label: &[u8],
    name: &[u8],
    value: &[u8],
    style: Style,
    room: usize,
) -> io::Result<()> {
    output.write_all(label)?;
    if !headers::is_raw(name, style, Field::Name) || !headers::is_raw(value, style, Field::Value) {
        return output.write_all(b"not raw text\n");
    }
    written(output, room, |d| {
        headers::write_decoded(d, name, value, style).map_err(|_| NO_ROOM_FOR_RECORD)
    })
}

// Writes a record where there is room for any, and shows the answer and the first octets of the buffer.
pub(crate) fn long_record<W: Write>(
    output: &mut W,
    label: &[u8],
    name: &[u8],
    value: &[u8],
) -> io::Result<()> {
    output.write_all(label)?;
    let mut d = [7u8; 65600];
    match headers::write_decoded(&mut d, name, value, ESCAPED) {
        Ok(n) => write!(output, "{n}")?,
        Err(TooShort) => write!(output, "{NO_ROOM_FOR_RECORD}")?,
    }
    front(output, &d, 8)
}

// The number of a line that is not written.
fn line_number(e: LineError) -> u32 {
    match e {
        LineError::Unwritable => UNWRITABLE,
        LineError::TooShort => NO_ROOM_FOR_TEXT,
    }
}

// Writes a line into room octets, and shows what was written.
pub(crate) fn line<W: Write>(
    output: &mut W,
    label: &[u8],
    name: &[u8],
    value: &[u8],
    style: Style,
    room: usize,
) -> io::Result<()> {
    output.write_all(label)?;
    written(output, room, |d| {
        headers::write_line(d, name, value, style).map_err(line_number)
    })
}

// Looks a name up, and shows its value's start and length, how many later entries of the name follow, and the value's octets.
pub(crate) fn find<W: Write>(
    output: &mut W,
    label: &[u8],
    block: &[u8],
    name: &[u8],
) -> io::Result<()> {
    output.write_all(label)?;
    match headers::find(block, name) {
        Ok(Some(p)) => {
            let (start, len, later) = (p.start, p.len, p.later);
            write!(output, "{start} {len} {later}")?;
            front(output, block.get(start..).unwrap_or(&[]), len)
        }
        Ok(None) => output.write_all(b"none\n"),
        Err(Malformed) => writeln!(output, "{MALFORMED}"),
    }
}

// Shows the record at a place of a block.
pub(crate) fn entry<W: Write>(output: &mut W, block: &[u8], at: usize) -> io::Result<()> {
    write!(output, "at {at}: ")?;
    match headers::entry_at(block, at) {
        Ok(Some(l)) => {
            let (name, value) = (l.name, l.value);
            writeln!(output, "{name} {value}")
        }
        Ok(None) => output.write_all(b"end\n"),
        Err(Malformed) => writeln!(output, "{MALFORMED}"),
    }
}

// Whether a block is valid.
pub(crate) fn valid<W: Write>(output: &mut W, label: &[u8], block: &[u8]) -> io::Result<()> {
    output.write_all(label)?;
    yes_or_no(output, headers::is_valid(block))
}

// The length of the line of a value.
pub(crate) fn length<W: Write>(
    output: &mut W,
    label: &[u8],
    value: &[u8],
    style: Style,
) -> io::Result<()> {
    output.write_all(label)?;
    line_length(output, headers::line_length(b"x", value, style))
}

// The length of the line of a name and a value in one text.
pub(crate) fn length_of<W: Write>(
    output: &mut W,
    label: &[u8],
    text: &[u8],
    name: usize,
    style: Style,
) -> io::Result<()> {
    output.write_all(label)?;
    line_length(output, headers::entry_length(text, name, style))
}

fn line_length<W: Write>(output: &mut W, answer: Result<usize, Unwritable>) -> io::Result<()> {
    match answer {
        Ok(n) => writeln!(output, "{n}"),
        Err(Unwritable) => writeln!(output, "{UNWRITABLE}"),
    }
}

// The length of a value encoded, and that of it decoded.
pub(crate) fn lengths<W: Write>(output: &mut W, label: &[u8], value: &[u8]) -> io::Result<()> {
    output.write_all(label)?;
    let encoded = headers::encoded_length(value, ESCAPED);
    let decoded = headers::decoded_length(value, ESCAPED);
    writeln!(output, "{encoded} {decoded}")
}

// The number that the text says, at most the limit.
pub(crate) fn decimal<W: Write>(
    output: &mut W,
    label: &[u8],
    s: &[u8],
    limit: u32,
) -> io::Result<()> {
    output.write_all(label)?;
    match headers::read_decimal(s, limit) {
        Some(n) => writeln!(output, "{n}"),
        None => output.write_all(b"invalid\n"),
    }
}

// Text that is its own label.
pub(crate) fn decimal_itself<W: Write>(output: &mut W, s: &[u8], limit: u32) -> io::Result<()> {
    output.write_all(s)?;
    decimal(output, b": ", s, limit)
}

// Writes a number into room octets, and shows its length and what was written.
pub(crate) fn shortest<W: Write>(output: &mut W, n: u64, room: usize) -> io::Result<()> {
    let len = headers::decimal_length(n);
    let no_room = if room < len { ", no room" } else { "" };
    write!(output, "{n}{no_room}: {len} ")?;
    written(output, room, |d| {
        headers::write_decimal(d, n).map_err(|_| NO_ROOM_FOR_TEXT)
    })
}
