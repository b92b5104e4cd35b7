// Every octet of ASCII in a value, and longer characters, written as a line and read back from it.
use crate::calls::{ESCAPED, PLAIN, length, length_of, lengths};
use crate::show::yes_or_no;
use headers::Field;
use std::io;
use std::io::Write;

// The octets 0 to 127.
fn all_octets() -> [u8; 128] {
    let mut all = [0u8; 128];
    for x in 0..128u8 {
        all[usize::from(x)] = x;
    }
    all
}

// The octets 0 to 127 as a value: encoded, decoded again, and compared.
pub(crate) fn every_octet<W: Write>(output: &mut W) -> io::Result<()> {
    let all = all_octets();
    let value: &[u8] = &all;
    lengths(output, b"every octet of ASCII: ", value)?;
    again(output, value)?;
    length(output, b"every octet of ASCII, no escapes: ", value, PLAIN)
}

// The same of characters of two, three and four octets; and what is no UTF-8: a character that is cut, the first that is longer than it
// need be, half of a surrogate pair, and the first beyond the last.
pub(crate) fn characters<W: Write>(output: &mut W) -> io::Result<()> {
    let value: &[u8] = &[195u8, 169, 226, 130, 172, 240, 159, 140, 138];
    lengths(output, b"characters: ", value)?;
    again(output, value)?;
    length(output, b"characters, no escapes: ", value, PLAIN)?;
    length(output, b"a cut character: ", &[226u8, 130], ESCAPED)?;
    length(
        output,
        b"longer than it need be: ",
        &[224u8, 159, 191],
        ESCAPED,
    )?;
    length(
        output,
        b"half of a surrogate pair: ",
        &[237u8, 160, 128],
        PLAIN,
    )?;
    length(
        output,
        b"beyond the last: ",
        &[244u8, 144, 128, 128],
        ESCAPED,
    )?;
    length_of(output, b"cut by the value: ", &[97u8, 195, 169], 2, ESCAPED)
}

// A value written as a line, its raw value made a record, and the record's value compared with it.
fn again<W: Write>(output: &mut W, value: &[u8]) -> io::Result<()> {
    let mut raw = [0u8; 600];
    let Ok(n) = headers::write_line(&mut raw, b"x", value, ESCAPED) else {
        return Ok(());
    };
    match raw.get(2..n.saturating_sub(1)) {
        Some(text) => raw_again(output, text, value),
        None => Ok(()),
    }
}

// A raw value made a record, and the record's value compared with another.
fn raw_again<W: Write>(output: &mut W, text: &[u8], value: &[u8]) -> io::Result<()> {
    let len = text.len();
    write!(output, "its raw value: {len} ")?;
    yes_or_no(output, headers::is_raw(text, ESCAPED, Field::Value))?;
    let mut block = [0u8; 600];
    if headers::write_decoded(&mut block, b"x", text, ESCAPED).is_err() {
        return Ok(());
    }
    compare(output, &block, value)
}

// Whether the value of the first record of a buffer, whose name has one octet, is this one.
fn compare<W: Write>(output: &mut W, block: &[u8], value: &[u8]) -> io::Result<()> {
    let Ok(Some(l)) = headers::entry_at(block, 0) else {
        return Ok(());
    };
    let Some(found) = block.get(7..).unwrap_or(&[]).get(..l.value) else {
        return Ok(());
    };
    output.write_all(b"decoded again: ")?;
    yes_or_no(output, found == value)
}
