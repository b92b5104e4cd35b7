// Decoding: the entries of a frame, as a header block.
ghost use Rattle.std.specs.Prelude.{◌≡◌, ◌≤◌, length};
ghost use Rattle.headers.specs.Rows.{All};
ghost use Rattle.headers.specs.Stretches.{Stretch};
ghost use Rattle.headers.specs.Block.{image, Short};
ghost use Rattle.headers.specs.Answers.{left_in, Puts, written_record, decoded_answer, record_says};
ghost use Rattle.frames.specs.Layout.{entries_of};
ghost use Rattle.frames.specs.Decoding.{Decodes};
ghost use Rattle.frames.specs.Answers.{decode_number, decoded_says};

use crate::parse::Item;
use crate::version::Version;
use headers::{Known, Style, TooShort};

// Why nothing is decoded: it is not exactly one frame (20), or the block is too short (21).
#[derive(Clone, Copy)]
pub enum DecodeError {
    NotFrame = 20,
    TooShort = 21,
}

impl DecodeError {
    // Its number.
    pub fn number(self) -> u32
        ensures { result ≡ decode_number self }
    {
        self as u32
    }
}

// The header lines of a frame: where the first begins, how many they are, the octet that ends text there beside 10, and how text is
// decoded.
#[derive(Clone, Copy)]
pub(crate) struct HeadLines<'a> {
    pub frame: &'a [u8],
    pub from: usize,
    pub count: usize,
    pub cr: u8,
    pub style: Style,
}

// The record of a line at the front of d, as write_decoded puts it: the stretch without a backslash at the front of each text is known.
fn write_line_record(
    d: &mut [u8],
    name: &[u8],
    value: &[u8],
    known: Known,
    style: Style,
) -> Result<usize, TooShort>
    requires { Stretch name.now known.name × Stretch value.now known.value }
    ensures { (record_says result ≡ decoded_answer style (length d.old) name.now value.now)
        × (d.new ≡ left_in (decoded_answer style (length d.old) name.now value.now)
        (written_record style name.now value.now) d.old) }
{
    headers::write_known(d, name, value, known, style)
}

impl<'a> HeadLines<'a> {
    // How many octets the records of the lines have.
    fn measure(&self) -> usize
        requires { (self.now.from ≤ length self.now.frame.now) × (self.now.count ≤ 32) }
        ensures { result ≡ length (image (entries_of self.now)) }
    {
        let mut total = 0usize;
        let mut at = self.from;
        for i in 0..self.count {
            let l = crate::layout::line_at(self.frame, at, self.cr);
            let a = headers::decoded_length(&self.frame[at..l.colon], self.style);
            let b = headers::decoded_length(&self.frame[l.value..l.end], self.style);
            total = total + 6 + a + b;
            at = l.next;
        }
        total
    }

    // The records at the front of the block: their octets. Each is written by a call that is given the part of the block that is left.
    fn put_records(&self, block: &mut [u8]) -> usize
        requires { (self.now.from ≤ length self.now.frame.now)
            × (length (image (entries_of self.now)) ≤ length block.old)
            × All Short (entries_of self.now) }
        ensures { Puts (image (entries_of self.now)) result block.old block.new }
    {
        let mut used = 0usize;
        let mut at = self.from;
        for i in 0..self.count {
            let l = crate::layout::line_at(self.frame, at, self.cr);
            let k = write_line_record(
                &mut block[used..],
                &self.frame[at..l.colon],
                &self.frame[l.value..l.end],
                l.known,
                self.style,
            )
            .unwrap();
            used += k;
            at = l.next;
        }
        used
    }
}

// The entries of exactly one frame of a protocol version, decoded, as records at the front of the block. Every refusal is settled before the first octet
// is written: 16,544 octets hold the records of any frame, and only a shorter block is measured against them.
pub fn decode(version: Version, frame: &[u8], block: &mut [u8]) -> Result<usize, DecodeError>
    ensures { Decodes version frame.now block.old (decoded_says result) block.new }
{
    let Ok(Some(Item::Frame(item))) = crate::parse::parse(version, frame) else {
        return Err(DecodeError::NotFrame);
    };
    if item.len != frame.len() {
        return Err(DecodeError::NotFrame);
    }
    let crlf = crate::version::has_crlf(version);
    let cr = crate::ahead::or_10(crlf, 13);
    let lines = HeadLines {
        frame,
        from: crate::layout::first_line(frame, cr),
        count: item.headers,
        cr,
        style: crate::word::style_of(crlf, item.command),
    };
    if block.len() < crate::limits::BLOCK {
        if block.len() < lines.measure() {
            return Err(DecodeError::TooShort);
        }
    }
    Ok(lines.put_records(block))
}
