// Encoding: the octets of a frame, from a command, a header block and a body.
ghost use Rattle.std.specs.Prelude.{◌≡◌, Ok, false, true, ◌&&◌, ◌||◌, ℕ, ◌+◌, ◌*◌, ◌≤◌, eqb, ltb, length};
ghost use Rattle.headers.specs.Numbers.{decimal, is_amount};
ghost use Rattle.headers.specs.Block.{entries, listed};
ghost use Rattle.headers.specs.Answers.{is_block};
ghost use Rattle.frames.specs.Grammar.{crlf};
ghost use Rattle.frames.specs.Encoding.{first_length, adds_length, says_length, Encodes};
ghost use Rattle.frames.specs.Scanning.{style_of};
ghost use Rattle.frames.specs.Writing.{Told, Tells, Sums, Known, Settles, call_answer, lengths_of};
ghost use Rattle.frames.specs.Answers.{encode_number, named_entry, encoded_says};

use crate::version::Version;
use headers::{FirstValue, Malformed, Style};

// Why no frame is written: the command is unknown (50), the block malformed (51), there are too many lines (52), the entry of an index
// cannot be written (53), the body is not allowed or too long (54), the first content-length is not the body's (55), or the target is
// too short (56).
#[derive(Clone, Copy)]
pub enum EncodeError {
    UnknownCommand,
    Malformed,
    TooManyLines,
    Unwritable(usize),
    BadBody,
    WrongLength,
    TooShort,
}

impl EncodeError {
    // Its number.
    pub fn number(self) -> u32
        ensures { result ≡ encode_number self }
    {
        match self {
            EncodeError::UnknownCommand => 50,
            EncodeError::Malformed => 51,
            EncodeError::TooManyLines => 52,
            EncodeError::Unwritable(i) => 53,
            EncodeError::BadBody => 54,
            EncodeError::WrongLength => 55,
            EncodeError::TooShort => 56,
        }
    }

    // The index of an entry, which only 53 names.
    pub fn entry(self) -> Option<usize>
        ensures { result ≡ named_entry self }
    {
        match self {
            EncodeError::Unwritable(i) => Some(i),
            _ => None,
        }
    }
}

impl From<Malformed> for EncodeError {
    ghost use Rattle.frames.specs.declared.encode.EncodeError.{EncodeError};

    ghost from_gives = { λ _ e. e ≡ EncodeError.Malformed };

    fn from(_: Malformed) -> EncodeError {
        EncodeError::Malformed
    }
}

// A call: the frame that is asked for, and whether it is to have a length line.
#[derive(Clone, Copy)]
pub(crate) struct Request<'a> {
    pub version: Version,
    pub command: u32,
    pub block: &'a [u8],
    pub body: &'a [u8],
    pub counted: bool,
}

// What the entries of a block come to: how many they are, or 33; how many from the front can be written; the octets of the lines of
// those, with their line ends.
#[derive(Clone, Copy)]
pub(crate) struct Totals {
    pub count: usize,
    pub good: usize,
    pub total: usize,
}

// An image: how long it is, whether a length line is added, and whether no octet of the block is escaped in its lines.
#[derive(Clone, Copy)]
pub(crate) struct Image {
    pub len: usize,
    pub adds: bool,
    pub plain: bool,
}

// The first value of content-length, where an entry has the name.
fn declared_length(block: &[u8]) -> Result<Option<FirstValue>, Malformed>
    ensures { Tells block.now result }
{
    headers::find(block, b"content-length")
}

// One pass over the entries; it ends at the 33rd.
fn sum(block: &[u8], style: Style) -> Totals
    requires { is_block block.now ≡ true }
    ensures { Sums style (listed (entries block.now)) result }
{
    let mut good = 0usize;
    let mut total = 0usize;
    let mut at = 0usize;
    for count in 0..33 {
        let Ok(Some(l)) = headers::entry_at(block, at) else {
            return Totals { count, good, total };
        };
        let from = at + 6;
        at = from + l.name + l.value;
        if good == count {
            if let Ok(k) = headers::entry_length(&block[from..at], l.name, style) {
                good += 1;
                total = total + k + 1;
            }
        }
    }
    Totals {
        count: 33,
        good,
        total,
    }
}

// Whether a value is digits that say n.
fn says_length(value: &[u8], n: usize) -> bool
    requires { n ≤ 32768 }
    ensures { result ≡ is_amount n value.now && eqb (decimal 0 value.now) n }
{
    // No From goes between u32 or u64 and usize, so they are cast, here and below.
    match headers::read_decimal(value, n as u32) {
        Some(m) => m as usize == n,
        None => false,
    }
}

// The octets of an image: the command's word, the lines of the entries, the added line if there is one, the body, and what stands
// between them.
fn image_length(command: u32, lines: usize, adds: bool, body: usize) -> usize
    requires { (command ≤ 15) × (lines ≤ 16929) × (body ≤ 32768) }
    ensures { result ≡ lengths_of command lines adds body }
{
    let plain = crate::valid::word_len(command) + lines + body + 3;
    if adds {
        return plain + 16 + headers::decimal_length(body as u64);
    }
    plain
}

// Whether the lines that were summed are as long as the text of a block of so many octets: a record has four octets more than a line
// of which no octet is escaped.
fn is_plain(sums: Totals, block: usize) -> bool
    requires { (sums.count ≤ 33) × (sums.total ≤ 16929) }
    ensures { result ≡ eqb (sums.total + 4 * sums.count) block }
{
    sums.total + 4 * sums.count == block
}

impl<'a> Request<'a> {
    // How its lines are written.
    pub fn style(&self) -> Style
        ensures { result ≡ style_of (crlf self.now.version) self.now.command }
    {
        crate::word::style_of(crate::version::has_crlf(self.version), self.command)
    }

    // Whether a length line is added: no entry has the name, and the body holds octet 0 or, where the line is asked for, is not empty.
    // The body is looked through only where that decides.
    fn adds_length(&self, declared: Option<FirstValue>) -> bool
        requires { Told self.now.block.now declared }
        ensures { result ≡ adds_length (listed (entries self.now.block.now)) self.now.body.now self.now.counted }
    {
        if declared.is_some() {
            return false;
        }
        if self.counted {
            return !self.body.is_empty();
        }
        crate::ahead::long_span(self.body) < self.body.len()
    }

    // Whether the first content-length, where there is one, says the body's length.
    fn says_body(&self, declared: Option<FirstValue>) -> bool
        requires { Told self.now.block.now declared × (length self.now.body.now ≤ 32768) }
        ensures { result ≡ says_length (length self.now.body.now) (first_length (listed (entries self.now.block.now))) }
    {
        match declared {
            Some(p) => says_length(&self.block[p.start..p.start + p.len], self.body.len()),
            None => true,
        }
    }

    // The image's length where the command is known and the block is well formed, or the first refusal from 52 on.
    fn checked_length(
        &self,
        declared: Option<FirstValue>,
        sums: Totals,
        adds: bool,
        room: usize,
    ) -> Result<usize, EncodeError>
        requires { Known self.now declared sums adds }
        ensures { (encoded_says result ≡ call_answer self.now room)
            × ((n : ℕ) → result ≡ Ok n → (length (listed (entries self.now.block.now)) ≤ 32) × (sums.count ≤ sums.good)) }
    {
        if crate::limits::LINES < sums.count + usize::from(adds) {
            return Err(EncodeError::TooManyLines);
        }
        if sums.good < sums.count {
            return Err(EncodeError::Unwritable(sums.good));
        }
        if crate::word::most_of(self.command) < self.body.len() {
            return Err(EncodeError::BadBody);
        }
        if !self.says_body(declared) {
            return Err(EncodeError::WrongLength);
        }
        let total = image_length(self.command, sums.total, adds, self.body.len());
        if room < total {
            return Err(EncodeError::TooShort);
        }
        Ok(total)
    }

    // The image, where the call is not refused.
    fn settle(&self, room: usize) -> Result<Image, EncodeError>
        ensures { Settles self.now room result }
    {
        if (self.command == 0) | (15 < self.command) {
            return Err(EncodeError::UnknownCommand);
        }
        let declared = declared_length(self.block)?;
        let adds = self.adds_length(declared);
        let sums = sum(self.block, self.style());
        let len = self.checked_length(declared, sums, adds, room)?;
        let plain = is_plain(sums, self.block.len());
        Ok(Image { len, adds, plain })
    }
}

// The octets of a frame, in a protocol version, at the front of the target; counted asks for a length line, which is added without it
// only where the body holds octet 0. Every refusal is settled before the first octet is written.
pub fn encode(
    version: Version,
    command: u32,
    block: &[u8],
    body: &[u8],
    target: &mut [u8],
    counted: bool,
) -> Result<usize, EncodeError>
    ensures { Encodes version
        (record { command = command; block = block.now; body = body.now; counted = counted })
        target.old (encoded_says result) target.new }
{
    let request = Request {
        version,
        command,
        block,
        body,
        counted,
    };
    let image = request.settle(target.len())?;
    crate::put::put_frame(target, &request, image);
    Ok(image.len)
}
