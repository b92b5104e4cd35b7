// One raw header line, written from an entry's name and value.
ghost use Rattle.std.specs.Prelude.{◌≡◌, cond, ◌&&◌, ◌+◌, ◌≤◌, ◌<◌, length, take, drop, leb, ltb, is_some, IfSome};
ghost use Rattle.headers.specs.Rows.{every};
ghost use Rattle.headers.specs.Text.{ascii, is_utf8};
ghost use Rattle.headers.specs.Escapes.{escaped, writable, encode};
ghost use Rattle.headers.specs.Stretches.{plain_line};
ghost use Rattle.headers.specs.Lines.{entry_of, can_stand, written_line};
ghost use Rattle.headers.specs.declared.text.Field.TheVariants.{Name};
ghost use Rattle.headers.specs.Answers.{left_in, Puts, writable_answer, length_answer, length_says, encoded_answer, line_answer, written_says, line_says};

use crate::octets::{TooShort, both_fit, copy};
use crate::text::{
    Field, Style, can_write, encoded_length, encoded_width, has_escape, is_writable, put_encoded,
};
use crate::utf8::is_utf8;

// The octets of a raw header line, its line end not counted.
pub const LINE_MAX: usize = 512;

// The octets of its name and value: the line has its colon too.
pub const TEXT_MAX: usize = 511;

// That an entry, or a text of one, cannot be written (53).
#[derive(Clone, Copy)]
pub struct Unwritable;

// Why a line is not written: the entry cannot be written (53), or has no room (56).
#[derive(Clone, Copy)]
pub enum LineError {
    Unwritable,
    TooShort,
}

impl From<Unwritable> for LineError {
    ghost use Rattle.headers.specs.declared.line.LineError.{LineError};

    ghost from_gives = { λ _ e. e ≡ LineError.Unwritable };

    fn from(_: Unwritable) -> LineError {
        LineError::Unwritable
    }
}

impl From<TooShort> for LineError {
    ghost use Rattle.headers.specs.declared.line.LineError.{LineError};

    ghost from_gives = { λ _ e. e ≡ LineError.TooShort };

    fn from(_: TooShort) -> LineError {
        LineError::TooShort
    }
}

// What is known of short text, each octet of which can be written: how long it is encoded, and whether every octet is below 128.
#[derive(Clone, Copy)]
pub(crate) struct Measured {
    pub length: usize,
    pub ascii: bool,
}

// What is known of a block: how many octets of it from a place on are escaped, and its largest octet.
#[derive(Clone, Copy)]
pub(crate) struct Tally {
    pub escapes: u8,
    pub most: u8,
}

// The larger of two octets.
fn larger(a: u8, b: u8) -> u8
    ensures { ltb result 128 ≡ ltb a 128 && ltb b 128 }
{
    a.max(b)
}

// One where the octet is escaped and is to be counted.
fn escape_count(style: Style, x: u8, counts: bool) -> u8
    ensures { result ≡ cond (escaped style x && counts) 1 0 }
{
    u8::from(has_escape(style, x) & counts)
}

// One pass over a block, in which octets from a place on are counted: every octet is looked at, so that many are at once.
fn tally_block(block: &[u8], from: usize, style: Style) -> Tally
    requires { (length block.now ≡ 32) × (from ≤ 32) }
    ensures { (result.escapes + length (drop from block.now) ≡ length (encode style (drop from block.now)))
        × (ltb result.most 128 ≡ every ascii block.now) }
{
    let mut escapes = 0u8;
    let mut most = 0u8;
    for (i, x) in block.iter().enumerate() {
        escapes += escape_count(style, *x, from <= i);
        most = larger(most, *x);
    }
    Tally { escapes, most }
}

// One pass over text of a block or more, where any octet can be written: by blocks. The last block ends with the text; those of its
// octets that the block before it has too are not counted again.
fn measure_blocks(text: &[u8], style: Style) -> Measured
    requires { (32 ≤ length text.now) × (length text.now ≤ 511) }
    ensures { (result.length ≡ length (encode style text.now))
        × (result.ascii ≡ every ascii text.now) }
{
    let mut n = text.len();
    let mut most = 0u8;
    for k in 0..text.len() / 32 {
        let i = k * 32;
        let e = i + 32;
        let t = tally_block(&text[i..e], 0, style);
        n += usize::from(t.escapes);
        most = larger(most, t.most);
    }
    let last = text.len() - 32;
    let t = tally_block(&text[last..], text.len() / 32 * 32 - last, style);
    Measured {
        length: n + usize::from(t.escapes),
        ascii: larger(most, t.most) < 128,
    }
}

// The same of text that has no block: as the front of one that is filled with 0, which is not escaped.
fn measure_short(text: &[u8], style: Style) -> Measured
    requires { length text.now < 32 }
    ensures { (result.length ≡ length (encode style text.now))
        × (result.ascii ≡ every ascii text.now) }
{
    let mut block = [0u8; 32];
    copy(&mut block, 0, text);
    let t = tally_block(&block, 0, style);
    Measured {
        length: text.len() + usize::from(t.escapes),
        ascii: t.most < 128,
    }
}

// One pass over short text, octet by octet; nothing where an octet cannot be written.
fn measure_each(text: &[u8], style: Style, field: Field) -> Option<Measured>
    requires { length text.now ≤ 511 }
    ensures { (is_some result ≡ every (writable style field) text.now)
        × IfSome result (λ m. (m.length ≡ length (encode style text.now)) × (m.ascii ≡ every ascii text.now)) }
{
    let mut n = 0u16;
    let mut most = 0u8;
    for x in text {
        if !can_write(style, field, *x) {
            return None;
        }
        n += encoded_width(style, *x);
        most = larger(most, *x);
    }
    Some(Measured {
        length: usize::from(n),
        ascii: most < 128,
    })
}

// One pass over short text; nothing where an octet cannot be written.
fn measure(text: &[u8], style: Style, field: Field) -> Option<Measured>
    requires { length text.now ≤ 511 }
    ensures { (is_some result ≡ every (writable style field) text.now)
        × IfSome result (λ m. (m.length ≡ length (encode style text.now)) × (m.ascii ≡ every ascii text.now)) }
{
    if !style.escapes | (text.len() < 4) {
        return measure_each(text, style, field);
    }
    if text.len() < 32 {
        return Some(measure_short(text, style));
    }
    Some(measure_blocks(text, style))
}

// Whether the text is UTF-8, where it is known whether every octet is below 128.
fn is_known_utf8(text: &[u8], low: bool) -> bool
    requires { low ≡ every ascii text.now }
    ensures { result ≡ is_utf8 text.now }
{
    if low {
        return true;
    }
    is_utf8(text)
}

// How long short text is encoded; or that an octet of it cannot be written, or that it is not UTF-8 (53).
fn text_length(text: &[u8], style: Style, field: Field) -> Result<usize, Unwritable>
    requires { length text.now ≤ 511 }
    ensures { length_says result ≡ writable_answer (can_stand style field text.now) (length (encode style text.now)) }
{
    let m = measure(text, style, field).ok_or(Unwritable)?;
    if !is_known_utf8(text, m.ascii) {
        return Err(Unwritable);
    }
    Ok(m.length)
}

// Whether each octet of the name at the front of a text can be written there: where there are escapes, any can.
fn is_name(text: &[u8], name: usize, style: Style) -> bool
    ensures { result ≡ every (writable style Name) (take name text.now) }
{
    if style.escapes {
        return true;
    }
    let e = name.min(text.len());
    is_writable(&text[0..e], style, Field::Name)
}

// Whether a name and the value after it are UTF-8, each by itself, where it is known whether every octet of both is below 128.
fn are_utf8(text: &[u8], name: usize, low: bool) -> bool
    requires { low ≡ every ascii text.now }
    ensures { result ≡ is_utf8 (take name text.now) && is_utf8 (drop name text.now) }
{
    if low {
        return true;
    }
    let e = name.min(text.len());
    if !is_utf8(&text[0..e]) {
        return false;
    }
    is_utf8(&text[e..])
}

// How long the raw line of an entry is, its line end not counted.
pub fn line_length(name: &[u8], value: &[u8], style: Style) -> Result<usize, Unwritable>
    ensures { length_says result ≡ length_answer style (entry_of name.now value.now) }
{
    if name.len() == 0 {
        return Err(Unwritable);
    }
    if !both_fit(name.len(), value.len(), TEXT_MAX) {
        return Err(Unwritable);
    }
    let n = text_length(name, style, Field::Name)?;
    let v = text_length(value, style, Field::Value)?;
    if !both_fit(n, v, TEXT_MAX) {
        return Err(Unwritable);
    }
    Ok(n + 1 + v)
}

// The same of a name and the value after it in one text, the name's length being given: one pass over both, and one more where an octet
// is 128 or more.
pub fn entry_length(text: &[u8], name: usize, style: Style) -> Result<usize, Unwritable>
    ensures { length_says result ≡ length_answer style (entry_of (take name text.now) (drop name text.now)) }
{
    if (name == 0) | (text.len() == 0) {
        return Err(Unwritable);
    }
    if TEXT_MAX < text.len() {
        return Err(Unwritable);
    }
    let m = measure(text, style, Field::Value).ok_or(Unwritable)?;
    if !is_name(text, name, style) {
        return Err(Unwritable);
    }
    if !are_utf8(text, name, m.ascii) {
        return Err(Unwritable);
    }
    if TEXT_MAX < m.length {
        return Err(Unwritable);
    }
    Ok(m.length + 1)
}

// The raw line of an entry, with octet 10 behind it, at the front of d; its length.
fn put_line(d: &mut [u8], name: &[u8], value: &[u8], style: Style) -> usize
    requires { length (written_line style (entry_of name.now value.now)) ≤ length d.old }
    ensures { Puts (written_line style (entry_of name.now value.now)) result d.old d.new }
{
    let n = put_encoded(d, name, style);
    d[n] = 58;
    let from = n + 1;
    let v = put_encoded(&mut d[from..], value, style);
    let end = from + v;
    d[end] = 10;
    end + 1
}

// The same of an entry of which no octet is escaped: name and value are copied as they are.
fn put_plain_line(d: &mut [u8], name: &[u8], value: &[u8]) -> usize
    requires { length name.now + length value.now + 2 ≤ length d.old }
    ensures { Puts (plain_line name.now value.now) result d.old d.new }
{
    let n = name.len();
    copy(d, 0, name);
    d[n] = 58;
    let from = n + 1;
    copy(d, from, value);
    let end = from + value.len();
    d[end] = 10;
    end + 1
}

// Whether name and value have at most that many octets encoded. Encoded text is at most twice as long, so it is measured only
// where twice the text is too long.
fn encoded_fit(name: &[u8], value: &[u8], style: Style, most: usize) -> bool
    ensures { result ≡ leb (length (encode style name.now) + length (encode style value.now)) most }
{
    if both_fit(name.len(), value.len(), most / 2) {
        return true;
    }
    both_fit(
        encoded_length(name, style),
        encoded_length(value, style),
        most,
    )
}

// The raw line of any entry, with octet 10 behind it, at the front of d; or that it has no room (56).
pub fn write_encoded(
    d: &mut [u8],
    name: &[u8],
    value: &[u8],
    style: Style,
) -> Result<usize, TooShort>
    ensures { (written_says result ≡ encoded_answer style (length d.old) (entry_of name.now value.now))
        × (d.new ≡ left_in (encoded_answer style (length d.old) (entry_of name.now value.now))
        (written_line style (entry_of name.now value.now)) d.old) }
{
    if d.len() < 2 {
        return Err(TooShort);
    }
    if style.escapes {
        if !encoded_fit(name, value, style, d.len() - 2) {
            return Err(TooShort);
        }
        return Ok(put_line(d, name, value, style));
    }
    if !both_fit(name.len(), value.len(), d.len() - 2) {
        return Err(TooShort);
    }
    Ok(put_plain_line(d, name, value))
}

// The same of an entry that can be written, or that it cannot be (53), or has no room (56).
pub fn write_line(d: &mut [u8], name: &[u8], value: &[u8], style: Style) -> Result<usize, LineError>
    ensures { (line_says result ≡ line_answer style (length d.old) (entry_of name.now value.now))
        × (d.new ≡ left_in (line_answer style (length d.old) (entry_of name.now value.now))
        (written_line style (entry_of name.now value.now)) d.old) }
{
    line_length(name, value, style)?;
    Ok(write_encoded(d, name, value, style)?)
}
