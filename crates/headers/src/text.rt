// Raw header text: tests on it, its decoding and encoding.
ghost use Rattle.std.specs.Prelude.{◌≡◌, cond, not, ◌++◌, ◌+◌, ◌≤◌, ◌<◌, length, take, drop};
ghost use Rattle.headers.specs.Rows.{every};
ghost use Rattle.headers.specs.Text.{divides, stops, opens, is_letter, reads, is_text};
ghost use Rattle.headers.specs.Characters.{text_part, part_after};
ghost use Rattle.headers.specs.Escapes.{at_escape, width, octet_at, meaning, letter_of, escaped, writable, decode, encode_octet, encode};
ghost use Rattle.headers.specs.Answers.{Puts};

use crate::octets::{copy, put_block};
use crate::plain::{OctetTest, is_all, stretch};
use crate::utf8::utf8_next;

// What a command makes of header text.
#[derive(Clone, Copy)]
pub struct Style {
    // Whether a backslash begins an escape.
    pub escapes: bool,
    // Whether octet 13 begins a line end: otherwise it is an ordinary octet, and no escape stands for it.
    pub crlf: bool,
}

// The two fields of a header line.
#[derive(Clone, Copy)]
pub enum Field {
    Name,
    Value,
}

// Whether a colon stands raw in no text of this field: in no name, and where there are escapes in no value.
fn is_divided(style: Style, field: Field) -> bool
    ensures { result ≡ divides style field }
{
    match field {
        Field::Name => true,
        Field::Value => style.escapes,
    }
}

// Whether the octet stands raw in no text of this field.
pub fn is_stop(style: Style, field: Field, x: u8) -> bool
    ensures { result ≡ stops style field x }
{
    (x == 10) | ((x == 13) & style.crlf) | ((x == 58) & is_divided(style, field))
}

// Whether the octet may follow a backslash.
pub fn is_letter(style: Style, x: u8) -> bool
    ensures { result ≡ is_letter style x }
{
    ((x == 114) & style.crlf) | ((x == 110) | ((x == 99) | (x == 92)))
}

// Whether the octet begins an escape.
pub fn is_open(style: Style, x: u8) -> bool
    ensures { result ≡ opens style x }
{
    style.escapes & (x == 92)
}

// The octet that a letter stands for: without branches, which would often be mispredicted.
fn meaning_of(style: Style, x: u8) -> u8
    ensures { result ≡ meaning style x }
{
    let colon: u8 = if x == 99 { 58 } else { x };
    let newline: u8 = if x == 110 { 10 } else { colon };
    if (x == 114) & style.crlf { 13 } else { newline }
}

// The octets that are written as an escape, in one word: each at the place that its bits 2 and 4 say.
fn escape_word(style: Style) -> u64
    ensures { result ≡ cond style.crlf 101404177861898 101404177858570 }
{
    if style.crlf {
        0x5c3a00000d0a
    } else {
        0x5c3a0000000a
    }
}

// Whether the octet is written as an escape, by one comparison: bits 2 and 4 tell 10, 13, 58 and 92 apart, and say where in a word
// each of them is.
fn is_escaped(style: Style, x: u8) -> bool
    ensures { result ≡ escaped style x }
{
    let n = u64::from(x);
    style.escapes & (n == (escape_word(style) >> (2 * (n & 20))) & 255)
}

// The letter of an octet that is written as an escape: without branches too.
fn letter_for(style: Style, x: u8) -> u8
    ensures { result ≡ letter_of style x }
{
    let colon: u8 = if x == 58 { 99 } else { x };
    let newline: u8 = if x == 10 { 110 } else { colon };
    if (x == 13) & style.crlf { 114 } else { newline }
}

// One octet of raw text, from how far its character is read on: how far it is then, or none where the octet does not go on with the text.
fn raw_next(style: Style, field: Field, part: u8, x: u8) -> Option<u8>
    ensures { result ≡ part_after (reads style field (text_part part) x) }
{
    if part == 0 {
        if is_stop(style, field, x) {
            return None;
        }
        if is_open(style, x) {
            return Some(92);
        }
        return utf8_next(0, x);
    }
    if part == 92 {
        if is_letter(style, x) {
            return Some(0);
        }
        return None;
    }
    utf8_next(part, x)
}

// Whether the octets are raw text.
pub fn is_raw(raw: &[u8], style: Style, field: Field) -> bool
    ensures { result ≡ is_text style field raw.now }
{
    let mut part = 0u8;
    for x in raw {
        match raw_next(style, field, part, *x) {
            Some(next) => part = next,
            None => return false,
        }
    }
    part == 0
}

// Whether an escape stands at i.
fn escape_at(raw: &[u8], style: Style, i: usize) -> bool
    requires { i < length raw.now }
    ensures { result ≡ at_escape style (drop i raw.now) }
{
    if !is_open(style, raw[i]) {
        return false;
    }
    let next = i + 1;
    if raw.len() <= next {
        return false;
    }
    is_letter(style, raw[next])
}

// What is decoded together at i: the octet that it stands for, and how many raw octets it has, those of an escape or one.
fn decoded_at(raw: &[u8], style: Style, i: usize) -> (u8, usize)
    requires { i < length raw.now }
    ensures { (result.0 ≡ octet_at style (drop i raw.now)) × (result.1 ≡ width style (drop i raw.now)) }
{
    if escape_at(raw, style, i) {
        return (meaning_of(style, raw[i + 1]), 2);
    }
    (raw[i], 1)
}

// How many octets the raw text has decoded; where it is not raw text, a backslash that begins no escape counts as itself.
pub fn decoded_length(raw: &[u8], style: Style) -> usize
    ensures { result ≡ length (decode style raw.now) }
{
    let mut n = 0usize;
    let mut i = 0usize;
    // A cursor: its step is what one octet is decoded from.
    while i < raw.len() {
        let (_, width) = decoded_at(raw, style, i);
        i += width;
        n += 1;
    }
    n
}

// The raw text, decoded, at the front of d; its length decoded. Stretches without a backslash are copied at once; what is at the
// backslash that ends one is decoded by itself.
pub(crate) fn put_decoded(d: &mut [u8], raw: &[u8], style: Style) -> usize
    requires { length (decode style raw.now) ≤ length d.old }
    ensures { Puts (decode style raw.now) result d.old d.new }
{
    let mut n = 0usize;
    let mut i = 0usize;
    // A cursor: its step is the length of a stretch and of what ends it.
    loop {
        let e = i + stretch(&raw[i..]);
        copy(d, n, &raw[i..e]);
        n += e - i;
        if raw.len() <= e {
            return n;
        }
        let (octet, width) = decoded_at(raw, style, e);
        d[n] = octet;
        i = e + width;
        n += 1;
    }
}

// The octet 13 where there is an escape for it, and otherwise 10, for which there is one.
fn escaped_cr(style: Style) -> u8
    ensures { result ≡ cond style.crlf 13 10 }
{
    if style.crlf { 13 } else { 10 }
}

// The same as is_escaped by plain comparisons, so that a loop takes many octets at a time. Both stand, since where octets are written
// one by one four comparisons are slower than its one.
pub(crate) fn has_escape(style: Style, x: u8) -> bool
    ensures { result ≡ escaped style x }
{
    style.escapes & ((x == escaped_cr(style)) | ((x == 10) | ((x == 58) | (x == 92))))
}

// How many octets an octet has encoded, in a narrow number.
pub(crate) fn encoded_width(style: Style, x: u8) -> u16
    ensures { result ≡ length (encode_octet style x) }
{
    if has_escape(style, x) { 2 } else { 1 }
}

// How many octets the text has encoded: any octets are taken.
pub fn encoded_length(text: &[u8], style: Style) -> usize
    ensures { result ≡ length (encode style text.now) }
{
    let mut n = 0usize;
    for x in text {
        n += usize::from(encoded_width(style, *x));
    }
    n
}

// How many octets an octet has encoded before the last: one, the backslash, where it is escaped.
fn octets_before(style: Style, x: u8) -> usize
    ensures { result ≡ cond (escaped style x) 1 0 }
{
    if is_escaped(style, x) { 1 } else { 0 }
}

// The last octet that an octet has encoded: its letter where it is escaped, or itself.
fn last_octet(style: Style, x: u8) -> u8
    ensures { result ≡ cond (escaped style x) (letter_of style x) x }
{
    if style.escapes {
        return letter_for(style, x);
    }
    x
}

// An octet, encoded, at the front of d; its length encoded. A backslash is written for any octet, and one that is not escaped is written
// over it: without a branch, which would often be mispredicted.
fn put_octet(d: &mut [u8], x: u8, style: Style) -> usize
    requires { length (encode_octet style x) ≤ length d.old }
    ensures { Puts (encode_octet style x) result d.old d.new }
{
    let n = octets_before(style, x);
    d[0] = 92;
    d[n] = last_octet(style, x);
    n + 1
}

// The text, encoded, at the front of d, octet by octet; its length encoded.
fn put_each(d: &mut [u8], text: &[u8], style: Style) -> usize
    requires { length (encode style text.now) ≤ length d.old }
    ensures { Puts (encode style text.now) result d.old d.new }
{
    let mut n = 0usize;
    for x in text {
        n += put_octet(&mut d[n..], *x, style);
    }
    n
}

// Octets that are not written as an escape.
#[derive(Clone, Copy)]
struct Bare {
    style: Style,
}

impl OctetTest for Bare {
    ghost test = { λ b. λ x. not (escaped b.style x) };

    fn passes(self, x: u8) -> bool {
        !has_escape(self.style, x)
    }
}

// A block of a text: moved at once where no octet of it is escaped.
fn put_eight(d: &mut [u8], block: &[u8], style: Style) -> usize
    requires { (length block.now ≡ 8) × (length (encode style block.now) ≤ length d.old) }
    ensures { Puts (encode style block.now) result d.old d.new }
{
    if is_all(block, Bare { style }) {
        put_block::<8>(d, 0, block, 0);
        return 8;
    }
    put_each(d, block, style)
}

// The end of a text, from place i on, where what is before it is encoded in d up to place n; the length of the whole encoded. Where no
// octet of the last block is escaped, it is moved at once, over octets of it that are written already.
fn put_end(d: &mut [u8], n: usize, text: &[u8], i: usize, style: Style) -> usize
    requires { (i ≤ length text.now) × (length text.now < i + 8)
        × (length (encode style text.now) ≤ length d.old)
        × (n + length (encode style (drop i text.now)) ≡ length (encode style text.now))
        × (take n d.old ++ encode style (drop i text.now) ≡ encode style text.now) }
    ensures { Puts (encode style text.now) result d.old d.new }
{
    if 8 <= text.len() {
        let last = text.len() - 8;
        if is_all(&text[last..], Bare { style }) {
            let at = n - (i - last);
            put_block::<8>(d, at, &text[last..], 0);
            return at + 8;
        }
    }
    n + put_each(&mut d[n..], &text[i..], style)
}

// The text, encoded, at the front of d; its length encoded. It goes by blocks, of which most have no octet that is escaped.
pub(crate) fn put_encoded(d: &mut [u8], text: &[u8], style: Style) -> usize
    requires { length (encode style text.now) ≤ length d.old }
    ensures { Puts (encode style text.now) result d.old d.new }
{
    let mut n = 0usize;
    for k in 0..text.len() / 8 {
        let at = k * 8;
        n += put_eight(&mut d[n..], &text[at..at + 8], style);
    }
    put_end(d, n, text, text.len() / 8 * 8, style)
}

// Whether the octet can be written in this field: where there are escapes, every octet that is a stop has one.
pub(crate) fn can_write(style: Style, field: Field, x: u8) -> bool
    ensures { result ≡ writable style field x }
{
    style.escapes | !is_stop(style, field, x)
}

// Whether each octet of the text can be written in this field.
pub fn is_writable(text: &[u8], style: Style, field: Field) -> bool
    ensures { result ≡ every (writable style field) text.now }
{
    text.iter().all(|x| can_write(style, field, *x))
}
