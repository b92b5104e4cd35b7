// The steps for the octets of a head: of a name, of a value, of the first content-length, and of the line ends between them.
ghost use Rattle.std.specs.Prelude.{◌≡◌, true, false, cond, ◌+◌, ◌≤◌, ◌<◌, ltb, get_or};
ghost use Rattle.headers.specs.Lines.{content_length};
ghost use Rattle.headers.specs.Text.{fresh, back, stops, starts, utf8_reads};
ghost use Rattle.headers.specs.Characters.{utf8_part, text_part};
ghost use Rattle.frames.specs.Refusals.{numbered, long_line};
ghost use Rattle.frames.specs.Scanning.{style_of, in_part, in_character, invalid, advance, value_begins, body_begins, line_read, nameless_at};
ghost use Rattle.frames.specs.Scanning.{on_name, on_begin, on_value, on_text, on_digit, on_length, text_most, text_between, text_inside, text_matched};

use crate::limits;
use crate::parse::Reason;
use crate::state::{Scan, ValidScan};
use crate::word::most_of;
use headers::Field;

// The name whose value is a length.
const CONTENT_LENGTH: &[u8; 14] = b"content-length";

// How many octets it has.
pub(crate) const LENGTH_NAME: usize = 14;

// How many octets its line has before the value, the colon counted.
const LENGTH_BEGUN: usize = LENGTH_NAME + 1;

// What stands for another name, where it is kept how many octets of it a name is.
pub(crate) const OTHER_NAME: usize = 15;

// The octet of content-length at a place.
pub(crate) fn length_letter(m: usize) -> u8
    requires { m < 14 }
    ensures { result ≡ get_or content_length m 0 }
{
    CONTENT_LENGTH[m]
}

// One octet more of a name against content-length.
pub(crate) fn advance(m: usize, x: u8) -> usize
    ensures { result ≡ advance m x }
{
    if m < LENGTH_NAME {
        if x == length_letter(m) {
            return m + 1;
        }
    }
    OTHER_NAME
}

// The empty line is read.
pub(crate) fn body_begins(st: ValidScan) -> Scan
    ensures { result ≡ body_begins st.scan }
{
    if st.scan.sized {
        return st.in_head(Scan::IN_COUNTED, st.scan.lines, st.scan.sized, st.scan.size);
    }
    st.in_head(Scan::IN_BODY, st.scan.lines, st.scan.sized, st.scan.size)
}

// The colon is read.
fn value_begins(st: ValidScan) -> Scan
    ensures { result ≡ value_begins st.scan }
{
    if st.scan.sized {
        return st.in_line(Scan::IN_VALUE, 0, st.scan.size, st.scan.len + 1);
    }
    if st.scan.matched == LENGTH_NAME {
        return st.in_line(Scan::IN_LENGTH, 0, 0, st.scan.len + 1);
    }
    st.in_line(Scan::IN_VALUE, 0, st.scan.size, st.scan.len + 1)
}

// The most octets of a line that is in a text of this field.
fn most(field: Field) -> usize
    ensures { (result ≡ text_most field) × (511 ≤ result) }
{
    match field {
        Field::Name => limits::NAME,
        Field::Value => limits::LINE,
    }
}

// The phase between the characters of a text.
fn between(field: Field) -> u8
    ensures { result ≡ text_between field }
{
    match field {
        Field::Name => Scan::IN_NAME,
        Field::Value => Scan::IN_VALUE,
    }
}

// The phase inside one.
fn inside(field: Field) -> u8
    ensures { result ≡ text_inside field }
{
    match field {
        Field::Name => Scan::NAME_PART,
        Field::Value => Scan::VALUE_PART,
    }
}

// How many octets of content-length the line's name is after one octet more of a text.
fn matched_after(st: ValidScan, field: Field, x: u8) -> usize
    ensures { result ≡ text_matched st.scan field x }
{
    match field {
        Field::Name => advance(st.scan.matched, x),
        Field::Value => 0,
    }
}

// One octet more of a line, where it has fewer than most: a character is read as far as rest says after it.
fn grow(st: ValidScan, most: usize, phase: u8, matched: usize, rest: u8) -> Scan
    ensures { result ≡ cond (ltb st.scan.len most) (in_part st.scan phase matched st.scan.size (st.scan.len + 1) rest) (invalid st.scan (numbered long_line)) }
{
    if st.scan.len < most {
        return st.in_part(phase, matched, st.scan.size, st.scan.len + 1, rest);
    }
    st.refused(Reason::LongLine)
}

// An octet of UTF-8 of a text, in a character that is read as far as rest says.
fn on_utf8(st: ValidScan, rest: u8, field: Field, x: u8) -> Scan
    ensures { result ≡ in_character st.scan (text_most field) (text_between field) (text_inside field) (text_matched st.scan field x) (utf8_reads (utf8_part rest) x) }
{
    let Some(next) = headers::utf8_next(rest, x) else {
        return st.refused(Reason::NotUtf8);
    };
    let matched = matched_after(st, field, x);
    if next == 0 {
        return grow(st, most(field), between(field), matched, 0);
    }
    let owed = usize::from(headers::utf8_owes(next));
    grow(st, most(field) - owed, inside(field), matched, next)
}

// An octet that begins a character of a text.
fn on_fresh(st: ValidScan, field: Field, x: u8) -> Scan
    requires { stops (style_of st.scan.crlf st.scan.command) field x ≡ false }
    ensures { result ≡ on_text st.scan field fresh x }
{
    if headers::is_open(st.style(), x) {
        let matched = matched_after(st, field, x);
        return grow(st, most(field) - 1, inside(field), matched, 92);
    }
    on_utf8(st, 0, field, x)
}

// An octet inside a character of a text.
pub(crate) fn on_part(st: ValidScan, field: Field, x: u8) -> Scan
    requires { st.scan.rest ≡ 0 → ⊥ }
    ensures { result ≡ on_text st.scan field (text_part st.scan.rest) x }
{
    if st.scan.rest == 92 {
        return on_back(st, field, x);
    }
    on_utf8(st, st.scan.rest, field, x)
}

// An octet where a name goes on or ends, as part of the step that asks for it.
#[inline(always)]
pub(crate) fn on_name(st: ValidScan, x: u8) -> Scan
    ensures { result ≡ on_name st.scan fresh x }
{
    if !headers::is_stop(st.style(), Field::Name, x) {
        return on_fresh(st, Field::Name, x);
    }
    if x != 58 {
        return st.refused(Reason::NoColon);
    }
    if st.scan.len == 0 {
        return st.refused(Reason::Nameless);
    }
    value_begins(st)
}

// An octet after a backslash: one more where it is the letter of an escape.
fn on_back(st: ValidScan, field: Field, x: u8) -> Scan
    ensures { result ≡ on_text st.scan field back x }
{
    if headers::is_letter(st.style(), x) {
        let matched = matched_after(st, field, x);
        return grow(st, most(field), between(field), matched, 0);
    }
    if begins_character(x) {
        return st.refused(Reason::WrongEscape);
    }
    st.refused(Reason::NotUtf8)
}

// Whether the octet begins a character.
fn begins_character(x: u8) -> bool
    ensures { result ≡ starts x }
{
    (x < 128) | (headers::missing_after(x) != 0)
}

// Whether no name can begin with the octet, or none at all.
pub(crate) fn is_nameless(st: ValidScan, x: u8) -> bool
    ensures { result ≡ nameless_at st.scan x }
{
    ((x == 10) | ((x == 13) & st.scan.crlf)) | ((x == 58) | (limits::LINES <= st.scan.lines))
}

// An octet that begins no name where a line would begin.
pub(crate) fn on_begin(st: ValidScan, x: u8) -> Scan
    requires { nameless_at st.scan x ≡ true }
    ensures { result ≡ on_begin st.scan x }
{
    if x == 10 {
        return body_begins(st);
    }
    if (x == 13) & st.scan.crlf {
        return st.in_head(Scan::BLANK_CR, st.scan.lines, st.scan.sized, st.scan.size);
    }
    if x == 58 {
        return st.refused(Reason::Nameless);
    }
    if begins_character(x) {
        return st.refused(Reason::ManyLines);
    }
    st.refused(Reason::NotUtf8)
}

// The line is read.
fn line_read(st: ValidScan, x: u8, sized: bool, size: usize) -> Scan
    ensures { result ≡ line_read st.scan x sized size }
{
    if x == 10 {
        return st.in_head(Scan::LINE_START, st.scan.lines + 1, sized, size);
    }
    if (x == 13) & st.scan.crlf {
        return st.in_head(Scan::LINE_CR, st.scan.lines + 1, sized, size);
    }
    st.refused(Reason::SecondColon)
}

pub(crate) fn on_value(st: ValidScan, x: u8) -> Scan
    ensures { result ≡ on_value st.scan fresh x }
{
    if !headers::is_stop(st.style(), Field::Value, x) {
        return on_fresh(st, Field::Value, x);
    }
    if x == 58 {
        return st.refused(Reason::SecondColon);
    }
    line_read(st, x, st.scan.sized, st.scan.size)
}

// An octet of the first content-length that is no stop, where its line has fewer than most.
fn on_digit(st: ValidScan, most: usize, x: u8) -> Scan
    ensures { result ≡ cond (ltb st.scan.len most) (on_digit st.scan x) (invalid st.scan (numbered long_line)) }
{
    if most <= st.scan.len {
        return st.refused(Reason::LongLine);
    }
    if (x < 48) | (57 < x) {
        return st.refused(Reason::BadLength);
    }
    let size = st.scan.size * 10 + usize::from(x - 48);
    if most_of(st.scan.command) < size {
        return st.refused(Reason::BadLength);
    }
    st.in_line(Scan::IN_LENGTH, 0, size, st.scan.len + 1)
}

pub(crate) fn on_length(st: ValidScan, x: u8) -> Scan
    ensures { result ≡ on_length st.scan x }
{
    let style = st.style();
    if headers::is_stop(style, Field::Value, x) {
        if x == 58 {
            return st.refused(Reason::SecondColon);
        }
        if st.scan.len == LENGTH_BEGUN {
            return st.refused(Reason::BadLength);
        }
        return line_read(st, x, true, st.scan.size);
    }
    if headers::is_open(style, x) {
        return on_digit(st, limits::LINE_BEFORE_ESCAPE, x);
    }
    if !begins_character(x) {
        return st.refused(Reason::NotUtf8);
    }
    on_digit(st, limits::LINE - usize::from(headers::missing_after(x)), x)
}
