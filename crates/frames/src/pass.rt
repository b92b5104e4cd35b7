// Octets passed at a go: from a state, how far one kind of octets leads, without a step for each.
ghost use Rattle.std.specs.Prelude.{◌≡◌, ◌≤◌, ◌<◌, length};
ghost use Rattle.frames.specs.Scanning.{Ahead, Passed};

use crate::ahead::{body_span, text_span, text_stops, upto};
use crate::head::{LENGTH_NAME, OTHER_NAME};
use crate::limits;
use crate::state::{Scan, ValidScan};
use headers::Field;

// On through the word of a command.
fn pass_word(s: &[u8], from: usize, begin: ValidScan) -> ValidScan
    requires { (from ≤ length s.now) × (begin.scan.phase ≡ 2) }
    ensures { Passed s.now from begin.scan result.scan }
{
    let mut st = begin;
    for x in &s[from..] {
        let Some(c) = crate::word::next_command(st.scan.command, st.scan.at, *x) else {
            return st;
        };
        let scan = st.to_phase(Scan::IN_COMMAND, c);
        st = ValidScan { scan };
    }
    st
}

// On through a name that is content-length so far.
fn pass_length_name(s: &[u8], from: usize, begin: ValidScan) -> ValidScan
    requires { (from ≤ length s.now) × (begin.scan.phase ≡ 5) × (begin.scan.matched < 14) }
    ensures { Passed s.now from begin.scan result.scan }
{
    let f = upto(from, LENGTH_NAME - begin.scan.matched, s.len());
    let e = upto(from, limits::NAME - begin.scan.len, f);
    let mut st = begin;
    for x in &s[from..e] {
        if *x != crate::head::length_letter(st.scan.matched) {
            return st;
        }
        let scan = st.in_line(
            Scan::IN_NAME,
            st.scan.matched + 1,
            st.scan.size,
            st.scan.len + 1,
        );
        st = ValidScan { scan };
    }
    st
}

// On through the digits of the first content-length.
fn pass_digits(s: &[u8], from: usize, begin: ValidScan) -> ValidScan
    requires { (from ≤ length s.now) × (begin.scan.phase ≡ 9) }
    ensures { Passed s.now from begin.scan result.scan }
{
    let most = crate::word::most_of(begin.scan.command);
    let e = upto(from, limits::LINE - begin.scan.len, s.len());
    let mut st = begin;
    for x in &s[from..e] {
        if (*x < 48) | (57 < *x) {
            return st;
        }
        let size = st.scan.size * 10 + usize::from(*x - 48);
        if most < size {
            return st;
        }
        let scan = st.in_line(Scan::IN_LENGTH, 0, size, st.scan.len + 1);
        st = ValidScan { scan };
    }
    st
}

// On through a name that is not content-length.
fn pass_name(s: &[u8], i: usize, st: ValidScan) -> ValidScan
    requires { (i ≤ length s.now) × (st.scan.phase ≡ 5) × (st.scan.matched ≡ 15) }
    ensures { Passed s.now i st.scan result.scan }
{
    let e = upto(i, limits::NAME - st.scan.len, s.len());
    let stops = text_stops(st.style(), Field::Name);
    st.skip(text_span(&s[i..e], stops))
}

// On through a name: one that may still be content-length by its letters, one that is only by its colon.
fn pass_any_name(s: &[u8], i: usize, st: ValidScan) -> ValidScan
    requires { (i ≤ length s.now) × (st.scan.phase ≡ 5) }
    ensures { Passed s.now i st.scan result.scan }
{
    if st.scan.matched == OTHER_NAME {
        return pass_name(s, i, st);
    }
    if st.scan.matched < LENGTH_NAME {
        return pass_length_name(s, i, st);
    }
    st
}

// How many octets of s from i on a body takes: up to its octet 0, or as far as its length goes.
pub(crate) fn body_ahead(s: &[u8], i: usize, st: ValidScan) -> usize
    requires { (i ≤ length s.now) × (12 ≤ st.scan.phase) × (st.scan.phase ≤ 13) }
    ensures { Ahead s.now i st.scan result }
{
    if st.scan.phase == Scan::IN_COUNTED {
        return upto(i, st.scan.size - st.scan.len, s.len()) - i;
    }
    let room = crate::word::most_of(st.scan.command) - st.scan.len;
    body_span(&s[i..upto(i, room, s.len())])
}

// On through a body, up to its octet 0 or as far as its length goes.
fn pass_body(s: &[u8], i: usize, st: ValidScan) -> ValidScan
    requires { (i ≤ length s.now) × (12 ≤ st.scan.phase) × (st.scan.phase ≤ 13) }
    ensures { Passed s.now i st.scan result.scan }
{
    st.skip(body_ahead(s, i, st))
}

// On through what the phase can pass at a go.
pub(crate) fn pass(s: &[u8], i: usize, st: ValidScan) -> ValidScan
    requires { i ≤ length s.now }
    ensures { Passed s.now i st.scan result.scan }
{
    if crate::lines::is_in_lines(st) {
        return crate::lines::pass_lines(s, i, st);
    }
    match st.scan.phase {
        Scan::IN_NAME => pass_any_name(s, i, st),
        Scan::IN_COMMAND => pass_word(s, i, st),
        Scan::IN_LENGTH => pass_digits(s, i, st),
        Scan::IN_BODY => pass_body(s, i, st),
        Scan::IN_COUNTED => pass_body(s, i, st),
        _ => st,
    }
}
