// Header lines passed at once: whole lines, and as much of the last as is there.
ghost use Rattle.std.specs.Prelude.{◌≡◌, true, cond, ◌<◌, ◌≤◌, eqb, length, get_or, IfSome, MatchOption};
ghost use Rattle.frames.specs.Scanning.{Valid, Passed};
ghost use Rattle.frames.specs.WholeLines.{in_lines, line_at, Named, Begun};

use crate::ahead::{text_span, text_stops, upto, value_text};
use crate::limits;
use crate::state::{Scan, ValidScan};
use headers::{Field, Style};

// Whether a line begins, or its value goes on, where the state is.
pub(crate) fn is_in_lines(st: ValidScan) -> bool
    ensures { result ≡ in_lines st.scan }
{
    ((st.scan.phase == Scan::LINE_START) & (st.scan.matched == 0))
        | ((st.scan.phase == Scan::IN_VALUE) & (st.scan.len != 0))
}

// The phase of a line that has so many octets up to its value, or none.
fn line_phase(len: usize) -> u8
    ensures { result ≡ cond (eqb len 0) 4 7 }
{
    if len == 0 {
        Scan::LINE_START
    } else {
        Scan::IN_VALUE
    }
}

// The state k octets on, where so many lines are read and the next has len octets.
fn line_at(st: ValidScan, lines: usize, len: usize, k: usize) -> ValidScan
    requires { Valid (line_at st.scan lines len k) }
    ensures { result.scan ≡ line_at st.scan lines len k }
{
    ValidScan {
        scan: Scan {
            phase: line_phase(len),
            lines,
            matched: 0,
            len,
            at: st.scan.at + k,
            code: 0,
            rest: 0,
            ..st.scan
        },
    }
}

// How many octets a name at i has with its colon, where it is one that is passed at once.
fn name_at(s: &[u8], i: usize, style: Style) -> Option<usize>
    requires { i < length s.now }
    ensures { IfSome result (Named style s.now i) }
{
    if s[i] == 99 {
        return None;
    }
    let e = upto(i, limits::LINE, s.len());
    let k = text_span(&s[i..e], text_stops(style, Field::Name));
    let colon = i + k;
    if (k == 0) | (e <= colon) {
        return None;
    }
    if s[colon] != 58 {
        return None;
    }
    Some(k + 1)
}

// How many octets a line that has len of them before i has where its value goes on, where its name is passed at once.
fn begun(s: &[u8], i: usize, style: Style, lines: usize, len: usize) -> Option<usize>
    requires { i < length s.now }
    ensures { MatchOption result (len ≡ 0) (λ m. (0 < m) × Begun style s.now i lines len m) }
{
    if len != 0 {
        return Some(len);
    }
    if limits::LINES <= lines {
        return None;
    }
    name_at(s, i, style)
}

// Whether octet 10 is at i.
fn is_10_at(s: &[u8], i: usize) -> bool
    ensures { result ≡ true → (i < length s.now) × (get_or s.now i 0 ≡ 10) }
{
    s.get(i) == Some(&10)
}

// On through whole lines: name, value and octet 10; then as much of the next line as is passed at once.
pub(crate) fn pass_lines(s: &[u8], from: usize, st: ValidScan) -> ValidScan
    requires { (from ≤ length s.now) × (in_lines st.scan ≡ true) }
    ensures { Passed s.now from st.scan result.scan }
{
    let style = st.style();
    let mut lines = st.scan.lines;
    let mut len = st.scan.len;
    let mut i = from;
    // A cursor: each step goes as far as the line found there.
    while i < s.len() {
        let Some(m) = begun(s, i, style, lines, len) else {
            return line_at(st, lines, len, i - from);
        };
        let v = i + (m - len);
        let e = upto(v, limits::LINE - m, s.len());
        let k = value_text(&s[v..e], style);
        let end = v + k;
        if !is_10_at(s, end) {
            return line_at(st, lines, m + k, end - from);
        }
        lines += 1;
        len = 0;
        i = end + 1;
    }
    line_at(st, lines, len, i - from)
}
