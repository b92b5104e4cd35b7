// The steps for the octets of an item: the phase picks the step.
ghost use Rattle.std.specs.Prelude.{◌≡◌, true, ◌<◌, ◌≤◌};
ghost use Rattle.frames.specs.Scanning.{Reached, line_ends};
ghost use Rattle.frames.specs.Scanning.{on_10, on_word, on_start, on_body, on_counted, scan_step};

use crate::head::{body_begins, is_nameless, on_begin, on_length, on_name, on_part, on_value};
use crate::parse::Reason;
use crate::state::{Scan, ValidScan};
use crate::word::{most_of, next_command, whole_command};
use headers::Field;

fn on_10(st: ValidScan, next: Scan, x: u8) -> Scan
    ensures { result ≡ on_10 st.scan next x }
{
    if x == 10 {
        next
    } else {
        st.refused(Reason::No10)
    }
}

fn on_word(st: ValidScan, x: u8) -> Scan
    requires { Reached st.scan.command st.scan.at }
    ensures { result ≡ on_word st.scan x }
{
    if let Some(c) = next_command(st.scan.command, st.scan.at, x) {
        return st.to_phase(Scan::IN_COMMAND, c);
    }
    let Some(w) = whole_command(st.scan.command, st.scan.at) else {
        return st.refused(Reason::NoCommand);
    };
    if x == 10 {
        return st.to_phase(Scan::LINE_START, w);
    }
    if (x == 13) & st.scan.crlf {
        return st.to_phase(Scan::COMMAND_CR, w);
    }
    st.refused(Reason::NoCommand)
}

// A line end at the start.
fn on_start(st: ValidScan, x: u8) -> Scan
    requires { line_ends st.scan x ≡ true }
    ensures { result ≡ on_start st.scan x }
{
    if x == 10 {
        return st.to_phase(Scan::HEART_BEAT_READ, 0);
    }
    st.to_phase(Scan::HEART_BEAT_CR, 0)
}

fn on_body(st: ValidScan, x: u8) -> Scan
    ensures { result ≡ on_body st.scan x }
{
    if x == 0 {
        return st.frame_read();
    }
    if st.scan.len < most_of(st.scan.command) {
        return st.in_line(Scan::IN_BODY, 0, 0, st.scan.len + 1);
    }
    st.refused(Reason::PastBody)
}

fn on_counted(st: ValidScan, x: u8) -> Scan
    ensures { result ≡ on_counted st.scan x }
{
    if st.scan.len < st.scan.size {
        return st.in_line(Scan::IN_COUNTED, 0, st.scan.size, st.scan.len + 1);
    }
    if x == 0 {
        return st.frame_read();
    }
    st.refused(Reason::PastBody)
}

// An octet where a line or the empty line begins.
fn on_line(st: ValidScan, x: u8) -> Scan
    requires { st.scan.phase ≡ 4 }
    ensures { result ≡ scan_step st.scan x }
{
    if is_nameless(st, x) {
        return on_begin(st, x);
    }
    on_name(st, x)
}

// One octet in a line.
fn step_line(st: ValidScan, x: u8) -> Scan
    requires { (4 ≤ st.scan.phase) × (st.scan.phase < 10) }
    ensures { result ≡ scan_step st.scan x }
{
    match st.scan.phase {
        Scan::IN_VALUE => on_value(st, x),
        Scan::IN_LENGTH => on_length(st, x),
        Scan::VALUE_PART => on_part(st, Field::Value, x),
        Scan::NAME_PART => on_part(st, Field::Name, x),
        Scan::LINE_START => on_line(st, x),
        _ => on_name(st, x),
    }
}

// An octet where an item begins.
fn on_first(st: ValidScan, x: u8) -> Scan
    requires { st.scan.phase ≡ 0 }
    ensures { result ≡ scan_step st.scan x }
{
    if (x == 10) | ((x == 13) & st.scan.crlf) {
        return on_start(st, x);
    }
    on_word(st, x)
}

// One octet before the head.
fn step_word(st: ValidScan, x: u8) -> Scan
    requires { st.scan.phase < 4 }
    ensures { result ≡ scan_step st.scan x }
{
    match st.scan.phase {
        Scan::COMMAND_CR => on_10(st, st.to_phase(Scan::LINE_START, st.scan.command), x),
        Scan::HEART_BEAT_CR => on_10(st, st.to_phase(Scan::HEART_BEAT_READ, 0), x),
        Scan::START => on_first(st, x),
        _ => on_word(st, x),
    }
}

// One octet of a body or of the end of a line; the ends stay as they are.
fn step_body(st: ValidScan, x: u8) -> Scan
    requires { 10 ≤ st.scan.phase }
    ensures { result ≡ scan_step st.scan x }
{
    match st.scan.phase {
        Scan::IN_BODY => on_body(st, x),
        Scan::IN_COUNTED => on_counted(st, x),
        Scan::LINE_CR => {
            let next = st.in_head(Scan::LINE_START, st.scan.lines, st.scan.sized, st.scan.size);
            on_10(st, next, x)
        }
        Scan::BLANK_CR => on_10(st, body_begins(st), x),
        _ => st.scan,
    }
}

// The state after one octet.
fn next_scan(st: ValidScan, x: u8) -> Scan
    ensures { result ≡ scan_step st.scan x }
{
    let phase = st.scan.phase;
    if phase < Scan::LINE_START {
        return step_word(st, x);
    }
    if phase < Scan::LINE_CR {
        return step_line(st, x);
    }
    step_body(st, x)
}

// One octet.
pub(crate) fn step(st: ValidScan, x: u8) -> ValidScan
    ensures { result.scan ≡ scan_step st.scan x }
{
    let scan = next_scan(st, x);
    ValidScan { scan }
}
