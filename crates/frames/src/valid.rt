// Whether a state passes the tests for states of a run, in constant time: every state that a run leaves does.
ghost use Rattle.std.specs.Prelude.{◌≡◌, true, ◌&&◌, ◌||◌, not, eqb, ◌≤◌, length, get_or};
ghost use Rattle.headers.specs.Characters.{is_begun};
ghost use Rattle.frames.specs.Scanning.{style_of, word_of, Valid, len_max, line_open, outside};
ghost use Rattle.frames.specs.Validity.{leasts, is_reached, is_small, is_so_far, is_clean};

use crate::limits;
use crate::state::Scan;
use crate::word::{most_of, style_of};

// The longest line or body at a phase.
fn len_max(phase: u8) -> usize
    ensures { result ≡ len_max phase }
{
    match phase {
        Scan::IN_NAME => limits::NAME,
        Scan::NAME_PART => limits::NAME_BEFORE_ESCAPE,
        Scan::IN_VALUE => limits::LINE,
        Scan::VALUE_PART => limits::LINE_BEFORE_ESCAPE,
        Scan::IN_LENGTH => limits::LINE,
        Scan::IN_BODY => limits::BODY,
        Scan::IN_COUNTED => limits::BODY,
        Scan::FRAME_READ => limits::BODY,
        _ => 0,
    }
}

// 1 in a line.
fn line_open(phase: u8) -> usize
    ensures { result ≡ line_open phase }
{
    usize::from((Scan::IN_NAME <= phase) & (phase <= Scan::IN_LENGTH))
}

// The octets of an item outside its lines and its body.
fn outside(phase: u8) -> usize
    ensures { result ≡ outside phase }
{
    match phase {
        Scan::START => 0,
        Scan::HEART_BEAT_CR => 1,
        Scan::IN_COMMAND => 11,
        Scan::COMMAND_CR => 12,
        Scan::LINE_CR => 12,
        Scan::BLANK_CR => 14,
        Scan::IN_BODY => 15,
        Scan::IN_COUNTED => 15,
        Scan::HEART_BEAT_READ => 2,
        Scan::FRAME_READ => 16,
        Scan::REFUSED => 49231,
        _ => 13,
    }
}

// Of each command by its number, 0 for none: how many letters tell its word from those of the commands before it, and how many it has.
const LEASTS: [usize; 16] = [0, 1, 2, 1, 1, 3, 8, 1, 1, 1, 1, 1, 1, 2, 2, 1];

const LENGTHS: [usize; 16] = [0, 5, 3, 5, 6, 7, 9, 10, 5, 7, 4, 7, 4, 5, 9, 11];

// How many letters tell a command's word from those of the commands before it.
fn least(c: u32) -> usize
    requires { c ≤ 15 }
    ensures { result ≡ get_or leasts c 0 }
{
    // No From goes from u32 to usize, so it is cast, here and below.
    LEASTS[c as usize]
}

// How many letters a command's word has.
pub(crate) fn word_len(c: u32) -> usize
    requires { c ≤ 15 }
    ensures { result ≡ length (word_of c) }
{
    LENGTHS[c as usize]
}

// Whether c is the first command that begins with the first k letters of its word.
fn is_reached(c: u32, k: usize) -> bool
    ensures { result ≡ is_reached c k }
{
    if c <= 15 {
        return (least(c) <= k) & (k <= word_len(c));
    }
    false
}

// Whether the numbers are small: each sum only where it fits.
fn is_small(st: Scan) -> bool
    ensures { result ≡ is_small st }
{
    let phase = st.phase;
    if Scan::REFUSED < phase {
        return false;
    }
    if limits::LINES - line_open(phase) < st.lines {
        return false;
    }
    if len_max(phase) < st.len {
        return false;
    }
    (st.size <= limits::BODY) & (st.at <= outside(phase) + 514 * st.lines + st.len)
}

// Whether the word and the body so far are some that a run can have: what a phase asks is tested there alone.
fn is_so_far(st: Scan) -> bool
    ensures { result ≡ is_so_far st }
{
    match st.phase {
        Scan::IN_BODY => st.len <= most_of(st.command),
        Scan::IN_COUNTED => st.len <= st.size,
        Scan::START => (st.command == 0) & (st.at == 0),
        Scan::IN_COMMAND => is_reached(st.command, st.at),
        _ => true,
    }
}

// Whether how far a character is read is such as a run can leave inside one, and 0 elsewhere.
fn is_rest_clean(st: Scan) -> bool
    ensures { result ≡ (eqb st.phase 6 || (eqb st.phase 8 || eqb st.rest 0))
        && (not (eqb st.phase 6 || eqb st.phase 8) || is_begun (style_of st.crlf st.command) st.rest) }
{
    let phase = st.phase;
    if (phase != Scan::NAME_PART) & (phase != Scan::VALUE_PART) {
        return st.rest == 0;
    }
    let style = style_of(st.crlf, st.command);
    (style.escapes & (st.rest == 92))
        | ((st.rest == 1) | ((st.rest == 2) | (headers::missing_after(st.rest) != 0)))
}

// Whether what a phase does not use is 0.
fn is_clean(st: Scan) -> bool
    ensures { result ≡ is_clean st }
{
    let phase = st.phase;
    if (phase < Scan::LINE_START) & (st.lines != 0) {
        return false;
    }
    if (phase < Scan::REFUSED) & (st.code != 0) {
        return false;
    }
    if (Scan::NAME_PART < phase) & (st.matched != 0) {
        return false;
    }
    if !is_rest_clean(st) {
        return false;
    }
    (st.sized | ((phase == Scan::IN_LENGTH) | (st.size == 0)))
        & ((phase != Scan::IN_BODY) | !st.sized)
}

// Whether a state is valid: constant time, and every state that a run leaves passes.
pub(crate) fn is_valid(st: Scan) -> bool
    ensures { (result ≡ true → Valid st) × (Valid st → result ≡ true) }
{
    if !is_small(st) {
        return false;
    }
    if !is_so_far(st) {
        return false;
    }
    is_clean(st)
}
