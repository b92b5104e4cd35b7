// Plain stretches: how many octets header text or a body takes as they stand.
ghost use Rattle.std.specs.Prelude.{◌≡◌, true, cond, ◌&&◌, ℕ, ◌+◌, ◌≤◌, ◌<◌, length, take, drop, min};
ghost use Rattle.headers.specs.Rows.{every};
ghost use Rattle.headers.specs.Stretches.{span, plain_in, calm};
ghost use Rattle.headers.specs.Text.{Text};
ghost use Rattle.frames.specs.Scanning.{Ahead, text_stops, not_zero};
ghost use Rattle.headers.specs.declared.text.Field.TheVariants.{Value};

use crate::state::ValidScan;
use headers::{Field, Stops, Style};

// An octet that ends a stretch, or 10, which ends every one, where it does not.
pub(crate) fn or_10(ends: bool, x: u8) -> u8
    ensures { result ≡ cond ends x 10 }
{
    if ends { x } else { 10 }
}

// The octets that end a stretch of a name or of a value: a colon is text in a value that has no escapes.
pub(crate) fn text_stops(style: Style, field: Field) -> Stops
    ensures { result ≡ text_stops style field }
{
    let colon_ends = match field {
        Field::Name => true,
        Field::Value => style.escapes,
    };
    Stops {
        cr: or_10(style.crlf, 13),
        colon: or_10(colon_ends, 58),
        back: or_10(style.escapes, 92),
        top: 127,
    }
}

// The octets of a large block.
const LARGE: usize = 512;

// Whether no octet of a block is 0.
fn is_clear(s: &[u8]) -> bool
    ensures { result ≡ every not_zero s.now }
{
    let mut ok = true;
    for x in s {
        ok = ok & (*x != 0);
    }
    ok
}

// Whether no octet of a large block is 0: the least of them is not.
fn is_all_clear(s: &[u8]) -> bool
    ensures { result ≡ every not_zero s.now }
{
    let mut least = 255u8;
    for x in s {
        least = least.min(*x);
    }
    least != 0
}

// Whether no octet of a block is 0, as is quicker for blocks of a size.
fn is_clear_block<const SIZE: usize>(s: &[u8]) -> bool
    ensures { result ≡ every not_zero s.now }
{
    if SIZE < LARGE {
        is_clear(s)
    } else {
        is_all_clear(s)
    }
}

// How far whole blocks without an octet 0 go on from a place of s.
fn clear_blocks<const SIZE: usize>(s: &[u8], from: usize) -> usize
    requires { (from ≤ length s.now) × (0 < SIZE) }
    ensures { (result ≤ length s.now) × (result + span not_zero (drop result s.now) ≡ from + span not_zero (drop from s.now)) }
{
    let count = (s.len() - from) / SIZE;
    for k in 0..count {
        let at = from + k * SIZE;
        if !is_clear_block::<SIZE>(&s[at..at + SIZE]) {
            return at;
        }
    }
    from + count * SIZE
}

// How far blocks of a size without an octet 0 go: all of s where the last block, which may begin in the one before it, has none either.
fn far_span<const SIZE: usize>(s: &[u8]) -> usize
    requires { 0 < SIZE }
    ensures { (result ≤ length s.now) × (result + span not_zero (drop result s.now) ≡ span not_zero s.now) }
{
    if s.len() < SIZE {
        return 0;
    }
    let far = clear_blocks::<SIZE>(s, 0);
    let last = s.len() - SIZE;
    if last <= far {
        if is_clear_block::<SIZE>(&s[last..]) {
            return s.len();
        }
    }
    far
}

// How far small blocks and then single octets without an octet 0 go on from a place of s.
fn clear_rest(s: &[u8], from: usize) -> usize
    requires { from ≤ length s.now }
    ensures { result ≡ from + span not_zero (drop from s.now) }
{
    let far = clear_blocks::<16>(s, from);
    for (k, x) in s[far..].iter().enumerate() {
        if *x == 0 {
            return far + k;
        }
    }
    s.len()
}

// How many octets at the front of s are not 0: by blocks, and where an octet 0 is near, by small ones.
pub(crate) fn body_span(s: &[u8]) -> usize
    ensures { result ≡ span not_zero s.now }
{
    clear_rest(s, far_span::<128>(s))
}

// The same for bodies that are whole: by large blocks, once an octet 0 that is near is looked for. Parsing has its own, since a body
// that it looks through may end soon.
pub(crate) fn long_span(s: &[u8]) -> usize
    ensures { result ≡ span not_zero s.now }
{
    if s.len() < LARGE {
        return clear_rest(s, 0);
    }
    if !is_clear(&s[0..16]) {
        return clear_rest(s, 0);
    }
    clear_rest(s, far_span::<LARGE>(s))
}

// The end of the octets from i on that fit the room, where there are n.
pub(crate) fn upto(i: usize, room: usize, n: usize) -> usize
    requires { i ≤ n }
    ensures { (i ≤ result) × (result ≤ n) × (result ≡ min (i + room) n) }
{
    i + room.min(n - i)
}

// How many octets at the front of s are a whole escape, or whole characters of more than one octet; 0 where none is there. It is a
// count and no Option: 0 octets are what is there.
fn beyond_plain(s: &[u8], style: Style) -> usize
    ensures { (result ≤ length s.now) × Text style Value (take result s.now) }
{
    if s.len() < 2 {
        return 0;
    }
    if 127 < s[0] {
        return headers::wide_span(s);
    }
    if !headers::is_open(style, s[0]) {
        return 0;
    }
    if headers::is_letter(style, s[1]) {
        2
    } else {
        0
    }
}

// Whether text that has these stops takes the octet as it is. This and text_span stand here, though headers has `front`: inlined here they
// take 7 to 9 per cent fewer instructions an octet in small frames than as a call, measured by callgrind.
fn is_plain(stops: Stops, x: u8) -> bool
    requires { stops.top ≡ 127 }
    ensures { result ≡ plain_in stops x }
{
    !((x == 10) | (x == stops.cr) | (x == stops.colon) | (x == stops.back)) & (x <= 127)
}

// How many octets at the front of s text takes as they stand, where its stops leave calm octets below 128: by blocks up to an octet that
// may be a stop, then that one by itself. It is part of the walks that call it: a call takes more than most stretches.
#[inline(always)]
pub(crate) fn text_span(s: &[u8], stops: Stops) -> usize
    requires { (stops.top ≡ 127) × ((x : ℕ) → calm 127 x ≡ true → plain_in stops x ≡ true) }
    ensures { result ≡ span (plain_in stops) s.now }
{
    let mut i = 0usize;
    // A cursor: each step goes as far as the search.
    while i < s.len() {
        i = headers::calm_from(s, i, 127);
        if s.len() <= i {
            return i;
        }
        if !is_plain(stops, s[i]) {
            return i;
        }
        i += 1;
    }
    i
}

// How many octets at the front of s are text of a value, whole characters and escapes among them.
pub(crate) fn value_text(s: &[u8], style: Style) -> usize
    ensures { (result ≤ length s.now) × Text style Value (take result s.now) }
{
    let stops = text_stops(style, Field::Value);
    let mut j = text_span(s, stops);
    // A cursor: each step goes as far as the characters and the stretch after them.
    while j < s.len() {
        let k = beyond_plain(&s[j..], style);
        if k == 0 {
            return j;
        }
        let f = j + k;
        j = f + text_span(&s[f..], stops);
    }
    j
}

// How many octets of s from i on a value takes, whole characters among them. Nothing calls it: it stands since its promise does.
pub(crate) fn value_span(s: &[u8], i: usize, st: ValidScan) -> usize
    requires { (i ≤ length s.now) × (st.scan.phase ≡ 7) }
    ensures { Ahead s.now i st.scan result }
{
    let e = upto(i, crate::limits::LINE - st.scan.len, s.len());
    value_text(&s[i..e], st.style())
}
