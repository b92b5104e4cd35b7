// Characters of UTF-8 (RFC 3629): one octet after another, whole ones at a place, and a test for text.
ghost use Rattle.std.specs.Prelude.{◌≡◌, true, ◌⊎◌, ◌<◌, ◌≤◌, None, length, drop};
ghost use Rattle.headers.specs.Text.{missing, tail, second, owes, utf8_reads, is_utf8};
ghost use Rattle.headers.specs.Characters.{utf8_part, part_after, wide_front, front_character, whole, WideStretch};

// How many octets follow the first octet of a character; 0 where it begins no character of more than one.
pub fn missing_after(x: u8) -> u8
    ensures { result ≡ missing x }
{
    if (194 <= x) & (x <= 223) {
        return 1;
    }
    if (224 <= x) & (x <= 239) {
        return 2;
    }
    if (240 <= x) & (x <= 244) {
        return 3;
    }
    0
}

// Whether the octet may follow the second octet of a character.
fn is_tail(x: u8) -> bool
    ensures { result ≡ tail x }
{
    (128 <= x) & (x <= 191)
}

// Whether the octet may follow the first, which is given.
fn is_second(first: u8, x: u8) -> bool
    ensures { result ≡ second first x }
{
    if first == 224 {
        return (160 <= x) & (x <= 191);
    }
    if first == 237 {
        return (128 <= x) & (x <= 159);
    }
    if first == 240 {
        return (144 <= x) & (x <= 191);
    }
    if first == 244 {
        return (128 <= x) & (x <= 143);
    }
    is_tail(x)
}

// One octet, from how far its character is read on: how far it is then, or none where the octet does not go on with it. How far is said
// by a number, since the record of a stream parser, which C has too, keeps it as an octet: 0 where no character is begun, 1 or 2 where as
// many octets are still owed, or the first octet where that alone is read.
pub fn utf8_next(part: u8, x: u8) -> Option<u8>
    ensures { result ≡ part_after (utf8_reads (utf8_part part) x) }
{
    if part == 0 {
        if x < 128 {
            return Some(0);
        }
        if missing_after(x) == 0 {
            return None;
        }
        return Some(x);
    }
    if part < 3 {
        if is_tail(x) {
            return Some(part.saturating_sub(1));
        }
        return None;
    }
    if is_second(part, x) {
        return Some(missing_after(part).saturating_sub(1));
    }
    None
}

// How many octets a character still owes that is read as far as part says, a number as at utf8_next.
pub fn utf8_owes(part: u8) -> u8
    ensures { result ≡ owes (utf8_part part) }
{
    if part == 0 {
        return 0;
    }
    if part < 3 {
        return part;
    }
    missing_after(part)
}

// How many octets the character of more than one octet at the front has; none where none is there whole.
fn wide_first(s: &[u8]) -> Option<usize>
    ensures { result ≡ whole (wide_front s.now) }
{
    if s.is_empty() {
        return None;
    }
    let n = usize::from(missing_after(s[0]));
    if n == 0 {
        return None;
    }
    if s.len() <= n {
        return None;
    }
    if !is_second(s[0], s[1]) {
        return None;
    }
    if n == 1 {
        return Some(2);
    }
    if !is_tail(s[2]) {
        return None;
    }
    if n == 2 {
        return Some(3);
    }
    if is_tail(s[3]) { Some(4) } else { None }
}

// Whether the octets begin with a character of two octets or are one of three: without branches, which would often be mispredicted.
fn is_short(x: u8, y: u8, z: u8) -> bool
    ensures { result ≡ true → (second x y ≡ true) × (((x < 224) × (missing x ≡ 1)) ⊎ ((224 ≤ x) × (missing x ≡ 2) × (tail z ≡ true))) }
{
    let low: u8 = if x == 224 { 160 } else { 128 };
    let high: u8 = if x == 237 { 159 } else { 191 };
    (194 <= x) & (x <= 239) & (low <= y) & (y <= high) & ((x <= 223) | is_tail(z))
}

// How many octets the character at the front has, where it has two or three and three octets are there.
fn short_first(s: &[u8]) -> Option<usize>
    ensures { (result ≡ None) ⊎ (result ≡ whole (wide_front s.now)) }
{
    if s.len() < 3 {
        return None;
    }
    if !is_short(s[0], s[1], s[2]) {
        return None;
    }
    if s[0] < 224 { Some(2) } else { Some(3) }
}

// How many octets the character of more than one octet at the front has; none where none is there whole.
fn next_wide(s: &[u8]) -> Option<usize>
    ensures { result ≡ whole (wide_front s.now) }
{
    if let Some(k) = short_first(s) {
        return Some(k);
    }
    wide_first(s)
}

// How many octets at the front of s are whole characters of more than one octet, one after another.
pub fn wide_span(s: &[u8]) -> usize
    ensures { WideStretch s.now result }
{
    let mut i = 0usize;
    while let Some(k) = next_wide(&s[i..]) {
        i += k;
    }
    i
}

// How many octets the character at the front has; none where none is there whole.
fn next_character(s: &[u8]) -> Option<usize>
    ensures { result ≡ whole (front_character s.now) }
{
    if !s.is_empty() && s[0] < 128 {
        return Some(1);
    }
    next_wide(s)
}

// Whether the octets are UTF-8.
pub fn is_utf8(text: &[u8]) -> bool
    ensures { result ≡ is_utf8 text.now }
{
    let mut i = 0usize;
    while let Some(k) = next_character(&text[i..]) {
        i += k;
    }
    i == text.len()
}
