// Header values: accept-version, heart-beat and ack.
ghost use Rattle.std.specs.Prelude.{◌≡◌, ◌+◌, ◌≤◌, length, drop};
ghost use Rattle.std.proofs.Math.Option.{some};
ghost use Rattle.headers.specs.Rows.{same};
ghost use Rattle.headers.specs.Parts.{until};
ghost use Rattle.sessions.specs.Values.{some_digits, is_item, versions, heart_beats};
ghost use Rattle.sessions.specs.Opening.{shared_flags, none_shared, may_offer, all_among, chosen as chosen_of, interval as interval_of};
ghost use Rattle.sessions.specs.Headers.{mode_named};
ghost use Rattle.sessions.specs.Reads.{version, counted, versions_say, heart_beats_say, mode_says};

use crate::parts::SubscriptionStore;
use frames::version::Version;

// The two numbers of a heart-beat value.
#[derive(Clone, Copy)]
pub(crate) struct Beats {
    pub sends: u32,
    pub wants: u32,
}

// No offer and no interval is larger.
pub(crate) const HEART_BEAT_MAX: u32 = 3600000;

// The place of the first such octet from a place on, or the end.
fn end_of(value: &[u8], from: usize, octet: u8) -> usize
    requires { from ≤ length value.now }
    ensures { (result ≡ from + until octet (drop from value.now)) × (result ≤ length value.now) }
{
    for i in from..value.len() {
        if value[i] == octet {
            return i;
        }
    }
    value.len()
}

// Whether a part is digits, at least one.
fn is_digits(part: &[u8]) -> bool
    ensures { result ≡ some_digits part.now }
{
    (part.len() != 0) & part.iter().all(|x| x.is_ascii_digit())
}

// Whether an item is digits, a point, digits.
fn is_item(item: &[u8]) -> bool
    ensures { result ≡ is_item item.now }
{
    let point = end_of(item, 0, 46);
    if item.len() <= point {
        return false;
    }
    let next = point + 1;
    if !is_digits(&item[0..point]) {
        return false;
    }
    is_digits(&item[next..])
}

// Whether an item is the version 1.d, by the digit d.
fn is_version(item: &[u8], digit: u8) -> bool
    ensures { result ≡ same item.now (version digit) }
{
    let one = [49u8, 46u8, digit];
    headers::equal(item, &one)
}

// Flags with an item counted.
fn with_item(flags: [bool; 3], item: &[u8]) -> [bool; 3]
    ensures { result ≡ counted flags item.now }
{
    [
        flags[0] | is_version(item, 48),
        flags[1] | is_version(item, 49),
        flags[2] | is_version(item, 50),
    ]
}

// The versions of an accept-version value, item by item, as flags for 1.0, 1.1 and 1.2; none where it is malformed.
pub(crate) fn read_versions(value: &[u8]) -> Option<[bool; 3]>
    ensures { versions_say result ≡ versions value.now }
{
    let mut flags = [false; 3];
    let mut at = 0usize;
    loop {
        let end = end_of(value, at, 44);
        if !is_item(&value[at..end]) {
            return None;
        }
        let counted = with_item(flags, &value[at..end]);
        flags = counted;
        if value.len() <= end {
            return Some(flags);
        }
        at = end + 1;
    }
}

// The versions that both sides have.
pub(crate) fn share(client: [bool; 3], server: [bool; 3]) -> [bool; 3]
    ensures { result ≡ shared_flags client server }
{
    [
        client[0] & server[0],
        client[1] & server[1],
        client[2] & server[2],
    ]
}

pub(crate) fn is_none_shared(flags: [bool; 3]) -> bool
    ensures { result ≡ none_shared flags }
{
    !(flags[0] | (flags[1] | flags[2]))
}

// Whether a server may offer these versions: 1.1 or 1.2 or both.
pub(crate) fn may_offer(flags: [bool; 3]) -> bool
    ensures { result ≡ may_offer flags }
{
    !flags[0] & (flags[1] | flags[2])
}

// Whether all versions are among others.
pub(crate) fn are_among(flags: [bool; 3], others: [bool; 3]) -> bool
    ensures { result ≡ all_among flags others }
{
    (!flags[0] | others[0]) & ((!flags[1] | others[1]) & (!flags[2] | others[2]))
}

// The protocol version of the highest that both sides have; 1.2 where none is chosen yet.
pub(crate) fn chosen(flags: [bool; 3]) -> Version
    ensures { result ≡ chosen_of flags }
{
    if flags[1] & !flags[2] {
        Version::V11
    } else {
        Version::V12
    }
}

// The two numbers of a heart-beat value; none where it is malformed.
pub(crate) fn read_heart_beats(value: &[u8]) -> Option<Beats>
    ensures { heart_beats_say result ≡ heart_beats value.now }
{
    let comma = end_of(value, 0, 44);
    if value.len() <= comma {
        return None;
    }
    let next = comma + 1;
    let sends = headers::read_decimal(&value[0..comma], HEART_BEAT_MAX)?;
    let wants = headers::read_decimal(&value[next..], HEART_BEAT_MAX)?;
    Some(Beats { sends, wants })
}

// The interval of heart-beats from a side that can send every a milliseconds to one that wants to hear every b.
pub(crate) fn interval(a: u32, b: u32) -> u32
    ensures { result ≡ interval_of a b }
{
    if (a == 0) | (b == 0) {
        return 0;
    }
    a.max(b)
}

// The ack mode that a word names, if it is one.
pub(crate) fn read_mode(word: &[u8]) -> Option<u8>
    ensures { mode_says result ≡ mode_named (some word.now) }
{
    if headers::equal(word, b"auto") {
        return Some(SubscriptionStore::AUTO);
    }
    if headers::equal(word, b"client") {
        return Some(SubscriptionStore::CLIENT);
    }
    if headers::equal(word, b"client-individual") {
        return Some(SubscriptionStore::INDIVIDUAL);
    }
    None
}
