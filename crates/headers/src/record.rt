// One entry record, written from a raw name and a raw value.
ghost use Rattle.std.specs.Prelude.{◌≡◌, ◌++◌, ◌+◌, ◌≤◌, ◌<◌, length, drop, leb, ltb, not};
ghost use Rattle.headers.specs.Stretches.{kept, unescaped};
ghost use Rattle.headers.specs.Block.{record_head, entry_record};
ghost use Rattle.headers.specs.Lines.{entry_of};
ghost use Rattle.headers.specs.Answers.{left_in, Puts, written_record, decoded_answer, record_says, lacks_room};

use crate::octets::{TooShort, both_fit, copy};
use crate::text::{Style, decoded_length, put_decoded};

// The tag and the two lengths at the front of d.
fn put_head(d: &mut [u8], name: usize, value: usize)
    requires { (6 ≤ length d.old) × (name < 65536) × (value < 65536) }
    ensures { d.new ≡ record_head name value ++ drop 6 d.old }
{
    let n = (name as u16).to_be_bytes();
    let v = (value as u16).to_be_bytes();
    d[0..6].copy_from_slice(&[72, 68, n[0], n[1], v[0], v[1]]);
}

// How many octets at the front of a name and of a value are known to have no backslash.
#[derive(Clone, Copy)]
pub struct Known {
    pub name: usize,
    pub value: usize,
}

// A raw name or value in a style, and how many octets at its front are known to have no backslash: those are taken as they are, and the
// others decoded.
#[derive(Clone, Copy)]
struct Raw<'a> {
    text: &'a [u8],
    known: usize,
    style: Style,
}

impl Raw<'_> {
    // How many octets it has.
    fn length(self) -> usize
        ensures { result ≡ length (kept self.entry.known self.entry.style self.entry.text.now) }
    {
        if self.text.len() <= self.known {
            return self.text.len();
        }
        self.known + decoded_length(&self.text[self.known..], self.style)
    }

    // Whether its length is one that two octets can say. Decoded text is never longer than raw, so it is measured only where the raw text is
    // longer.
    fn is_short(self) -> bool
        ensures { result ≡ ltb (length (kept self.entry.known self.entry.style self.entry.text.now)) 65536 }
    {
        self.text.len() < 65536 || self.length() < 65536
    }

    // Its octets at the front of d; how many they are. What is known is one stretch, and copied as such.
    fn put(self, d: &mut [u8]) -> usize
        requires { length (kept self.known self.style self.text.now) ≤ length d.old }
        ensures { Puts (kept self.entry.known self.entry.style self.entry.text.now) result d.old d.new }
    {
        if self.text.len() <= self.known {
            copy(d, 0, self.text);
            return self.text.len();
        }
        copy(d, 0, &self.text[0..self.known]);
        self.known + put_decoded(&mut d[self.known..], &self.text[self.known..], self.style)
    }
}

// The record of such a name and value at the front of d; its length.
fn put_record(d: &mut [u8], name: Raw<'_>, value: Raw<'_>) -> usize
    requires { (6 + length (kept name.known name.style name.text.now) + length (kept value.known value.style value.text.now) ≤ length d.old)
        × (length (kept name.known name.style name.text.now) < 65536) × (length (kept value.known value.style value.text.now) < 65536) }
    ensures { Puts (entry_record (entry_of (kept name.entry.known name.entry.style name.entry.text.now) (kept value.entry.known value.entry.style value.entry.text.now))) result
        d.old d.new }
{
    let n = name.put(&mut d[6..]);
    let e = 6 + n;
    let v = value.put(&mut d[e..]);
    put_head(d, n, v);
    e + v
}

// Whether such a name and value have at most that many octets. Here too they are measured only where the raw text is too long.
fn both_within(name: Raw<'_>, value: Raw<'_>, most: usize) -> bool
    ensures { result ≡ leb (length (kept name.entry.known name.entry.style name.entry.text.now) + length (kept value.entry.known value.entry.style value.entry.text.now)) most }
{
    both_fit(name.text.len(), value.text.len(), most)
        || both_fit(name.length(), value.length(), most)
}

// Whether such a name and value have a record, and it has room in so many octets.
fn have_room(name: Raw<'_>, value: Raw<'_>, room: usize) -> bool
    ensures { result ≡ not (lacks_room room
        (entry_of (kept name.entry.known name.entry.style name.entry.text.now) (kept value.entry.known value.entry.style value.entry.text.now))) }
{
    if room < 6 {
        return false;
    }
    if !both_within(name, value, room - 6) {
        return false;
    }
    if !name.is_short() {
        return false;
    }
    value.is_short()
}

// The record of any octets at the front of d, those that are known to have no backslash as they are, the others decoded; or that it has
// no room (21), which a name or a value of more than 65,535 octets never has.
pub fn write_known(
    d: &mut [u8],
    name: &[u8],
    value: &[u8],
    known: Known,
    style: Style,
) -> Result<usize, TooShort>
    ensures { (record_says result ≡ decoded_answer unescaped (length d.old)
        (kept known.name style name.now) (kept known.value style value.now))
        × (d.new ≡ left_in (decoded_answer unescaped (length d.old)
        (kept known.name style name.now) (kept known.value style value.now))
        (written_record unescaped (kept known.name style name.now) (kept known.value style value.now)) d.old) }
{
    let name = Raw {
        text: name,
        known: known.name,
        style,
    };
    let value = Raw {
        text: value,
        known: known.value,
        style,
    };
    if !have_room(name, value, d.len()) {
        return Err(TooShort);
    }
    Ok(put_record(d, name, value))
}

// The record of any octets, decoded, at the front of d; or that it has no room (21).
pub fn write_decoded(
    d: &mut [u8],
    name: &[u8],
    value: &[u8],
    style: Style,
) -> Result<usize, TooShort>
    ensures { (record_says result ≡ decoded_answer style (length d.old) name.now value.now)
        × (d.new ≡ left_in (decoded_answer style (length d.old) name.now value.now) (written_record style name.now value.now) d.old) }
{
    write_known(d, name, value, Known { name: 0, value: 0 }, style)
}
