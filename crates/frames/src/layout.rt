// Where the parts of a frame's head stand, read off its octets.
ghost use Rattle.std.specs.Prelude.{◌≡◌, ◌+◌, ◌-◌, ◌≤◌, ◌<◌, length, take, drop};
ghost use Rattle.headers.specs.Stretches.{Stretch};
ghost use Rattle.frames.specs.Layout.{stop_span, behind_end, front_name, front_value, behind_line, behind_word};

use crate::ahead::upto;
use headers::{Known, Stops};

// The parts of a header line: its name from the line's start up to colon, its value from value up to end; next is after its line end.
// The stretch without a backslash at the front of each is known.
#[derive(Clone, Copy)]
pub struct LineAt {
    pub colon: usize,
    pub value: usize,
    pub end: usize,
    pub next: usize,
    pub known: Known,
}

// Where a name or a value ends, and how far the stretch without a backslash at its front goes.
#[derive(Clone, Copy)]
pub struct TextEnd {
    pub at: usize,
    pub known: usize,
}

// The place of the first 10, cr or colon from i on, or the end; 10 in the place of one that does not count. cr is an octet and no Option:
// 10 ends every text, so it stands for none, here and in all that is given cr.
fn stop_at(s: &[u8], i: usize, cr: u8, colon: u8) -> usize
    requires { i ≤ length s.now }
    ensures { (result ≡ i + stop_span cr colon (drop i s.now)) × (result ≤ length s.now) }
{
    i + headers::plain_span(
        &s[i..],
        Stops {
            cr,
            colon,
            back: 10,
            top: 255,
        },
    )
}

// The same, and how far the text goes without a backslash: one search finds the end of a text without one, and a text that has one is searched on.
fn text_end(s: &[u8], i: usize, cr: u8, colon: u8) -> TextEnd
    requires { i ≤ length s.now }
    ensures { (result.at ≡ i + stop_span cr colon (drop i s.now))
        × (result.at ≤ length s.now)
        × Stretch (take (stop_span cr colon (drop i s.now)) (drop i s.now)) result.known }
{
    let known = headers::plain_span(
        &s[i..],
        Stops {
            cr,
            colon,
            back: 92,
            top: 255,
        },
    );
    let stop = i + known;
    if s.len() <= stop {
        return TextEnd { at: stop, known };
    }
    if s[stop] == 92 {
        return TextEnd {
            at: stop_at(s, stop, cr, colon),
            known,
        };
    }
    TextEnd { at: stop, known }
}

// The place behind the line end at i.
fn behind_end(s: &[u8], i: usize) -> usize
    requires { i ≤ length s.now }
    ensures { (i ≤ result) × (result ≤ length s.now) × (drop result s.now ≡ behind_end (drop i s.now)) }
{
    if i < s.len() {
        if s[i] == 13 {
            return upto(i, 2, s.len());
        }
    }
    upto(i, 1, s.len())
}

// Where the header lines begin: behind the line of the command.
pub(crate) fn first_line(s: &[u8], cr: u8) -> usize
    ensures { (result ≤ length s.now) × (drop result s.now ≡ behind_word cr s.now) }
{
    behind_end(s, stop_at(s, 0, cr, 10))
}

// The parts of the header line at i.
pub(crate) fn line_at(s: &[u8], i: usize, cr: u8) -> LineAt
    requires { i ≤ length s.now }
    ensures { ((i ≤ result.colon) × (result.colon ≤ result.value) × (result.value ≤ result.end) × (result.end ≤ result.next) × (result.next ≤ length s.now))
        × (take (result.colon - i) (drop i s.now) ≡ front_name cr (drop i s.now))
        × (take (result.end - result.value) (drop result.value s.now) ≡ front_value cr (drop i s.now))
        × (drop result.next s.now ≡ behind_line cr (drop i s.now))
        × Stretch (front_name cr (drop i s.now)) result.known.name
        × Stretch (front_value cr (drop i s.now)) result.known.value }
{
    let name = text_end(s, i, cr, 58);
    let value = upto(name.at, 1, s.len());
    let text = text_end(s, value, cr, 10);
    LineAt {
        colon: name.at,
        value,
        end: text.at,
        next: behind_end(s, text.at),
        known: Known {
            name: name.known,
            value: text.known,
        },
    }
}
