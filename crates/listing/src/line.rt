// One line of a listing. It is put into a slice by hand: its octets are promised, and no clause says which ones write! would put there.
ghost use Rattle.std.specs.Prelude.{◌≡◌, [], ◌∷◌, ◌++◌, ◌+◌, ◌*◌, ◌≤◌, ◌<◌, length, drop};
ghost use Rattle.headers.specs.Numbers.{shortest};
ghost use Rattle.listing.specs.Lines.{numbers, behind_at, item_behind, reply_says, line_behind, line_of, line_used, line_left};

use frames::parse::{Item, Refusal};

// Why there is no item, as a line tells it: a number, of any table, and the first octet that no item can have there.
#[derive(Clone, Copy)]
pub struct Refused {
    pub number: u32,
    pub offset: usize,
}

impl From<Refusal> for Refused {
    ghost use Rattle.frames.specs.Refusals.{numbered};
    ghost use Rattle.frames.specs.Answers.{row_of};

    ghost from_gives = { λ r told. (told.number ≡ numbered (row_of r.reason)) × (told.offset ≡ r.offset) };

    fn from(r: Refusal) -> Refused {
        Refused {
            number: r.reason.number(),
            offset: r.offset,
        }
    }
}

// A number and an octet behind it, at the front of d.
pub(crate) fn put_number(d: &mut [u8], n: u64, behind: u8) -> usize
    requires { 21 ≤ length d.old }
    ensures { (result ≡ length (shortest n ++ (behind ∷ []))) × (result ≤ 21) × (d.new ≡ (shortest n ++ (behind ∷ [])) ++ drop result d.old) }
{
    let k = headers::write_decimal(d, n).unwrap();
    d[k] = behind;
    k + 1
}

// What stands behind number i of n.
fn behind_at(i: usize, n: usize) -> u8
    requires { i < n }
    ensures { result ≡ behind_at i n }
{
    if i + 1 < n { 32 } else { 10 }
}

// Numbers, a blank between two and a line end behind the last, at the front of d.
fn put_numbers(d: &mut [u8], ns: &[u64]) -> usize
    requires { 21 * length ns.now ≤ length d.old }
    ensures { (result ≡ length (numbers ns.now)) × (result ≤ 21 * length ns.now) × (d.new ≡ numbers ns.now ++ drop result d.old) }
{
    let mut at = 0usize;
    for (i, n) in ns.iter().enumerate() {
        let behind = behind_at(i, ns.len());
        at += put_number(&mut d[at..], *n, behind);
    }
    at
}

// A word at the front of d.
pub(crate) fn put_word(d: &mut [u8], w: &[u8]) -> usize
    requires { length w.now ≤ length d.old }
    ensures { (result ≡ length w.now) × (d.new ≡ w.now ++ drop result d.old) }
{
    let n = w.len();
    d[..n].copy_from_slice(w);
    n
}

// A word and numbers behind it, at the front of d.
fn put_row(d: &mut [u8], w: &[u8], ns: &[u64]) -> usize
    requires { length w.now + 21 * length ns.now ≤ length d.old }
    ensures { (result ≡ length (w.now ++ numbers ns.now)) × (d.new ≡ (w.now ++ numbers ns.now) ++ drop result d.old) }
{
    let k = put_word(d, w);
    k + put_numbers(&mut d[k..], ns)
}

// What stands behind an item's start, at the front of d.
fn put_reply(d: &mut [u8], p: Result<Option<Item>, Refused>, nothing_left: bool) -> usize
    requires { 128 ≤ length d.old }
    ensures { (result ≡ length (line_behind (reply_says p) nothing_left)) × (d.new ≡ line_behind (reply_says p) nothing_left ++ drop result d.old) }
{
    match p {
        Ok(Some(i)) => put_item(d, i),
        Ok(None) => put_word(d, if nothing_left { b"end\n" } else { b"more\n" }),
        Err(r) => {
            let ns = [u64::from(r.number), r.offset as u64];
            put_row(d, b"refused ", &ns)
        }
    }
}

// The numbers of an item, at the front of d.
fn put_item(d: &mut [u8], i: Item) -> usize
    requires { 128 ≤ length d.old }
    ensures { (result ≡ length (item_behind i)) × (d.new ≡ item_behind i ++ drop result d.old) }
{
    match i {
        Item::HeartBeat(n) => put_row(d, b"beat ", &[n as u64]),
        Item::Frame(f) => {
            let ns = [
                u64::from(f.command),
                f.len as u64,
                f.headers as u64,
                f.body as u64,
                f.body_len as u64,
            ];
            put_row(d, b"frame ", &ns)
        }
    }
}

// The line of a reply, whatever number refuses it, at the front of d: its length, or 0 where d has fewer than 160 octets and stays as it
// was; line_used and line_left, in the clause, say both.
pub fn put_line(
    d: &mut [u8],
    start: u64,
    p: Result<Option<Item>, Refused>,
    nothing_left: bool,
) -> usize
    ensures { (result ≡ line_used (length d.old) (line_of start (reply_says p) nothing_left))
        × (d.new ≡ line_left d.old (line_of start (reply_says p) nothing_left)) }
{
    if d.len() < 160 {
        return 0;
    }
    let k = put_number(d, start, 32);
    k + put_reply(&mut d[k..], p, nothing_left)
}
