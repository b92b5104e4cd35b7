// Rows of octets: compared, measured, copied.
ghost use Rattle.std.specs.Prelude.{◌≡◌, ◌+◌, ◌≤◌, ◌<◌, leb, length, drop};
ghost use Rattle.std.proofs.Math.Seq.{paste};
ghost use Rattle.headers.specs.Rows.{same, copied};

// That the octets of a target are fewer than those to be written.
#[derive(Clone, Copy)]
pub struct TooShort;

// Whether two rows are the same.
pub fn equal(a: &[u8], b: &[u8]) -> bool
    ensures { result ≡ same a.now b.now }
{
    a == b
}

// Whether n octets and m more fit into room.
pub(crate) fn both_fit(n: usize, m: usize, room: usize) -> bool
    ensures { result ≡ leb (n + m) room }
{
    n <= room && m <= room - n
}

// The octets of s, copied to d from a place on, all by one call that uses the widest registers that the processor has.
fn put_whole(d: &mut [u8], at: usize, s: &[u8])
    requires { at + length s.now ≤ length d.old }
    ensures { d.new ≡ paste d.old at s.now (length s.now) }
{
    d[at..at + s.len()].copy_from_slice(s);
}

// The same one by one, for rows that are too short for such a call.
fn put_each(d: &mut [u8], at: usize, s: &[u8])
    requires { at + length s.now ≤ length d.old }
    ensures { d.new ≡ paste d.old at s.now (length s.now) }
{
    for (i, x) in s.iter().enumerate() {
        d[at + i] = *x;
    }
}

// A block of s, from place i on, copied to d as far from a place. It is read whole before it is written, so that it is moved at once.
pub(crate) fn put_block<const N: usize>(d: &mut [u8], at: usize, s: &[u8], i: usize)
    requires { (i + N ≤ length s.now) × (at + length s.now ≤ length d.old) }
    ensures { d.new ≡ paste d.old (at + i) (drop i s.now) N }
{
    let mut block = [0u8; N];
    block.copy_from_slice(&s[i..i + N]);
    put_whole(d, at + i, &block);
}

// The octets of s, copied by blocks from place from on, where a block of them is copied already; the last block ends with s.
fn put_rest<const N: usize>(d: &mut [u8], at: usize, s: &[u8], from: usize)
    requires { (0 < N) × (N ≤ length s.now) × (at + length s.now ≤ length d.old) × (from ≤ N)
        × (d.old ≡ paste d.old at s.now N) }
    ensures { d.new ≡ paste d.old at s.now (length s.now) }
{
    for k in 0..(s.len() - from) / N {
        put_block::<N>(d, at, s, from + k * N);
    }
    put_block::<N>(d, at, s, s.len() - N);
}

// The octets of s, copied by blocks: the first, and the others from a place in it or right after it. Not by one copy_from_slice, which
// would be a call of memmove for each text, also for a short one: with such a call lines that have escapes took 4 to 5 per cent longer to
// write (docs/DECISIONS.md).
fn put_blocks<const N: usize>(d: &mut [u8], at: usize, s: &[u8], from: usize)
    requires { (0 < N) × (N ≤ length s.now) × (at + length s.now ≤ length d.old) × (from ≤ N) }
    ensures { d.new ≡ paste d.old at s.now (length s.now) }
{
    put_block::<N>(d, at, s, 0);
    put_rest::<N>(d, at, s, from);
}

// The octets of s, copied by the largest blocks that they have, and so without a call. After the first the blocks of 128 begin at
// multiples of 128 in d, since stores to such places are quicker.
fn put_all(d: &mut [u8], at: usize, s: &[u8])
    requires { at + length s.now ≤ length d.old }
    ensures { d.new ≡ paste d.old at s.now (length s.now) }
{
    if 128 <= s.len() {
        put_blocks::<128>(d, at, s, 128 - at % 128);
        return;
    }
    if 16 <= s.len() {
        put_blocks::<16>(d, at, s, 16);
        return;
    }
    if 8 <= s.len() {
        put_blocks::<8>(d, at, s, 8);
        return;
    }
    if 4 <= s.len() {
        put_blocks::<4>(d, at, s, 4);
        return;
    }
    put_each(d, at, s);
}

// The octets of s, copied to d from a place on; nothing where they have no room there. For rows of which most are short: it makes no call.
pub fn copy(d: &mut [u8], at: usize, s: &[u8])
    ensures { d.new ≡ copied d.old at s.now }
{
    if !both_fit(at, s.len(), d.len()) {
        return;
    }
    put_all(d, at, s);
}

// The octets of s: by one call where it is worth one, by blocks else.
fn put_long(d: &mut [u8], at: usize, s: &[u8])
    requires { at + length s.now ≤ length d.old }
    ensures { d.new ≡ paste d.old at s.now (length s.now) }
{
    if 256 <= s.len() {
        put_whole(d, at, s);
        return;
    }
    put_all(d, at, s);
}

// The same as copy, for rows of which most are long: one of 256 octets or more is copied by one call.
pub fn copy_long(d: &mut [u8], at: usize, s: &[u8])
    ensures { d.new ≡ copied d.old at s.now }
{
    if !both_fit(at, s.len(), d.len()) {
        return;
    }
    put_long(d, at, s);
}
