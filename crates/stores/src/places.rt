// A text in a place of fixed width: its octets, and 0 after it.
ghost use Rattle.std.specs.Prelude.{◌≡◌, ◌<◌, length, drop, get_or};
ghost use Rattle.stores.specs.Places.{is_zero, filled};

// Whether each octet is 0. No octet ends the loop, so that it is compiled to look at many at a time.
pub fn is_zero(s: &[u8]) -> bool
    ensures { result ≡ is_zero s.now }
{
    let mut zero = true;
    for x in s {
        zero = zero & (*x == 0);
    }
    zero
}

// Whether each octet from place n on is 0, of fewer than 256. The place is counted in an octet as well, to be compared many at a time too.
fn is_short_zero(s: &[u8], n: u8) -> bool
    requires { length s.now < 256 }
    ensures { result ≡ is_zero (drop n s.now) }
{
    let mut zero = true;
    // Counted by hand: with a cast of the index, or a `for` over octets, fewer are compared at a time, and asking took 1,080 ns, not 640.
    let mut j = 0u8;
    for x in s {
        zero = zero & ((*x == 0) | (j < n));
        j += 1;
    }
    zero
}

// The same of any number. Where the text before place n fills all, nothing is looked at.
pub fn is_zero_from(s: &[u8], n: u8) -> bool
    ensures { result ≡ is_zero (drop n s.now) }
{
    let from = usize::from(n);
    if s.len() == from {
        return true;
    }
    if s.len() < 256 {
        return is_short_zero(s, n);
    }
    is_zero(&s[from..])
}

// An octet of a text, or 0 after it.
pub fn octet_at(text: &[u8], i: usize) -> u8
    ensures { result ≡ get_or text.now i 0 }
{
    text.get(i).copied().unwrap_or(0)
}

// A text in a place, and 0 after it; as much of the text as the place holds. By copy of headers, which makes no call: with
// copy_from_slice the archive of the registry would need memmove from outside.
pub fn fill(place: &mut [u8], text: &[u8])
    ensures { place.new ≡ filled (length place.old) text.now }
{
    let n = place.len().min(text.len());
    headers::copy(place, 0, &text[..n]);
    place[n..].fill(0);
}
