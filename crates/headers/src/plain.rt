// Stretches of octets: how many go on to the next that is not plain, or to the next backslash.
ghost use Rattle.std.specs.Prelude.{◌≡◌, ℕ, Bool, ◌+◌, ◌≤◌, length, drop, true};
ghost use Rattle.headers.specs.Rows.{every};
ghost use Rattle.headers.specs.Stretches.{span, plain_in, calm, not_back, Stretch};

// A test of an octet.
pub(crate) trait OctetTest: Copy {
    ghost test: { Self → ℕ → Bool };

    // Whether the octet passes.
    fn passes(self, x: u8) -> bool
        ensures { result ≡ test self x };
}

// The octets that end a stretch beside 10. An octet above top ends it too. 10, which ends every stretch, stands for a stop that is not
// there: so a test is the same four comparisons, and the one with top, with no branch.
#[derive(Clone, Copy)]
pub struct Stops {
    pub cr: u8,
    pub colon: u8,
    pub back: u8,
    pub top: u8,
}

// Whether header text takes the octet as it is.
impl OctetTest for Stops {
    ghost test = { plain_in };

    fn passes(self, x: u8) -> bool {
        !((x == 10) | (x == self.cr) | (x == self.colon) | (x == self.back)) & (x <= self.top)
    }
}

// Octets that are none of what stops have in practice.
#[derive(Clone, Copy)]
struct Calm {
    top: u8,
}

// One comparison and two for 10, 13, 58, 92 and all above top.
impl OctetTest for Calm {
    ghost test = { λ c. calm c.top };

    fn passes(self, x: u8) -> bool {
        (14 <= x) & (x <= self.top) & (x != 58) & (x != 92)
    }
}

// Octets that are no backslash.
#[derive(Clone, Copy)]
struct NotBack;

impl OctetTest for NotBack {
    ghost test = { λ _. not_back };

    fn passes(self, x: u8) -> bool {
        x != 92
    }
}

// Whether every octet passes: every octet is looked at, so that many are at once.
pub(crate) fn is_all<T: OctetTest>(s: &[u8], test: T) -> bool
    ensures { result ≡ every (T.test test) s.now }
{
    let mut ok = true;
    for x in s {
        ok = ok & test.passes(*x);
    }
    ok
}

// How many octets at the front of s are in whole blocks that pass. The blocks are larger than the first one: where they were as small,
// the loop over one would be unrolled before it is made one over many octets at once.
fn whole_blocks<T: OctetTest>(s: &[u8], test: T) -> usize
    ensures { (result ≤ length s.now) × (result + span (T.test test) (drop result s.now) ≡ span (T.test test) s.now) }
{
    for k in 0..s.len() / 64 {
        let at = k * 64;
        if !is_all(&s[at..at + 64], test) {
            return at;
        }
    }
    s.len() / 64 * 64
}

// The place of the first octet of a block that does not pass, or 32: every octet is looked at here too. A place is below 32, so nothing
// is lost where it is made an octet; a try_from would have a branch that never runs.
fn first_stop<T: OctetTest>(s: &[u8], test: T) -> u8
    requires { length s.now ≡ 32 }
    ensures { result ≡ span (T.test test) s.now }
{
    let mut k = 32u8;
    for (i, x) in s.iter().enumerate() {
        let c = if test.passes(*x) { 32 } else { i as u8 };
        k = c.min(k);
    }
    k
}

// A place of s up to which octets from i on pass, found by blocks: the octet there may pass too. The first block gives the place at
// once, as most stretches are short; long ones go on by whole blocks.
fn passed_from<T: OctetTest>(s: &[u8], i: usize, test: T) -> usize
    ensures { (i ≤ result) × (result ≤ i + span (T.test test) (drop i s.now)) }
{
    if s.len() <= i {
        return i;
    }
    if s.len() - i < 32 {
        return i;
    }
    let e = i + 32;
    let k = usize::from(first_stop(&s[i..e], test));
    if k < 32 {
        return i + k;
    }
    e + whole_blocks(&s[e..], test)
}

// A place of s up to which octets from i on are calm, found by blocks: the octet there may be calm too.
pub fn calm_from(s: &[u8], i: usize, top: u8) -> usize
    ensures { (i ≤ result) × (result ≤ i + span (calm top) (drop i s.now)) }
{
    passed_from(s, i, Calm { top })
}

// How many octets at the front of s pass a test. What passes a quicker one, which is as strict or stricter, is found by blocks.
fn front<Q: OctetTest, T: OctetTest>(s: &[u8], quick: Q, test: T) -> usize
    requires { (x : ℕ) → Q.test quick x ≡ true → T.test test x ≡ true }
    ensures { result ≡ span (T.test test) s.now }
{
    let mut i = 0usize;
    // A cursor: its step is what the search by blocks passes.
    while i < s.len() {
        i = passed_from(s, i, quick);
        if s.len() <= i {
            return i;
        }
        if !test.passes(s[i]) {
            return i;
        }
        i += 1;
    }
    i
}

// How many octets at the front of s pass a test, one by one.
fn each_front<T: OctetTest>(s: &[u8], test: T) -> usize
    ensures { result ≡ span (T.test test) s.now }
{
    for i in 0..s.len() {
        if !test.passes(s[i]) {
            return i;
        }
    }
    s.len()
}

// The same, found by blocks with the test itself: a block with an octet that does not pass gives its place at once, and what is left
// behind the last is less than a block.
fn exact_front<T: OctetTest>(s: &[u8], test: T) -> usize
    ensures { result ≡ span (T.test test) s.now }
{
    let mut i = 0usize;
    // A cursor: its step is what the blocks pass.
    while 32 <= s.len() - i {
        let e = i + 32;
        let k = usize::from(first_stop(&s[i..e], test));
        i += k;
        if k < 32 {
            return i;
        }
        i += whole_blocks(&s[i..], test);
    }
    i + each_front(&s[i..], test)
}

// Whether calm octets are none of the stops, which have every octet up to 255.
fn is_usual(stops: Stops) -> bool
    ensures { result ≡ true → (x : ℕ) → calm 255 x ≡ true → plain_in stops x ≡ true }
{
    (stops.cr < 14)
        & ((stops.colon < 14) | (stops.colon == 58))
        & (stops.back == 92)
        & (stops.top == 255)
}

// How many octets at the front of s header text takes as they stand.
pub fn plain_span(s: &[u8], stops: Stops) -> usize
    ensures { result ≡ span (plain_in stops) s.now }
{
    if is_usual(stops) {
        return front(s, Calm { top: 255 }, stops);
    }
    exact_front(s, stops)
}

// How far the stretch without a backslash at the front of s goes: exactly to the first backslash, or to the end. Between two escapes
// most are short, so the first octets are looked at one by one.
pub fn stretch(s: &[u8]) -> usize
    ensures { Stretch s.now result }
{
    let e = s.len().min(16);
    for i in 0..e {
        if s[i] == 92 {
            return i;
        }
    }
    e + exact_front(&s[e..], NotBack)
}
