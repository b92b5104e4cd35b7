// Words between points.
ghost use Rattle.std.specs.Prelude.{◌≡◌, [], ◌∷◌, ◌+◌, ◌≤◌, ◌<◌, length, drop, is_some, IfSome};
ghost use Rattle.headers.specs.Rows.{same};
ghost use Rattle.headers.specs.Parts.{until};
ghost use Rattle.topics.specs.Topics.{words, well_formed, hash, stands};
ghost use Rattle.topics.specs.Rows.{word_at, Steps, Located};

// The octet between two words.
const POINT: u8 = 46;

// The words that stand for others, in a pattern.
pub(crate) const STAR: u8 = 42;

pub(crate) const HASH: u8 = 35;

// A name or a pattern has at most so many octets, and so many words.
pub const OCTETS_MAX: usize = 256;

pub const WORDS_MAX: usize = 32;

// The places where the words begin, and the one after the end.
pub(crate) const PLACES: usize = 33;

// A well-formed name or pattern, where its words begin, and how many they are. The row of places is the caller's: as a part of this it would be
// copied wherever one is made or handed on, which costs short names and patterns most.
#[derive(Clone, Copy)]
pub(crate) struct Words<'a> {
    pub text: &'a [u8],
    pub starts: &'a [u16; PLACES],
    pub count: usize,
    pub ghost located: { Located text.now starts.now count },
}

// The place of the first point from a place on, or the end.
fn end_of(text: &[u8], from: usize) -> usize
    requires { from ≤ length text.now }
    ensures { (result ≡ from + until 46 (drop from text.now)) × (result ≤ length text.now) }
{
    for i in from..text.len() {
        if text[i] == POINT {
            return i;
        }
    }
    text.len()
}

// The place after the word at a place and after the point that ends it; the end counts as a point.
pub(crate) fn next_word(text: &[u8], at: usize) -> usize
    requires { (at ≤ length text.now) × (length text.now ≤ 256) }
    ensures { Steps text.now at result }
{
    end_of(text, at) + 1
}

// Where the words of a name or pattern begin, put into a row, and how many they are, where it is well formed.
pub(crate) fn places(text: &[u8], starts: &mut [u16; PLACES]) -> Option<usize>
    ensures formed { is_some result ≡ well_formed text.now }
    ensures located { IfSome result (λ n. Located text.now starts.new n) }
{
    if OCTETS_MAX < text.len() {
        return None;
    }
    starts[0] = 0;
    let mut at = 0usize;
    for count in 0..WORDS_MAX {
        let next = next_word(text, at);
        if next == at + 1 {
            return None;
        }
        let passed = count + 1;
        // At most 257, so it fits.
        starts[passed] = next as u16;
        if text.len() < next {
            return Some(passed);
        }
        at = next;
    }
    None
}

impl<'a> Words<'a> {
    // The word with a number, from 0.
    pub fn word(&self, k: usize) -> &'a [u8]
        requires { k < self.now.count }
        ensures { drop k (words self.now.text.now) ≡ result.now ∷ drop (k + 1) (words self.now.text.now) }
    {
        let start = usize::from(self.starts[k]);
        let end = usize::from(self.starts[k + 1]) - 1;
        &self.text[start..end]
    }
}

// Whether a name or pattern is well formed.
pub(crate) fn is_well_formed(text: &[u8]) -> bool
    ensures { result ≡ well_formed text.now }
{
    let mut starts = [0u16; PLACES];
    places(text, &mut starts).is_some()
}

// Whether two words are the same. It looks at each octet once; headers::equal goes over short rows in runs that overlap.
fn is_same(a: &[u8], b: &[u8]) -> bool
    ensures { result ≡ same a.now b.now }
{
    if a.len() != b.len() {
        return false;
    }
    for i in 0..a.len() {
        if a[i] != b[i] {
            return false;
        }
    }
    true
}

// Whether a pattern's word, which is not `#`, stands for a word of a name.
pub(crate) fn stands_for(word: &[u8], other: &[u8]) -> bool
    ensures { result ≡ stands word.now other.now }
{
    headers::equal(word, &[STAR]) || is_same(word, other)
}

// Whether a word is `#`.
pub(crate) fn is_hash(word: &[u8]) -> bool
    ensures { result ≡ same word.now hash }
{
    headers::equal(word, &[HASH])
}

// The word at a place; next is the place after its point.
pub(crate) fn word_between(text: &[u8], at: usize, next: usize) -> &[u8]
    requires { Steps text.now at next }
    ensures { result.now ≡ word_at text.now at next }
{
    let end = next - 1;
    &text[at..end]
}
