// Ids in a flat store: a place has 32 octets, the first of which, as many as its length says, are its id. A place of length 0 is free. The
// functions know nothing of a session but how long its ids may be.
ghost use Rattle.std.specs.Prelude.{◌≡◌, ◌+◌, ◌-◌, ◌*◌, ◌<◌, ◌≤◌, true, length, take, drop, nat_eq, slice_index, slice_set};
ghost use Rattle.headers.specs.Rows.{same};
ghost use Rattle.stores.specs.Searches.{first_from, search_says};
ghost use Rattle.sessions.specs.Sessions.{id_max};
ghost use Rattle.sessions.specs.Stores.{ids, short, clean, distinct, valid_store};
ghost use Rattle.sessions.specs.Places.{Clean, Keyed, again, when_needed, when_freed, when_entered, stored, put_in, Settles};
ghost use Rattle.sessions.specs.Steps.{lower, both};

use crate::refusals::Refusal;
use crate::session::Session;

// What a call makes of an id: nothing; it needs it live; it enters it; it frees it.
#[derive(Clone, Copy)]
pub(crate) enum Use {
    Nothing,
    Need,
    Enter,
    Free,
}

// A store by reference, with a length for each place that fits it.
#[derive(Clone, Copy)]
pub(crate) struct Ids<'a> {
    pub octets: &'a [u8],
    pub lens: &'a [u8],
    ghost octets_long: { length octets.now ≡ length lens.now * id_max },
    ghost lens_short: { short id_max lens.now ≡ true },
}

impl<'a> Ids<'a> {
    // The octets of a place.
    fn place(self, k: usize) -> &'a [u8]
        requires { k < length self.lens.now }
        ensures { result.now ≡ take id_max (drop (k * id_max) self.entry.octets.now) }
    {
        let octets = self.octets;
        let at = k * Session::ID;
        let end = at + Session::ID;
        &octets[at..end]
    }

    // The id in a place.
    fn id(self, k: usize) -> &'a [u8]
        requires { k < length self.lens.now }
        ensures { result.now ≡ take (slice_index self.entry.lens.now k) (drop (k * id_max) self.entry.octets.now) }
    {
        let octets = self.octets;
        let lens = self.lens;
        let at = k * Session::ID;
        let end = at + usize::from(lens[k]);
        &octets[at..end]
    }

    // The places behind one.
    fn behind(self, k: usize) -> Ids<'a>
        requires { k < length self.lens.now }
        ensures { (result.octets.now ≡ drop ((k + 1) * id_max) self.entry.octets.now)
            × (result.lens.now ≡ drop (k + 1) self.entry.lens.now) }
    {
        let octets = self.octets;
        let lens = self.lens;
        let next = k + 1;
        let at = next * Session::ID;
        Ids {
            octets: &octets[at..],
            lens: &lens[next..],
        }
    }

    // Whether the octets of each place behind its id are 0.
    fn is_clean(self) -> bool
        ensures { result ≡ clean id_max self.entry.octets.now self.entry.lens.now }
    {
        let lens = self.lens;
        for (k, l) in lens.iter().enumerate() {
            if !stores::is_zero_from(self.place(k), *l) {
                return false;
            }
        }
        true
    }

    // The first place that holds the id.
    pub(crate) fn find(self, id: &[u8]) -> Option<usize>
        ensures { search_says result ≡ first_from (λ x. same x id.now) 0 (ids id_max self.entry.octets.now self.entry.lens.now) }
    {
        for k in 0..self.lens.len() {
            if stores::is_same(self.id(k), id) {
                return Some(k);
            }
        }
        None
    }

    // Whether the store holds an id: the keys of its places first, then, where a key is the same, the ids.
    fn is_repeated(self, keys: &[u32], key: u32, id: &[u8]) -> bool
        requires { Keyed id_max (length self.lens.now) self.octets.now self.lens.now keys.now key id.now }
        ensures { result ≡ again id.now (ids id_max self.entry.octets.now self.entry.lens.now) }
    {
        if id.len() == 0 {
            return false;
        }
        if stores::has_key(keys, key) {
            return self.find(id).is_some();
        }
        false
    }

    // Whether no two places hold the same id, free ones not counted: each id is compared with those of later places that have its key.
    fn compare(self) -> bool
        requires { Clean id_max (length self.lens.now) self.octets.now self.lens.now }
        ensures { result ≡ distinct (ids id_max self.entry.octets.now self.entry.lens.now) }
    {
        let mut keys = [0u32; 64];
        let count = self.lens.len();
        stores::put_keys(&mut keys, self.octets, self.lens);
        for k in 0..count {
            let later = k + 1;
            if self
                .behind(k)
                .is_repeated(&keys[later..count], keys[k], self.id(k))
            {
                return false;
            }
        }
        true
    }

    // The same. Where no two keys are alike, no ids are, and none are compared.
    fn is_distinct(self) -> bool
        requires { Clean id_max (length self.lens.now) self.octets.now self.lens.now }
        ensures { result ≡ distinct (ids id_max self.entry.octets.now self.entry.lens.now) }
    {
        let mut keys = [0u32; 64];
        let count = self.lens.len();
        stores::put_keys(&mut keys, self.octets, self.lens);
        if stores::are_apart(&keys[0..count], self.lens) {
            return true;
        }
        self.compare()
    }

    // What becomes of a use of an id: the checks in order, and the place that changes.
    pub(crate) fn settle(self, id: &[u8], usage: Use) -> Result<Option<usize>, Refusal>
        ensures { Settles id_max usage id.now (ids id_max self.entry.octets.now self.entry.lens.now) result }
    {
        if id.len() == 0 {
            return Err(Refusal::BadId);
        }
        if Session::ID < id.len() {
            return Err(Refusal::BadId);
        }
        match usage {
            Use::Nothing => Ok(None),
            Use::Need => needed(self.find(id)),
            Use::Enter => entered(self.find(id), find_free(self.lens)),
            Use::Free => freed(self.find(id)),
        }
    }
}

// The first free place.
pub(crate) fn find_free(lens: &[u8]) -> Option<usize>
    ensures { search_says result ≡ first_from (λ l. nat_eq l 0) 0 lens.now }
{
    lens.iter().position(|l| *l == 0)
}

// Whether no length is above that of a place.
fn is_short(lens: &[u8]) -> bool
    ensures { result ≡ short id_max lens.now }
{
    lens.iter().all(|l| usize::from(*l) <= Session::ID)
}

// Whether a store of at most 64 places is valid: no length above that of a place, no octet but 0 behind an id, no live id twice.
pub(crate) fn is_valid(octets: &[u8], lens: &[u8]) -> bool
    requires { (length octets.now ≡ length lens.now * id_max) × (length lens.now ≤ 64) }
    ensures { result ≡ valid_store id_max octets.now lens.now }
{
    if !is_short(lens) {
        return false;
    }
    let store = Ids { octets, lens };
    if !store.is_clean() {
        return false;
    }
    store.is_distinct()
}

// What becomes of a use of an id: the place that gets the id, or is emptied; none where nothing is stored; or what is refused. Here of an id
// that must be live, by where it was found.
fn needed(found: Option<usize>) -> Result<Option<usize>, Refusal>
    ensures { result ≡ when_needed found }
{
    found.ok_or(Refusal::NotLive)?;
    Ok(None)
}

// Of one that is freed.
fn freed(found: Option<usize>) -> Result<Option<usize>, Refusal>
    ensures { result ≡ when_freed found }
{
    found.ok_or(Refusal::NotLive)?;
    Ok(found)
}

// Of one that is entered, by the first free place too.
fn entered(found: Option<usize>, free: Option<usize>) -> Result<Option<usize>, Refusal>
    ensures { result ≡ when_entered found free }
{
    match found {
        Some(k) => Err(Refusal::Live),
        None => match free {
            Some(k) => Ok(free),
            None => Err(Refusal::Full),
        },
    }
}

// The one of two refusals with the lower number.
fn lower(a: Refusal, b: Refusal) -> Refusal
    ensures { result ≡ lower a b }
{
    // `a.min(b)` by a derived order was tried, and antt does not show without all 400 pairs that it is the order of the numbers.
    if b.number() < a.number() { b } else { a }
}

// What becomes of two ids, of which the second is neither entered nor freed: the first's place, or the lowest refusal.
pub(crate) fn both(
    first: Result<Option<usize>, Refusal>,
    second: Result<Option<usize>, Refusal>,
) -> Result<Option<usize>, Refusal>
    ensures { result ≡ both first second }
{
    match first {
        Ok(place) => match second {
            Ok(other) => first,
            Err(b) => Err(b),
        },
        Err(a) => match second {
            Ok(other) => first,
            Err(b) => Err(lower(a, b)),
        },
    }
}

// How many octets of an id its place gets.
pub(crate) fn stored_length(usage: Use, len: usize) -> usize
    ensures { result ≡ stored usage len }
{
    match usage {
        Use::Enter => len,
        Use::Free => 0,
        Use::Need => 0,
        Use::Nothing => 0,
    }
}

// An id in a place of a store, and 0 after it, with its length.
pub(crate) fn put(octets: &mut [u8], lens: &mut [u8], index: usize, id: &[u8])
    requires { (index * id_max + id_max ≤ length octets.old) × (index < length lens.old) × (length id.now ≤ id_max) }
    ensures { (octets.new ≡ put_in id_max octets.old index id.now) × (lens.new ≡ slice_set lens.old index (length id.now)) }
{
    let at = index * Session::ID;
    let end = at + Session::ID;
    stores::fill(&mut octets[at..end], id);
    lens[index] = id.len() as u8;
}

// The octets of a place of 32.
pub(crate) fn row(store: &[u8], index: usize) -> [u8; 32]
    requires { index * 32 + 32 ≤ length store.now }
    ensures { result ≡ take 32 (drop (index * 32) store.now) }
{
    let at = index * 32;
    let end = at + 32;
    let mut out = [0u8; 32];
    out.copy_from_slice(&store[at..end]);
    out
}
