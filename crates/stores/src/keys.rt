// A number for each place of a store, the same for the same octets.
ghost use Rattle.std.specs.Prelude.{◌≡◌, true, ◌&&◌, not, ◌++◌, ◌+◌, ◌*◌, ◌≤◌, ◌<◌, eqb, length, drop};
ghost use Rattle.headers.specs.Rows.{any};
ghost use Rattle.stores.specs.Keys.{word_at, key as key_of, keys, with_keys, slot as slot_of, marked, apart};

// The four octets from i on, as a number.
fn word_at(place: &[u8], i: usize) -> u64
    requires { i + 3 < length place.now }
    ensures { (result ≡ word_at place.now i) × (result < 4294967296) }
{
    u64::from(u32::from_be_bytes([place[i], place[i + 1], place[i + 2], place[i + 3]]))
}

// The key of a place of 32 octets.
fn key(place: &[u8]) -> u32
    requires { length place.now ≡ 32 }
    ensures { result ≡ key_of place.now }
{
    let front = word_at(place, 0)
        + word_at(place, 4) * 3
        + word_at(place, 8) * 5
        + word_at(place, 12) * 7;
    let all = front
        + word_at(place, 16) * 11
        + word_at(place, 20) * 13
        + word_at(place, 24) * 17
        + word_at(place, 28) * 19;
    // The low 32 bits are meant: a `try_from` would have a branch that never runs.
    (all % 4294967296) as u32
}

// Whether a key is among others. No key ends the loop, so that it is compiled to look at many at a time.
pub fn has_key(keys: &[u32], key: u32) -> bool
    ensures { result ≡ any (λ x. eqb x key) keys.now }
{
    let mut found = false;
    for x in keys {
        found = found | (*x == key);
    }
    found
}

// The keys of the places of a store, at the front of others.
fn put_each(d: &mut [u32], store: &[u8], lens: &[u8])
    requires { (length store.now ≡ length lens.now * 32) × (length lens.now ≤ length d.old) }
    ensures { d.new ≡ keys store.now lens.now ++ drop (length lens.now) d.old }
{
    for k in 0..lens.len() {
        let at = k * 32;
        let end = at + 32;
        d[k] = key(&store[at..end]);
    }
}

// The same; nothing where the store has not a place of 32 octets for each length, or the keys have no room.
pub fn put_keys(d: &mut [u32], store: &[u8], lens: &[u8])
    ensures { d.new ≡ with_keys store.now lens.now d.old }
{
    if !crate::compaction::are_rows(store.len(), lens.len(), 32) {
        return;
    }
    if d.len() < lens.len() {
        return;
    }
    put_each(d, store, lens);
}

// The slot of a key in a table of 1,024 marks.
fn slot(key: u32) -> usize
    ensures { (result ≡ slot_of key) × (result < 1024) }
{
    // Fewer than 1,024: a `try_from` would have a branch that never runs.
    (((u64::from(key) * 2654435761) >> 22) % 1024) as usize
}

// Whether a key is among later ones, each of which has its slot marked: a key whose slot is not marked is compared with none.
fn is_among(marks: &[u8], later: &[u32], key: u32) -> bool
    requires { (length marks.now ≡ 1024) × (marked marks.now later.now ≡ true) }
    ensures { result ≡ any (λ x. eqb x key) later.now }
{
    if marks[slot(key)] == 0 {
        return false;
    }
    has_key(later, key)
}

// Whether a place, by its length and its key, is not free and has the key of a later one.
fn clashes(marks: &[u8], later: &[u32], key: u32, len: u8) -> bool
    requires { (length marks.now ≡ 1024) × (marked marks.now later.now ≡ true) }
    ensures { result ≡ not (eqb len 0) && any (λ x. eqb x key) later.now }
{
    if len == 0 {
        return false;
    }
    is_among(marks, later, key)
}

// Whether no place that is not free has the key of a later one. From the last place to the first, each key marks its slot in a table.
// It is quick because most keys find their slot not marked, and are then compared with no other.
pub fn are_apart(keys: &[u32], lens: &[u8]) -> bool
    ensures { result ≡ apart keys.now lens.now }
{
    let mut marks = [0u8; 1024];
    for i in (0..keys.len()).rev() {
        let later = i + 1;
        let key = keys[i];
        let len = crate::places::octet_at(lens, i);
        if clashes(&marks, &keys[later..], key, len) {
            return false;
        }
        marks[slot(key)] = 1;
    }
    true
}
