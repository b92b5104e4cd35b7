// The header block: entry records one after another.
ghost use Rattle.std.specs.Prelude.{◌≡◌, ◌+◌, ◌^◌, ◌<◌, length, drop};
ghost use Rattle.headers.specs.Block.{two_at, entries};
ghost use Rattle.headers.specs.Answers.{find_answer, found_says, count_from, counted_says, is_block, checked_says, entry_answer, entry_says};

// A part of octets that the caller has: where it begins, and how long it is.
#[derive(Clone, Copy)]
pub struct Span {
    pub start: usize,
    pub len: usize,
}

// The first value of a name: its place in the block, and how many later entries have the name.
#[derive(Clone, Copy)]
pub struct FirstValue {
    pub start: usize,
    pub len: usize,
    pub later: usize,
}

// That octets are no row of whole records (22).
#[derive(Clone, Copy)]
pub struct Malformed;

// The lengths of a record's name and value.
#[derive(Clone, Copy)]
pub struct Lengths {
    pub name: usize,
    pub value: usize,
}

// Where in a block the parts of a record begin, and where it ends.
#[derive(Clone, Copy)]
pub(crate) struct Places {
    pub name: usize,
    pub value: usize,
    pub end: usize,
}

impl Lengths {
    // Where the parts of the record at a place begin, which has these lengths, and where it ends.
    pub(crate) fn places(self, at: usize) -> Places
        requires { at + 6 + self.name + self.value < 2 ^ 64 }
        ensures { (result.name ≡ at + 6) × (result.value ≡ at + 6 + self.name) × (result.end ≡ at + 6 + self.name + self.value) }
    {
        let name = at + 6;
        let value = name + self.name;
        Places {
            name,
            value,
            end: value + self.value,
        }
    }
}

// The length in the two octets at i.
fn length_at(block: &[u8], i: usize) -> usize
    requires { i + 1 < length block.now }
    ensures { (result ≡ two_at block.now i) × (result < 65536) }
{
    usize::from(u16::from_be_bytes([block[i], block[i + 1]]))
}

// What a block has at a place: the lengths of a whole record, whose name begins 6 octets on and is followed by its value, and that by the
// next record; or nothing more.
pub fn entry_at(block: &[u8], at: usize) -> Result<Option<Lengths>, Malformed>
    ensures { entry_says result ≡ entry_answer (drop at block.now) }
{
    if block.len() <= at {
        return Ok(None);
    }
    let left = block.len() - at;
    if left < 6 {
        return Err(Malformed);
    }
    if block[at] != 72 {
        return Err(Malformed);
    }
    if block[at + 1] != 68 {
        return Err(Malformed);
    }
    let name = length_at(block, at + 2);
    let value = length_at(block, at + 4);
    if left < 6 + name + value {
        return Err(Malformed);
    }
    Ok(Some(Lengths { name, value }))
}

// Checks that the block is a row of whole records from place at on.
fn check_from(block: &[u8], at: usize) -> Result<(), Malformed>
    ensures { checked_says result ≡ is_block (drop at block.now) }
{
    let mut i = at;
    while let Some(l) = entry_at(block, i)? {
        i = l.places(i).end;
    }
    Ok(())
}

// Whether the block is a row of whole records.
pub fn is_valid(block: &[u8]) -> bool
    ensures { result ≡ is_block block.now }
{
    check_from(block, 0).is_ok()
}

// How many entries of a name there are from place at on.
fn count_from(block: &[u8], name: &[u8], at: usize) -> Result<usize, Malformed>
    ensures { counted_says result ≡ count_from name.now at (entries (drop at block.now)) }
{
    let mut count = 0usize;
    let mut i = at;
    while let Some(l) = entry_at(block, i)? {
        let p = l.places(i);
        i = p.end;
        if crate::octets::equal(&block[p.name..p.value], name) {
            count += 1;
        }
    }
    Ok(count)
}

// The first value of a name, if an entry has it, and how many later entries have it. The whole block is checked, in one pass.
pub fn find(block: &[u8], name: &[u8]) -> Result<Option<FirstValue>, Malformed>
    ensures { found_says result ≡ find_answer block.now name.now }
{
    let mut i = 0usize;
    while let Some(l) = entry_at(block, i)? {
        let p = l.places(i);
        i = p.end;
        if crate::octets::equal(&block[p.name..p.value], name) {
            let later = count_from(block, name, i)?;
            return Ok(Some(FirstValue {
                start: p.value,
                len: l.value,
                later,
            }));
        }
    }
    Ok(None)
}
