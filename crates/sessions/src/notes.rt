// What a session notes of a header block: one walk finds where the first value of each header that it knows is, how many entries
// have that header's name. A block that is not well formed has no notes.
ghost use Rattle.std.specs.Prelude.{◌≡◌, ◌<◌, if◌then◌else◌};
ghost use Rattle.headers.specs.Rows.{same};
ghost use Rattle.sessions.specs.Notes.{Notes_of, located, later_noted, index_of, headers_max, number_of_name, number_says, no_notes, marked};

use crate::command::Header;
use headers::Malformed;

// A value, from start to end.
#[derive(Clone, Copy)]
pub(crate) struct Located {
    pub start: usize,
    pub end: usize,
}

// Where the first value of a header is in a block, and how many entries have its name.
#[derive(Clone, Copy)]
pub(crate) struct Mark {
    pub start: usize,
    pub end: usize,
    pub count: usize,
}

impl Mark {
    // With one more value, from start to end; the first is kept.
    fn with(self, start: usize, end: usize) -> Mark
        requires { self.count < end }
        ensures { result ≡ marked self start end }
    {
        let count = self.count + 1;
        if self.count == 0 {
            return Mark { start, end, count };
        }
        Mark {
            start: self.start,
            end: self.end,
            count,
        }
    }
}

// A mark for each header that a session knows. Headers go by their numbers.
#[derive(Clone, Copy)]
pub(crate) struct Notes {
    pub marks: [Mark; Notes::HEADERS],
}

impl Notes {
    // How many headers a session knows.
    pub(crate) const HEADERS: usize = 10;

    // Nothing noted yet.
    fn none() -> Notes
        ensures { result ≡ no_notes }
    {
        let mark = Mark {
            start: 0,
            end: 0,
            count: 0,
        };
        Notes {
            marks: [mark; Notes::HEADERS],
        }
    }
}

// The number of a header.
fn index_of(header: Header) -> usize
    ensures { result ≡ index_of header }
{
    header as usize
}

// A header where a name is its name.
fn header_if(name: &[u8], known: &[u8], header: Header) -> Option<Header>
    ensures { number_says result ≡ (if same name.now known.now then index_of header else headers_max) }
{
    if headers::equal(name, known) {
        Some(header)
    } else {
        None
    }
}

// The header that has a name, if one has it. Its length and first octet leave one to compare it with.
fn header_of(name: &[u8]) -> Option<Header>
    ensures { number_says result ≡ number_of_name name.now }
{
    let n = name.len();
    match n {
        2 => header_if(name, b"id", Header::Id),
        3 => header_if(name, b"ack", Header::Ack),
        4 => header_if(name, b"host", Header::Host),
        7 => header_if(name, b"receipt", Header::Receipt),
        10 => {
            if name[0] == b'h' {
                header_if(name, b"heart-beat", Header::HeartBeat)
            } else {
                header_if(name, b"message-id", Header::MessageId)
            }
        }
        11 => {
            if name[0] == b'd' {
                header_if(name, b"destination", Header::Destination)
            } else {
                header_if(name, b"transaction", Header::Transaction)
            }
        }
        12 => header_if(name, b"subscription", Header::Subscription),
        14 => header_if(name, b"accept-version", Header::AcceptVersion),
        _ => None,
    }
}

// One walk over the block.
pub(crate) fn note(block: &[u8]) -> Result<Notes, Malformed>
    ensures { Notes_of block.now result }
{
    let mut notes = Notes::none();
    let mut i = 0usize;
    while let Some(l) = headers::entry_at(block, i)? {
        let from = i + 6;
        let start = from + l.name;
        i = start + l.value;
        if let Some(header) = header_of(&block[from..start]) {
            let k = index_of(header);
            let mark = notes.marks[k];
            notes.marks[k] = mark.with(start, i);
        }
    }
    Ok(notes)
}

// Where a header's first value is, if it has one.
pub(crate) fn locate(notes: Notes, header: Header) -> Option<Located>
    ensures { result ≡ located notes header }
{
    let mark = notes.marks[index_of(header)];
    if mark.count == 0 {
        return None;
    }
    Some(Located {
        start: mark.start,
        end: mark.end,
    })
}

// How many later entries follow the first of a header.
pub(crate) fn later(notes: Notes, header: Header) -> usize
    ensures { result ≡ later_noted notes header }
{
    let count = notes.marks[index_of(header)].count;
    if count == 0 {
        return 0;
    }
    count - 1
}
