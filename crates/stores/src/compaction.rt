// Rows of one width in a flat store: those that stay are moved together, in their order.
ghost use Rattle.std.specs.Prelude.{◌≡◌, ◌++◌, ◌*◌, ◌≤◌, eqb, length, drop};
ghost use Rattle.headers.specs.Answers.{Puts};
ghost use Rattle.stores.specs.Compaction.{stays_at, if_kept, kept_octets, kept_in, Compacts};

// Which rows are taken out: those numbered from one on and before another that are of the place.
#[derive(Clone, Copy)]
pub struct Range {
    pub from: usize,
    pub to: usize,
    pub of: u8,
}

// Whether a store of so many octets is rows of one width, as many as counted.
pub fn are_rows(len: usize, count: usize, width: usize) -> bool
    ensures { result ≡ eqb len (count * width) }
{
    if width == 0 {
        return len == 0;
    }
    (len / width == count) & (len % width == 0)
}

// Whether row i, of a place, stays.
fn stays(range: Range, i: usize, place: u8) -> bool
    ensures { result ≡ stays_at range i place }
{
    (i < range.from) | ((range.to <= i) | (place != range.of))
}

// A row that stays at the front of others, or nothing; how many octets were written.
fn keep_row(d: &mut [u8], row: &[u8], stay: bool) -> usize
    requires { length (if_kept stay row.now) ≤ length d.old }
    ensures { Puts (if_kept stay row.now) result d.old d.new }
{
    if !stay {
        return 0;
    }
    d[..row.len()].copy_from_slice(row);
    row.len()
}

// The rows that stay, one after another, at the front of out; how many octets they have.
fn keep_each(out: &mut [u8], store: &[u8], width: usize, places: &[u8], range: Range) -> usize
    requires { Compacts width store.now places.now out.old }
    ensures { Puts (kept_octets range width 0 store.now places.now) result out.old out.new }
{
    let mut end = 0usize;
    for (i, place) in places.iter().enumerate() {
        let at = i * width;
        let next = at + width;
        let stay = stays(range, i, *place);
        end += keep_row(&mut out[end..], &store[at..next], stay);
    }
    end
}

// The same; 0 and nothing written where the store has not a row for each place, or out is shorter than the store.
pub fn keep_rows(out: &mut [u8], store: &[u8], width: usize, places: &[u8], range: Range) -> usize
    ensures { Puts (kept_in range width store.now places.now out.old) result out.old out.new }
{
    if !are_rows(store.len(), places.len(), width) {
        return 0;
    }
    if out.len() < store.len() {
        return 0;
    }
    keep_each(out, store, width, places, range)
}
