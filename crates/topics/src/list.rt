// Lists of records: messages, subscriptions and pairs.
ghost use Rattle.std.specs.Prelude.{◌≡◌, ℕ, Bool, true, ◌+◌, ◌*◌, ◌/◌, ◌%◌, ◌≤◌, ◌<◌, length, take, drop, eqb, is_ok, IfOk};
ghost use Rattle.headers.specs.Numbers.{evaluate};
ghost use Rattle.topics.specs.Lists.{entry_format, records, is_some, listed, pair_front, pairs_in};
ghost use Rattle.topics.specs.Plans.{is_valid, how_many};

// A number has four octets; with the length of its text, a record's first six.
const NUMBER: usize = 4;

const FRONT: usize = 6;

// The octets of a room: none in a message, four in a subscription.
pub(crate) const NO_ROOM: usize = 0;

pub(crate) const ROOM: usize = 4;

// A pair has eight octets: the message's number, and then the subscription's.
pub(crate) const PAIR: usize = 8;

// Octets that are not whole records, or whose numbers or texts are not as they should be.
#[derive(Clone, Copy)]
pub(crate) struct Malformed;

// A message or a subscription: its number, where its text is, its room, and where the next record begins.
#[derive(Clone, Copy)]
pub(crate) struct Record {
    pub number: usize,
    pub from: usize,
    pub to: usize,
    pub room: usize,
    pub next: usize,
}

// Octets to be read as records whose rooms have width octets.
#[derive(Clone, Copy)]
pub(crate) struct Records<'a> {
    pub octets: &'a [u8],
    pub width: usize,
    pub ghost narrow: { width ≤ 4 },
}

// A list of whole records with no number twice and each text well formed.
#[derive(Clone, Copy)]
pub(crate) struct ValidList<'a> {
    pub list: Records<'a>,
    pub ghost valid: { is_valid (records (entry_format list.width) list.octets.now) ≡ true },
}

// Which number of a pair is meant.
#[derive(Clone, Copy)]
pub(crate) enum Column {
    Message,
    Subscription,
}

// Whole pairs.
#[derive(Clone, Copy)]
pub(crate) struct Pairs<'a> {
    pub octets: &'a [u8],
    pub ghost whole: { length octets.now % 8 ≡ 0 },
}

// The number in up to four octets, high first.
fn value(octets: &[u8]) -> usize
    requires { length octets.now ≤ 4 }
    ensures { (result ≡ evaluate 256 0 octets.now) × (result < 4294967296) }
{
    let mut n = 0usize;
    for x in octets {
        n = n * 256 + usize::from(*x);
    }
    n
}

impl<'a> Records<'a> {
    ghost use Rattle.topics.specs.Places.{Standing, Stands, Reads};

    // The record at a place; none where nothing is left.
    fn record_at(&self, at: usize) -> Result<Option<Record>, Malformed>
        ensures { Standing self.now.width self.now.octets.now at result }
    {
        if self.octets.len() <= at {
            return Ok(None);
        }
        let left = self.octets.len() - at;
        if left < FRONT {
            return Err(Malformed);
        }
        let half = at + NUMBER;
        let from = at + FRONT;
        let text = value(&self.octets[half..from]);
        if left < FRONT + text + self.width {
            return Err(Malformed);
        }
        let to = from + text;
        let next = to + self.width;
        Ok(Some(Record {
            number: value(&self.octets[at..half]),
            from,
            to,
            room: value(&self.octets[to..next]),
            next,
        }))
    }

    // The record at a place; none where no whole one is there.
    pub fn record_from(&self, at: usize) -> Option<Record>
        ensures { Stands self.now.width self.now.octets.now at result }
    {
        self.record_at(at).unwrap_or(None)
    }

    // Whether each number is above the one before it, in a list of whole records with well-formed texts.
    fn is_ascending(&self) -> Result<bool, Malformed>
        ensures { Reads (records (entry_format self.now.width) self.now.octets.now) result }
    {
        let mut at = 0usize;
        let mut above = 0usize;
        let mut ascending = true;
        while let Some(r) = self.record_at(at)? {
            if !crate::word::is_well_formed(&self.octets[r.from..r.to]) {
                return Err(Malformed);
            }
            ascending = ascending & (above <= r.number);
            above = r.number + 1;
            at = r.next;
        }
        Ok(ascending)
    }

    // Whether a list is whole records with no number twice and each text well formed. Numbers in ascending order take one pass. It stands by
    // itself so that `validated` is inlined: the width of a list's rooms stays a constant where its records are looked up.
    #[inline(never)]
    fn is_valid(&self) -> bool
        ensures { result ≡ is_valid (records (entry_format self.now.width) self.now.octets.now) }
    {
        let Ok(ascending) = self.is_ascending() else {
            return false;
        };
        ascending || crate::numbers::is_distinct(self)
    }

    // The list, where it is a valid one.
    pub fn validated(&self) -> Result<ValidList<'a>, Malformed>
        ensures valid { is_ok result ≡ is_valid (records (entry_format self.now.width) self.now.octets.now) }
        ensures same { IfOk result (λ v. (v.list.octets.now ≡ self.now.octets.now) × (v.list.width ≡ self.now.width)) }
    {
        if self.is_valid() {
            Ok(ValidList { list: *self })
        } else {
            Err(Malformed)
        }
    }
}

impl<'a> ValidList<'a> {
    ghost use Rattle.topics.specs.Waiting.{IsTest, FirstOf, has_none};

    // The first record whose number passes a test.
    fn first<F: Fn(usize) -> bool>(&self, test: F) -> Option<Record>
        requires { F.IsAlwaysCallable test }
        ensures { (f : ℕ → Bool) → IsTest (F.post test) f → FirstOf f self.now result }
    {
        let mut at = 0usize;
        while let Some(r) = self.list.record_from(at) {
            if test(r.number) {
                return Some(r);
            }
            at = r.next;
        }
        None
    }

    // The first record of a number.
    pub fn find(&self, number: usize) -> Option<Record>
        ensures { FirstOf (λ n. eqb n number) self.now result }
    {
        self.first(|n| n == number)
    }

    // The first message that no pair has.
    pub fn left_out(&self, plan: &Pairs<'_>) -> Option<Record>
        ensures { FirstOf (has_none (listed (pairs_in plan.now.octets.now))) self.now result }
    {
        self.first(
            |n: usize| -> bool
                ensures { result ≡ has_none (listed (pairs_in plan.entry.now.octets.now)) n }
            { plan.count(Column::Message, n) == 0 },
        )
    }
}

impl Column {
    ghost use Rattle.topics.specs.Waiting.{place_of};

    // Where the number begins in a pair.
    fn place(self) -> usize
        ensures { (result ≡ place_of self) × (result ≤ 4) }
    {
        match self {
            Column::Message => 0,
            Column::Subscription => NUMBER,
        }
    }
}

impl<'a> Pairs<'a> {
    ghost use Rattle.topics.specs.Waiting.{in_column};

    // The octets as pairs, where they are whole ones.
    pub fn new(octets: &'a [u8]) -> Result<Pairs<'a>, Malformed>
        ensures whole { is_ok result ≡ is_some (pairs_in octets.now) }
        ensures same { IfOk result (λ p. p.octets.now ≡ octets.now) }
    {
        if octets.len() % PAIR == 0 {
            Ok(Pairs { octets })
        } else {
            Err(Malformed)
        }
    }

    // How many they are.
    pub fn len(&self) -> usize
        ensures { result ≡ length self.now.octets.now / 8 }
    {
        self.octets.len() / PAIR
    }

    // The pairs before pair k.
    pub fn before(&self, k: usize) -> Pairs<'a>
        requires { k * 8 ≤ length self.now.octets.now }
        ensures { result.octets.now ≡ take (k * 8) self.now.octets.now }
    {
        Pairs {
            octets: &self.octets[..k * PAIR],
        }
    }

    // A number of pair k.
    pub fn number(&self, k: usize, column: Column) -> usize
        requires { k * 8 + 8 ≤ length self.now.octets.now }
        ensures { (result ≡ in_column column (pair_front (drop (k * 8) self.now.octets.now))) }
    {
        let from = k * PAIR + column.place();
        let to = from + NUMBER;
        value(&self.octets[from..to])
    }

    // How many pairs have a number in a column.
    pub fn count(&self, column: Column, number: usize) -> usize
        ensures { result ≡ how_many (λ p. eqb (in_column column p) number) (listed (pairs_in self.now.octets.now)) }
    {
        let mut n = 0usize;
        for k in 0..self.len() {
            if self.number(k, column) == number {
                n += 1;
            }
        }
        n
    }
}
