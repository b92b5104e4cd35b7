// The pending deliveries of a session, oldest first. A delivery has a label, and the place of its subscription.
ghost use Rattle.std.specs.Prelude.{◌≡◌, ℕ, ◌<◌, ◌≤◌, List, [], ◌∷◌, ◌++◌, length, slice_index_or};
ghost use Rattle.std.proofs.Math.Option.{some};
ghost use Rattle.stores.specs.Searches.{first_from, search_says};
ghost use Rattle.stores.specs.Compaction.{kept};
ghost use Rattle.sessions.specs.Sessions.{subscriptions_max};
ghost use Rattle.sessions.specs.Deliveries.{pending, labelled, places_of, deliveries_of, dropped, settle_label, no_deliveries};
ghost use Rattle.sessions.specs.Deliveries.{valid_deliveries, some_lengths, acknowledging, valid_labels, valid_places, Laid};
ghost use Rattle.sessions.specs.Calls.{may_name};
ghost use Rattle.headers.specs.Rows.{every};

use crate::parts::SubscriptionStore;
use crate::session::Session;
use crate::store::Ids;
use frames::version::Version;
use stores::Range;

// They stay arrays with a count: public fields that programs read and write octet by octet, in fixed memory.
#[derive(Clone, Copy)]
pub struct Deliveries {
    pub labels: [u8; Deliveries::MAX * Session::ID],
    pub lens: [u8; Deliveries::MAX],
    pub places: [u8; Deliveries::MAX],
    pub count: u8,
}

impl Deliveries {
    pub const MAX: usize = 64;

    // Of a session that is fresh or closed.
    pub(crate) fn none() -> Deliveries
        ensures { result ≡ no_deliveries }
    {
        Deliveries {
            labels: [0; Deliveries::MAX * Session::ID],
            lens: [0; Deliveries::MAX],
            places: [0; Deliveries::MAX],
            count: 0,
        }
    }

    // Those that stay, in their order.
    pub(crate) fn without(self, range: Range) -> Deliveries
        requires { Laid self }
        ensures { result ≡ deliveries_of (kept range 0 (places_of (pending self)) (pending self)) }
    {
        let n = usize::from(self.count);
        let end = n * 32;
        let labels = self.labels;
        let lens = self.lens;
        let places = self.places;
        let same = self.places;
        let mut kept_labels = [0u8; 2048];
        let mut kept_lens = [0u8; 64];
        let mut kept_places = [0u8; 64];
        stores::keep_rows(&mut kept_labels, &labels[0..end], 32, &places[0..n], range);
        stores::keep_rows(&mut kept_lens, &lens[0..n], 1, &places[0..n], range);
        let count = stores::keep_rows(&mut kept_places, &same[0..n], 1, &places[0..n], range);
        Deliveries {
            labels: kept_labels,
            lens: kept_lens,
            places: kept_places,
            count: count as u8,
        }
    }

    // Without those of the subscription in a place.
    pub(crate) fn dropped(self, place: usize) -> Deliveries
        requires { (Laid self) × (place < subscriptions_max) }
        ensures { result ≡ dropped (some place) self }
    {
        let n = usize::from(self.count);
        if n == 0 {
            return self;
        }
        let range = Range {
            from: 0,
            to: n,
            of: place as u8,
        };
        self.without(range)
    }

    // The number of the pending delivery with a label, the oldest being 0.
    pub(crate) fn find(self, label: &[u8]) -> Option<usize>
        requires { Laid self }
        ensures { search_says result ≡ first_from (labelled label.now) 0 (pending self) }
    {
        let n = usize::from(self.count);
        let end = n * 32;
        let labels = self.labels;
        let lens = self.lens;
        let ids = Ids {
            octets: &labels[0..end],
            lens: &lens[0..n],
        };
        ids.find(label)
    }

    // Whether an ACK or NACK may name the one with a number: in 1.2 any, in 1.1 one of the subscription that it names, which has a place.
    pub(crate) fn may_name(self, index: usize, version: Version, place: Option<usize>) -> bool
        requires { (Laid self) × (index < self.count) }
        ensures { result ≡ may_name version (search_says place) (slice_index_or (pending self) index (record { place = 0; label = [] })) }
    {
        match version {
            Version::V11 => {
                let places = self.places;
                let of = places[index];
                match place {
                    Some(k) => usize::from(of) == k,
                    None => false,
                }
            }
            Version::V12 => true,
        }
    }

    // The one with a number settled, and where its subscription's mode is client the earlier ones of that subscription.
    pub(crate) fn settled(self, index: usize, modes: &[u8]) -> Deliveries
        requires { (Laid self) × (index < self.count) }
        ensures { (l : List ℕ) → first_from (labelled l) 0 (pending self) ≡ some index → result ≡ settle_label modes.now l self }
    {
        let places = self.places;
        let of = places[index];
        let mode = stores::octet_at(modes, usize::from(of));
        if mode == SubscriptionStore::CLIENT {
            return self.without(Range {
                from: 0,
                to: index + 1,
                of,
            });
        }
        self.without(Range {
            from: index,
            to: index + 1,
            of,
        })
    }

    // Whether the record is valid, over the lengths and the modes of the subscriptions.
    pub(crate) fn is_valid(&self, subscriptions: &SubscriptionStore) -> bool
        ensures { result ≡ valid_deliveries subscriptions.now self.now }
    {
        let n = usize::from(self.count);
        if Deliveries::MAX < n {
            return false;
        }
        if !are_valid_labels(&self.labels, &self.lens, n) {
            return false;
        }
        are_valid_places(&self.places, n, &subscriptions.lens, &subscriptions.modes)
    }

    // One more, the youngest.
    pub(crate) fn entered(mut self, place: u8, label: &[u8]) -> Deliveries
        requires { (Laid self) × (self.count < 64) × (length label.now ≤ 32) }
        ensures { result ≡ deliveries_of (pending self ++ (record { place = place; label = label.now } ∷ [])) }
    {
        let n = usize::from(self.count);
        crate::store::put(&mut self.labels, &mut self.lens, n, label);
        self.places[n] = place;
        self.count = self.count + 1;
        self
    }
}

// Whether each length is above 0.
fn are_some(lens: &[u8]) -> bool
    ensures { result ≡ some_lengths lens.now }
{
    let mut some = true;
    for len in lens {
        some = some & (*len != 0);
    }
    some
}

// Whether the subscription in a place is live and not an auto one.
fn acknowledges(place: u8, lens: &[u8], modes: &[u8]) -> bool
    ensures { result ≡ acknowledging lens.now modes.now place }
{
    let p = usize::from(place);
    if lens.len() <= p {
        return false;
    }
    if modes.len() <= p {
        return false;
    }
    (lens[p] != 0) & (modes[p] != 0)
}

// Whether that holds of each place.
fn all_acknowledge(places: &[u8], lens: &[u8], modes: &[u8]) -> bool
    ensures { result ≡ every (acknowledging lens.now modes.now) places.now }
{
    places.iter().all(|place| acknowledges(*place, lens, modes))
}

// Whether the first n places of labels hold labels, no two the same, and all after them is 0.
fn are_valid_labels(labels: &[u8], lens: &[u8], n: usize) -> bool
    requires { (length labels.now ≡ 2048) × (length lens.now ≡ 64) × (n ≤ 64) }
    ensures { result ≡ valid_labels n labels.now lens.now }
{
    let end = n * 32;
    if !crate::store::is_valid(&labels[0..end], &lens[0..n]) {
        return false;
    }
    if !are_some(&lens[0..n]) {
        return false;
    }
    if !stores::is_zero(&labels[end..]) {
        return false;
    }
    stores::is_zero(&lens[n..])
}

// Whether the first n deliveries are of subscriptions that acknowledge, and all after them is 0.
fn are_valid_places(places: &[u8], n: usize, lens: &[u8], modes: &[u8]) -> bool
    requires { (length places.now ≡ 64) × (n ≤ 64) }
    ensures { result ≡ valid_places n places.now lens.now modes.now }
{
    if !all_acknowledge(&places[0..n], lens, modes) {
        return false;
    }
    stores::is_zero(&places[n..])
}
