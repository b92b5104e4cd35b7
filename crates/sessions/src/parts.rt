// The parts of a session's record: what the server offers, what both sides agreed on, the subscriptions and the transactions.
ghost use Rattle.std.specs.Prelude.{◌≡◌, ◌<◌, ◌≤◌, length};
ghost use Rattle.sessions.specs.Sessions.{subscriptions_max, transactions_max, id_max, nothing_agreed, no_subscriptions, no_transactions};
ghost use Rattle.sessions.specs.Sessions.{valid_offers, valid_agreed, valid_subscriptions, valid_transactions};
ghost use Rattle.sessions.specs.Deliveries.{known_modes, idle_modes, valid_modes};
ghost use Rattle.sessions.specs.Steps.{put_subscription, put_transaction, put_mode};
ghost use Rattle.sessions.specs.Changes.{PutFits, ModeFits, put_sub, put_tx, set_modes};

use crate::session::Session;
use crate::step::{Further, Put};
use crate::value::HEART_BEAT_MAX;

// What the server offers: it can send heart-beats every so many milliseconds, and wants to hear one every so many; and flags for the
// versions 1.0, 1.1 and 1.2.
#[derive(Clone, Copy)]
pub struct Offers {
    pub sends: u32,
    pub wants: u32,
    pub versions: [bool; 3],
}

// What both sides agreed on at the opening: the intervals of heart-beats from client to server and from server to client, and the
// versions that both have.
#[derive(Clone, Copy)]
pub struct Agreed {
    pub inbound: u32,
    pub outbound: u32,
    pub versions: [bool; 3],
}

// The subscriptions that are live: their ids in places of 32 octets, with a length and an ack mode for each. A place of length 0 is
// free, and has mode auto.
#[derive(Clone, Copy)]
pub struct SubscriptionStore {
    pub ids: [u8; Session::SUBSCRIPTIONS * Session::ID],
    pub lens: [u8; Session::SUBSCRIPTIONS],
    pub modes: [u8; Session::SUBSCRIPTIONS],
}

// The ids of the transactions that are open, in the same way but for the mode. It stays a type of its own: both
// types are public with public fields, which programs read and write.
#[derive(Clone, Copy)]
pub struct TransactionStore {
    pub ids: [u8; Session::TRANSACTIONS * Session::ID],
    pub lens: [u8; Session::TRANSACTIONS],
}

impl Offers {
    // Whether both numbers are within the limit.
    pub(crate) fn is_valid(self) -> bool
        ensures { result ≡ valid_offers self }
    {
        (self.sends <= HEART_BEAT_MAX) & (self.wants <= HEART_BEAT_MAX)
    }
}

impl Agreed {
    // Of a session that is not open yet.
    pub(crate) fn nothing() -> Agreed
        ensures { result ≡ nothing_agreed }
    {
        Agreed {
            inbound: 0,
            outbound: 0,
            versions: [false; 3],
        }
    }

    // Whether both intervals are within the limit.
    pub(crate) fn is_valid(self) -> bool
        ensures { result ≡ valid_agreed self }
    {
        (self.inbound <= HEART_BEAT_MAX) & (self.outbound <= HEART_BEAT_MAX)
    }
}

impl SubscriptionStore {
    // The ack modes.
    pub const AUTO: u8 = 0;

    pub const CLIENT: u8 = 1;

    pub const INDIVIDUAL: u8 = 2;

    // No place is taken.
    pub(crate) fn none() -> SubscriptionStore
        ensures { result ≡ no_subscriptions }
    {
        SubscriptionStore {
            ids: [0; 512],
            lens: [0; Session::SUBSCRIPTIONS],
            modes: [SubscriptionStore::AUTO; Session::SUBSCRIPTIONS],
        }
    }

    // Whether the ids and the modes are valid.
    pub(crate) fn is_valid(&self) -> bool
        ensures { result ≡ valid_subscriptions self.now }
    {
        if !crate::store::is_valid(&self.ids, &self.lens) {
            return false;
        }
        are_valid_modes(&self.lens, &self.modes)
    }

    // With an id in a place.
    pub(crate) fn with_id(mut self, index: usize, id: &[u8]) -> SubscriptionStore
        requires { (index < subscriptions_max) × (length id.now ≤ id_max) }
        ensures { result ≡ put_subscription self index id.now }
    {
        crate::store::put(&mut self.ids, &mut self.lens, index, id);
        self
    }

    // With what a frame puts in a place.
    pub(crate) fn put(self, put: Put, block: &[u8]) -> SubscriptionStore
        requires { PutFits block.now put }
        ensures { result ≡ put_sub block.now put self }
    {
        match put {
            Put::Nothing => self,
            Put::Subscription(p) => { self.with_id(p.place, &block[p.start..p.end]) }
            Put::Transaction(p) => self,
        }
    }

    // With the mode that a frame sets.
    pub(crate) fn set_mode(self, further: Further) -> SubscriptionStore
        requires { ModeFits further }
        ensures { result ≡ set_modes further self }
    {
        match further {
            Further::Nothing => self,
            Further::Mode(k, mode) => self.with_mode(k, mode),
            Further::Drop(k) => self.with_mode(k, SubscriptionStore::AUTO),
            Further::Settle(i) => self,
        }
    }

    // With a mode for the subscription in a place.
    pub(crate) fn with_mode(mut self, index: usize, mode: u8) -> SubscriptionStore
        requires { index < subscriptions_max }
        ensures { result ≡ put_mode self index mode }
    {
        self.modes[index] = mode;
        self
    }
}

// Whether each mode is known.
fn are_known(modes: &[u8]) -> bool
    ensures { result ≡ known_modes modes.now }
{
    let mut known = true;
    for mode in modes {
        known = known & (*mode <= SubscriptionStore::INDIVIDUAL);
    }
    known
}

// Whether the mode of each free place is auto.
fn are_idle(lens: &[u8], modes: &[u8]) -> bool
    requires { length lens.now ≡ length modes.now }
    ensures { result ≡ idle_modes lens.now modes.now }
{
    let mut idle = true;
    for (i, len) in lens.iter().enumerate() {
        idle = idle & ((*len != 0) | (modes[i] == SubscriptionStore::AUTO));
    }
    idle
}

// Whether the modes are valid, over the lengths of the ids.
pub(crate) fn are_valid_modes(lens: &[u8], modes: &[u8]) -> bool
    requires { length lens.now ≡ length modes.now }
    ensures { result ≡ valid_modes lens.now modes.now }
{
    are_known(modes) & are_idle(lens, modes)
}

impl TransactionStore {
    // No place is taken.
    pub(crate) fn none() -> TransactionStore
        ensures { result ≡ no_transactions }
    {
        TransactionStore {
            ids: [0; Session::TRANSACTIONS * Session::ID],
            lens: [0; Session::TRANSACTIONS],
        }
    }

    // Whether the ids are valid.
    pub(crate) fn is_valid(&self) -> bool
        ensures { result ≡ valid_transactions self.now }
    {
        crate::store::is_valid(&self.ids, &self.lens)
    }

    // With what a frame puts in a place.
    pub(crate) fn put(self, put: Put, block: &[u8]) -> TransactionStore
        requires { PutFits block.now put }
        ensures { result ≡ put_tx block.now put self }
    {
        match put {
            Put::Nothing => self,
            Put::Subscription(p) => self,
            Put::Transaction(p) => { self.with_id(p.place, &block[p.start..p.end]) }
        }
    }

    // With an id in a place.
    pub(crate) fn with_id(mut self, index: usize, id: &[u8]) -> TransactionStore
        requires { (index < transactions_max) × (length id.now ≤ id_max) }
        ensures { result ≡ put_transaction self index id.now }
    {
        crate::store::put(&mut self.ids, &mut self.lens, index, id);
        self
    }
}
