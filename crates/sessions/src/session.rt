// One client's session, as a value.
ghost use Rattle.std.specs.Prelude.{◌≡◌, ◌*◌, ◌<◌, true, false, ◌&&◌, length, Some};
ghost use Rattle.std.proofs.Math.Option.{some};
ghost use Rattle.headers.specs.Block.{entries, listed};
ghost use Rattle.stores.specs.Searches.{search_says};
ghost use Rattle.sessions.specs.Stores.{valid_store};
ghost use Rattle.sessions.specs.Opening.{highest};
ghost use Rattle.sessions.specs.Sessions.{id_max, subscriptions_max, fresh, closed, valid_numbers, valid_ids, is_valid, Sized};
ghost use Rattle.sessions.specs.Answers.{answer_says, making_says, timed_out_says, delivery_says};
ghost use Rattle.sessions.specs.Calls.{making_answer, made, frame_answer, frame_session, heart_beat_answer, heart_beat_session};
ghost use Rattle.sessions.specs.Calls.{timed_out_answer, deliver_answer, deliver_session, free_place, place_named, may_name, lacks_needed};
ghost use Rattle.sessions.specs.Deliveries.{auto_mode, with_mode, dropped, valid_modes, Laid};
ghost use Rattle.sessions.specs.Held.{held_deliveries, nth, told_of, pending_answer};
ghost use Rattle.sessions.specs.Headers.{value_of};
ghost use Rattle.sessions.specs.declared.command.Header.TheVariants.{Subscription};
ghost use Rattle.sessions.specs.Notes.{AllNoted};
ghost use Rattle.sessions.specs.Steps.{kept_by, closed_by, accepted_by, unrecorded_by, recorded_as, recording_at, RecordsAt, MayRecord};
ghost use Rattle.sessions.specs.Changes.{NamesIds, Does, LooksLabel, LooksNamed, LooksFurther, DecidesOpening, DecidesUses, DecidesFrame};
ghost use Rattle.sessions.specs.Changes.{Applies, changed_by};

use crate::command::Header;
use crate::commands;
use crate::delivery::Deliveries;
use crate::notes::Notes;
use crate::parts::{Agreed, Offers, SubscriptionStore, TransactionStore};
use crate::refusals::{InvalidRecord, Refusal};
use crate::step::{Change, Further, Named, Step};
use crate::store::Ids;
use crate::value::HEART_BEAT_MAX;
use frames::version::Version;

// The record of a session, made of its parts. The phase is 0 fresh, 1 open, 2 closed.
// It stays an octet, as the ack modes do: a record may be read back from any octets, and an unknown one makes it invalid (38).
// No type holds that a session is valid, which private methods require: its fields have 2,880 octets, it is handed on by value, and
// programs may set the fields, which are public.
#[derive(Clone, Copy)]
pub struct Session {
    pub offers: Offers,
    pub agreed: Agreed,
    pub subscriptions: SubscriptionStore,
    pub transactions: TransactionStore,
    pub deliveries: Deliveries,
    pub last_heard: u32,
    pub phase: u8,
}

// What an accepted answer says: whether a receipt is owed, and how many later entries follow the first destination, id and transaction.
#[derive(Clone, Copy)]
pub struct Acceptance {
    pub receipt: bool,
    pub later_destinations: usize,
    pub later_ids: usize,
    pub later_transactions: usize,
}

// A session after a call, and the answer.
#[derive(Clone, Copy)]
pub struct After<A> {
    pub session: Session,
    pub answer: A,
}

// After a frame or a heart-beat.
pub type Outcome = After<Result<Acceptance, Refusal>>;

// After a delivery was recorded or refused.
pub type Recording = After<Result<(), Refusal>>;

// A pending delivery: the id of its subscription with its length, the ack mode of that, and its label with its length. The texts are copied
// out of the record, in arrays with their lengths, since it is public and there is no heap.
#[derive(Clone, Copy)]
pub struct Pending {
    pub subscription: [u8; Session::ID],
    pub subscription_len: u8,
    pub mode: u8,
    pub label: [u8; Session::ID],
    pub label_len: u8,
}

// A session that was made, or a closed one.
pub type Making = After<Result<(), Refusal>>;

impl Session {
    pub const SUBSCRIPTIONS: usize = 16;

    pub const TRANSACTIONS: usize = 4;

    pub const ID: usize = 32;

    pub const FRESH: u8 = 0;

    pub const OPEN: u8 = 1;

    pub const CLOSED: u8 = 2;

    // A fresh session.
    fn fresh(sends: u32, wants: u32, offered: [bool; 3]) -> Session
        ensures { result ≡ fresh sends wants offered }
    {
        Session {
            offers: Offers {
                sends,
                wants,
                versions: offered,
            },
            agreed: Agreed::nothing(),
            subscriptions: SubscriptionStore::none(),
            transactions: TransactionStore::none(),
            deliveries: Deliveries::none(),
            last_heard: 0,
            phase: Session::FRESH,
        }
    }

    // The session closed; nothing else changes.
    fn closed(mut self) -> Session
        ensures { result ≡ closed self }
    {
        self.phase = Session::CLOSED;
        self.deliveries = Deliveries::none();
        self
    }

    // A session with the server's offers and the versions it has: fresh, or refused (34) and closed.
    pub fn new(sends: u32, wants: u32, offered: [bool; 3]) -> Making
        ensures { (making_says result.answer ≡ making_answer sends wants offered) × (result.session ≡ made sends wants offered) }
    {
        if (HEART_BEAT_MAX < sends)
            | ((HEART_BEAT_MAX < wants) | !crate::value::may_offer(offered))
        {
            return Making {
                session: Session::fresh(0, 0, [false; 3]).closed(),
                answer: Err(Refusal::BadOffer),
            };
        }
        Making {
            session: Session::fresh(sends, wants, offered),
            answer: Ok(()),
        }
    }

    // Refused, the session as it was.
    fn kept(self, refusal: Refusal) -> Outcome
        ensures { result ≡ kept_by self refusal }
    {
        Outcome {
            session: self,
            answer: Err(refusal),
        }
    }

    // Refused, the session closed.
    fn refused(self, refusal: Refusal) -> Outcome
        ensures { result ≡ closed_by self refusal }
    {
        Outcome {
            session: self.closed(),
            answer: Err(refusal),
        }
    }

    // Accepted, and heard from at this time.
    fn accepted(mut self, acceptance: Acceptance, time: u32) -> Outcome
        ensures { result ≡ accepted_by self acceptance time }
    {
        self.last_heard = time;
        Outcome {
            session: self,
            answer: Ok(acceptance),
        }
    }

    // Whether phase, offers, intervals, offered and shared versions are those of a valid record.
    fn has_valid_numbers(&self) -> bool
        ensures { result ≡ valid_numbers self.now }
    {
        let offers = self.offers;
        let agreed = self.agreed;
        let versions = offers.versions;
        let small = offers.is_valid() & agreed.is_valid();
        let flags = (self.phase == Session::CLOSED) | crate::value::may_offer(versions);
        let shared = agreed.versions;
        let chosen = (self.phase != Session::OPEN)
            | (!crate::value::is_none_shared(shared) & crate::value::are_among(shared, versions));
        (self.phase <= Session::CLOSED) & (small & (flags & chosen))
    }

    // Whether the stores of subscriptions and transactions are valid. Transactions are looked at only where that decides.
    fn has_valid_ids(&self) -> bool
        ensures { result ≡ valid_ids self.now }
    {
        if !self.subscriptions.is_valid() {
            return false;
        }
        self.transactions.is_valid()
    }

    // Whether the record is valid, of a session by reference.
    fn check(&self) -> bool
        ensures { result ≡ is_valid self.now }
    {
        let numbers = self.has_valid_numbers();
        let ids = self.has_valid_ids();
        let deliveries = self.deliveries.is_valid(&self.subscriptions);
        numbers
            & (ids & (deliveries & ((self.phase == Session::OPEN) | (self.deliveries.count == 0))))
    }

    // Whether the record is valid (not 38): `check`, of a session by value, as programs have it.
    pub fn is_valid(self) -> bool
        ensures { result ≡ is_valid self }
    {
        self.check()
    }

    // The highest version that both sides have, times ten, or 0 where there is none: the number that its clause and the definition `highest`
    // name, and that programs print.
    pub fn highest_shared(self) -> u32
        ensures { result ≡ highest self.agreed.versions }
    {
        let shared = self.agreed.versions;
        if shared[2] {
            return 12;
        }
        if shared[1] {
            return 11;
        }
        if shared[0] { 10 } else { 0 }
    }

    // A heart-beat.
    pub fn heart_beat(self, time: u32) -> Outcome
        ensures { (answer_says result.answer ≡ heart_beat_answer self) × (result.session ≡ heart_beat_session self time) }
    {
        if !self.is_valid() {
            return self.kept(Refusal::Invalid);
        }
        if self.phase == Session::CLOSED {
            return self.refused(Refusal::Closed);
        }
        let acceptance = Acceptance {
            receipt: false,
            later_destinations: 0,
            later_ids: 0,
            later_transactions: 0,
        };
        self.accepted(acceptance, time)
    }

    // Whether the peer is timed out; of an invalid record nobody can say.
    pub fn timed_out(self, time: u32) -> Result<bool, InvalidRecord>
        ensures { timed_out_says result ≡ timed_out_answer self time }
    {
        if !self.is_valid() {
            return Err(InvalidRecord);
        }
        if self.phase != Session::OPEN {
            return Ok(false);
        }
        if self.agreed.inbound == 0 {
            return Ok(false);
        }
        Ok(self.agreed.inbound * 2 < crate::clock::passed_since(time, self.last_heard))
    }

    // The opening frame, with every header that it needs: it opens the session with what both sides came to.
    fn open(self, notes: Notes, block: &[u8], acceptance: Acceptance) -> Result<Step, Refusal>
        requires { AllNoted block.now notes }
        ensures { DecidesOpening self block.now acceptance result }
    {
        let flags = crate::locate::client_versions(notes, block).ok_or(Refusal::BadVersions)?;
        let offered = self.offers.versions;
        let shared = crate::value::share(flags, offered);
        if crate::value::is_none_shared(shared) {
            return Err(Refusal::NoVersion);
        }
        let heart_beats = crate::locate::client_heart_beats(notes, block).ok_or(
            Refusal::BadHeartBeat,
        )?;
        let inbound = crate::value::interval(heart_beats.sends, self.offers.wants);
        let outbound = crate::value::interval(self.offers.sends, heart_beats.wants);
        let agreed = Agreed {
            inbound,
            outbound,
            versions: shared,
        };
        Ok(Step {
            acceptance,
            change: Change::Open(agreed),
        })
    }

    // The place of a subscription's id.
    fn find_subscription(self, id: &[u8]) -> Option<usize>
        requires { is_valid self ≡ true }
        ensures { search_says result ≡ place_named self (some id.now) }
    {
        let octets = self.subscriptions.ids;
        let lens = self.subscriptions.lens;
        let ids = Ids {
            octets: &octets,
            lens: &lens,
        };
        ids.find(id)
    }

    // A SUBSCRIBE with a mode: the first free place, which its id takes, gets it. A free place has auto.
    fn keep_mode(self, mode: u8) -> Further
        requires { is_valid self ≡ true }
        ensures { Does self (with_mode (free_place self) mode self.subscriptions.modes) self.deliveries result }
    {
        if mode == SubscriptionStore::AUTO {
            return Further::Nothing;
        }
        let lens = self.subscriptions.lens;
        match crate::store::find_free(&lens) {
            Some(k) => Further::Mode(k, mode),
            None => Further::Nothing,
        }
    }

    // An UNSUBSCRIBE of an id: the mode and the deliveries of the subscription are dropped. Most often no subscription has either, and
    // none is looked for.
    fn drop_deliveries(self, id: &[u8]) -> Further
        requires { is_valid self ≡ true }
        ensures { Does self (with_mode (place_named self (some id.now)) auto_mode self.subscriptions.modes)
            (dropped (place_named self (some id.now)) self.deliveries) result }
    {
        let modes = self.subscriptions.modes;
        let count = self.deliveries.count;
        if (count == 0) & stores::is_zero(&modes) {
            return Further::Nothing;
        }
        match self.find_subscription(id) {
            Some(k) => Further::Drop(k),
            None => Further::Nothing,
        }
    }

    // The place of the subscription that an ACK or NACK names; in 1.2 it names none.
    fn acknowledged(self, version: Version, notes: Notes, block: &[u8]) -> Option<usize>
        requires { (is_valid self ≡ true) × AllNoted block.now notes }
        ensures { may_name version (search_says result) ≡ may_name version (place_named self (value_of Subscription (listed (entries block.now)))) }
    {
        match version {
            Version::V11 => {
                let l = crate::locate::locate(notes, block, Header::Subscription)?;
                self.find_subscription(&block[l.start..l.end])
            }
            Version::V12 => None,
        }
    }

    // An ACK or NACK of a label: the delivery is settled where it may be named, or 60.
    fn settle_label(
        self,
        label: &[u8],
        version: Version,
        place: Option<usize>,
    ) -> Result<Further, Refusal>
        requires { is_valid self ≡ true }
        ensures { LooksLabel self (may_name version (search_says place)) label.now result }
    {
        let deliveries = self.deliveries;
        let i = deliveries.find(label).ok_or(Refusal::NotPending)?;
        if !deliveries.may_name(i, version, place) {
            return Err(Refusal::NotPending);
        }
        Ok(Further::Settle(i))
    }

    // An ACK or NACK: the delivery that it names is settled, or 60.
    fn settle(self, notes: Notes, block: &[u8]) -> Result<Further, Refusal>
        requires { (is_valid self ≡ true) × AllNoted block.now notes }
        ensures { LooksNamed self (listed (entries block.now)) result }
    {
        let shared = self.agreed.versions;
        let version = crate::value::chosen(shared);
        let place = self.acknowledged(version, notes, block);
        let header = crate::command::label_header(version);
        let l = crate::locate::locate(notes, block, header).ok_or(Refusal::NotPending)?;
        self.settle_label(&block[l.start..l.end], version, place)
    }

    // What a frame whose ids are settled does to modes and deliveries, or 49 or 60.
    fn further(self, command: u32, notes: Notes, block: &[u8]) -> Result<Further, Refusal>
        requires { (is_valid self ≡ true) × AllNoted block.now notes × (lacks_needed self command (listed (entries block.now)) ≡ false) }
        ensures { LooksFurther self command (listed (entries block.now)) result }
    {
        if command == commands::SUBSCRIBE {
            let mode = crate::locate::mode_asked(notes, block).ok_or(Refusal::UnknownMode)?;
            return Ok(self.keep_mode(mode));
        }
        if command == commands::UNSUBSCRIBE {
            let Some(l) = crate::locate::locate(notes, block, Header::Id) else {
                return Ok(Further::Nothing);
            };
            return Ok(self.drop_deliveries(&block[l.start..l.end]));
        }
        if crate::command::settles(command) {
            return self.settle(notes, block);
        }
        Ok(Further::Nothing)
    }

    // The ids that a frame names, which are settled, and what it does to modes and deliveries: what it is refused for, or what changes.
    fn use_ids(
        self,
        command: u32,
        named: Result<Named, Refusal>,
        notes: Notes,
        block: &[u8],
        acceptance: Acceptance,
    ) -> Result<Step, Refusal>
        requires { (is_valid self ≡ true) × AllNoted block.now notes × NamesIds self command (listed (entries block.now)) named
            × (lacks_needed self command (listed (entries block.now)) ≡ false) }
        ensures { DecidesUses self command block.now acceptance result }
    {
        let named = named?;
        let further = self.further(command, notes, block)?;
        let put = crate::step::put_of(named.first, named.place, notes, block);
        Ok(Step {
            acceptance,
            change: crate::step::use_of(put, further),
        })
    }

    // A frame of a known command, with a well-formed block, of a valid session: what it is answered, and what becomes of the session.
    fn act(
        self,
        command: u32,
        named: Result<Named, Refusal>,
        notes: Notes,
        block: &[u8],
    ) -> Result<Step, Refusal>
        requires { (is_valid self ≡ true) × AllNoted block.now notes × NamesIds self command (listed (entries block.now)) named }
        ensures { DecidesFrame self command block.now result }
    {
        crate::command::check_phase(self.phase, command)?;
        let shared = self.agreed.versions;
        let version = crate::value::chosen(shared);
        if crate::locate::lacks_needed(version, command, notes) {
            return Err(Refusal::Missing);
        }
        let acceptance = crate::locate::acceptance(command, notes);
        if crate::command::opens(command) {
            return self.open(notes, block, acceptance);
        }
        if command == commands::DISCONNECT {
            return Ok(Step {
                acceptance,
                change: Change::Disconnect,
            });
        }
        self.use_ids(command, named, notes, block, acceptance)
    }

    // The same of a session by reference, with the ids that the frame names settled first.
    fn decide(&self, command: u32, notes: Notes, block: &[u8]) -> Result<Step, Refusal>
        requires { (is_valid self.now ≡ true) × Sized self.now × AllNoted block.now notes }
        ensures { DecidesFrame self.now command block.now result }
    {
        let shared = self.agreed.versions;
        let version = crate::value::chosen(shared);
        let subscriptions = Ids {
            octets: &self.subscriptions.ids,
            lens: &self.subscriptions.lens,
        };
        let transactions = Ids {
            octets: &self.transactions.ids,
            lens: &self.transactions.lens,
        };
        let named = crate::step::settle_ids(
            subscriptions,
            transactions,
            version,
            command,
            notes,
            block,
        );
        self.act(command, named, notes, block)
    }

    // What was decided is applied, part by part, since each time that a session is passed on whole it is copied.
    fn apply(&mut self, change: Change, block: &[u8], time: u32)
        requires { Laid self.old.deliveries × Applies self.old block.now change }
        ensures { self.new ≡ changed_by self.old block.now time change }
    {
        self.last_heard = time;
        match change {
            Change::Disconnect => {
                *self = self.closed();
            }
            Change::Open(agreed) => {
                self.agreed = agreed;
                self.phase = Session::OPEN;
            }
            Change::Hear => {}
            Change::Use(put, further) => {
                let modes = self.subscriptions.modes;
                let subscriptions = self.subscriptions;
                self.subscriptions = subscriptions.put(put, block).set_mode(further);
                let transactions = self.transactions;
                self.transactions = transactions.put(put, block);
                let pending = self.deliveries;
                match further {
                    Further::Nothing => {}
                    Further::Mode(k, mode) => {}
                    Further::Drop(k) => {
                        self.deliveries = pending.dropped(k);
                    }
                    Further::Settle(i) => {
                        self.deliveries = pending.settled(i, &modes);
                    }
                }
            }
        }
    }

    // A frame: its command's number, its header block and when it came. All is decided first, and then the session is changed.
    pub fn frame(mut self, command: u32, block: &[u8], time: u32) -> Outcome
        ensures { (answer_says result.answer ≡ frame_answer self command block.now)
            × (result.session ≡ frame_session self command block.now time) }
    {
        if !self.check() {
            return self.kept(Refusal::Invalid);
        }
        if crate::command::is_unknown(command) {
            return self.kept(Refusal::Malformed);
        }
        let Ok(notes) = crate::notes::note(block) else {
            return self.kept(Refusal::Malformed);
        };
        let step = match self.decide(command, notes, block) {
            Ok(step) => step,
            Err(refusal) => return self.refused(refusal),
        };
        self.apply(step.change, block, time);
        Outcome {
            session: self,
            answer: Ok(step.acceptance),
        }
    }

    // No delivery recorded, the session as it was.
    fn unrecorded(self, refusal: Refusal) -> Recording
        ensures { result ≡ unrecorded_by self refusal }
    {
        Recording {
            session: self,
            answer: Err(refusal),
        }
    }

    // A delivery recorded; it is pending where the mode of its subscription, in a place, is not auto.
    fn recorded(mut self, place: usize, label: &[u8]) -> Recording
        requires { MayRecord self place label.now }
        ensures { result ≡ recorded_as (recording_at self place label.now) }
    {
        let deliveries = self.deliveries;
        let modes = self.subscriptions.modes;
        if modes[place] != SubscriptionStore::AUTO {
            self.deliveries = deliveries.entered(place as u8, label);
        }
        Recording {
            session: self,
            answer: Ok(()),
        }
    }

    // A delivery to the subscription in a place: 62, 61, or recorded.
    fn record_at(self, place: usize, label: &[u8]) -> Recording
        requires { (is_valid self ≡ true) × (place < subscriptions_max) }
        ensures { RecordsAt self place label.now result }
    {
        let deliveries = self.deliveries;
        if (label.len() == 0) | (Session::ID < label.len()) {
            return self.unrecorded(Refusal::BadLabel);
        }
        if deliveries.find(label).is_some() {
            return self.unrecorded(Refusal::BadLabel);
        }
        let modes = self.subscriptions.modes;
        if (modes[place] != SubscriptionStore::AUTO) & (64 <= deliveries.count) {
            return self.unrecorded(Refusal::AllPending);
        }
        self.recorded(place, label)
    }

    // A delivery that the daemon makes is recorded, for a subscription's id and under a label; a refusal leaves the session as it was.
    pub fn deliver(self, subscription: &[u8], label: &[u8]) -> Recording
        ensures { (delivery_says result.answer ≡ deliver_answer self subscription.now label.now)
            × (result.session ≡ deliver_session self subscription.now label.now) }
    {
        if !self.is_valid() {
            return self.unrecorded(Refusal::Invalid);
        }
        if self.phase != Session::OPEN {
            return self.unrecorded(Refusal::NotOpen);
        }
        if subscription.len() == 0 {
            return self.unrecorded(Refusal::NoSubscription);
        }
        match self.find_subscription(subscription) {
            Some(k) => self.record_at(k, label),
            None => self.unrecorded(Refusal::NoSubscription),
        }
    }

    // What is told of a pending delivery that is held.
    fn told(self, index: usize) -> Pending
        requires { (is_valid self ≡ true) × (index < self.deliveries.count) }
        ensures { Some result ≡ told_of (nth index (held_deliveries self)) }
    {
        let deliveries = self.deliveries;
        let places = deliveries.places;
        let modes = self.subscriptions.modes;
        let labels = deliveries.labels;
        let lens = deliveries.lens;
        let ids = self.subscriptions.ids;
        let id_lens = self.subscriptions.lens;
        let place = usize::from(places[index]);
        Pending {
            subscription: crate::store::row(&ids, place),
            subscription_len: id_lens[place],
            mode: modes[place],
            label: crate::store::row(&labels, index),
            label_len: lens[index],
        }
    }

    // The pending delivery with a number, the oldest being 0; of an invalid record nobody can say.
    pub fn pending_at(self, index: usize) -> Result<Option<Pending>, InvalidRecord>
        ensures { result ≡ pending_answer self index }
    {
        if !self.is_valid() {
            return Err(InvalidRecord);
        }
        let deliveries = self.deliveries;
        if usize::from(deliveries.count) <= index {
            return Ok(None);
        }
        Ok(Some(self.told(index)))
    }
}
