// Plans: which subscription gets which waiting message.
ghost use Rattle.std.specs.Prelude.{◌≡◌, true, [], ◌≤◌, length};
ghost use Rattle.topics.specs.Topics.{words, well_formed, matches as matching};
ghost use Rattle.topics.specs.Lists.{pairs_in, listed};
ghost use Rattle.topics.specs.Plans.{pair_answer, checked, plan_answer, fault_number, plan_number, plan_names, plan_says};
ghost use Rattle.topics.specs.Waiting.{entries_of, pair_says};

use crate::list::{Column, Malformed, NO_ROOM, Pairs, ROOM, Records, ValidList};

// What is wrong with a pair: its message is unknown (96) or in an earlier pair (97), its subscription is not live or does not match
// (98), or is over its room (99).
#[derive(Clone, Copy)]
pub enum PairFault {
    UnknownMessage,
    MessageAgain,
    NotMatching,
    OverRoom,
}

// The first bad pair of a plan, from 0, and what is wrong with it.
#[derive(Clone, Copy)]
pub struct Fault {
    pub reason: PairFault,
    pub index: u32,
}

// Why a plan is refused: more than 64 whole pairs (101), a malformed list (102), its first bad pair, or the number of the first message
// left out (100).
#[derive(Clone, Copy)]
pub enum PlanError {
    TooManyPairs,
    Malformed,
    BadPair(Fault),
    LeftOut(u32),
}

// A plan has at most so many pairs.
pub const PAIRS_MAX: usize = 64;

impl PairFault {
    // Its number.
    pub fn number(self) -> u32
        ensures { result ≡ fault_number self }
    {
        match self {
            PairFault::UnknownMessage => 96,
            PairFault::MessageAgain => 97,
            PairFault::NotMatching => 98,
            PairFault::OverRoom => 99,
        }
    }
}

impl PlanError {
    // Its number.
    pub fn number(self) -> u32
        ensures { result ≡ plan_number self }
    {
        match self {
            PlanError::TooManyPairs => 101,
            PlanError::Malformed => 102,
            PlanError::BadPair(f) => f.reason.number(),
            PlanError::LeftOut(_) => 100,
        }
    }

    // What it names: a pair, from 0, or a message by its number; none where it names nothing.
    pub fn names(self) -> Option<u32>
        ensures { result ≡ plan_names self }
    {
        match self {
            PlanError::TooManyPairs => None,
            PlanError::Malformed => None,
            PlanError::BadPair(f) => Some(f.index),
            PlanError::LeftOut(n) => Some(n),
        }
    }
}

impl From<Malformed> for PlanError {
    ghost use Rattle.topics.specs.declared.plan.PlanError.TheVariants.{Malformed};

    ghost from_gives = { λ _ e. e ≡ Malformed };

    fn from(_e: Malformed) -> PlanError {
        PlanError::Malformed
    }
}

// Whether a pattern matches a destination, both well formed.
fn is_match(destination: &[u8], pattern: &[u8]) -> bool
    requires { (well_formed destination.now ≡ true) × (well_formed pattern.now ≡ true) }
    ensures { result ≡ matching (words pattern.now) (words destination.now) }
{
    crate::pattern::matches(destination, pattern).unwrap_or(false)
}

// The messages that wait, and the subscriptions that are live.
#[derive(Clone, Copy)]
struct Waiting<'a> {
    messages: ValidList<'a>,
    subscriptions: ValidList<'a>,
}

impl<'a> Waiting<'a> {
    // What is wrong with a pair, whose earlier pairs are given.
    fn check_pair(
        &self,
        earlier: &Pairs<'_>,
        message: usize,
        subscription: usize,
    ) -> Result<(), PairFault>
        ensures { pair_says result ≡ pair_answer (entries_of self.now.messages) (entries_of self.now.subscriptions)
            (listed (pairs_in earlier.now.octets.now)) (record { message = message; subscription = subscription }) }
    {
        let m = self
            .messages
            .find(message)
            .ok_or(PairFault::UnknownMessage)?;
        if earlier.count(Column::Message, message) != 0 {
            return Err(PairFault::MessageAgain);
        }
        let s = self
            .subscriptions
            .find(subscription)
            .ok_or(PairFault::NotMatching)?;
        let name = &self.messages.list.octets[m.from..m.to];
        let pattern = &self.subscriptions.list.octets[s.from..s.to];
        if !is_match(name, pattern) {
            return Err(PairFault::NotMatching);
        }
        if s.room <= earlier.count(Column::Subscription, subscription) {
            return Err(PairFault::OverRoom);
        }
        Ok(())
    }

    // The first bad pair, or the first message left out.
    fn check_pairs(&self, plan: &Pairs<'_>) -> Result<(), PlanError>
        requires { length plan.now.octets.now ≤ 512 }
        ensures { plan_says result ≡ checked (entries_of self.now.messages) (entries_of self.now.subscriptions) []
            (listed (pairs_in plan.now.octets.now)) }
    {
        for k in 0..plan.len() {
            let message = plan.number(k, Column::Message);
            let subscription = plan.number(k, Column::Subscription);
            if let Err(reason) = self.check_pair(&plan.before(k), message, subscription) {
                // Below 64, so it fits.
                let index = k as u32;
                return Err(PlanError::BadPair(Fault { reason, index }));
            }
        }
        // A number has four octets, so it fits.
        match self.messages.left_out(plan) {
            Some(m) => Err(PlanError::LeftOut(m.number as u32)),
            None => Ok(()),
        }
    }
}

// Whether a plan hands out each waiting message once, to a live subscription that matches it, within its room.
pub fn check_plan(messages: &[u8], subscriptions: &[u8], plan: &[u8]) -> Result<(), PlanError>
    ensures { plan_says result ≡ plan_answer messages.now subscriptions.now plan.now }
{
    if PAIRS_MAX < plan.len() / crate::list::PAIR {
        return Err(PlanError::TooManyPairs);
    }
    let plan = Pairs::new(plan)?;
    let messages = Records {
        octets: messages,
        width: NO_ROOM,
    };
    let subscriptions = Records {
        octets: subscriptions,
        width: ROOM,
    };
    let waiting = Waiting {
        messages: messages.validated()?,
        subscriptions: subscriptions.validated()?,
    };
    waiting.check_pairs(&plan)
}
