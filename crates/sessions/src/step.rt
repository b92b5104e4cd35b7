// What a frame does to a session, decided before anything is changed: the answer, and the change.
ghost use Rattle.std.specs.Prelude.{◌≡◌, true, [], Ok};
ghost use Rattle.headers.specs.Block.{entries, listed};
ghost use Rattle.sessions.specs.Headers.{put_before, changed_id};
ghost use Rattle.sessions.specs.Sessions.{id_max, subscriptions_max, transactions_max, spoken, is_valid, Sized};
ghost use Rattle.sessions.specs.Calls.{id_effect};
ghost use Rattle.sessions.specs.Places.{Fits};
ghost use Rattle.sessions.specs.Notes.{AllNoted};
ghost use Rattle.sessions.specs.Steps.{SettlesUse, use_named};
ghost use Rattle.sessions.specs.Changes.{Lends, NamesIds, PutFits, put_by, use_of};
ghost use Rattle.sessions.specs.declared.session.Session.{Session as SessionValue};

use crate::command::{Kind, Naming};
use crate::notes::Notes;
use crate::parts::Agreed;
use crate::refusals::Refusal;
use crate::session::Acceptance;
use crate::store::Ids;
use frames::version::Version;

// A place of a store, and the part of the block that is put there: an id, or nothing where the place is freed.
#[derive(Clone, Copy)]
pub(crate) struct Placing {
    pub place: usize,
    pub start: usize,
    pub end: usize,
}

// What is put, and in which store.
#[derive(Clone, Copy)]
pub(crate) enum Put {
    Nothing,
    Subscription(Placing),
    Transaction(Placing),
}

// What becomes of modes and deliveries: nothing; the subscription in a place gets a mode; or it has none any more, and its deliveries are
// dropped; or the delivery with a number is settled.
#[derive(Clone, Copy)]
pub(crate) enum Further {
    Nothing,
    Mode(usize, u8),
    Drop(usize),
    Settle(usize),
}

// What becomes of a session that accepts a frame: it is heard from, and closed by a DISCONNECT, opened with what both sides agreed on, as it
// was, or changed by what is put and what becomes of modes and deliveries.
#[derive(Clone, Copy)]
pub(crate) enum Change {
    Disconnect,
    Open(Agreed),
    Hear,
    Use(Put, Further),
}

// What became of the ids that a frame names, none of which is refused: the first of them, which alone may be entered or freed, and the place
// that is put, if one is.
#[derive(Clone, Copy)]
pub(crate) struct Named {
    pub first: Naming,
    pub place: Option<usize>,
}

// What an accepted frame is answered, and what becomes of the session. One that is refused closes it.
#[derive(Clone, Copy)]
pub(crate) struct Step {
    pub acceptance: Acceptance,
    pub change: Change,
}

// What is put, and what becomes of modes and deliveries, as one change. Most often it is neither, and nothing has to be looked at again.
pub(crate) fn use_of(put: Put, further: Further) -> Change
    ensures { result ≡ use_of put further }
{
    match put {
        Put::Nothing => match further {
            Further::Nothing => Change::Hear,
            Further::Mode(k, mode) => Change::Use(put, further),
            Further::Drop(k) => Change::Use(put, further),
            Further::Settle(i) => Change::Use(put, further),
        },
        Put::Subscription(p) => Change::Use(put, further),
        Put::Transaction(p) => Change::Use(put, further),
    }
}

// What the stores of a session, by reference, make of an id that a frame may name.
pub(crate) fn settle_naming<'a>(
    subscriptions: Ids<'a>,
    transactions: Ids<'a>,
    naming: Naming,
    notes: Notes,
    block: &[u8],
) -> Result<Option<usize>, Refusal>
    requires { AllNoted block.now notes }
    ensures { (s : SessionValue)
        → Lends s subscriptions.entry.octets.now subscriptions.entry.lens.now transactions.entry.octets.now transactions.entry.lens.now
        → SettlesUse s (use_named naming (listed (entries block.now))) result }
{
    let usage = naming.usage;
    if !crate::command::names_id(usage) {
        return Ok(None);
    }
    let header = naming.header;
    let Some(l) = crate::locate::locate(notes, block, header) else {
        return Ok(None);
    };
    let kind = naming.kind;
    let id = &block[l.start..l.end];
    match kind {
        Kind::Subscriptions => subscriptions.settle(id, usage),
        Kind::Transactions => transactions.settle(id, usage),
    }
}

// What the stores make of the ids that a frame names.
pub(crate) fn settle_ids<'a>(
    subscriptions: Ids<'a>,
    transactions: Ids<'a>,
    version: Version,
    command: u32,
    notes: Notes,
    block: &[u8],
) -> Result<Named, Refusal>
    requires { AllNoted block.now notes }
    ensures { (s : SessionValue)
        → Lends s subscriptions.entry.octets.now subscriptions.entry.lens.now transactions.entry.octets.now transactions.entry.lens.now
        → spoken s ≡ version
        → NamesIds s command (listed (entries block.now)) result }
{
    let namings = crate::command::namings_of(version, command);
    let first = namings.first;
    let second = namings.second;
    let settled = settle_naming(subscriptions, transactions, first, notes, block);
    let other = settle_naming(subscriptions, transactions, second, notes, block);
    let place = crate::store::both(settled, other)?;
    Ok(Named { first, place })
}

// What is put of an id, as the store settled it.
pub(crate) fn put_of(naming: Naming, place: Option<usize>, notes: Notes, block: &[u8]) -> Put
    requires { AllNoted block.now notes }
    ensures { (s : SessionValue)
        → Sized s
        → is_valid s ≡ true
        → SettlesUse s (use_named naming (listed (entries block.now))) (Ok place)
        → (put_by s block.now result
        ≡ id_effect s (changed_id (put_before (use_named naming (listed (entries block.now))) [])))
        × PutFits block.now result }
{
    let Some(k) = place else {
        return Put::Nothing;
    };
    let header = naming.header;
    let Some(l) = crate::locate::locate(notes, block, header) else {
        return Put::Nothing;
    };
    let usage = naming.usage;
    let start = l.start;
    let kind = naming.kind;
    let placing = Placing {
        place: k,
        start,
        end: start + crate::store::stored_length(usage, l.end - start),
    };
    match kind {
        Kind::Subscriptions => Put::Subscription(placing),
        Kind::Transactions => Put::Transaction(placing),
    }
}
