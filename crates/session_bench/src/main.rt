// Makes many frame calls on a session with 16 subscriptions and 4 transactions, to be timed. The first argument is the number of calls,
// 16 where there is none; the second one of the six cases, all of them where there is none: 0 SEND in a transaction, 1 UNSUBSCRIBE and
// SUBSCRIBE of one id in turn, with ids of 6 octets; 2 and 3 the same with ids of 32 octets that differ in the last two alone; 4 and 5
// SEND with 64 pending deliveries in client mode, four of each subscription, with ids and labels of 6 octets, and of 32. For each case a
// line: how many calls were accepted, and the session's last-heard; or that other deliveries are pending than the case has.
#![tactic(auto)]

ghost use Rattle.std.specs.Prelude.{◌+◌, ◌≤◌};

use frames::version::Version;
use listing::arguments::number_arg;
use sessions::commands;
use sessions::delivery::Deliveries;
use sessions::session::Session;
use std::io;

// What is timed: SEND in a transaction, UNSUBSCRIBE and SUBSCRIBE in turn, or SEND with pending deliveries; each with short ids or long.
#[derive(Clone, Copy)]
enum Case {
    Send,
    Subscribe,
    SendLong,
    SubscribeLong,
    SendPending,
    SendPendingLong,
}

// That a number is that of no case.
#[derive(Clone, Copy)]
struct NoCase;

impl TryFrom<u32> for Case {
    type Error = NoCase;

    fn try_from(case: u32) -> Result<Case, NoCase> {
        match case {
            0 => Ok(Case::Send),
            1 => Ok(Case::Subscribe),
            2 => Ok(Case::SendLong),
            3 => Ok(Case::SubscribeLong),
            4 => Ok(Case::SendPending),
            5 => Ok(Case::SendPendingLong),
            _ => Err(NoCase),
        }
    }
}

impl Case {
    // All of them, by their numbers.
    const ALL: [Case; 6] = [
        Case::Send,
        Case::Subscribe,
        Case::SendLong,
        Case::SubscribeLong,
        Case::SendPending,
        Case::SendPendingLong,
    ];

    // Whether the ids have 32 octets, and not 6.
    fn is_long(self) -> bool {
        match self {
            Case::SendLong | Case::SubscribeLong | Case::SendPendingLong => true,
            Case::Send | Case::Subscribe | Case::SendPending => false,
        }
    }

    // How many deliveries are pending.
    fn pending(self) -> u8 {
        match self {
            Case::SendPending | Case::SendPendingLong => DELIVERIES,
            Case::Send | Case::Subscribe | Case::SendLong | Case::SubscribeLong => 0,
        }
    }
}

// The two digits of a number.
fn tens(n: u8) -> u8 {
    48 + n / 10 % 10
}

fn ones(n: u8) -> u8 {
    48 + n % 10
}

// A header block, at the front of its octets.
#[derive(Clone, Copy)]
struct Block {
    octets: [u8; 256],
    len: usize,
    ghost held: { len ≤ 256 },
}

impl Block {
    // That of a frame.
    fn of(frame: &[u8]) -> Block {
        let mut octets = [0u8; 256];
        let decoded = frames::decode::decode(Version::V12, frame, &mut octets);
        let len = decoded.unwrap_or(0).min(256);
        Block { octets, len }
    }

    // The same with other digits in its last two octets.
    fn numbered(self, n: u8) -> Block {
        let len = self.len;
        if len < 2 {
            return self;
        }
        let mut octets = self.octets;
        octets[len - 2] = tens(n);
        octets[len - 1] = ones(n);
        Block { octets, len }
    }
}

fn subscription(long: bool) -> Block {
    if long {
        return Block::of(
            b"SUBSCRIBE\ndestination:/names/ocean\nid:name-service-of-the-ice-models00\n\n\0",
        );
    }
    Block::of(b"SUBSCRIBE\ndestination:/names/ocean\nid:sub-00\n\n\0")
}

// The same in client mode.
fn client_subscription(long: bool) -> Block {
    if long {
        return Block::of(
            b"SUBSCRIBE\ndestination:/names/ocean\nack:client\nid:name-service-of-the-ice-models00\n\n\0",
        );
    }
    Block::of(b"SUBSCRIBE\ndestination:/names/ocean\nack:client\nid:sub-00\n\n\0")
}

fn transaction(long: bool) -> Block {
    if long {
        return Block::of(b"BEGIN\ntransaction:name-service-of-the-ice-models00\n\n\0");
    }
    Block::of(b"BEGIN\ntransaction:txn-00\n\n\0")
}

fn sending(long: bool) -> Block {
    if long {
        return Block::of(
            b"SEND\ndestination:/names/ocean\ncontent-type:text/plain\nreceipt:17\ntransaction:name-service-of-the-ice-models00\n\n\0",
        );
    }
    Block::of(
        b"SEND\ndestination:/names/ocean\ncontent-type:text/plain\nreceipt:17\ntransaction:txn-00\n\n\0",
    )
}

// A session, and how many calls on it were accepted.
#[derive(Clone, Copy)]
struct Tally {
    session: Session,
    accepted: u64,
}

impl Tally {
    // Before the first call.
    fn of(session: Session) -> Tally {
        Tally {
            session,
            accepted: 0,
        }
    }

    // One call.
    fn call(&mut self, command: u32, block: &[u8], time: u32) {
        let outcome = self.session.frame(command, block, time);
        self.session = outcome.session;
        if outcome.answer.is_ok() {
            self.accepted = self.accepted.wrapping_add(1);
        }
    }

    // One call for each of so many ids.
    fn enter(&mut self, command: u32, block: Block, count: u8) {
        for n in 0..count {
            let block = block.numbered(n);
            self.call(command, &block.octets[..block.len], 0);
        }
    }

    // Two commands in turn, so many calls.
    fn repeat(&mut self, first: u32, second: u32, block: &[u8], calls: u32) {
        for i in 0..calls {
            self.call(if i % 2 == 0 { first } else { second }, block, i);
        }
    }
}

// A session with 16 subscriptions, each of which is asked for in such a block, and 4 transactions.
fn prepared(long: bool, subscribing: Block) -> Session {
    let mut t = Tally::of(Session::new(0, 0, [false, false, true]).session);
    let connecting = Block::of(b"CONNECT\naccept-version:1.2\nhost:names\n\n\0");
    t.call(commands::CONNECT, &connecting.octets[..connecting.len], 0);
    t.enter(
        commands::SUBSCRIBE,
        subscribing,
        Session::SUBSCRIPTIONS as u8,
    );
    t.enter(
        commands::BEGIN,
        transaction(long),
        Session::TRANSACTIONS as u8,
    );
    t.session
}

// An id with other digits in two of its octets.
fn numbered<const N: usize>(mut id: [u8; N], at: usize, n: u8) -> [u8; N]
    requires { at + 2 ≤ N }
{
    id[at] = tens(n);
    id[at + 1] = ones(n);
    id
}

// A delivery, with ids and labels of 6 octets, or of 32.
fn deliver(session: Session, long: bool, n: u8) -> Session {
    let subscription = n % Session::SUBSCRIPTIONS as u8;
    let recording = if long {
        session.deliver(
            &numbered(*b"name-service-of-the-ice-models00", 30, subscription),
            &numbered(*b"delivery-to-the-ice-models-no-00", 30, n),
        )
    } else {
        session.deliver(
            &numbered(*b"sub-00", 4, subscription),
            &numbered(*b"m-1000", 4, n),
        )
    };
    recording.session
}

const DELIVERIES: u8 = Deliveries::MAX as u8;

// As many deliveries as can be pending, each of the next subscription.
fn deliver_all(mut session: Session, long: bool) -> Session {
    for n in 0..DELIVERIES {
        session = deliver(session, long, n);
    }
    session
}

// The ids of each kind are numbered from 0.
const LAST_SUBSCRIPTION: u8 = (Session::SUBSCRIPTIONS - 1) as u8;

const LAST_TRANSACTION: u8 = (Session::TRANSACTIONS - 1) as u8;

// Two commands in turn with a block, so many calls.
fn repeated(session: Session, first: u32, second: u32, block: Block, calls: u32) -> Tally {
    let mut t = Tally::of(session);
    t.repeat(first, second, &block.octets[..block.len], calls);
    t
}

// So many SENDs in the last transaction.
fn send(session: Session, long: bool, calls: u32) -> Tally {
    let block = sending(long).numbered(LAST_TRANSACTION);
    repeated(session, commands::SEND, commands::SEND, block, calls)
}

// So many UNSUBSCRIBEs and SUBSCRIBEs of the last subscription in turn.
fn subscribe(session: Session, long: bool, calls: u32) -> Tally {
    let block = subscription(long).numbered(LAST_SUBSCRIPTION);
    repeated(
        session,
        commands::UNSUBSCRIBE,
        commands::SUBSCRIBE,
        block,
        calls,
    )
}

// The calls of a case.
fn run(case: Case, calls: u32) -> Tally {
    let long = case.is_long();
    match case {
        Case::Send | Case::SendLong => { send(prepared(long, subscription(long)), long, calls) }
        Case::Subscribe | Case::SubscribeLong => {
            subscribe(prepared(long, subscription(long)), long, calls)
        }
        Case::SendPending | Case::SendPendingLong => {
            let session = prepared(long, client_subscription(long));
            send(deliver_all(session, long), long, calls)
        }
    }
}

// A case, with its line.
fn show(rt: &impl Print, case: Case, calls: u32) -> io::Result<()> {
    let t = run(case, calls);
    if t.session.deliveries.count != case.pending() {
        return println!(rt; "other deliveries are pending");
    }
    let accepted = t.accepted;
    let last_heard = t.session.last_heard;
    println!(rt; "{accepted} {last_heard}")
}

fn main(rt: HostRuntime) -> io::Result<()> {
    let calls = number_arg(&rt, 1).unwrap_or(16);
    let asked = number_arg(&rt, 2).and_then(|n| Case::try_from(n).ok());
    if let Some(case) = asked {
        return show(&rt, case, calls);
    }
    for case in Case::ALL {
        show(&rt, case, calls)?;
    }
    Ok(())
}
