// Calls on one session record, read from standard input, each as an octet, its kind, and what the kind asks; numbers have four octets,
// high first. 0 make: the offers sends and wants, and three flags; 1 frame: command, time, length of the header block, and the block;
// 2 heart-beat: time; 3 timed out: time; 4 set: a whole record, which becomes the session's; 5, 6, 7 as 1, 2, 3, on the session where it
// lies; 8 deliver: the lengths of a subscription's id and of a label, and both; 9 as 8, on the session where it lies; 10 pending: the
// number of a pending delivery. For each call a line with its answer and the highest version shared, and the record after it, as kind 4
// has it, and a line end.
#![tactic(auto)]

ghost use Rattle.std.specs.Prelude.{◌+◌, ◌<◌, length};

use crate::in_place::TimedOutcome;
use listing::calls::{CallError, each_call, number_at, read_head, read_rest, read_text, tell};
use sessions::delivery::Deliveries;
use sessions::parts::{Agreed, Offers, SubscriptionStore, TransactionStore};
use sessions::refusals::{InvalidRecord, Refusal};
use sessions::session::{Acceptance, Outcome, Pending, Recording, Session};
use std::io;
use std::io::{Read, Write};

mod in_place;

// What a call asks for.
#[derive(Clone, Copy)]
enum Kind {
    Make,
    Frame,
    HeartBeat,
    TimedOut,
    Set,
    FrameInPlace,
    HeartBeatInPlace,
    TimedOutInPlace,
    Deliver,
    DeliverInPlace,
    Pending,
}

impl TryFrom<u8> for Kind {
    type Error = CallError;

    fn try_from(kind: u8) -> Result<Kind, CallError> {
        match kind {
            0 => Ok(Kind::Make),
            1 => Ok(Kind::Frame),
            2 => Ok(Kind::HeartBeat),
            3 => Ok(Kind::TimedOut),
            4 => Ok(Kind::Set),
            5 => Ok(Kind::FrameInPlace),
            6 => Ok(Kind::HeartBeatInPlace),
            7 => Ok(Kind::TimedOutInPlace),
            8 => Ok(Kind::Deliver),
            9 => Ok(Kind::DeliverInPlace),
            10 => Ok(Kind::Pending),
            _ => Err(CallError::UnknownKind),
        }
    }
}

// The three flags at i.
fn flags_at(head: &[u8], i: usize) -> [bool; 3]
    requires { i + 2 < length head.now }
{
    [head[i] != 0, head[i + 1] != 0, head[i + 2] != 0]
}

// Three flags, each as an octet.
fn octets_of(flags: [bool; 3]) -> [u8; 3] {
    [u8::from(flags[0]), u8::from(flags[1]), u8::from(flags[2])]
}

// All of a record but the ids and the deliveries: 27 octets, numbers with the high octet first. They are one row, which is written at once:
// each writing is a call of the system.
fn head_of(s: &Session) -> [u8; 27] {
    let [s1, s2, s3, s4] = s.offers.sends.to_be_bytes();
    let [w1, w2, w3, w4] = s.offers.wants.to_be_bytes();
    let [o1, o2, o3] = octets_of(s.offers.versions);
    let [v1, v2, v3] = octets_of(s.agreed.versions);
    let [i1, i2, i3, i4] = s.agreed.inbound.to_be_bytes();
    let [b1, b2, b3, b4] = s.agreed.outbound.to_be_bytes();
    let [h1, h2, h3, h4] = s.last_heard.to_be_bytes();
    [
        s.phase, s1, s2, s3, s4, w1, w2, w3, w4, o1, o2, o3, v1, v2, v3, i1, i2, i3, i4, b1, b2,
        b3, b4, h1, h2, h3, h4,
    ]
}

// The labels, their lengths, the places of their subscriptions, the ack modes and the count: 2,193 octets.
fn write_deliveries<W: Write>(
    output: &mut W,
    d: &Deliveries,
    modes: &[u8; Session::SUBSCRIPTIONS],
) -> io::Result<()> {
    output.write_all(&d.labels)?;
    output.write_all(&d.lens)?;
    output.write_all(&d.places)?;
    output.write_all(modes)?;
    output.write_all(&[d.count])
}

// The record, 2,880 octets: after its head the ids of subscriptions and their lengths, 528 octets, and those of transactions, 132.
fn write_record<W: Write>(output: &mut W, s: &Session) -> io::Result<()> {
    output.write_all(&head_of(s))?;
    output.write_all(&s.subscriptions.ids)?;
    output.write_all(&s.subscriptions.lens)?;
    output.write_all(&s.transactions.ids)?;
    output.write_all(&s.transactions.lens)?;
    write_deliveries(output, &s.deliveries, &s.subscriptions.modes)
}

// A version, by its number times ten.
fn say_version<W: Write>(output: &mut W, version: u32) -> io::Result<()> {
    if version == 0 {
        return output.write_all(b"none");
    }
    let (whole, tenths) = (version / 10, version % 10);
    write!(output, "{whole}.{tenths}")
}

// The rest of what a call gives, after its answer.
fn answered<W: Write>(output: &mut W, session: &Session) -> Result<(), CallError> {
    output.write_all(b" version ")?;
    say_version(output, session.highest_shared())?;
    output.write_all(b"\n")?;
    write_record(output, session)?;
    output.write_all(b"\n")?;
    Ok(())
}

fn say_refused<W: Write>(output: &mut W, number: u32) -> io::Result<()> {
    write!(output, "refused {number}")
}

// That a session is made, or a delivery recorded, in a word; or the number of what is refused.
fn say_done<W: Write>(output: &mut W, answer: Result<(), Refusal>, word: &[u8]) -> io::Result<()> {
    match answer {
        Ok(()) => output.write_all(word),
        Err(refusal) => say_refused(output, refusal.number()),
    }
}

// How many later entries follow the first destination, id and transaction, where one of these is not 0.
fn say_overwritten<W: Write>(output: &mut W, a: Acceptance) -> io::Result<()> {
    let (destinations, ids, transactions) = (
        a.later_destinations,
        a.later_ids,
        a.later_transactions,
    );
    if destinations == 0 && ids == 0 && transactions == 0 {
        return Ok(());
    }
    write!(output, " overwritten {destinations} {ids} {transactions}")
}

fn say_answer<W: Write>(output: &mut W, answer: Result<Acceptance, Refusal>) -> io::Result<()> {
    match answer {
        Ok(a) => {
            output.write_all(if a.receipt {
                b"accepted receipt"
            } else {
                b"accepted"
            })?;
            say_overwritten(output, a)
        }
        Err(refusal) => say_refused(output, refusal.number()),
    }
}

fn say_timed_out<W: Write>(output: &mut W, answer: Result<bool, InvalidRecord>) -> io::Result<()> {
    match answer {
        Ok(true) => output.write_all(b"yes"),
        Ok(false) => output.write_all(b"no"),
        Err(invalid) => say_refused(output, invalid.number()),
    }
}

// A session made anew.
fn make<R: Read, W: Write>(
    input: &mut R,
    output: &mut W,
    session: &mut Session,
) -> Result<(), CallError> {
    let head = read_rest::<11, R>(input)?;
    let made = Session::new(number_at(&head, 0), number_at(&head, 4), flags_at(&head, 8));
    *session = made.session;
    say_done(output, made.answer, b"made")?;
    answered(output, session)
}

// A frame, whose head is read, given to the session by a call of one kind or the other. The buffer stands before any reading: behind one,
// which may fail, it would be cleared twice. Not inlined, nor is `deliver`: calls without a text would need the room of both too.
#[inline(never)]
fn frame<R: Read, W: Write, F: FnOnce(Session, u32, &[u8], u32) -> Outcome>(
    input: &mut R,
    output: &mut W,
    session: &mut Session,
    head: &[u8; 12],
    call: F,
) -> Result<(), CallError>
    requires { F.IsAlwaysCallable call }
{
    let mut block = [0u8; 65536];
    let block = read_text(input, &mut block, number_at(head, 8))?;
    let outcome = call(*session, number_at(head, 0), block, number_at(head, 4));
    *session = outcome.session;
    say_answer(output, outcome.answer)?;
    answered(output, session)
}

// A heart-beat, likewise.
fn heart_beat<R: Read, W: Write, F: FnOnce(Session, u32) -> Outcome>(
    input: &mut R,
    output: &mut W,
    session: &mut Session,
    call: F,
) -> Result<(), CallError>
    requires { F.IsAlwaysCallable call }
{
    let time = u32::from_be_bytes(read_rest(input)?);
    let outcome = call(*session, time);
    *session = outcome.session;
    say_answer(output, outcome.answer)?;
    answered(output, session)
}

// Whether the peer is timed out, likewise.
fn timed_out<R: Read, W: Write, F: FnOnce(Session, u32) -> TimedOutcome>(
    input: &mut R,
    output: &mut W,
    session: &mut Session,
    call: F,
) -> Result<(), CallError>
    requires { F.IsAlwaysCallable call }
{
    let time = u32::from_be_bytes(read_rest(input)?);
    let outcome = call(*session, time);
    *session = outcome.session;
    say_timed_out(output, outcome.answer)?;
    answered(output, session)
}

// A delivery, likewise.
#[inline(never)]
fn deliver<R: Read, W: Write, F: FnOnce(Session, &[u8], &[u8]) -> Recording>(
    input: &mut R,
    output: &mut W,
    session: &mut Session,
    head: &[u8; 8],
    call: F,
) -> Result<(), CallError>
    requires { F.IsAlwaysCallable call }
{
    let mut subscription = [0u8; 65536];
    let mut label = [0u8; 65536];
    let subscription = read_text(input, &mut subscription, number_at(head, 0))?;
    let label = read_text(input, &mut label, number_at(head, 4))?;
    let recording = call(*session, subscription, label);
    *session = recording.session;
    say_done(output, recording.answer, b"recorded")?;
    answered(output, session)
}

// The first octets of a text, as many as a length says, in hexadecimal.
fn say_hexadecimal<W: Write>(output: &mut W, text: &[u8; 32], len: u8) -> io::Result<()> {
    for x in text.iter().take(usize::from(len)) {
        write!(output, "{x:02x}")?;
    }
    Ok(())
}

fn say_held<W: Write>(output: &mut W, p: &Pending) -> io::Result<()> {
    let mode = p.mode;
    write!(output, "pending {mode} ")?;
    say_hexadecimal(output, &p.subscription, p.subscription_len)?;
    output.write_all(b" ")?;
    say_hexadecimal(output, &p.label, p.label_len)
}

// The pending delivery of a number.
fn pending<R: Read, W: Write>(
    input: &mut R,
    output: &mut W,
    session: &Session,
) -> Result<(), CallError> {
    let index = u32::from_be_bytes(read_rest(input)?);
    match session.pending_at(index as usize) {
        Ok(Some(p)) => say_held(output, &p)?,
        Ok(None) => output.write_all(b"none")?,
        Err(invalid) => say_refused(output, invalid.number())?,
    }
    answered(output, session)
}

// A record that is read, as it is written.
fn read_record<R: Read>(input: &mut R) -> Result<Session, CallError> {
    let head = read_rest::<27, R>(input)?;
    let sub_ids = read_rest(input)?;
    let sub_lens = read_rest(input)?;
    let tx_ids = read_rest(input)?;
    let tx_lens = read_rest(input)?;
    let labels = read_rest(input)?;
    let lens = read_rest(input)?;
    let places = read_rest(input)?;
    let modes = read_rest(input)?;
    let count = read_rest::<1, R>(input)?;
    Ok(Session {
        offers: Offers {
            sends: number_at(&head, 1),
            wants: number_at(&head, 5),
            versions: flags_at(&head, 9),
        },
        agreed: Agreed {
            inbound: number_at(&head, 15),
            outbound: number_at(&head, 19),
            versions: flags_at(&head, 12),
        },
        subscriptions: SubscriptionStore {
            ids: sub_ids,
            lens: sub_lens,
            modes,
        },
        transactions: TransactionStore {
            ids: tx_ids,
            lens: tx_lens,
        },
        deliveries: Deliveries {
            labels,
            lens,
            places,
            count: count[0],
        },
        last_heard: number_at(&head, 23),
        phase: head[0],
    })
}

fn set<R: Read, W: Write>(
    input: &mut R,
    output: &mut W,
    session: &mut Session,
) -> Result<(), CallError> {
    *session = read_record(input)?;
    output.write_all(b"set")?;
    answered(output, session)
}

// Reads a call on a session and answers it: whether there is one.
fn call<R: Read, W: Write>(
    input: &mut R,
    output: &mut W,
    session: &mut Session,
) -> Result<bool, CallError> {
    let Some(first) = read_head::<1, R>(input)? else {
        return Ok(false);
    };
    match Kind::try_from(first[0])? {
        Kind::Make => make(input, output, session)?,
        Kind::Frame => {
            let head = read_rest(input)?;
            frame(input, output, session, &head, |s, command, block, time| {
                s.frame(command, block, time)
            })?;
        }
        Kind::HeartBeat => heart_beat(input, output, session, |s, time| s.heart_beat(time))?,
        Kind::TimedOut => timed_out(
            input,
            output,
            session,
            |s, time| TimedOutcome {
                session: s,
                answer: s.timed_out(time),
            },
        )?,
        Kind::Set => set(input, output, session)?,
        Kind::FrameInPlace => {
            let head = read_rest(input)?;
            frame(input, output, session, &head, |s, command, block, time| {
                in_place::frame(s, command, block, time)
            })?;
        }
        Kind::HeartBeatInPlace => heart_beat(input, output, session, |s, time| {
            in_place::heart_beat(s, time)
        })?,
        Kind::TimedOutInPlace => timed_out(input, output, session, |s, time| {
            in_place::timed_out(s, time)
        })?,
        Kind::Deliver => {
            let head = read_rest(input)?;
            deliver(input, output, session, &head, |s, subscription, label| {
                s.deliver(subscription, label)
            })?;
        }
        Kind::DeliverInPlace => {
            let head = read_rest(input)?;
            deliver(input, output, session, &head, |s, subscription, label| {
                in_place::deliver(s, subscription, label)
            })?;
        }
        Kind::Pending => pending(input, output, session)?,
    }
    Ok(true)
}

fn main(rt: HostRuntime) -> io::Result<()> {
    let mut output = rt.stdout();
    let mut session = Session::new(0, 0, [false, false, true]).session;
    let made = each_call(&mut rt.stdin(), |input| {
        call(input, &mut output, &mut session)
    });
    tell(&rt, "session_calls", made)
}
