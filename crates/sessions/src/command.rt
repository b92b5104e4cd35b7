// Which ids a command names, and in which phase it may come.
ghost use Rattle.std.specs.Prelude.{◌≡◌, []};
ghost use Rattle.frames.specs.Grammar.{ACK};
ghost use Rattle.sessions.specs.Headers.{unknown, from_server, opens as opens_by, settles as settles_by, subscription, transaction};
ghost use Rattle.sessions.specs.Headers.{acknowledged_subscription, namings, namings_by, label_header};
ghost use Rattle.sessions.specs.Refusals.{refused_number};
ghost use Rattle.sessions.specs.Steps.{phase_number, names_id, naming_list, GivesNamings};

use crate::commands;
use crate::refusals::Refusal;
use crate::session::Session;
use crate::store::Use;
use frames::version::Version;

// Whether the number is no command's.
pub(crate) fn is_unknown(command: u32) -> bool
    ensures { result ≡ unknown command }
{
    (command == 0) | (commands::UNSUBSCRIBE < command)
}

// The headers that a session looks at.
#[derive(Clone, Copy)]
pub(crate) enum Header {
    AcceptVersion,
    HeartBeat,
    Host,
    Destination,
    Id,
    Transaction,
    Receipt,
    Ack,
    Subscription,
    MessageId,
}

// The kinds of ids.
#[derive(Clone, Copy)]
pub(crate) enum Kind {
    Subscriptions,
    Transactions,
}

// An id that a command names: in which header, of which kind, and what becomes of it.
#[derive(Clone, Copy)]
pub(crate) struct Naming {
    pub header: Header,
    pub kind: Kind,
    pub usage: Use,
}

// The ids that a command names: at most two, of which only the first is entered or freed. Where fewer are named, the use is Nothing.
// The second is no Option, since the first may be missing too, and a frame's two ids are settled in one way.
#[derive(Clone, Copy)]
pub(crate) struct Namings {
    pub first: Naming,
    pub second: Naming,
}

// Whether only a server sends the command.
pub(crate) fn is_from_server(command: u32) -> bool
    ensures { result ≡ from_server command }
{
    (command == commands::CONNECTED)
        | ((command == commands::ERROR)
            | ((command == commands::MESSAGE) | (command == commands::RECEIPT)))
}

// Whether the command opens a session.
pub(crate) fn opens(command: u32) -> bool
    ensures { result ≡ opens_by command }
{
    (command == commands::CONNECT) | (command == commands::STOMP)
}

// Whether the command settles a delivery.
pub(crate) fn settles(command: u32) -> bool
    ensures { result ≡ settles_by command }
{
    (command == commands::ACK) | (command == commands::NACK)
}

// The header whose value is the label that an ACK or NACK names.
pub(crate) fn label_header(version: Version) -> Header
    ensures { result ≡ label_header version }
{
    match version {
        Version::V11 => Header::MessageId,
        Version::V12 => Header::Id,
    }
}

fn subscription(usage: Use) -> Naming
    ensures { result ≡ subscription usage }
{
    Naming {
        header: Header::Id,
        kind: Kind::Subscriptions,
        usage,
    }
}

fn transaction(usage: Use) -> Naming
    ensures { result ≡ transaction usage }
{
    Naming {
        header: Header::Transaction,
        kind: Kind::Transactions,
        usage,
    }
}

// The subscription that an ACK or NACK of 1.1 names.
fn acknowledged_subscription() -> Naming
    ensures { result ≡ acknowledged_subscription }
{
    Naming {
        header: Header::Subscription,
        kind: Kind::Subscriptions,
        usage: Use::Need,
    }
}

// One id, or none.
fn only(first: Naming) -> Namings
    ensures { GivesNamings (naming_list first []) result }
{
    Namings {
        first,
        second: transaction(Use::Nothing),
    }
}

// The ids that an ACK or NACK names.
fn settling_namings(version: Version) -> Namings
    ensures { GivesNamings (namings version ACK) result }
{
    match version {
        Version::V11 => Namings {
            first: transaction(Use::Need),
            second: acknowledged_subscription(),
        },
        Version::V12 => only(transaction(Use::Need)),
    }
}

// The ids that a command names.
pub(crate) fn namings_of(version: Version, command: u32) -> Namings
    ensures { GivesNamings (namings_by version command) result }
{
    if command == commands::SUBSCRIBE {
        return only(subscription(Use::Enter));
    }
    if command == commands::UNSUBSCRIBE {
        return only(subscription(Use::Free));
    }
    if command == commands::BEGIN {
        return only(transaction(Use::Enter));
    }
    if (command == commands::COMMIT) | (command == commands::ABORT) {
        return only(transaction(Use::Free));
    }
    if command == commands::SEND {
        return only(transaction(Use::Need));
    }
    if settles(command) {
        return settling_namings(version);
    }
    only(transaction(Use::Nothing))
}

// Whether a use is of an id at all.
pub(crate) fn names_id(usage: Use) -> bool
    ensures { result ≡ names_id usage }
{
    match usage {
        Use::Nothing => false,
        Use::Need => true,
        Use::Enter => true,
        Use::Free => true,
    }
}

// Whether the command may come in the phase: not where the session is closed, nor a server's, nor before the opening, nor a second opening.
pub(crate) fn check_phase(phase: u8, command: u32) -> Result<(), Refusal>
    ensures { refused_number result ≡ phase_number phase command }
{
    if phase == Session::CLOSED {
        return Err(Refusal::Closed);
    }
    if is_from_server(command) {
        return Err(Refusal::FromServer);
    }
    if opens(command) {
        if phase == Session::FRESH {
            return Ok(());
        }
        return Err(Refusal::OutOfPhase);
    }
    if phase == Session::OPEN {
        return Ok(());
    }
    Err(Refusal::OutOfPhase)
}
