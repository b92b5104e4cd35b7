// What the headers of a frame say, by the notes of its block.
ghost use Rattle.std.specs.Prelude.{◌≡◌, ℕ, not, List};
ghost use Rattle.headers.specs.Block.{entries, listed};
ghost use Rattle.frames.specs.Grammar.{ACK};
ghost use Rattle.sessions.specs.Headers.{has as has_header, needed, needed_by, mode_asked};
ghost use Rattle.sessions.specs.Calls.{lacks_any, client_versions, client_heart_beats, acceptance_of};
ghost use Rattle.sessions.specs.Reads.{versions_say, heart_beats_say, mode_says};
ghost use Rattle.sessions.specs.Notes.{Locates, AllNoted};

use crate::command::Header;
use crate::commands;
use crate::notes::{Located, Notes};
use crate::parts::SubscriptionStore;
use crate::session::Acceptance;
use crate::value::Beats;
use frames::version::Version;

// Where a header's first value is in the block that the notes are of, if it has one.
pub(crate) fn locate(notes: Notes, block: &[u8], header: Header) -> Option<Located>
    requires { AllNoted block.now notes }
    ensures { Locates block.now header result }
{
    crate::notes::locate(notes, header)
}

// Whether a header is missing.
fn lacks(notes: Notes, header: Header) -> bool
    ensures { (block : List ℕ) → AllNoted block notes → result ≡ not (has_header header (listed (entries block))) }
{
    crate::notes::locate(notes, header).is_none()
}

// Whether a header that an ACK or NACK needs is missing.
fn lacks_named(version: Version, notes: Notes) -> bool
    ensures { (block : List ℕ) → AllNoted block notes → result ≡ lacks_any (needed version ACK) (listed (entries block)) }
{
    match version {
        Version::V11 => lacks(notes, Header::Subscription) | lacks(notes, Header::MessageId),
        Version::V12 => lacks(notes, Header::Id),
    }
}

// Whether a header that the command needs is missing.
pub(crate) fn lacks_needed(version: Version, command: u32, notes: Notes) -> bool
    ensures { (block : List ℕ) → AllNoted block notes → result ≡ lacks_any (needed_by version command) (listed (entries block)) }
{
    if crate::command::opens(command) {
        return lacks(notes, Header::AcceptVersion) | lacks(notes, Header::Host);
    }
    if command == commands::SEND {
        return lacks(notes, Header::Destination);
    }
    if command == commands::SUBSCRIBE {
        return lacks(notes, Header::Destination) | lacks(notes, Header::Id);
    }
    if command == commands::UNSUBSCRIBE {
        return lacks(notes, Header::Id);
    }
    if (command == commands::BEGIN)
        | ((command == commands::COMMIT) | (command == commands::ABORT))
    {
        return lacks(notes, Header::Transaction);
    }
    if crate::command::settles(command) {
        return lacks_named(version, notes);
    }
    false
}

// The versions that the client has; none where it does not say, or they are malformed.
pub(crate) fn client_versions(notes: Notes, block: &[u8]) -> Option<[bool; 3]>
    requires { AllNoted block.now notes }
    ensures { versions_say result ≡ client_versions (listed (entries block.now)) }
{
    let l = locate(notes, block, Header::AcceptVersion)?;
    crate::value::read_versions(&block[l.start..l.end])
}

// The client's heart-beats; 0 and 0 where it does not say.
pub(crate) fn client_heart_beats(notes: Notes, block: &[u8]) -> Option<Beats>
    requires { AllNoted block.now notes }
    ensures { heart_beats_say result ≡ client_heart_beats (listed (entries block.now)) }
{
    let Some(l) = locate(notes, block, Header::HeartBeat) else {
        return Some(Beats { sends: 0, wants: 0 });
    };
    crate::value::read_heart_beats(&block[l.start..l.end])
}

// The ack mode that a SUBSCRIBE asks for; auto where it does not say.
pub(crate) fn mode_asked(notes: Notes, block: &[u8]) -> Option<u8>
    requires { AllNoted block.now notes }
    ensures { mode_says result ≡ mode_asked (listed (entries block.now)) }
{
    let Some(l) = locate(notes, block, Header::Ack) else {
        return Some(SubscriptionStore::AUTO);
    };
    crate::value::read_mode(&block[l.start..l.end])
}

// What an accepted frame is answered with.
pub(crate) fn acceptance(command: u32, notes: Notes) -> Acceptance
    ensures { (block : List ℕ) → AllNoted block notes → result ≡ acceptance_of command (listed (entries block)) }
{
    Acceptance {
        receipt: !crate::command::opens(command) & !lacks(notes, Header::Receipt),
        later_destinations: crate::notes::later(notes, Header::Destination),
        later_ids: crate::notes::later(notes, Header::Id),
        later_transactions: crate::notes::later(notes, Header::Transaction),
    }
}
