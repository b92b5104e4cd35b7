// What a session refuses, each with its number.
ghost use Rattle.std.specs.Prelude.{◌≡◌};
ghost use Rattle.sessions.specs.Refusals.{number_of};

#[derive(Clone, Copy)]
pub enum Refusal {
    BadVersions = 31, // accept-version is malformed
    NoVersion = 32, // no version is shared
    BadHeartBeat = 33, // heart-beat is malformed
    BadOffer = 34, // a session is not made
    Invalid = 38, // the session's record is invalid
    Malformed = 39, // the command is unknown or the header block malformed
    Closed = 40, // the session is closed
    FromServer = 41, // the command is a server's
    OutOfPhase = 42, // the session is not open, or is opened a second time
    Missing = 43, // a header that the command needs is missing
    BadId = 44, // an id is empty or too long
    Live = 45, // an id that is to be new is live
    NotLive = 46, // an id that is to be live is not
    Full = 47, // no place is free
    UnknownMode = 49, // an ack mode is unknown
    NotPending = 60, // the id of an ACK or NACK is no pending label
    AllPending = 61, // no delivery more can be pending
    BadLabel = 62, // a label is empty, too long, or pending already
    NotOpen = 63, // a delivery is recorded where the session is not open
    NoSubscription = 64, // a delivery is recorded for a subscription that is not live
}

impl Refusal {
    pub fn number(self) -> u32
        ensures { result ≡ number_of self }
    {
        self as u32
    }
}

// The record of a session is invalid (38): of questions about it, which refuse nothing else.
#[derive(Clone, Copy)]
pub struct InvalidRecord;

impl InvalidRecord {
    pub fn number(self) -> u32
        ensures { result ≡ 38 }
    {
        Refusal::Invalid.number()
    }
}
