// Sessions: versions, heart-beats, the clock, and one client's session.
#![tactic(auto)]

mod store; // ids in a flat store
pub mod delivery; // pending deliveries
mod value; // header values: accept-version, heart-beat and ack
mod clock; // time passed
pub mod commands; // their numbers
pub mod refusals; // what a session refuses, by number
mod command; // which ids a command names, and in which phase it may come
mod notes; // one walk over a header block: where the first value of each header is
mod locate; // what the headers of a frame say
mod step; // what a frame does to a session, decided before anything is changed
pub mod parts; // the parts of its record
pub mod session; // the session as a value
pub mod in_place; // the same calls on a session where it lies
