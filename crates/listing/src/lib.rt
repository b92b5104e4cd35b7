// For programs: streams, listed, a line for each item, rewritten, or replayed with a session; and the reading of calls.
#![tactic(auto)]

pub mod line; // one line of a listing
mod buffers; // what was read of a stream, and what is laid out
pub mod stream; // a whole stream, listed
pub mod rewrite; // a whole stream, decoded and encoded again
pub mod replay; // a whole stream, given to a session
pub mod calls; // calls that programs read
pub mod arguments; // arguments that programs are given
