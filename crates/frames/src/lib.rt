// Frames: the grammar of items, parsing, decoding and encoding.
#![tactic(auto)]

pub mod limits; // the sizes of frames
pub mod version; // the protocol versions
pub mod commands; // the numbers of the commands
mod word; // the words of commands, and what a command asks
mod state; // what of an item has been read, in numbers
mod head; // the octets of a head
mod scan; // one octet of an item
mod valid; // whether a state is one that a run can leave
mod ahead; // plain stretches
mod lines; // header lines passed at once
mod pass; // octets passed at a go
mod run; // a row of octets
pub mod parse; // the reply
pub mod stream; // octets that arrive in pieces
mod layout; // where the parts of a head stand
pub mod decode; // a frame's entries as a header block
mod put; // a frame's parts, written
pub mod encode; // a frame's octets from its parts
pub mod exports; // calls for C
pub mod stream_calls; // the stream parser for C
