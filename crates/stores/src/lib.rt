// Flat stores of octets: rows compared, texts in places of one width, keys of places, and rows moved together. What the stores of sessions
// and of others share.
#![tactic(auto)]

pub mod same; // whether two rows are the same
pub mod places; // a text in a place, and 0 after it
pub mod keys; // numbers for places, to tell most of them apart
pub mod compaction; // rows that stay, moved together

pub use compaction::{Range, are_rows, keep_rows};
pub use keys::{are_apart, has_key, put_keys};
pub use places::{fill, is_zero, is_zero_from, octet_at};
pub use same::is_same;
