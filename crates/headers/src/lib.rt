// Header text and escapes, decimal numbers, and the header block: the lowest layer.
#![tactic(auto)]

pub mod octets; // rows of octets
pub mod plain; // stretches of plain octets
pub mod utf8; // characters of UTF-8
pub mod text; // raw header text, decoded and encoded
pub mod decimal; // decimal numbers
pub mod block; // the header block
pub mod record; // one entry record, from raw text
pub mod line; // one raw header line, from an entry

pub use block::{FirstValue, Lengths, Malformed, Span, entry_at, find, is_valid};
pub use decimal::{decimal_length, read_decimal, write_decimal};
pub use line::{
    LINE_MAX, LineError, TEXT_MAX, Unwritable, entry_length, line_length, write_encoded, write_line,
};
pub use octets::{TooShort, copy, equal};
pub use plain::{Stops, calm_from, plain_span, stretch};
pub use record::{Known, write_decoded, write_known};
pub use text::{
    Field, Style, decoded_length, encoded_length, is_letter, is_open, is_raw, is_stop, is_writable,
};
pub use utf8::{is_utf8, missing_after, utf8_next, utf8_owes, wide_span};
