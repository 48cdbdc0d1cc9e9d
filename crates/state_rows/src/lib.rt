//! Rows as bytes: the body of a journal record that carries one row of a checkpoint.
//!
//! | kind | row | fields |
//! |---|---|---|
//! | 128 | counters | next rev, next id, next session, next user, next namespace and last moment, each a `u64` |
//! | 129 | user | number `u64`, home `u64`, token text that may be absent |
//! | 130 | namespace | number `u64`, shared truth value, floor `u64`, length `u64`, list of members, each a `u64` |
//!
//! A row begins with 1 byte, its kind. Numbers have the highest byte first; how a text, a truth value, a field that
//! may be absent or a list is spelled, `byte_formats` says. The last moment is any `u64`: whether it is one that a
//! clock tells, the reader of a checkpoint decides.
//!
//! A row has at most one spelling. `decode_row` gives back what `encode_row` wrote, and gives nothing else: where the
//! bytes are no spelling it names the first byte with which no spelling begins. Whether rows stand for a state
//! together is not decided here.
#![tactic(auto)]

mod kinds;
mod reading;
mod spelling;
mod writing;

pub use reading::decode_row;
pub use spelling::has_spelling;
pub use writing::encode_row;
