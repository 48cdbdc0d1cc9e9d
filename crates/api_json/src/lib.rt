//! JSON in and out: the arguments of requests, and the bodies of replies.
//!
//! [`read`] is one engine over the table of routes and fields in `specs/Fields.antt`. An argument is what the bytes say
//! as `serde_json` reads them: UTF-8, one value of at most 127 levels, the last of equal keys. No bytes and `null` count
//! as an object without members, and so does each other value that is no object. The fields of the route are then
//! tested in their order: a field that is `null` counts as absent, an absent one takes its default where it has one, and
//! a field that the route doesn't have is not looked at.
//!
//! [`write`] gives the compact JSON of an answer, with keys in byte order (`specs/Answers.antt`), and [`complaint`] the
//! plain text of a reply to an argument that was not read.
//!
//! What isn't said: whether a path is well formed or finds anything, and the digits of a float in a field that isn't
//! looked at. A number too large for a float has no value, so the whole argument has none.
#![tactic(auto)]

mod complaints;
mod entries;
mod fields;
mod modes;
mod optionals;
mod reading;
mod refusals;
mod requests;
mod rules;
mod texts;
mod values;
mod writing;

pub use complaints::{ArgumentFault, complaint};
pub use fields::FieldName;
pub use reading::{ReadFault, read};
pub use writing::write;
