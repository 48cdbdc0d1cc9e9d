//! What a client may ask of the host, and what it is told: routes, requests, answers and the texts of moments.
//!
//! The first three are plain types, and the table of routes in `specs/Routes.antt` is their definition. A route that
//! comes later is a row of that table, a variant of [`Route`] and one of [`Request`]. How requests and answers are
//! written as JSON isn't said here.
//!
//! [`stamp`] and [`read_stamp`] write and read moments as `2023-11-14T22:13:20Z`. What a moment's text is, is said by
//! counting years and months from 1970 on.
#![tactic(auto)]

mod answer;
mod calendar;
mod request;
mod route;
mod stamps;

pub use answer::Answer;
pub use request::Request;
pub use route::Route;
pub use stamps::{read_stamp, stamp};
