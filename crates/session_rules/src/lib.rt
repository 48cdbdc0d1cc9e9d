//! The rules of a connection: what each request comes to, and what it is told.
//!
//! `specs/Decisions.antt` is the order of refusals as one function of the admin word, a state of the machine, a head and
//! a body, and `specs/Connection.antt` says what a whole connection is told and what the history gains by it. The calls
//! here are the pure parts of that: [`call_of`] and [`user_of`] decide by the head, [`wish_of`] by the argument and the
//! content, and the others write replies. Nothing here reads or writes a connection, or lets a command enter.
//!
//! An upload's data are the content of its request (`Act::data_in`). A download is told by the look that names the file's
//! version ([`load_of`]): its head is written here ([`load_head`]), and the bytes behind it are those of the version's
//! pieces in the block file as the requests before made it.
#![tactic(auto)]

mod asking;
mod deciding;
mod loading;
mod looking;
mod replying;
mod wishing;

pub use deciding::{Caller, HeadFault, call_of, user_of};
pub use loading::{Load, load_head, load_of};
pub use looking::{Form, act_answer, form_of, look_answer};
pub use replying::{
    answer_reply, bad_request_reply, body_too_large_reply, complaint_reply, fault_reply,
    head_too_large_reply, interim,
};
pub use wishing::{Wish, wish_of};
