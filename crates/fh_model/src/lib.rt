//! The plain types of the host, and in specs/ the definitions of what it does.
//!
//! Nothing here reads, writes or keeps anything: a type is what a contract can name, and the definitions are what
//! the contracts of every other crate are told in.
#![tactic(auto)]

mod changes;
mod commands;
mod files;
mod items;
mod keys;
mod laws;
mod limits;
mod memory;
mod names;
mod paths;
mod pieces;
mod replies;
mod rows;
mod sessions;
mod state;
mod text;
mod verdicts;

pub use changes::{Change, Changes, Item, Node};
pub use commands::{Act, Cmd, Commit, Mode};
pub use files::{FileMeta, Revision};
pub use items::{Copies, Items, copy_all};
pub use keys::Key;
pub use laws::limits_are;
pub use limits::{
    BLOCK_BYTES, ID_DIGITS, LAST_SECOND, NAME_MAX_BYTES, NAMES_MAX, NAMESPACE_MAX_DIGITS,
    PATH_MAX_BYTES, REQUESTS_MAX, REV_MIN_DIGITS, SPENT_AT, TOKEN_MAX_BYTES, TOKEN_MIN_BYTES,
};
pub use memory::NoMemory;
pub use names::{Name, Names, Tags};
pub use paths::{Found, PathArg, Place};
pub use pieces::{Bytes32, Piece, Pieces};
pub use replies::{Entry, Refusal, Reply};
pub use rows::{Members, Row};
pub use sessions::{BlockPiece, BlockPieces, Session};
pub use state::{Namespace, Next, User};
pub use text::Text;
pub use verdicts::{Kind, Verdict};
