use crate::{Items, Text};

/// The numbers of the users who are members of a namespace, in the order of joining.
pub type Members = Items<u64>;

/// One row of a checkpoint.
#[derive(Debug, Drop)]
pub enum Row {
    /// The next numbers to be given, and the last moment in seconds.
    Counters {
        rev: u64,
        id: u64,
        session: u64,
        user: u64,
        namespace: u64,
        moment: u64,
    },

    /// A user with the number of its home namespace. User 1 has no token of its own in a new store.
    User {
        number: u64,
        home: u64,
        token: Option<Text>,
    },

    /// A namespace, whose journal holds the changes from `floor` to `length`.
    Namespace {
        number: u64,
        shared: bool,
        floor: u64,
        length: u64,
        members: Members,
    },
}
