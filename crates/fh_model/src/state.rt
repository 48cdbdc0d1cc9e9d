use crate::{Changes, Copies, Members, NoMemory, Text};

/// A user of the host.
#[derive(Debug, Drop)]
pub struct User {
    pub number: u64,

    /// The number of the namespace that is the user's own.
    pub home: u64,
    pub token: Option<Text>,
}

/// A namespace, by the changes of its tree from the floor on.
#[derive(Debug, Drop)]
pub struct Namespace {
    pub number: u64,

    /// Whether it can be mounted by its members. A home is not shared, and has none.
    pub shared: bool,

    /// The position of the first change that is kept.
    pub floor: u64,
    pub changes: Changes,
    pub members: Members,
}

/// The next number of each kind to be given.
#[derive(Clone, Copy, Debug, PartialEq, Eq)]
pub struct Next {
    pub rev: u64,
    pub id: u64,
    pub session: u64,
    pub user: u64,
    pub namespace: u64,
}

impl Copies for User {
    fn copy(&self) -> Result<User, NoMemory> {
        let token = match &self.token {
            None => None,
            Some(text) => Some(text.copy()?),
        };
        Ok(User { token, ..*self })
    }
}

impl Copies for Namespace {
    fn copy(&self) -> Result<Namespace, NoMemory> {
        let changes = self.changes.copy()?;
        let members = self.members.copy()?;
        Ok(Namespace {
            changes,
            members,
            ..*self
        })
    }
}
