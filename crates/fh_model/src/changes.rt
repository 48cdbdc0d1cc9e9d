use crate::{Copies, FileMeta, Items, Names, NoMemory};

/// What stands at a place of a tree.
#[derive(Debug, Drop)]
pub enum Node {
    File(FileMeta),
    Folder { id: u64 },

    /// A point of a home at which the namespace `ns` is mounted.
    Mount { id: u64, ns: u64 },
}

/// One change of a namespace's tree.
#[derive(Debug, Drop)]
pub enum Change {
    /// The node stands at the names from now on. A file takes all under it away.
    Put { names: Names, node: Node },

    /// Nothing stands at the names or under them any more.
    Gone { names: Names },
}

/// The changes of a namespace, the oldest first.
pub type Changes = Items<Change>;

/// What stands at a key of a tree, with the names as they were written.
#[derive(Debug, Drop)]
pub struct Item {
    pub names: Names,
    pub node: Node,
}

impl Copies for Node {
    fn copy(&self) -> Result<Node, NoMemory> {
        match self {
            Node::File(meta) => {
                let meta = meta.copy()?;
                Ok(Node::File(meta))
            }
            Node::Folder { id } => Ok(Node::Folder { id: *id }),
            Node::Mount { id, ns } => Ok(Node::Mount { id: *id, ns: *ns }),
        }
    }
}

impl Copies for Change {
    fn copy(&self) -> Result<Change, NoMemory> {
        match self {
            Change::Put { names, node } => {
                let names = names.copy()?;
                let node = node.copy()?;
                Ok(Change::Put { names, node })
            }
            Change::Gone { names } => {
                let names = names.copy()?;
                Ok(Change::Gone { names })
            }
        }
    }
}

impl Copies for Item {
    fn copy(&self) -> Result<Item, NoMemory> {
        let names = self.names.copy()?;
        let node = self.node.copy()?;
        Ok(Item { names, node })
    }
}
