use crate::{Names, Node};

/// Where something stands: a namespace, by its number, and the names from its root.
#[derive(Debug, Drop)]
pub struct Place {
    pub ns: u64,
    pub names: Names,
}

/// What the text of a path stands for, before it is looked up.
#[derive(Debug, Drop)]
pub enum PathArg {
    /// Names from the root of a user's view. The root has none.
    Names(Names),

    /// The number of an item, or 0, which no item has, where the text wrote none.
    Id(u64),

    /// The number of a revision, or 0, which none has, where the text wrote none.
    Rev(u64),

    /// The number of a namespace, and names from its root.
    Ns(u64, Names),
}

/// What a user's path leads to.
#[derive(Debug, Drop)]
pub struct Found {
    pub place: Place,

    /// What stands there. The root of a namespace, and it alone, is no node.
    pub node: Option<Node>,

    /// The names in the user's view.
    pub names: Names,
}
