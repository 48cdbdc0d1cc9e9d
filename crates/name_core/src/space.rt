ghost use Rattle.std.specs.Prelude.{◌≡◌, ◌<◌, ◌^◌, ◌++◌, [], true, IfOk};
ghost use Rattle.fh_model.specs.Rows.{namespace_row};
ghost use Rattle.fh_model.specs.State.{length_of, space_is_spent};
ghost use Rattle.fh_model.specs.TreeOrder.{is_in_order};
ghost use Rattle.fh_model.specs.Trees.{tree_of};

use crate::chunks::Chunks;
use crate::shared::Shared;
use crate::trees::tree_after;
use fh_model::{Change, Copies, Item, Members, NoMemory, Row, SPENT_AT};
use std::alloc::Global;
use std::marker::Model;

/// The number of members of a namespace at which it is spent.
const MEMBERS_SPENT_AT: usize = 1 << 31;

/// A namespace beside the tree that its changes make. Contracts see the namespace.
#[derive(Drop)]
pub(crate) struct Space {
    number: u64,
    shared: bool,
    floor: u64,
    changes: Chunks<Change>,
    members: Shared<Members>,
    tree: Vec<Shared<Item>>,
}

impl Model for Space {
    ghost use Rattle.std.specs.Prelude.{◌≡◌, []};
    ghost use Rattle.fh_model.specs.declared.state.Namespace.{Namespace};
    ghost use Rattle.fh_model.specs.Trees.{tree_after};

    ghost Value = { Namespace };

    ghost view = { λ space. record { number = space.number; shared = space.shared; floor = space.floor; changes = space.changes; members = space.members } };

    ghost invariant = { λ space. space.tree.items ≡ tree_after [] space.changes };
}

impl Space {
    /// The namespace without changes.
    pub(crate) fn new(
        alloc: Global,
        number: u64,
        shared: bool,
        floor: u64,
        members: Members,
    ) -> Result<Space, NoMemory>
        ensures { IfOk result (λ space. space ≡ record { number = number; shared = shared; floor = floor; changes = []; members = members }) }
    {
        let members = Shared::new(alloc, members)?;
        Ok(Space {
            number,
            shared,
            floor,
            changes: Chunks::empty(alloc)?,
            members,
            tree: Vec::new(alloc),
        })
    }

    pub(crate) fn number(&self) -> u64
        ensures { result ≡ self.now.number }
    {
        self.number
    }

    /// What stands in it, in the order of keys.
    pub(crate) fn tree(&self) -> &[Shared<Item>]
        ensures items { result.now ≡ tree_of self.now }
        ensures order { is_in_order result.now ≡ true }
    {
        &self.tree
    }

    pub(crate) fn is_spent(&self) -> bool
        ensures { result ≡ space_is_spent self.now }
    {
        let length = (self.floor as u128) + (self.changes.len() as u128);
        (SPENT_AT as u128) <= length || MEMBERS_SPENT_AT <= self.members.as_slice().len()
    }

    /// Its row, without its changes.
    pub(crate) fn row(&self) -> Result<Row, NoMemory>
        requires { length_of self.now < 2 ^ 64 }
        ensures { IfOk result (λ row. row ≡ namespace_row self.now) }
    {
        let members = (*self.members).copy()?;
        Ok(Row::Namespace {
            number: self.number,
            shared: self.shared,
            floor: self.floor,
            length: self.floor + self.changes.len() as u64,
            members,
        })
    }

    /// The namespace with more changes.
    pub(crate) fn grown(&self, changes: &[Shared<Change>]) -> Result<Space, NoMemory>
        ensures { IfOk result (λ space. space ≡ record self.now { changes = self.now.changes ++ changes.now }) }
    {
        let alloc = *self.tree.allocator();
        let tree = tree_after(alloc, self.tree(), changes)?;
        let members = self.members.copy()?;
        Ok(Space {
            number: self.number,
            shared: self.shared,
            floor: self.floor,
            changes: self.changes.with(changes)?,
            members,
            tree,
        })
    }
}
