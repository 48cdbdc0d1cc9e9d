//! What of the namespaces a user sees, and the place that a path gives.
ghost use Rattle.std.specs.Prelude.{◌≡◌, ◌==◌, ◌++◌, true, IfOk, OnOk, drop, find, option_copied};
ghost use Rattle.fh_model.specs.Keys.{key_of};
ghost use Rattle.fh_model.specs.Nodes.{id_of, mounts};
ghost use Rattle.fh_model.specs.PathRule.{path_of};
ghost use Rattle.fh_model.specs.Places.{view_of, seen_from, names_in_view, mount_above, is_below_file, place_over, place_behind, place_from, place_of_id, place_of};
ghost use Rattle.fh_model.specs.TreeOrder.{is_in_order};

use crate::machine::Machine;
use crate::nodes::{id_of, is_file, mounted_at, mounts};
use crate::shared::Shared;
use crate::trees::item_at;
use fh_model::{Copies, Item, Items, Name, Names, NoMemory, Node, PathArg, Place, Text, copy_all};
use fold_path::{PathFault, parse};
use std::alloc::Global;

/// What a text stands for, or none where it is malformed.
pub(crate) fn path_of(alloc: Global, text: &Text) -> Result<Option<PathArg>, NoMemory>
    ensures { IfOk result (λ arg. arg ≡ path_of text.now) }
{
    match parse(alloc, text) {
        Ok(arg) => Ok(Some(arg)),
        Err(PathFault::Malformed) => Ok(None),
        Err(PathFault::NoMemory) => Err(NoMemory),
    }
}

fn names_at(alloc: Global, names: &[Name]) -> Result<Names, NoMemory>
    ensures { IfOk result (λ copy. copy ≡ names.now) }
{
    Ok(Items::new(copy_all(alloc, names)?))
}

fn put_names(list: &mut Vec<Name>, names: &[Name]) -> Result<(), NoMemory>
    ensures { OnOk result (list.new.items ≡ list.old.items ++ names.now) }
{
    for name in names {
        list.push(name.copy()?)?;
    }
    Ok(())
}

/// The names behind the first ones, none where there are not so many.
fn names_behind(names: &[Name], count: usize) -> &[Name]
    ensures { result.now ≡ drop count names.now }
{
    if count <= names.len() {
        &names[count..]
    } else {
        &[]
    }
}

/// The mount point at a proper prefix of the names.
fn mount_above<'a>(tree: &'a [Shared<Item>], names: &[Name]) -> Option<&'a Shared<Item>>
    requires order { is_in_order tree.now ≡ true }
    ensures { option_copied result ≡ mount_above tree.now names.now }
{
    for count in 0..names.len() {
        if let Some(item) = item_at(tree, &names[..count]) {
            if mounted_at(&item.node).is_some() {
                return Some(item);
            }
        }
    }
    None
}

/// Whether a proper prefix of the names is a file.
pub(crate) fn is_below_file(tree: &[Shared<Item>], names: &[Name]) -> bool
    requires order { is_in_order tree.now ≡ true }
    ensures { result ≡ is_below_file tree.now names.now }
{
    for count in 0..names.len() {
        if let Some(item) = item_at(tree, &names[..count]) {
            if is_file(&item.node) {
                return true;
            }
        }
    }
    false
}

fn item_with_id(tree: &[Shared<Item>], id: u64) -> Option<&Shared<Item>>
    ensures { option_copied result ≡ find (λ item. id_of item.node == id) tree.now }
{
    tree.iter().find(|item| id_of(&item.node) == id)
}

fn mount_of(tree: &[Shared<Item>], number: u64) -> Option<&Shared<Item>>
    ensures { option_copied result ≡ find (λ item. mounts number item.node) tree.now }
{
    tree.iter().find(|item| mounts(number, &item.node))
}

/// The place of names that lead over a node, whose own names are these.
fn place_over(
    alloc: Global,
    number: u64,
    names: &[Name],
    above: &[Name],
    node: &Node,
) -> Result<Place, NoMemory>
    ensures { IfOk result (λ place. place ≡ place_over number names.now above.now node.now) }
{
    match node {
        Node::File(_) => Ok(Place {
            ns: number,
            names: names_at(alloc, names)?,
        }),
        Node::Folder { .. } => Ok(Place {
            ns: number,
            names: names_at(alloc, names)?,
        }),
        Node::Mount { ns, .. } => Ok(Place {
            ns: *ns,
            names: names_at(alloc, names_behind(names, above.len()))?,
        }),
    }
}

impl Machine {
    /// The names at which a namespace stands in the view of the user with this home, where the user sees it.
    pub(crate) fn view_of(&self, home: u64, number: u64) -> Option<&[Name]>
        ensures { option_copied result ≡ view_of self.now home number }
    {
        if number == home {
            return Some(&[]);
        }
        match mount_of(self.tree(home), number) {
            Some(item) => Some(item.names.as_slice()),
            None => None,
        }
    }

    /// The numbers of all namespaces that the user with this home sees.
    fn seen_from(&self, home: u64) -> Result<Vec<u64>, NoMemory>
        ensures { IfOk result (λ numbers. numbers.items ≡ seen_from self.now home) }
    {
        let mut numbers = Vec::new(self.alloc());
        numbers.push(home)?;
        for item in self.tree(home) {
            if let Some(number) = mounted_at(&item.node) {
                numbers.push(number)?;
            }
        }
        Ok(numbers)
    }

    /// The names of a place in the view of the user with this home.
    pub(crate) fn names_in_view(
        &self,
        home: u64,
        number: u64,
        names: &[Name],
    ) -> Result<Names, NoMemory>
        ensures { IfOk result (λ list. list ≡ names_in_view self.now home number names.now) }
    {
        let view = self.view_of(home, number).unwrap_or(&[]);
        let mut list = copy_all(self.alloc(), view)?;
        put_names(&mut list, names)?;
        Ok(Items::new(list))
    }

    fn place_from(&self, number: u64, names: &[Name]) -> Result<Place, NoMemory>
        ensures { IfOk result (λ place. place ≡ place_from self.now number names.now) }
    {
        match mount_above(self.tree(number), names) {
            Some(item) => place_over(
                self.alloc(),
                number,
                names,
                item.names.as_slice(),
                &item.node,
            ),
            None => Ok(Place {
                ns: number,
                names: names_at(self.alloc(), names)?,
            }),
        }
    }

    /// Where the item with this id stands, in the first of the namespaces that has it.
    fn place_of_id(&self, id: u64, numbers: &[u64]) -> Result<Option<Place>, NoMemory>
        ensures { IfOk result (λ place. place ≡ place_of_id self.now id numbers.now) }
    {
        for number in numbers {
            if let Some(item) = item_with_id(self.tree(*number), id) {
                let names = item.names.copy()?;
                return Ok(Some(Place { ns: *number, names }));
            }
        }
        Ok(None)
    }

    /// The place that a path gives to the user with this home, if it gives one.
    pub(crate) fn place_of(&self, home: u64, arg: &PathArg) -> Result<Option<Place>, NoMemory>
        ensures { IfOk result (λ place. place ≡ place_of self.now home arg.now) }
    {
        match arg {
            PathArg::Names(names) => Ok(Some(self.place_from(home, names.as_slice())?)),
            PathArg::Id(id) => self.place_of_item(home, *id),
            PathArg::Rev(_) => Ok(None),
            PathArg::Ns(number, names) => self.place_in(home, *number, names.as_slice()),
        }
    }

    fn place_of_item(&self, home: u64, id: u64) -> Result<Option<Place>, NoMemory>
        ensures { IfOk result (λ place. place ≡ place_of self.now home (PathArg.Id id)) }
    {
        if id == 0 {
            return Ok(None);
        }
        let numbers = self.seen_from(home)?;
        self.place_of_id(id, &numbers)
    }

    fn place_in(&self, home: u64, number: u64, names: &[Name]) -> Result<Option<Place>, NoMemory>
        ensures { IfOk result (λ place. place ≡ place_of self.now home (PathArg.Ns number names.now)) }
    {
        if self.view_of(home, number).is_none() {
            return Ok(None);
        }
        Ok(Some(self.place_from(number, names)?))
    }
}
