//! Where a path writes: the names as the tree shows them, and the folders that are missed above.
ghost use Rattle.std.specs.Prelude.{◌≡◌, ◌+◌, ◌^◌, ◌≤◌, ◌++◌, ◌∷◌, [], true, IfOk, OnOk, Some, if◌then◌else◌, is_none, length, option_copied};
ghost use Rattle.fh_model.specs.declared.changes.Change.TheVariants.{Put};
ghost use Rattle.fh_model.specs.declared.changes.Node.TheVariants.{File};
ghost use Rattle.fh_model.specs.Keys.{key_of};
ghost use Rattle.fh_model.specs.Folders.{folders};
ghost use Rattle.fh_model.specs.TreeOrder.{is_in_order};
ghost use Rattle.fh_model.specs.Trees.{item_at};
ghost use Rattle.fh_model.specs.WritePlaces.{write_place, name_at, shown_in, missed_above};

use crate::machine::Machine;
use crate::shared::Shared;
use crate::trees::item_at;
use fh_model::{
    Change, Copies, FileMeta, Item, Items, Name, Names, NoMemory, Node, PathArg, Place, copy_all,
};
use std::alloc::Global;

/// The name, or the last name of the item that stands there.
fn name_at(item: Option<&Shared<Item>>, name: &Name) -> Result<Name, NoMemory>
    ensures { IfOk result (λ shown. shown ≡ name_at (option_copied item.entry) name.now) }
{
    match item {
        None => name.copy(),
        Some(item) => item.names.as_slice().last().unwrap_or(name).copy(),
    }
}

/// The names, each as the tree shows it where the tree holds it.
pub(crate) fn shown_in(
    alloc: Global,
    tree: &[Shared<Item>],
    names: &[Name],
) -> Result<Names, NoMemory>
    requires order { is_in_order tree.now ≡ true }
    ensures { IfOk result (λ shown. shown ≡ shown_in tree.now names.now) }
{
    let mut shown = Vec::new(alloc);
    for index in 0..names.len() {
        let item = item_at(tree, &names[..index + 1]);
        shown.push(name_at(item, &names[index])?)?;
    }
    Ok(Items::new(shown))
}

fn put_if_missed(
    missed: &mut Vec<Names>,
    tree: &[Shared<Item>],
    prefix: &[Name],
) -> Result<(), NoMemory>
    requires order { is_in_order tree.now ≡ true }
    ensures { OnOk result (missed.new.items ≡ missed.old.items ++ (if is_none (item_at tree.now (key_of prefix.now)) then prefix.now ∷ [] else [])) }
{
    if item_at(tree, prefix).is_none() {
        let names = copy_all(*missed.allocator(), prefix)?;
        missed.push(Items::new(names))?;
    }
    Ok(())
}

/// The proper prefixes of the names at which the tree holds nothing, from the top.
pub(crate) fn missed_above(
    alloc: Global,
    tree: &[Shared<Item>],
    names: &[Name],
) -> Result<Vec<Names>, NoMemory>
    requires order { is_in_order tree.now ≡ true }
    ensures { IfOk result (λ missed. missed.items ≡ missed_above tree.now names.now) }
{
    let mut missed = Vec::new(alloc);
    for count in 1..names.len() {
        put_if_missed(&mut missed, tree, &names[..count])?;
    }
    Ok(missed)
}

/// A folder at each of the places, with the ids from this one on.
pub(crate) fn folders(
    alloc: Global,
    id: u64,
    places: &[Names],
) -> Result<Vec<Shared<Change>>, NoMemory>
    requires { id + length places.now ≤ 2 ^ 63 }
    ensures { IfOk result (λ changes. changes.items ≡ folders id places.now) }
{
    let mut changes = Vec::new(alloc);
    let mut next = id;
    for names in places {
        let names = names.copy()?;
        let change = Change::Put {
            names,
            node: Node::Folder { id: next },
        };
        changes.push(Shared::new(alloc, change)?)?;
        next += 1;
    }
    Ok(changes)
}

/// A folder at each of the places that are missed, with the ids from this one on, and the file at the names.
pub(crate) fn folders_and_file(
    alloc: Global,
    id: u64,
    missed: &[Names],
    names: &Names,
    meta: &FileMeta,
) -> Result<Vec<Shared<Change>>, NoMemory>
    requires { id + length missed.now ≤ 2 ^ 63 }
    ensures { IfOk result (λ changes. changes.items ≡ folders id missed.now ++ Put names.now (File meta.now) ∷ []) }
{
    let names = names.copy()?;
    let meta = meta.copy()?;
    let change = Change::Put {
        names,
        node: Node::File(meta),
    };
    let change = Shared::new(alloc, change)?;
    let mut changes = folders(alloc, id, missed)?;
    changes.push(change)?;
    Ok(changes)
}

impl Machine {
    /// The place that a path gives for writing, if it gives one. The root of the view is none.
    pub(crate) fn write_place(
        &self,
        home: u64,
        arg: &Option<PathArg>,
    ) -> Result<Option<Place>, NoMemory>
        ensures { IfOk result (λ place. place ≡ write_place self.now home arg.now) }
    {
        let Some(arg) = arg else {
            return Ok(None);
        };
        if let PathArg::Names(names) = arg {
            if names.as_slice().is_empty() {
                return Ok(None);
            }
        }
        self.place_of(home, arg)
    }
}
