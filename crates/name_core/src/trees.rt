//! Trees as lists in the order of their keys, in which a key is found by halving.
ghost use Rattle.std.specs.Prelude.{◌≡◌, ◌++◌, ◌∷◌, true, IfOk, OnOk, option_copied};
ghost use Rattle.std.specs.Ordering.{is_lt};
ghost use Rattle.fh_model.specs.KeyOrder.{key_cmp};
ghost use Rattle.fh_model.specs.Keys.{key_of};
ghost use Rattle.fh_model.specs.TreeOrder.{is_in_order};
ghost use Rattle.fh_model.specs.Trees.{item_at, behind, with_node, without, changed, tree_after};
ghost use Rattle.name_core.specs.TreeSides.{all_before, none_before};

use crate::keys::{compare, has_key, is_at_or_under};
use crate::shared::Shared;
use fh_model::{Change, Copies, Item, Name, Names, NoMemory, Node, copy_all};
use std::alloc::Global;

/// The items before the key of the names, and the others.
fn sides<'a>(tree: &'a [Shared<Item>], names: &[Name]) -> (&'a [Shared<Item>], &'a [Shared<Item>])
    requires order { is_in_order tree.now ≡ true }
    ensures whole { result.0.now ++ result.1.now ≡ tree.now }
    ensures front { all_before (key_of names.now) result.0.now ≡ true }
    ensures back { none_before (key_of names.now) result.1.now ≡ true }
    ensures order { is_in_order result.1.now ≡ true }
{
    let count = tree.partition_point(
        |item: &Shared<Item>| -> bool
            ensures { result ≡ is_lt (key_cmp (key_of item.now.names) (key_of names.entry.now)) }
        { compare(item.names.as_slice(), names).is_lt() },
    );
    (&tree[..count], &tree[count..])
}

/// What stands at the key of the names.
pub(crate) fn item_at<'a>(tree: &'a [Shared<Item>], names: &[Name]) -> Option<&'a Shared<Item>>
    requires order { is_in_order tree.now ≡ true }
    ensures { option_copied result ≡ item_at tree.now (key_of names.now) }
{
    let (_, back) = sides(tree, names);
    match back {
        [] => None,
        [item, ..] => {
            if has_key(item.names.as_slice(), names) {
                Some(item)
            } else {
                None
            }
        }
    }
}

/// The items behind the key of the names, of those that don't come before it.
fn behind<'a>(back: &'a [Shared<Item>], names: &[Name]) -> &'a [Shared<Item>]
    requires order { is_in_order back.now ≡ true }
    requires back { none_before (key_of names.now) back.now ≡ true }
    ensures { result.now ≡ behind (key_of names.now) back.now }
{
    match back {
        [] => back,
        [item, rest @ ..] => {
            if has_key(item.names.as_slice(), names) {
                rest
            } else {
                back
            }
        }
    }
}

/// The items that are neither at the key of the names nor under it, of those that don't come before it. Those under a
/// key stand right behind it.
fn past<'a>(back: &'a [Shared<Item>], names: &[Name]) -> &'a [Shared<Item>]
    requires order { is_in_order back.now ≡ true }
    requires back { none_before (key_of names.now) back.now ≡ true }
    ensures { result.now ≡ without (key_of names.now) back.now }
{
    let mut left = back;
    while let Some((item, rest)) = left.split_first() {
        if !is_at_or_under(item.names.as_slice(), names) {
            return left;
        }
        left = rest;
    }
    left
}

/// Puts a copy of each item at the end of the list.
fn put_all(items: &mut Vec<Shared<Item>>, more: &[Shared<Item>]) -> Result<(), NoMemory>
    ensures { OnOk result (items.new.items ≡ items.old.items ++ more.now) }
{
    for item in more {
        items.push(item.copy()?)?;
    }
    Ok(())
}

/// The node at the names between two lists of items.
fn around(
    alloc: Global,
    front: &[Shared<Item>],
    names: &Names,
    node: &Node,
    behind: &[Shared<Item>],
) -> Result<Vec<Shared<Item>>, NoMemory>
    ensures { IfOk result (λ items. items.items ≡ front.now ++ record { names = names.now; node = node.now } ∷ behind.now) }
{
    let mut items = Vec::with_capacity(alloc, front.len() + 1 + behind.len())?;
    put_all(&mut items, front)?;
    let item = Item {
        names: names.copy()?,
        node: node.copy()?,
    };
    items.push(Shared::new(alloc, item)?)?;
    put_all(&mut items, behind)?;
    Ok(items)
}

/// The tree with the node at the names, in the place of what stood there.
fn with_node(
    alloc: Global,
    tree: &[Shared<Item>],
    names: &Names,
    node: &Node,
) -> Result<Vec<Shared<Item>>, NoMemory>
    requires order { is_in_order tree.now ≡ true }
    ensures { IfOk result (λ items. items.items ≡ with_node names.now node.now tree.now) }
{
    let (front, back) = sides(tree, names.as_slice());
    let behind = behind(back, names.as_slice());
    around(alloc, front, names, node, behind)
}

/// The tree with the node at the names and nothing under it.
fn with_leaf(
    alloc: Global,
    tree: &[Shared<Item>],
    names: &Names,
    node: &Node,
) -> Result<Vec<Shared<Item>>, NoMemory>
    requires order { is_in_order tree.now ≡ true }
    ensures { IfOk result (λ items. items.items ≡ with_node names.now node.now (without (key_of names.now) tree.now)) }
{
    let (front, back) = sides(tree, names.as_slice());
    let past = past(back, names.as_slice());
    around(alloc, front, names, node, past)
}

/// The tree with nothing at the names or under them.
fn without(
    alloc: Global,
    tree: &[Shared<Item>],
    names: &[Name],
) -> Result<Vec<Shared<Item>>, NoMemory>
    requires order { is_in_order tree.now ≡ true }
    ensures { IfOk result (λ items. items.items ≡ without (key_of names.now) tree.now) }
{
    let (front, back) = sides(tree, names);
    let past = past(back, names);
    let mut items = Vec::with_capacity(alloc, front.len() + past.len())?;
    put_all(&mut items, front)?;
    put_all(&mut items, past)?;
    Ok(items)
}

fn changed(
    alloc: Global,
    change: &Change,
    tree: &[Shared<Item>],
) -> Result<Vec<Shared<Item>>, NoMemory>
    requires order { is_in_order tree.now ≡ true }
    ensures tree { IfOk result (λ items. items.items ≡ changed change.now tree.now) }
{
    match change {
        Change::Put { names, node } => match node {
            Node::File(_) => with_leaf(alloc, tree, names, node),
            Node::Folder { .. } => with_node(alloc, tree, names, node),
            Node::Mount { .. } => with_node(alloc, tree, names, node),
        },
        Change::Gone { names } => without(alloc, tree, names.as_slice()),
    }
}

/// The items after the changes, which are made one by one.
fn more_changed(
    alloc: Global,
    mut items: Vec<Shared<Item>>,
    changes: &[Shared<Change>],
) -> Result<Vec<Shared<Item>>, NoMemory>
    requires order { is_in_order items.items ≡ true }
    ensures { IfOk result (λ after. after.items ≡ tree_after items.items changes.now) }
{
    for change in changes {
        items = changed(alloc, change, &items)?;
    }
    Ok(items)
}

/// The tree after the changes.
pub(crate) fn tree_after(
    alloc: Global,
    tree: &[Shared<Item>],
    changes: &[Shared<Change>],
) -> Result<Vec<Shared<Item>>, NoMemory>
    requires order { is_in_order tree.now ≡ true }
    ensures { IfOk result (λ items. items.items ≡ tree_after tree.now changes.now) }
{
    match changes {
        [] => copy_all(alloc, tree),
        [first, rest @ ..] => {
            let items = changed(alloc, first, tree)?;
            more_changed(alloc, items, rest)
        }
    }
}
