ghost use Rattle.std.specs.Prelude.{◌≡◌, ◌↔◌, IfOk, IsTrue, length, map};
ghost use Rattle.fh_model.specs.Keys.{key_of};
ghost use Rattle.fh_model.specs.KeyOrder.{IsUnder, is_under, key_cmp};

use crate::{Copies, Items, Name, NoMemory, Text};
use std::alloc::Global;
use std::cmp::Ordering;
use std::marker::Model;

/// The folded names of a place, from the top. Places are compared by them.
#[derive(Debug, Drop)]
pub struct Key {
    names: Items<Text>,
}

impl Model for Key {
    ghost use Rattle.std.specs.Prelude.{List, ℕ};

    ghost Value = { List (List ℕ) };

    ghost view = { λ key. key.names };
}

impl Key {
    /// The key of these folded names, which takes no memory.
    pub fn new(names: Items<Text>) -> Key
        ensures { result ≡ names }
    {
        Key { names }
    }

    /// The key of names as they were written.
    pub fn of(alloc: Global, names: &[Name]) -> Result<Key, NoMemory>
        ensures { IfOk result (λ key. key ≡ key_of names.now) }
    {
        let mut folded = Vec::new(alloc);
        for name in names {
            folded.push(name.folded.copy()?)?;
        }
        Ok(Key::new(Items::new(folded)))
    }

    /// The folded names in order.
    pub fn as_slice(&self) -> &[Text]
        ensures { result.now ≡ self.now }
    {
        self.names.as_slice()
    }

    /// The order of keys: name by name, by the bytes of each, a key before the keys under it.
    pub fn cmp(&self, other: &Key) -> Ordering
        ensures { result ≡ key_cmp self.now other.now }
    {
        compare(self.as_slice(), other.as_slice())
    }

    /// Whether `base` is a proper prefix of this key, so that this place stands under that one.
    #[tactic(auto, using(crate::proofs::KeyLaws::under_by_test))]
    pub fn is_under(&self, base: &Key) -> bool
        ensures test { result ≡ is_under self.now base.now }
        ensures prefix { IsTrue result ↔ IsUnder self.now base.now }
    {
        is_under(self.as_slice(), base.as_slice())
    }
}

impl Copies for Key {
    fn copy(&self) -> Result<Key, NoMemory> {
        let names = self.names.copy()?;
        Ok(Key { names })
    }
}

fn compare(names: &[Text], others: &[Text]) -> Ordering
    ensures { result ≡ key_cmp names.now others.now }
{
    for (name, other) in names.iter().zip(others) {
        let order = name.as_bytes().cmp(other.as_bytes());
        if order != Ordering::Equal {
            return order;
        }
    }
    names.len().cmp(&others.len())
}

fn is_under(names: &[Text], base: &[Text]) -> bool
    ensures { result ≡ is_under names.now base.now }
{
    if names.len() <= base.len() {
        return false;
    }
    for (name, first) in names.iter().zip(base) {
        if name.as_bytes() != first.as_bytes() {
            return false;
        }
    }
    true
}
