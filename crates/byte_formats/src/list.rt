ghost use Rattle.std.specs.Prelude.{◌≡◌, ◌↔◌, ◌++◌, ◌<◌, ◌^◌, true, length, IsTrue, OnOk};
ghost use Rattle.std.specs.List.{flat_map, All, AllByRecursion};
ghost use Rattle.byte_formats.specs.Formats.{times_at};
ghost use Rattle.byte_formats.specs.Fields.{n32};
ghost use Rattle.byte_formats.specs.Lists.{many_at};
ghost use Rattle.byte_formats.specs.Given.{Gives};

use crate::{Field, Stop};
use fh_model::{Items, NoMemory};
use std::alloc::Global;

fn items_at<T: Field>(alloc: Global, count: u32, bytes: &[u8]) -> Result<(Vec<T>, &[u8]), Stop>
    ensures { Gives (λ x. (x.0.items, x.1.now)) result (times_at T.reads count bytes.now) }
{
    let mut items = Vec::new(alloc);
    let mut rest = bytes;
    for _ in 0..count {
        let (item, after) = T::read(alloc, rest)?;
        items.push(item)?;
        rest = after;
    }
    Ok((items, rest))
}

fn put_items<T: Field>(items: &[T], out: &mut Vec<u8>) -> Result<(), NoMemory>
    requires { AllByRecursion T.fits items.now }
    ensures { OnOk result (out.new.items ≡ out.old.items ++ flat_map T.spells items.now) }
{
    for item in items {
        item.put(out)?;
    }
    Ok(())
}

fn have_spellings<T: Field>(items: &[T]) -> bool
    ensures short { IsTrue result ↔ All T.is_short items.now }
    ensures fit { IsTrue result → All T.fits items.now }
{
    for item in items {
        if !item.has_spelling() {
            return false;
        }
    }
    true
}

impl<T: Field> Field for Items<T> {
    ghost spells = { λ items. n32.spell (length items) ++ flat_map T.spells items };

    ghost fits = { λ items. (length items < 2 ^ 32) × AllByRecursion T.fits items };

    ghost reads = { many_at T.reads };

    ghost is_short = { λ items. (length items < 2 ^ 32) × All T.is_short items };

    ghost asks_memory = { true };

    fn read(alloc: Global, bytes: &[u8]) -> Result<(Items<T>, &[u8]), Stop> {
        let (count, rest) = u32::read(alloc, bytes)?;
        let (items, rest) = items_at(alloc, count, rest)?;
        Ok((Items::new(items), rest))
    }

    fn put(&self, out: &mut Vec<u8>) -> Result<(), NoMemory> {
        let items = self.as_slice();
        (items.len() as u32).put(out)?;
        put_items(items, out)
    }

    #[tactic(auto, using(std::proofs::lemmas::List::Elements::recursion_from_All))]
    fn has_spelling(&self) -> bool {
        let items = self.as_slice();
        items.len() <= u32::MAX as usize && have_spellings(items)
    }
}
