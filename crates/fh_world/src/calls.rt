ghost use Rattle.std.specs.Prelude.{◌≡◌, ◌==◌, ◌↔◌, ◌+◌, ◌-◌, ◌^◌, ◌++◌, [], min, IsTrue, OnOk, IsErr};
ghost use Rattle.std.specs.List.{list_any};
ghost use Rattle.fh_world.specs.Causes.{HasCause, CountsOnce};

use crate::Failed;
use crate::faults::fault;
use fh_model::NoMemory;
use std::alloc::Global;

/// The calls made on a form in memory: how many, which of them are to fail, and how many have failed.
#[derive(Drop)]
pub(crate) struct Calls {
    made: u64,
    pub(crate) failing: Vec<u64>,
    pub(crate) faults: u64,
}

impl Calls {
    /// No call yet, and none that is to fail.
    pub(crate) fn new(alloc: Global) -> Calls
        ensures made { result.made ≡ 0 }
        ensures faults { result.faults ≡ 0 }
        ensures failing { result.failing.items ≡ [] }
    {
        Calls {
            made: 0,
            failing: Vec::new(alloc),
            faults: 0,
        }
    }

    /// Lets the calls with these numbers fail too, the first call being number 1.
    pub(crate) fn fail(&mut self, numbers: &[u64]) -> Result<(), NoMemory>
        ensures failing { OnOk result (self.new.failing.items ≡ self.old.failing.items ++ numbers.now) }
        ensures faults { self.new.faults ≡ self.old.faults }
        ensures made { self.new.made ≡ self.old.made }
    {
        self.failing.extend_from_slice(numbers)?;
        Ok(())
    }

    /// Counts one call more, and fails it where it is to fail.
    pub(crate) fn attempt(&mut self) -> Result<(), Failed>
        ensures cause { HasCause self.old.faults self.new.faults result }
        ensures once { CountsOnce self.old.faults self.new.faults result }
        ensures failing { self.new.failing.items ≡ self.old.failing.items }
        ensures made { self.new.made ≡ min (self.old.made + 1) (2 ^ 64 - 1) }
        ensures fails { IsErr result ↔ IsTrue (list_any (λ y. y == self.new.made) self.new.failing.items) }
    {
        self.made = self.made.saturating_add(1);
        if self.failing.contains(&self.made) {
            return Err(fault(&mut self.faults));
        }
        Ok(())
    }
}
