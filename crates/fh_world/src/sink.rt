ghost use Rattle.std.specs.Borrow.{GName};
ghost use Rattle.std.specs.Prelude.{◌≡◌, ◌∷◌, List, ℕ, Option, OnErr, OnOk};
ghost use Rattle.fh_world.specs.Bytes.{Holds, HoldsPart};
ghost use Rattle.fh_world.specs.Causes.{HasCause, CountsOnce};

use crate::Failed;

/// Where bytes go.
pub trait Sink {
    /// The `&mut`s through which it is held. They stay.
    ghost place: { Self → List GName };

    /// The bytes that it holds, where it tells them.
    ghost held: { Self → Option (List ℕ) };

    /// How often it has failed.
    ghost faults: { Self → ℕ };

    /// Adds the bytes. After a fault some of the first of them were added.
    fn write(&mut self, bytes: &[u8]) -> Result<(), Failed>
        ensures ok { OnOk result (Holds held self.old self.new bytes.now) }
        ensures err { OnErr result (HoldsPart held self.old self.new bytes.now) }
        ensures place { place self.new ≡ place self.old }
        ensures cause { HasCause (faults self.old) (faults self.new) result }
        ensures once { CountsOnce (faults self.old) (faults self.new) result };
}

impl<K: Sink> Sink for &mut K {
    ghost place = { λ k. k.ghost_name ∷ K.place k.now };

    ghost held = { λ k. K.held k.now };

    ghost faults = { λ k. K.faults k.now };

    fn write(&mut self, bytes: &[u8]) -> Result<(), Failed> {
        (**self).write(bytes)
    }
}
