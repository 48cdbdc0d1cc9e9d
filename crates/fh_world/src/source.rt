ghost use Rattle.std.specs.Borrow.{GName};
ghost use Rattle.std.specs.Prelude.{◌≡◌, ◌∷◌, ◌<◌, ◌≤◌, List, ℕ, Option, length, take, IfOk, OnErr};
ghost use Rattle.std.specs.Io.KnownBytes.{IsAtEnd};
ghost use Rattle.fh_world.specs.Bytes.{Moves};
ghost use Rattle.fh_world.specs.Causes.{HasCause, CountsOnce};

use crate::Failed;

/// Where bytes come from.
pub trait Source {
    /// The `&mut`s through which it is held. They stay.
    ghost place: { Self → List GName };

    /// The bytes given so far, where it tells them.
    ghost given: { Self → Option (List ℕ) };

    /// The bytes that are left, where it tells them.
    ghost left: { Self → Option (List ℕ) };

    /// How often it has failed.
    ghost faults: { Self → ℕ };

    /// Puts the next bytes at the start of the buffer, which isn't empty, and answers how many. 0 means the end:
    /// none is left. A fault gives none and leaves what was left.
    fn read(&mut self, buf: &mut [u8]) -> Result<usize, Failed>
        requires { 0 < length buf.old }
        ensures bound { IfOk result (λ n. n ≤ length buf.new) }
        ensures bytes { IfOk result (λ n. Moves given left self.old self.new (take n buf.new)) }
        ensures end { IfOk result (λ n. n ≡ 0 → IsAtEnd (left self.new)) }
        ensures err { OnErr result (Moves given left self.old self.new (take 0 buf.new)) }
        ensures place { place self.new ≡ place self.old }
        ensures cause { HasCause (faults self.old) (faults self.new) result }
        ensures once { CountsOnce (faults self.old) (faults self.new) result };
}

impl<S: Source> Source for &mut S {
    ghost place = { λ s. s.ghost_name ∷ S.place s.now };

    ghost given = { λ s. S.given s.now };

    ghost left = { λ s. S.left s.now };

    ghost faults = { λ s. S.faults s.now };

    fn read(&mut self, buf: &mut [u8]) -> Result<usize, Failed> {
        (**self).read(buf)
    }
}
