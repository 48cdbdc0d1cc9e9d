ghost use Rattle.std.specs.Prelude.{◌≡◌, ℕ, List, Option, Bool, IfOk, OnErr};
ghost use Rattle.fh_model.specs.declared.commands.Cmd.{Cmd};
ghost use Rattle.fh_model.specs.History.{Kept};
ghost use Rattle.host_seat.specs.Port.{Looks, OthersEnter};

use fh_model::NoMemory;
use name_core::Image;

/// The way to see the machine.
pub trait View {
    /// What it may have done from one value to another. What that is, is its own matter.
    ghost went: { Self → Self → Type 0 };

    /// The state that it started from, and the history that it has seen.
    ghost seen: { Self → Kept };

    /// The command that waits for the disk, if any.
    ghost waits: { Self → List Cmd };

    /// What the block file holds, where it is told.
    ghost blocks: { Self → Option (List ℕ) };

    /// The seat's number, which its commands carry.
    ghost number: { Self → ℕ };

    /// How often the disk has failed it. Where others share the disk, these are the faults of its own calls.
    ghost faults: { Self → ℕ };

    /// Whether nobody else lets commands enter.
    ghost alone: { Bool };

    /// The image at a point that begins with all that was seen, and that is seen from then on. Nothing of its own
    /// enters, and the disk isn't touched.
    fn look(&mut self) -> Result<Image, NoMemory>
        ensures point { IfOk result (λ image. Looks alone (seen self.old) (seen self.new) image) }
        ensures memory { OnErr result (OthersEnter alone (seen self.old) (seen self.new)) }
        ensures waits { waits self.new ≡ waits self.old }
        ensures blocks { blocks self.new ≡ blocks self.old }
        ensures number { number self.new ≡ number self.old }
        ensures faults { faults self.new ≡ faults self.old }
        ensures went { went self.old self.new };

    ghost nothing: { (a : Self) → went a a };

    ghost on: { (a b c : Self) → went a b → went b c → went a c };
}
