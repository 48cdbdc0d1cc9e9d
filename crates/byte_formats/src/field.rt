ghost use Rattle.std.specs.Prelude.{◌≡◌, ◌↔◌, ◌++◌, ◌∷◌, [], ℕ, Bool, List, IsTrue, IsErrOf, OnOk};
ghost use Rattle.byte_formats.specs.Formats.{Reading};
ghost use Rattle.byte_formats.specs.Given.{Gives};

use crate::Stop;
use fh_model::NoMemory;
use std::alloc::Global;

/// What can stand in a body.
pub trait Field: Sized + Drop {
    /// The spelling.
    ghost spells: { Self → List ℕ };

    /// Which values have one.
    ghost fits: { Self → Type 0 };

    /// The value and the bytes after it, or how many bytes are left from the first bad one on.
    ghost reads: { List ℕ → Reading Self };

    /// Where every length in it fits into a `u32`.
    ghost is_short: { Self → Type 0 };

    /// Whether a read asks for memory.
    ghost asks_memory: { Bool };

    /// Takes the field from the front of the bytes, and gives it with the bytes after it.
    fn read(alloc: Global, bytes: &[u8]) -> Result<(Self, &[u8]), Stop>
        ensures given { Gives (λ x. (x.0, x.1.now)) result (reads bytes.now) }
        // Bad bytes are never told as want of memory by a read that asks for none.
        ensures memory { IsErrOf result Stop.NoMemory → IsTrue asks_memory };

    /// Puts the spelling at the end.
    fn put(&self, out: &mut Vec<u8>) -> Result<(), NoMemory>
        requires { fits self.now }
        ensures { OnOk result (out.new.items ≡ out.old.items ++ spells self.now) };

    /// Whether the value has a spelling. Of the values of a type those have none that hold more than 2^32 - 1 of
    /// something.
    fn has_spelling(&self) -> bool
        ensures short { IsTrue result ↔ is_short self.now }
        ensures fit { IsTrue result → fits self.now };
}

/// Puts one byte at the end.
pub fn put_byte(out: &mut Vec<u8>, byte: u8) -> Result<(), NoMemory>
    ensures { OnOk result (out.new.items ≡ out.old.items ++ byte ∷ []) }
{
    out.push(byte)?;
    Ok(())
}
