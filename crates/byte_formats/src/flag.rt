ghost use Rattle.std.specs.Prelude.{⊤, false};
ghost use Rattle.byte_formats.specs.Fields.{flag};

use crate::{Field, Stop, put_byte};
use fh_model::NoMemory;
use std::alloc::Global;

impl Field for bool {
    ghost spells = { flag.spell };

    ghost fits = { flag.fits };

    ghost reads = { flag.read };

    ghost is_short = { λ _. ⊤ };

    ghost asks_memory = { false };

    #[tactic(auto, unfolding(crate::specs::Fields::flag_at))]
    fn read(_alloc: Global, bytes: &[u8]) -> Result<(bool, &[u8]), Stop> {
        match bytes {
            [] => Err(Stop::Bad(0)),
            [0, rest @ ..] => Ok((false, rest)),
            [1, rest @ ..] => Ok((true, rest)),
            [_, ..] => Err(Stop::Bad(bytes.len())),
        }
    }

    fn put(&self, out: &mut Vec<u8>) -> Result<(), NoMemory> {
        put_byte(out, *self as u8)
    }

    fn has_spelling(&self) -> bool {
        true
    }
}
