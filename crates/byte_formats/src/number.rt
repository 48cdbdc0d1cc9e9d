ghost use Rattle.std.specs.Prelude.{⊤, false};
ghost use Rattle.byte_formats.specs.Fields.{n32, n64};

use crate::{Field, Stop};
use fh_model::NoMemory;
use std::alloc::Global;

impl Field for u32 {
    ghost spells = { n32.spell };

    ghost fits = { n32.fits };

    ghost reads = { n32.read };

    ghost is_short = { λ _. ⊤ };

    ghost asks_memory = { false };

    fn read(_alloc: Global, bytes: &[u8]) -> Result<(u32, &[u8]), Stop> {
        if bytes.len() < 4 {
            return Err(Stop::Bad(0));
        }
        let (front, rest) = bytes.split_at(4);
        let number = u32::from_be_bytes([front[0], front[1], front[2], front[3]]);
        Ok((number, rest))
    }

    fn put(&self, out: &mut Vec<u8>) -> Result<(), NoMemory> {
        out.extend_from_slice(&self.to_be_bytes())?;
        Ok(())
    }

    fn has_spelling(&self) -> bool {
        // Every number that is read is in the range of its type.
        let _number = *self;
        true
    }
}

impl Field for u64 {
    ghost spells = { n64.spell };

    ghost fits = { n64.fits };

    ghost reads = { n64.read };

    ghost is_short = { λ _. ⊤ };

    ghost asks_memory = { false };

    fn read(_alloc: Global, bytes: &[u8]) -> Result<(u64, &[u8]), Stop> {
        if bytes.len() < 8 {
            return Err(Stop::Bad(0));
        }
        let (front, rest) = bytes.split_at(8);
        let number = u64::from_be_bytes([
            front[0], front[1], front[2], front[3], front[4], front[5], front[6], front[7],
        ]);
        Ok((number, rest))
    }

    fn put(&self, out: &mut Vec<u8>) -> Result<(), NoMemory> {
        out.extend_from_slice(&self.to_be_bytes())?;
        Ok(())
    }

    fn has_spelling(&self) -> bool {
        // Every number that is read is in the range of its type.
        let _number = *self;
        true
    }
}
