ghost use Rattle.std.specs.Prelude.{IfSome};
ghost use Rattle.byte_formats.specs.Fields.{optional_at, optional_spell};

use crate::{Field, Stop, put_byte};
use fh_model::NoMemory;
use std::alloc::Global;

impl<T: Field> Field for Option<T> {
    ghost spells = { optional_spell T.spells };

    ghost fits = { λ field. IfSome field T.fits };

    ghost reads = { optional_at T.reads };

    ghost is_short = { λ field. IfSome field T.is_short };

    ghost asks_memory = { T.asks_memory };

    fn read(alloc: Global, bytes: &[u8]) -> Result<(Option<T>, &[u8]), Stop> {
        match bytes {
            [] => Err(Stop::Bad(0)),
            [0, rest @ ..] => Ok((None, rest)),
            [1, rest @ ..] => {
                let (value, rest) = T::read(alloc, rest)?;
                Ok((Some(value), rest))
            }
            [_, ..] => Err(Stop::Bad(bytes.len())),
        }
    }

    fn put(&self, out: &mut Vec<u8>) -> Result<(), NoMemory> {
        match self {
            None => put_byte(out, 0),
            Some(value) => {
                put_byte(out, 1)?;
                value.put(out)
            }
        }
    }

    fn has_spelling(&self) -> bool {
        match self {
            None => true,
            Some(value) => value.has_spelling(),
        }
    }
}
