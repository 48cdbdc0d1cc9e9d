//! Where the next data goes.
ghost use Rattle.std.specs.Prelude.{◌≡◌, ◌≤◌, ◌^◌, ◌-◌, min, max};
ghost use Rattle.fh_model.specs.Pieces.{end_in, last_end};

use crate::machine::Machine;
use fh_model::Piece;

/// The greater of an end and the last end of the pieces, or the greatest number where that is less.
pub(crate) fn end_over(end: u64, pieces: &[Piece]) -> u64
    ensures { result ≡ max end (min (last_end pieces.now) (2 ^ 64 - 1)) }
{
    let mut end = end;
    for piece in pieces {
        end = end.max(piece.place.saturating_add(piece.len as u64));
    }
    end
}

impl Machine {
    /// The greatest end of a piece in the state.
    pub(crate) fn end(&self) -> u64
        requires { end_in self.now ≤ 2 ^ 62 }
        ensures { result ≡ end_in self.now }
    {
        self.end
    }
}
