ghost use Rattle.std.specs.Prelude.{◌≡◌, ◌∷◌, ◌++◌, [], IfOk};
ghost use Rattle.gate_journal.specs.Slot.{behind_gate};

use fh_model::NoMemory;
use std::alloc::{AllocError, Global};
use std::marker::Model;

/// A record, which contracts see as the bytes of its body. It keeps the length, the body and a closed gate, so that
/// they are one write.
#[derive(Drop)]
pub struct Record {
    framed: Vec<u8>,
}

impl Model for Record {
    ghost use Rattle.std.specs.Prelude.{List, ℕ};
    ghost use Rattle.gate_journal.specs.Record.{body_in, IsFramed};

    ghost Value = { List ℕ };

    ghost view = { λ r. body_in r.framed.items };

    ghost invariant = { λ r. IsFramed r.framed.items };
}

impl Record {
    /// The bytes of the body.
    pub fn body(&self) -> &[u8]
        ensures { result.now ≡ self.now }
    {
        &self.framed[8..self.framed.len() - 1]
    }

    /// The length and the body.
    pub(crate) fn behind_gate(&self) -> &[u8]
        ensures { result.now ≡ behind_gate self.now }
    {
        let framed = self.framed();
        &framed[..framed.len() - 1]
    }

    /// The length, the body and a closed gate.
    pub(crate) fn framed(&self) -> &[u8]
        ensures { result.now ≡ behind_gate self.now ++ 0 ∷ [] }
    {
        self.framed.as_slice()
    }
}

/// A record with this body.
pub fn frame(alloc: Global, body: &[u8]) -> Result<Record, NoMemory>
    ensures { IfOk result (λ framed. framed ≡ body.now) }
{
    let mut framed = Vec::new(alloc);
    framed.extend_from_slice(&(body.len() as u64).to_be_bytes())?;
    framed.extend_from_slice(body)?;
    framed.push(0).map_err(AllocError::from)?;
    Ok(Record { framed })
}
