ghost use Rattle.std.specs.Prelude.{◌≡◌, ◌≤◌, ◌^◌, ◌∷◌, ◌++◌, [], ℕ, List, Option, None, true, false, IsTrue, OnOk, OnErr, MatchBool};
ghost use Rattle.std.specs.Option.{ForSome};
ghost use Rattle.fh_world.specs.Causes.{HasCause, CountsOnce};
ghost use Rattle.gate_journal.specs.Slot.{IsBefore, IsBeforeOrAfter};

use crate::{AppendFault, Record};
use fh_world::{Disk, Failed, FileNo, extend_ahead, write_through};

/// The byte of a gate that stands open.
pub(crate) const OPEN_GATE: u8 = 0xa5;

/// Where the records of a slot end.
#[derive(Drop)]
pub struct Journal {
    slot: FileNo,
    /// The place of the gate behind the records.
    end: u64,
    /// Where the records end with those that wait for that gate.
    waiting: Option<u64>,
    ghost end_short: { end ≤ 2 ^ 62 },
    ghost waiting_short: { ForSome waiting (λ next. next ≤ 2 ^ 62) },
}

impl Journal {
    ghost use Rattle.gate_journal.specs.Journal.{slot_of, end_of, waiting_of, is_pending, Settled, Waiting, AnyMoment, Keeps};

    /// The journal of a slot whose records end at this place.
    pub(crate) fn behind(slot: FileNo, end: u64) -> Journal
        requires { end ≤ 2 ^ 62 }
        ensures slot { slot_of result ≡ slot }
        ensures end { end_of result ≡ end }
        ensures idle { waiting_of result ≡ None }
    {
        Journal {
            slot,
            end,
            waiting: None,
        }
    }

    /// The file of the records.
    pub fn slot(&self) -> FileNo
        ensures { result ≡ slot_of self.now }
    {
        self.slot
    }

    /// Whether a record waits for its gate.
    pub fn pending(&self) -> bool
        ensures { result ≡ is_pending self.now }
    {
        self.waiting.is_some()
    }

    /// Adds a record, where nothing is pending and the slot is as this journal's last call left it. After `Ok` each
    /// crash leaves it. A fault before its gate is written leaves the journal and what the slot stands for; a later
    /// one leaves the record waiting for its gate.
    pub fn append<D: Disk>(&mut self, disk: &mut D, framed: &Record) -> Result<(), AppendFault>
        requires idle { is_pending self.old ≡ false }
        requires settled { IsTrue D.tells → (bodies : List (List ℕ)) × Settled D.Disk disk.old self.old bodies }
        ensures acknowledged { OnOk result (IsTrue D.tells → (bodies : List (List ℕ)) → Settled D.Disk disk.old self.old bodies → Settled D.Disk disk.new self.new (bodies ++ framed.now ∷ [])) }
        ensures idle { OnOk result (is_pending self.new ≡ false) }
        ensures fault { OnErr result (IsTrue D.tells → (bodies : List (List ℕ)) → Settled D.Disk disk.old self.old bodies
            → MatchBool (is_pending self.new) (Waiting D.Disk disk.new self.new bodies (framed.now ∷ [])) (Settled D.Disk disk.new self.new bodies)) }
        ensures unchanged { OnErr result (is_pending self.new ≡ false → self.new ≡ self.old) }
        ensures any_moment { IsTrue D.tells → (bodies : List (List ℕ)) → Settled D.Disk disk.old self.old bodies
            → AnyMoment D.Disk disk.old disk.new (slot_of self.old) (IsBeforeOrAfter bodies (framed.now ∷ [])) }
        // A fault before the gate is written leaves the record at no moment.
        ensures unopened { OnErr result (is_pending self.new ≡ false → IsTrue D.tells → (bodies : List (List ℕ)) → Settled D.Disk disk.old self.old bodies
            → AnyMoment D.Disk disk.old disk.new (slot_of self.old) (IsBefore bodies)) }
        ensures others { IsTrue D.tells → Keeps D.Disk (slot_of self.old) disk.old disk.new }
        ensures slot { slot_of self.new ≡ slot_of self.old }
        ensures place { D.place disk.new ≡ D.place disk.old }
        ensures cause { HasCause (D.faults disk.old) (D.faults disk.new) result }
        ensures once { CountsOnce (D.faults disk.old) (D.faults disk.new) result }
    {
        self.make_room(disk, framed.framed().len())?;
        self.put(disk, framed)
    }

    /// Extends the slot ahead, where it is so many bytes longer with a record. The gate stays as it is.
    fn make_room<D: Disk>(&self, disk: &mut D, count: usize) -> Result<(), Failed>
        requires settled { IsTrue D.tells → (bodies : List (List ℕ)) × Settled D.Disk disk.old self.now bodies }
        ensures settled { IsTrue D.tells → (bodies : List (List ℕ)) → Settled D.Disk disk.old self.now bodies → Settled D.Disk disk.new self.now bodies }
        ensures any_moment { IsTrue D.tells → (bodies : List (List ℕ)) → Settled D.Disk disk.old self.now bodies
            → AnyMoment D.Disk disk.old disk.new (slot_of self.now) (IsBefore bodies) }
        ensures others { IsTrue D.tells → Keeps D.Disk (slot_of self.now) disk.old disk.new }
        ensures place { D.place disk.new ≡ D.place disk.old }
        ensures cause { HasCause (D.faults disk.old) (D.faults disk.new) result }
        ensures once { CountsOnce (D.faults disk.old) (D.faults disk.new) result }
    {
        extend_ahead(disk, self.slot, self.end + 1, count)
    }

    /// `append` in a slot that has the room.
    fn put<D: Disk>(&mut self, disk: &mut D, framed: &Record) -> Result<(), AppendFault>
        requires idle { is_pending self.old ≡ false }
        requires settled { IsTrue D.tells → (bodies : List (List ℕ)) × Settled D.Disk disk.old self.old bodies }
        ensures acknowledged { OnOk result (IsTrue D.tells → (bodies : List (List ℕ)) → Settled D.Disk disk.old self.old bodies → Settled D.Disk disk.new self.new (bodies ++ framed.now ∷ [])) }
        ensures idle { OnOk result (is_pending self.new ≡ false) }
        ensures fault { OnErr result (IsTrue D.tells → (bodies : List (List ℕ)) → Settled D.Disk disk.old self.old bodies
            → MatchBool (is_pending self.new) (Waiting D.Disk disk.new self.new bodies (framed.now ∷ [])) (Settled D.Disk disk.new self.new bodies)) }
        ensures unchanged { OnErr result (is_pending self.new ≡ false → self.new ≡ self.old) }
        ensures any_moment { IsTrue D.tells → (bodies : List (List ℕ)) → Settled D.Disk disk.old self.old bodies
            → AnyMoment D.Disk disk.old disk.new (slot_of self.old) (IsBeforeOrAfter bodies (framed.now ∷ [])) }
        // A fault before the gate is written leaves the record at no moment.
        ensures unopened { OnErr result (is_pending self.new ≡ false → IsTrue D.tells → (bodies : List (List ℕ)) → Settled D.Disk disk.old self.old bodies
            → AnyMoment D.Disk disk.old disk.new (slot_of self.old) (IsBefore bodies)) }
        ensures others { IsTrue D.tells → Keeps D.Disk (slot_of self.old) disk.old disk.new }
        ensures slot { slot_of self.new ≡ slot_of self.old }
        ensures place { D.place disk.new ≡ D.place disk.old }
        ensures cause { HasCause (D.faults disk.old) (D.faults disk.new) result }
        ensures once { CountsOnce (D.faults disk.old) (D.faults disk.new) result }
    {
        let bytes = framed.framed();
        write_through(disk, self.slot, self.end + 1, bytes)?;
        self.waiting = Some(self.end + bytes.len() as u64);
        self.finish(disk)?;
        Ok(())
    }

    /// Opens the gate of the record that waits, where the slot is as this journal's last call left it. After `Ok`
    /// each crash leaves the record. After a fault it still waits.
    pub fn finish<D: Disk>(&mut self, disk: &mut D) -> Result<(), Failed>
        requires pending { is_pending self.old ≡ true }
        requires waiting { IsTrue D.tells → (bodies : List (List ℕ)) × (news : List (List ℕ)) × Waiting D.Disk disk.old self.old bodies news }
        ensures acknowledged { OnOk result (IsTrue D.tells → (bodies news : List (List ℕ)) → Waiting D.Disk disk.old self.old bodies news → Settled D.Disk disk.new self.new (bodies ++ news)) }
        ensures idle { OnOk result (is_pending self.new ≡ false) }
        ensures fault { OnErr result (IsTrue D.tells → (bodies news : List (List ℕ)) → Waiting D.Disk disk.old self.old bodies news → Waiting D.Disk disk.new self.new bodies news) }
        ensures unchanged { OnErr result (self.new ≡ self.old) }
        ensures any_moment { IsTrue D.tells → (bodies news : List (List ℕ)) → Waiting D.Disk disk.old self.old bodies news
            → AnyMoment D.Disk disk.old disk.new (slot_of self.old) (IsBeforeOrAfter bodies news) }
        ensures others { IsTrue D.tells → Keeps D.Disk (slot_of self.old) disk.old disk.new }
        ensures slot { slot_of self.new ≡ slot_of self.old }
        ensures place { D.place disk.new ≡ D.place disk.old }
        ensures cause { HasCause (D.faults disk.old) (D.faults disk.new) result }
        ensures once { CountsOnce (D.faults disk.old) (D.faults disk.new) result }
    {
        let Some(next) = self.waiting else {
            return Ok(());
        };
        write_through(disk, self.slot, self.end, &[OPEN_GATE])?;
        self.end = next;
        self.waiting = None;
        Ok(())
    }
}
