ghost use Rattle.std.specs.Prelude.{◌≡◌, ◌≤◌, ◌+◌, IfOk, OnErr, IsErr};
ghost use Rattle.fh_world.specs.Causes.{HasCause, CountsOnce, Rose};

/// The outside failed in this call. Its count of faults has risen.
#[derive(Clone, Copy, Debug, PartialEq, Eq)]
pub struct Failed;

/// The longest file of a disk, in bytes.
pub(crate) const FILE_MAX_BYTES: u64 = 1 << 62;

/// Counts a fault. The count stays at its last value.
pub(crate) fn fault(faults: &mut u64) -> Failed
    ensures later { faults.old ≤ faults.new }
    ensures rose { Rose faults.old faults.new }
    ensures once { faults.new ≤ faults.old + 1 }
{
    *faults = faults.saturating_add(1);
    Failed
}

/// Counts a fault where the outcome is one.
pub(crate) fn counted<T: Drop, E: Drop>(
    outcome: Result<T, E>,
    faults: &mut u64,
) -> Result<T, Failed>
    ensures cause { HasCause faults.old faults.new result }
    ensures once { CountsOnce faults.old faults.new result }
    ensures ok { IfOk result (λ value. outcome ≡ Ok value) }
    ensures err { OnErr result (IsErr outcome) }
{
    match outcome {
        Ok(value) => Ok(value),
        Err(_) => Err(fault(faults)),
    }
}
