ghost use Rattle.std.specs.Prelude.{◌≡◌, ◌≢◌, ◌∷◌, ◌≤◌, ℕ, List, [], take, reverse, length, IfOk, OnOk};
ghost use Rattle.fh_world.specs.declared.disk.FileNo.{FileNo};
ghost use Rattle.fh_world.specs.declared.contents.Step.{Step};
ghost use Rattle.fh_world.specs.Replay.{content, overlaid, seen_after, MayLeave};

use crate::FileNo;
use crate::contents::{Contents, Step, overwritten};
use std::alloc::{AllocError, Global};

/// What a crash after these calls leaves, by two bits of the choice for each, the newest call's the lowest.
pub(crate) fn replayed(alloc: Global, steps: &[Step], choice: u64) -> Result<Contents, AllocError>
    ensures { IfOk result (λ image. (g : FileNo) → MayLeave (reverse steps.now) g (content image g)) }
{
    let mut seen = Contents::empty(alloc);
    let mut image = Contents::empty(alloc);
    let turns = (steps.len() % 32) as u32;
    let mut choice = choice.rotate_right(2 * turns);
    for step in steps {
        choice = choice.rotate_left(2);
        replay(alloc, step, &mut seen, &mut image, choice % 4)?;
    }
    Ok(image)
}

/// One call more.
fn replay(
    alloc: Global,
    step: &Step,
    seen: &mut Contents,
    image: &mut Contents,
    fate: u64,
) -> Result<(), AllocError>
    ensures seen { OnOk result ((earlier : List Step) → ((g : FileNo) → content seen.old g ≡ seen_after earlier g) → (g : FileNo) → content seen.new g ≡ seen_after (step.now ∷ earlier) g) }
    ensures left { OnOk result ((earlier : List Step) → ((g : FileNo) → content seen.old g ≡ seen_after earlier g) → ((g : FileNo) → MayLeave earlier g (content image.old g)) → (g : FileNo) → MayLeave (step.now ∷ earlier) g (content image.new g)) }
{
    match step {
        Step::Written { file, at, bytes } => {
            overwrite(alloc, seen, *file, *at as usize, bytes)?;
            overwrite(alloc, image, *file, *at as usize, kept(bytes, fate))?;
            Ok(())
        }
        Step::Synced { file } => {
            let bytes = seen.bytes(*file).to_vec(alloc)?;
            image.replace(*file, bytes);
            Ok(())
        }
    }
}

/// Writes within a file; a place past its end is left alone.
fn overwrite(
    alloc: Global,
    files: &mut Contents,
    file: FileNo,
    at: usize,
    bytes: &[u8],
) -> Result<(), AllocError>
    ensures own { OnOk result (content files.new file ≡ overlaid at bytes.now (content files.old file)) }
    ensures others { (g : FileNo) → g ≢ file → content files.new g ≡ content files.old g }
{
    let old = files.bytes(file);
    if at > old.len() {
        return Ok(());
    }
    let next = overwritten(alloc, old, at, bytes)?;
    files.replace(file, next);
    Ok(())
}

/// The front of a write that a crash lets through: none of it, all, its half, or all but the last byte.
fn kept(bytes: &[u8], fate: u64) -> &[u8]
    ensures { length result.now ≤ length bytes.now }
{
    match fate {
        0 => &bytes[..0],
        1 => bytes,
        2 => &bytes[..bytes.len() / 2],
        _ => &bytes[..bytes.len().saturating_sub(1)],
    }
}
