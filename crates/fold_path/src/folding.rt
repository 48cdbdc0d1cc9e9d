ghost use Rattle.std.specs.Prelude.{◌≡◌, IfOk};
ghost use Rattle.fh_model.specs.Folding.{folded};

use caseless::default_case_fold_str;
use fh_model::{NoMemory, Text};
use std::alloc::Global;

/// The text by which a name is compared: its full default case folding.
pub fn fold(alloc: Global, name: &Text) -> Result<Text, NoMemory>
    ensures { IfOk result (λ text. text ≡ folded name.now) }
{
    fold_str(alloc, name.as_str())
}

pub(crate) fn fold_str(alloc: Global, name: &str) -> Result<Text, NoMemory>
    ensures { IfOk result (λ text. text ≡ folded name.now) }
{
    let text = default_case_fold_str(alloc, name)?;
    Ok(Text::new(text))
}
