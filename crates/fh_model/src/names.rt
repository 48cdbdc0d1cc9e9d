use crate::{Copies, Items, NoMemory, Text};

/// A name as it was written, and the folded form by which it is compared.
#[derive(Debug, Drop)]
pub struct Name {
    pub shown: Text,
    pub folded: Text,
}

/// The names of a path, from the top.
pub type Names = Items<Name>;

/// The tags of a refusal, the outermost first.
pub type Tags = Items<Text>;

impl Copies for Name {
    fn copy(&self) -> Result<Name, NoMemory> {
        let shown = self.shown.copy()?;
        let folded = self.folded.copy()?;
        Ok(Name { shown, folded })
    }
}
