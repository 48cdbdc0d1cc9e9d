//! The names of a path, between its slashes.
ghost use Rattle.std.specs.Prelude.{◌≡◌, ◌==◌, IfOk, List, ℕ, map};
ghost use Rattle.std.specs.List.{list_any};
ghost use Rattle.fh_model.specs.PathRule.{parts_of, is_bad_name, has_bad_names, name_of};

use crate::folding::fold_str;
use fh_model::{Items, NAME_MAX_BYTES, NAMES_MAX, Name, Names, NoMemory, Text};
use std::alloc::{AllocError, Global};

/// What stands between the slashes of a text.
pub(crate) fn parts_of(alloc: Global, text: &str) -> Result<Vec<&str>, AllocError>
    ensures { IfOk result (λ parts. map (λ part. part.now) parts.items ≡ parts_of text.now) }
{
    text.split('/').collect(alloc)
}

fn has_nul(name: &str) -> bool
    ensures { result ≡ list_any (λ byte. byte == 0) name.now }
{
    name.as_bytes().iter().any(|b| *b == 0)
}

fn is_bad_name(name: &str) -> bool
    ensures { result ≡ is_bad_name name.now }
{
    name.is_empty()
        || (name == "." || (name == ".." || (has_nul(name) || NAME_MAX_BYTES < name.len())))
}

fn has_bad_name(names: &[&str]) -> bool
    ensures { result ≡ list_any is_bad_name (map (λ name. name.now) names.now) }
{
    names.iter().any(|name| is_bad_name(name))
}

/// Whether there are too many names, or a bad one.
pub(crate) fn has_bad_names(names: &[&str]) -> bool
    ensures { result ≡ has_bad_names (map (λ name. name.now) names.now) }
{
    NAMES_MAX < names.len() || has_bad_name(names)
}

fn name_of(alloc: Global, shown: &str) -> Result<Name, NoMemory>
    ensures { IfOk result (λ name. name ≡ name_of shown.now) }
{
    let folded = fold_str(alloc, shown)?;
    let shown = Text::new(String::from_str(alloc, shown)?);
    Ok(Name { shown, folded })
}

/// The names with their folded texts.
pub(crate) fn names_of(alloc: Global, names: &[&str]) -> Result<Names, NoMemory>
    ensures { IfOk result (λ list. list ≡ map name_of (map (λ name. name.now) names.now)) }
{
    let mut list = Vec::new(alloc);
    for name in names {
        list.push(name_of(alloc, name)?)?;
    }
    Ok(Items::new(list))
}
