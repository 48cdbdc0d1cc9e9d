ghost use Rattle.std.specs.Prelude.{◌≡◌, ◌<◌, true, false, Some, Ok, IfOk, IsErrOf, IsTrue, MatchOption, codes, drop, length, map, nat_eq};
ghost use Rattle.std.specs.List.{starts_with};
ghost use Rattle.fh_model.specs.declared.limits.TheConstants.{PATH_MAX_BYTES};
ghost use Rattle.fh_model.specs.PathRule.{arg_of, form_of, form_of_parts, is_malformed, is_overlong, path_of, rooted, space};

use crate::fault::PathFault;
use crate::folding::fold;
use crate::names::{has_bad_names, names_of, parts_of};
use crate::numbers::{number_of, revision, space};
use fh_model::{NoMemory, PATH_MAX_BYTES, PathArg, Text};
use std::alloc::Global;

/// Reads a path.
///
/// The forms are `""`, the root; `/` before each of 1 to 64 names; `id:` and any text; `rev:` and 9 hex digits or
/// more; `ns:` and 1 to 18 decimal digits, with names behind it or none. A text past the limit is told before any
/// memory is asked for.
pub fn parse(alloc: Global, text: &Text) -> Result<PathArg, PathFault>
    ensures path { IfOk result (λ arg. path_of text.now ≡ Some arg) }
    ensures malformed { IsErrOf result PathFault.Malformed → IsTrue (is_malformed text.now) }
    ensures long { PATH_MAX_BYTES < length text.now → IsErrOf result PathFault.Malformed }
{
    if is_overlong(alloc, text)? {
        return Err(PathFault::Malformed);
    }
    match read(alloc, text.as_str())? {
        Some(arg) => Ok(arg),
        None => Err(PathFault::Malformed),
    }
}

fn is_overlong(alloc: Global, text: &Text) -> Result<bool, NoMemory>
    ensures value { IfOk result (λ long. long ≡ is_overlong text.now) }
    ensures long { PATH_MAX_BYTES < length text.now → result ≡ Ok true }
{
    if PATH_MAX_BYTES < text.as_bytes().len() {
        return Ok(true);
    }
    let folded = fold(alloc, text)?;
    Ok(PATH_MAX_BYTES < folded.as_bytes().len())
}

/// What stands behind the prefix, where the text begins with it.
#[tactic(auto, using(crate::proofs::Prefixes::starts_from_strip))]
fn behind<'a>(text: &'a str, prefix: &str) -> Option<&'a str>
    ensures { MatchOption result (starts_with nat_eq text.now prefix.now ≡ false) (λ rest. (starts_with nat_eq text.now prefix.now ≡ true) × (rest.now ≡ drop (length prefix.now) text.now)) }
{
    text.strip_prefix(prefix)
}

/// What a text of a right length stands for, or none where it is malformed.
fn read(alloc: Global, text: &str) -> Result<Option<PathArg>, NoMemory>
    ensures { IfOk result (λ arg. arg ≡ arg_of (form_of text.now)) }
{
    if let Some(id) = behind(text, "id:") {
        return Ok(Some(PathArg::Id(number_of(id))));
    }
    if let Some(digits) = behind(text, "rev:") {
        return Ok(revision(digits).map(|number| PathArg::Rev(number)));
    }
    let parts = parts_of(alloc, text)?;
    read_parts(alloc, &parts)
}

fn read_parts(alloc: Global, parts: &[&str]) -> Result<Option<PathArg>, NoMemory>
    ensures { IfOk result (λ arg. arg ≡ arg_of (form_of_parts (map (λ part. part.now) parts.now))) }
{
    let Some((head, names)) = parts.split_first() else {
        return Ok(None);
    };
    if head.is_empty() {
        return read_names(alloc, names);
    }
    match behind(head, "ns:") {
        Some(digits) => read_space(alloc, digits, names),
        None => Ok(None),
    }
}

fn read_names(alloc: Global, names: &[&str]) -> Result<Option<PathArg>, NoMemory>
    ensures { IfOk result (λ arg. arg ≡ arg_of (Some (rooted (map (λ name. name.now) names.now)))) }
{
    if has_bad_names(names) {
        return Ok(None);
    }
    let names = names_of(alloc, names)?;
    Ok(Some(PathArg::Names(names)))
}

fn read_space(alloc: Global, digits: &str, names: &[&str]) -> Result<Option<PathArg>, NoMemory>
    ensures { IfOk result (λ arg. arg ≡ arg_of (Some (space digits.now (map (λ name. name.now) names.now)))) }
{
    let Some(number) = space(digits) else {
        return Ok(None);
    };
    if has_bad_names(names) {
        return Ok(None);
    }
    let names = names_of(alloc, names)?;
    Ok(Some(PathArg::Ns(number, names)))
}
