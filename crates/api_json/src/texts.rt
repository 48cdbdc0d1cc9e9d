//! Texts of entries and refusals that have several parts.
ghost use Rattle.std.specs.Prelude.{◌≡◌, ◌++◌, IfOk, OnOk, replicate, string_bytes};
ghost use Rattle.hex.specs.Hex.{encode_lower};
ghost use Rattle.fh_model.specs.Paths.{display_of, last_shown, lower_of};
ghost use Rattle.api_json.specs.Answers.{hex16, id_text, session_text, summary};

use fh_model::{Bytes32, ID_DIGITS, Name, NoMemory, Text};
use std::alloc::Global;

fn push_zeros(out: &mut String, count: usize) -> Result<(), NoMemory>
    ensures { OnOk result (string_bytes out.new ≡ string_bytes out.old ++ replicate count 48) }
{
    for _ in 0..count {
        out.push_str("0")?;
    }
    Ok(())
}

/// A number as 16 hex digits.
fn push_hex16(out: &mut String, number: u64) -> Result<(), NoMemory>
    ensures { OnOk result (string_bytes out.new ≡ string_bytes out.old ++ hex16 number) }
{
    let shown = format!(in *out.allocator(); "{number:x}")?;
    push_zeros(out, ID_DIGITS.saturating_sub(shown.len()))?;
    out.push_str(&shown)?;
    Ok(())
}

pub(crate) fn id_text(alloc: Global, id: u64) -> Result<String, NoMemory>
    ensures { IfOk result (λ text. string_bytes text ≡ id_text id) }
{
    let mut out = String::from_str(alloc, "id:")?;
    push_hex16(&mut out, id)?;
    Ok(out)
}

pub(crate) fn rev_text(alloc: Global, rev: u64) -> Result<String, NoMemory>
    ensures { IfOk result (λ text. string_bytes text ≡ hex16 rev) }
{
    let mut out = String::new(alloc);
    push_hex16(&mut out, rev)?;
    Ok(out)
}

/// The digits of a digest.
pub(crate) fn hash_text(alloc: Global, hash: &Bytes32) -> Result<String, NoMemory>
    ensures { IfOk result (λ text. string_bytes text ≡ encode_lower hash.now.bytes) }
{
    let text = hex::encode(alloc, hash.bytes.as_slice())?;
    Ok(text)
}

pub(crate) fn session_text(alloc: Global, session: u64) -> Result<String, NoMemory>
    ensures { IfOk result (λ text. string_bytes text ≡ session_text session) }
{
    let mut out = String::from_str(alloc, "us:")?;
    push_hex16(&mut out, session)?;
    Ok(out)
}

/// The shown names, each behind a slash.
pub(crate) fn display_text(alloc: Global, names: &[Name]) -> Result<String, NoMemory>
    ensures { IfOk result (λ text. string_bytes text ≡ display_of names.now) }
{
    let mut out = String::new(alloc);
    for name in names {
        out.push_str("/")?;
        out.push_str(name.shown.as_str())?;
    }
    Ok(out)
}

/// The folded names, each behind a slash.
pub(crate) fn lower_text(alloc: Global, names: &[Name]) -> Result<String, NoMemory>
    ensures { IfOk result (λ text. string_bytes text ≡ lower_of names.now) }
{
    let mut out = String::new(alloc);
    for name in names {
        out.push_str("/")?;
        out.push_str(name.folded.as_str())?;
    }
    Ok(out)
}

/// The last shown name, or nothing where there are no names.
pub(crate) fn name_text(names: &[Name]) -> &str
    ensures { result.now ≡ last_shown names.now }
{
    match names.last() {
        Some(name) => name.shown.as_str(),
        None => "",
    }
}

/// The tags, each before a slash, and three dots.
pub(crate) fn summary_text(alloc: Global, tags: &[Text]) -> Result<String, NoMemory>
    ensures { IfOk result (λ text. string_bytes text ≡ summary tags.now) }
{
    let mut out = String::new(alloc);
    for tag in tags {
        out.push_str(tag.as_str())?;
        out.push_str("/")?;
    }
    out.push_str("...")?;
    Ok(out)
}
