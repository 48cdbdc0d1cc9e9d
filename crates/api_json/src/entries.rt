//! Entries as JSON.
ghost use Rattle.std.specs.Prelude.{◌≡◌, ◌++◌, ◌∷◌, [], OnOk};
ghost use Rattle.json.specs.Token.{key, string};
ghost use Rattle.fh_model.specs.declared.replies.Entry.TheVariants as entry;
ghost use Rattle.api_json.specs.Answers.{entry_data, entry_fields, file_fields, named_fields, tag_of, version_fields};
ghost use Rattle.api_json.specs.Tokens.{fields_tokens, tokens_of};

use crate::texts::{display_text, hash_text, id_text, lower_text, name_text, rev_text};
use api_types::stamp;
use fh_model::{Entry, FileMeta, Name, NoMemory};
use json::Writer;
use std::alloc::Global;

/// A field that holds a text.
pub(crate) fn put_text(out: &mut Writer, name: &str, text: &str) -> Result<(), NoMemory>
    ensures tokens { OnOk result (out.new.tokens ≡ out.old.tokens ++ key name.now ∷ string text.now ∷ []) }
    ensures before { out.new.before ≡ out.old.before }
{
    out.key(name)?;
    out.string(text)?;
    Ok(())
}

/// The fields of a folder, and the end of its object.
fn put_folder_fields(
    alloc: Global,
    out: &mut Writer,
    names: &[Name],
    id: u64,
) -> Result<(), NoMemory>
    ensures tokens { OnOk result (out.new.tokens ≡ out.old.tokens ++ fields_tokens (entry_fields (entry.Folder names.now id))) }
    ensures before { out.new.before ≡ out.old.before }
{
    let id = id_text(alloc, id)?;
    let display = display_text(alloc, names)?;
    let lower = lower_text(alloc, names)?;
    put_text(out, "id", &id)?;
    put_text(out, "name", name_text(names))?;
    put_text(out, "path_display", &display)?;
    put_text(out, "path_lower", &lower)?;
    out.end_object()?;
    Ok(())
}

/// The fields of a file's version, and the end of its object.
fn put_version_fields(alloc: Global, out: &mut Writer, meta: &FileMeta) -> Result<(), NoMemory>
    ensures tokens { OnOk result (out.new.tokens ≡ out.old.tokens ++ fields_tokens (version_fields meta.now)) }
    ensures before { out.new.before ≡ out.old.before }
{
    let rev = rev_text(alloc, meta.rev)?;
    let server = stamp(alloc, meta.server)?;
    put_text(out, "rev", &rev)?;
    put_text(out, "server_modified", server.as_str())?;
    out.key("size")?;
    out.u64(meta.size)?;
    out.end_object()?;
    Ok(())
}

/// The fields of a file from its name on, and the end of its object.
fn put_named_fields(
    alloc: Global,
    out: &mut Writer,
    names: &[Name],
    meta: &FileMeta,
) -> Result<(), NoMemory>
    ensures tokens { OnOk result (out.new.tokens ≡ out.old.tokens ++ fields_tokens (named_fields names.now meta.now)) }
    ensures before { out.new.before ≡ out.old.before }
{
    let display = display_text(alloc, names)?;
    let lower = lower_text(alloc, names)?;
    put_text(out, "name", name_text(names))?;
    put_text(out, "path_display", &display)?;
    put_text(out, "path_lower", &lower)?;
    put_version_fields(alloc, out, meta)?;
    Ok(())
}

/// The fields of a file, and the end of its object.
fn put_file_fields(
    alloc: Global,
    out: &mut Writer,
    names: &[Name],
    meta: &FileMeta,
) -> Result<(), NoMemory>
    ensures tokens { OnOk result (out.new.tokens ≡ out.old.tokens ++ fields_tokens (file_fields names.now meta.now)) }
    ensures before { out.new.before ≡ out.old.before }
{
    let client = stamp(alloc, meta.client)?;
    let hash = hash_text(alloc, &meta.hash)?;
    let id = id_text(alloc, meta.id)?;
    put_text(out, "client_modified", client.as_str())?;
    put_text(out, "content_hash", &hash)?;
    put_text(out, "id", &id)?;
    out.key("is_downloadable")?;
    out.boolean(true)?;
    put_named_fields(alloc, out, names, meta)?;
    Ok(())
}

/// What an entry is.
fn tag_of(entry: &Entry) -> &'static str
    ensures { result.now ≡ tag_of entry.now }
{
    match entry {
        Entry::File { .. } => "file",
        Entry::Folder { .. } => "folder",
    }
}

/// The fields of an entry, and the end of its object.
fn put_fields(alloc: Global, out: &mut Writer, entry: &Entry) -> Result<(), NoMemory>
    ensures tokens { OnOk result (out.new.tokens ≡ out.old.tokens ++ fields_tokens (entry_fields entry.now)) }
    ensures before { out.new.before ≡ out.old.before }
{
    match entry {
        Entry::File { names, meta } => put_file_fields(alloc, out, names.as_slice(), meta),
        Entry::Folder { names, id } => put_folder_fields(alloc, out, names.as_slice(), *id),
    }
}

/// An entry, with its tag or without.
pub(crate) fn put_entry(
    alloc: Global,
    out: &mut Writer,
    entry: &Entry,
    tagged: bool,
) -> Result<(), NoMemory>
    ensures tokens { OnOk result (out.new.tokens ≡ out.old.tokens ++ tokens_of (entry_data tagged entry.now)) }
    ensures before { out.new.before ≡ out.old.before }
{
    out.begin_object()?;
    if tagged {
        put_text(out, ".tag", tag_of(entry))?;
    }
    put_fields(alloc, out, entry)
}
