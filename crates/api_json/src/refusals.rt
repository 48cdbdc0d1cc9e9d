//! Refusals as JSON.
ghost use Rattle.std.specs.Prelude.{◌≡◌, ◌++◌, OnOk};
ghost use Rattle.api_json.specs.Answers.{error_data, nested, offset_fields, refusal_fields, session_fields, with_reason, with_session};
ghost use Rattle.api_json.specs.Tokens.{fields_tokens, tokens_of};

use crate::entries::put_text;
use crate::texts::{session_text, summary_text};
use fh_model::{NoMemory, Refusal, Text};
use json::Writer;
use std::alloc::Global;

/// The offset that would have been right, where it is told, and the end of the object.
fn put_offset(out: &mut Writer, offset: Option<u64>) -> Result<(), NoMemory>
    ensures tokens { OnOk result (out.new.tokens ≡ out.old.tokens ++ fields_tokens (offset_fields offset)) }
    ensures before { out.new.before ≡ out.old.before }
{
    if let Some(offset) = offset {
        out.key("correct_offset")?;
        out.u64(offset)?;
    }
    out.end_object()?;
    Ok(())
}

/// The tags, each within the one before, and the offset within the last.
fn put_nested(out: &mut Writer, tags: &[Text], offset: Option<u64>) -> Result<(), NoMemory>
    ensures tokens { OnOk result (out.new.tokens ≡ out.old.tokens ++ tokens_of (nested offset tags.now)) }
    ensures before { out.new.before ≡ out.old.before }
{
    out.begin_object()?;
    match tags {
        [] => put_offset(out, offset)?,
        [tag] => {
            put_text(out, ".tag", tag.as_str())?;
            put_offset(out, offset)?;
        }
        [tag, inner @ ..] => {
            put_text(out, ".tag", tag.as_str())?;
            out.key(tag.as_str())?;
            put_nested(out, inner, offset)?;
            out.end_object()?;
        }
    }
    Ok(())
}

/// The session that holds a refused upload's data, and the end of the object.
fn put_session(alloc: Global, out: &mut Writer, session: u64) -> Result<(), NoMemory>
    ensures tokens { OnOk result (out.new.tokens ≡ out.old.tokens ++ fields_tokens (session_fields session)) }
    ensures before { out.new.before ≡ out.old.before }
{
    let session = session_text(alloc, session)?;
    put_text(out, "upload_session_id", &session)?;
    out.end_object()?;
    Ok(())
}

/// A refused upload: a tag with its reason, and the session that holds the data.
fn put_with_reason(
    alloc: Global,
    out: &mut Writer,
    tag: &Text,
    reason: &[Text],
    offset: Option<u64>,
    session: u64,
) -> Result<(), NoMemory>
    ensures tokens { OnOk result (out.new.tokens ≡ out.old.tokens ++ tokens_of (with_reason session offset tag.now reason.now)) }
    ensures before { out.new.before ≡ out.old.before }
{
    out.begin_object()?;
    put_text(out, ".tag", tag.as_str())?;
    out.key("reason")?;
    put_nested(out, reason, offset)?;
    put_session(alloc, out, session)?;
    Ok(())
}

fn put_with_session(
    alloc: Global,
    out: &mut Writer,
    tags: &[Text],
    offset: Option<u64>,
    session: u64,
) -> Result<(), NoMemory>
    ensures tokens { OnOk result (out.new.tokens ≡ out.old.tokens ++ tokens_of (with_session session offset tags.now)) }
    ensures before { out.new.before ≡ out.old.before }
{
    match tags {
        [] => {
            out.begin_object()?;
            put_session(alloc, out, session)?;
        }
        [tag, reason @ ..] => put_with_reason(alloc, out, tag, reason, offset, session)?,
    }
    Ok(())
}

fn put_error(alloc: Global, out: &mut Writer, refusal: &Refusal) -> Result<(), NoMemory>
    ensures tokens { OnOk result (out.new.tokens ≡ out.old.tokens ++ tokens_of (error_data refusal.now)) }
    ensures before { out.new.before ≡ out.old.before }
{
    let tags = refusal.tags.as_slice();
    match refusal.session {
        None => put_nested(out, tags, refusal.offset),
        Some(session) => put_with_session(alloc, out, tags, refusal.offset, session),
    }
}

/// A refusal's error and its summary, and the end of their object.
pub(crate) fn put_refusal(
    alloc: Global,
    out: &mut Writer,
    refusal: &Refusal,
) -> Result<(), NoMemory>
    ensures tokens { OnOk result (out.new.tokens ≡ out.old.tokens ++ fields_tokens (refusal_fields refusal.now)) }
    ensures before { out.new.before ≡ out.old.before }
{
    let summary = summary_text(alloc, refusal.tags.as_slice())?;
    out.key("error")?;
    put_error(alloc, out, refusal)?;
    put_text(out, "error_summary", &summary)?;
    out.end_object()?;
    Ok(())
}
