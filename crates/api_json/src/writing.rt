//! Writes the body of a reply.
ghost use Rattle.std.specs.Prelude.{◌≡◌, ◌++◌, IfOk, IsUtf8, OnOk};
ghost use Rattle.api_json.specs.Answers.{answer_data, answer_text};
ghost use Rattle.api_json.specs.Tokens.{tokens_of};

use crate::entries::put_entry;
use crate::refusals::put_refusal;
use api_types::Answer;
use fh_model::NoMemory;
use json::Writer;
use std::alloc::Global;

/// The room that a body is given at first, which an entry with short names doesn't pass.
const USUAL_BODY_BYTES: usize = 256;

fn put_answer(alloc: Global, out: &mut Writer, answer: &Answer) -> Result<(), NoMemory>
    ensures tokens { OnOk result (out.new.tokens ≡ out.old.tokens ++ tokens_of (answer_data answer.now)) }
    ensures before { out.new.before ≡ out.old.before }
{
    match answer {
        Answer::Tagged(entry) => put_entry(alloc, out, entry, true),
        Answer::Plain(entry) => put_entry(alloc, out, entry, false),
        Answer::Wrapped { entry, tagged } => {
            out.begin_object()?;
            out.key("metadata")?;
            put_entry(alloc, out, entry, *tagged)?;
            out.end_object()?;
            Ok(())
        }
        Answer::Error(refusal) => {
            out.begin_object()?;
            put_refusal(alloc, out, refusal)
        }
    }
}

/// The body of a reply that tells an answer: compact JSON, with keys in byte order.
pub fn write(alloc: Global, answer: &Answer) -> Result<Vec<u8>, NoMemory>
    ensures text { IfOk result (λ text. text.items ≡ answer_text answer.now) }
    ensures utf8 { IfOk result (λ text. IsUtf8 text.items) }
{
    let mut out = Writer::new(Vec::with_capacity(alloc, USUAL_BODY_BYTES)?);
    put_answer(alloc, &mut out, answer)?;
    Ok(out.into_inner())
}
