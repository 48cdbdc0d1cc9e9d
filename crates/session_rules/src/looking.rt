//! What is answered of a reply of the machine, and of a look at it.
ghost use Rattle.std.specs.Prelude.{◌≡◌, IfOk, map};
ghost use Rattle.fh_model.specs.History.{state_of};
ghost use Rattle.fh_model.specs.Resolve.{resolve};
ghost use Rattle.session_rules.specs.Replies.{answer_at, answer_in, answer_to_look, entry_at, error_of, form_of, path_error};

use api_types::Answer;
use fh_model::{Act, Entry, Found, Items, Names, NoMemory, Node, Refusal, Reply, Text};
use name_core::{Image, LookFault};
use std::alloc::Global;

/// How the entry of an act is told.
#[derive(Clone, Copy, Debug, PartialEq, Eq)]
pub enum Form {
    /// Under `metadata`, without its tag.
    Wrapped,

    /// By itself, without its tag.
    Plain,
}

/// How the entry of this act is told.
pub fn form_of(act: &Act) -> Form
    ensures { result ≡ form_of act.now }
{
    match act {
        Act::MakeFolder { .. } => Form::Wrapped,
        Act::Upload { .. } => Form::Plain,
    }
}

/// What is told of the machine's reply to an act whose entry is told in this form.
pub fn act_answer(form: Form, reply: Reply) -> Answer
    ensures { result ≡ answer_in reply form }
{
    match reply {
        Reply::Entry(entry) => match form {
            Form::Wrapped => Answer::Wrapped {
                entry,
                tagged: false,
            },
            Form::Plain => Answer::Plain(entry),
        },
        Reply::Refused(refusal) => Answer::Error(refusal),
    }
}

/// A refusal with these tags.
pub(crate) fn error_of(alloc: Global, tags: &[&str]) -> Result<Answer, NoMemory>
    ensures { IfOk result (λ answer. answer ≡ error_of (map (λ tag. tag.now) tags.now)) }
{
    let mut texts = Vec::new(alloc);
    for tag in tags {
        texts.push(Text::new(String::from_str(alloc, tag)?))?;
    }
    Ok(Answer::Error(Refusal {
        tags: Items::new(texts),
        session: None,
        offset: None,
    }))
}

pub(crate) fn path_error(alloc: Global, tag: &str) -> Result<Answer, NoMemory>
    ensures { IfOk result (λ answer. answer ≡ path_error tag.now) }
{
    error_of(alloc, &["path", tag])
}

fn entry_at(names: Names, node: Node) -> Entry
    ensures { result ≡ entry_at names node }
{
    match node {
        Node::File(meta) => Entry::File { names, meta },
        Node::Folder { id } => Entry::Folder { names, id },
        Node::Mount { id, .. } => Entry::Folder { names, id },
    }
}

fn answer_at(alloc: Global, names: Names, node: Option<Node>) -> Result<Answer, NoMemory>
    ensures { IfOk result (λ answer. answer ≡ answer_at names node) }
{
    match node {
        None => path_error(alloc, "not_found"),
        Some(node) => Ok(Answer::Tagged(entry_at(names, node))),
    }
}

/// What is told of a path of a user, as an image has it.
pub fn look_answer(alloc: Global, image: &Image, user: u64, path: &Text) -> Result<Answer, NoMemory>
    ensures { IfOk result (λ answer. answer ≡ answer_to_look (resolve (state_of image.now) user path.now)) }
{
    match image.resolve(user, path) {
        Ok(found) => {
            let Found { names, node, .. } = found;
            answer_at(alloc, names, node)
        }
        Err(LookFault::Malformed) => path_error(alloc, "malformed_path"),
        Err(LookFault::NotFound) => path_error(alloc, "not_found"),
        Err(LookFault::NoMemory) => Err(NoMemory),
    }
}
