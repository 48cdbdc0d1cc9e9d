//! What is answered where the content of a file is asked for.
ghost use Rattle.std.specs.Prelude.{◌≡◌, List, IfOk};
ghost use Rattle.fh_model.specs.declared.files.FileMeta.{FileMeta};
ghost use Rattle.fh_model.specs.declared.names.Name.{Name};
ghost use Rattle.fh_model.specs.declared.replies.Entry.TheVariants as entry;
ghost use Rattle.fh_model.specs.Content.{size_of};
ghost use Rattle.fh_model.specs.History.{state_of};
ghost use Rattle.fh_model.specs.KeptFiles.{IsKept};
ghost use Rattle.fh_model.specs.Resolve.{resolve};
ghost use Rattle.api_types.specs.declared.answer.Answer.TheVariants.{Plain};
ghost use Rattle.session_rules.specs.Replies.{head_of, load_at, load_of, metadata_of, no_load};

use crate::looking::path_error;
use api_json::write;
use api_types::Answer;
use fh_model::{Entry, FileMeta, Found, Names, NoMemory, Node, Text};
use http_out::{download_head, header_safe};
use name_core::{Image, LookFault};
use std::alloc::Global;

/// What a path comes to whose content is asked for.
#[derive(Debug, Drop)]
pub enum Load {
    /// There is no content, and this is answered.
    Answered(Answer),

    /// The content of this version of a file, which stands at these names in the user's view.
    File { names: Names, meta: FileMeta },
}

fn no_load(alloc: Global, tag: &str) -> Result<Load, NoMemory>
    ensures { IfOk result (λ load. load ≡ no_load tag.now) }
{
    let answer = path_error(alloc, tag)?;
    Ok(Load::Answered(answer))
}

fn load_at(alloc: Global, names: Names, node: Option<Node>) -> Result<Load, NoMemory>
    ensures { IfOk result (λ load. load ≡ load_at names node) }
{
    match node {
        Some(Node::File(meta)) => Ok(Load::File { names, meta }),
        Some(Node::Folder { .. }) => no_load(alloc, "not_file"),
        Some(Node::Mount { .. }) => no_load(alloc, "not_file"),
        None => no_load(alloc, "not_file"),
    }
}

/// What a path of a user comes to whose content is asked for, as an image has it. A file is the version that the image
/// keeps under its rev, and its size is that of its pieces.
pub fn load_of(alloc: Global, image: &Image, user: u64, path: &Text) -> Result<Load, NoMemory>
    ensures load { IfOk result (λ load. load ≡ load_of (resolve (state_of image.now) user path.now)) }
    ensures file { IfOk result (λ load. (names : List Name) (meta : FileMeta) → load ≡ Load.File names meta → IsKept (state_of image.now) meta × (meta.size ≡ size_of meta.pieces)) }
{
    match image.resolve(user, path) {
        Ok(found) => {
            let Found { names, node, .. } = found;
            load_at(alloc, names, node)
        }
        Err(LookFault::Malformed) => no_load(alloc, "malformed_path"),
        Err(LookFault::NotFound) => no_load(alloc, "not_found"),
        Err(LookFault::NoMemory) => Err(NoMemory),
    }
}

/// What a download's head tells of the file.
#[tactic(auto, unfolding(crate::specs::Replies::metadata_of))]
fn metadata(alloc: Global, answer: &Answer) -> Result<Text, NoMemory>
    ensures { IfOk result (λ text. text ≡ metadata_of answer.now) }
{
    let body = write(alloc, answer)?;
    match str::from_utf8(&body) {
        Ok(json) => header_safe(alloc, json),
        Err(_) => unreachable!(),
    }
}

/// The reply that sends the content of this version of a file, up to the content.
pub fn load_head(
    alloc: Global,
    names: Names,
    meta: FileMeta,
    close: bool,
) -> Result<Vec<u8>, NoMemory>
    ensures { IfOk result (λ text. text.items ≡ head_of (Plain (entry.File names meta)) meta.size close) }
{
    let size = meta.size;
    let answer = Answer::Plain(Entry::File { names, meta });
    let text = metadata(alloc, &answer)?;
    download_head(alloc, &text, size, close)
}
