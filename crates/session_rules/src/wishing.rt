//! What a request comes to, where nothing refuses it by its head.
ghost use Rattle.std.specs.Prelude.{◌≡◌, ◌≤◌, List, ℕ, length, IfOk, IfSome, None, true, option_map};
ghost use Rattle.api_types.specs.Routes.{has_content};
ghost use Rattle.fh_model.specs.declared.limits.TheConstants.{BLOCK_BYTES};
ghost use Rattle.fh_model.specs.Content.{IsDigestOf};
ghost use Rattle.session_rules.specs.Decisions.{argued, argued_by, asked_for, is_announced, uploads};
ghost use Rattle.session_rules.specs.Judged.{IsBody, IsDecision, IsDigested};

use crate::asking::{Asked, asked_of};
use crate::replying::{mismatch_answer, too_large_answer};
use api_types::{Answer, Request, Route};
use content_hash::of_block;
use fh_model::{Act, BLOCK_BYTES, Bytes32, Commit, NoMemory, Text};
use std::alloc::Global;

/// What a request comes to by its argument and its content.
#[derive(Debug, Drop)]
pub enum Wish {
    /// It is refused for its argument, with this plain text.
    Refused(Vec<u8>),

    /// It is refused for its content, with this answer.
    Answered(Answer),

    /// A command is to enter. Its data are those that `Act::data_in` gives, with their digest where it was taken.
    Enter { act: Act, digest: Option<Bytes32> },

    /// A path is to be looked up for a user.
    Look { user: u64, path: Text },

    /// The content of what a path of a user leads to is to be sent.
    Load { user: u64, path: Text },
}

/// Whether a content of at most a block is the one that was announced, if one was, and its digest where it was taken.
fn is_announced(hash: Option<Bytes32>, content: &[u8]) -> (bool, Option<Bytes32>)
    requires { length content.now ≤ BLOCK_BYTES }
    ensures announced { result.0 ≡ is_announced hash content.now }
    ensures digest { IsDigestOf content.now result.1 }
{
    match hash {
        Some(hash) => {
            let (digest, found) = of_block(content);
            (hash.bytes.as_slice() == found.bytes.as_slice(), digest)
        }
        None => (true, None),
    }
}

/// What an upload comes to, by its content, which is gone where it had more than one block.
#[tactic(auto, using(crate::proofs::Uploads::uploads_large, crate::proofs::Uploads::uploads_another, crate::proofs::Uploads::uploads_announced))]
fn upload_wish(
    alloc: Global,
    user: u64,
    commit: Commit,
    hash: Option<Bytes32>,
    body: Option<&[u8]>,
) -> Result<Wish, NoMemory>
    ensures decision { (content : List ℕ) → IsBody (option_map (λ bytes. bytes.now) body.entry) content → IfOk result (λ wish. IsDecision wish content (uploads user commit hash content)) }
    ensures digest { IfSome body.entry (λ bytes. IfOk result (λ wish. IsDigested wish bytes.now)) }
{
    let Some(body) = body else {
        let answer = too_large_answer(alloc)?;
        return Ok(Wish::Answered(answer));
    };
    if body.len() > BLOCK_BYTES {
        let answer = too_large_answer(alloc)?;
        return Ok(Wish::Answered(answer));
    }
    let (announced, digest) = is_announced(hash, body);
    if !announced {
        let answer = mismatch_answer(alloc)?;
        return Ok(Wish::Answered(answer));
    }
    let act = Act::Upload {
        user,
        commit,
        drafted: 0,
        last: None,
    };
    Ok(Wish::Enter { act, digest })
}

fn wish_for(
    alloc: Global,
    user: u64,
    request: Request,
    body: Option<&[u8]>,
) -> Result<Wish, NoMemory>
    ensures decision { (content : List ℕ) → IsBody (option_map (λ bytes. bytes.now) body.entry) content → IfOk result (λ wish. IsDecision wish content (asked_for user content request)) }
    ensures digest { IfSome body.entry (λ bytes. IfOk result (λ wish. IsDigested wish bytes.now)) }
{
    match request {
        Request::CreateFolder { path, autorename } => Ok(Wish::Enter {
            act: Act::MakeFolder {
                user,
                path,
                rename: autorename,
            },
            digest: None,
        }),
        Request::GetMetadata { path } => Ok(Wish::Look { user, path }),
        Request::Upload {
            commit,
            content_hash,
        } => upload_wish(alloc, user, commit, content_hash, body),
        Request::Download { path } => Ok(Wish::Load { user, path }),
    }
}

fn wish_by(
    alloc: Global,
    route: Route,
    user: u64,
    argument: Option<&[u8]>,
    body: Option<&[u8]>,
) -> Result<Wish, NoMemory>
    ensures decision { (content : List ℕ) → IsBody (option_map (λ bytes. bytes.now) body.entry) content → IfOk result (λ wish. IsDecision wish content (argued_by route user content (option_map (λ bytes. bytes.now) argument.entry))) }
    ensures digest { IfSome body.entry (λ bytes. IfOk result (λ wish. IsDigested wish bytes.now)) }
{
    let asked = asked_of(alloc, route, argument)?;
    match asked {
        Asked::Request(request) => wish_for(alloc, user, request, body),
        Asked::Refused(text) => Ok(Wish::Refused(text)),
    }
}

/// Decides for a user who calls a route: by the argument's header, if there is one, and by the body. Only a body that is
/// a content may have more than one block; then it needn't be at hand.
pub fn wish_of(
    alloc: Global,
    route: Route,
    user: u64,
    arg: Option<&[u8]>,
    body: Option<&[u8]>,
) -> Result<Wish, NoMemory>
    requires { option_map (λ bytes. bytes.now) body ≡ None → has_content route ≡ true }
    ensures decision { (content : List ℕ) → IsBody (option_map (λ bytes. bytes.now) body.entry) content → IfOk result (λ wish. IsDecision wish content (argued route user (option_map (λ bytes. bytes.now) arg.entry) content)) }
    ensures digest { IfSome body.entry (λ bytes. IfOk result (λ wish. IsDigested wish bytes.now)) }
{
    if route.has_content() {
        return wish_by(alloc, route, user, arg, body);
    }
    wish_by(alloc, route, user, body, body)
}
