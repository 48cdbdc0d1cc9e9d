//! The texts of replies. Where `close` is set they say that the connection ends.
ghost use Rattle.std.specs.Prelude.{◌≡◌, IfOk, true};
ghost use Rattle.http_out.specs.Reply.{IsReplyStatus};
ghost use Rattle.session_rules.specs.Judged.{fault_said};
ghost use Rattle.session_rules.specs.Replies.{answered, bad_request, body_too_large, head_too_large, interim_text, mismatch_answer, plain, status_of, text_of, too_large_answer};

use crate::deciding::HeadFault;
use crate::looking::error_of;
use api_json::write;
use api_types::Answer;
use fh_model::NoMemory;
use http_in::is_content_target;
use http_out::{
    BAD_REQUEST, BODY_TOO_LARGE, BodyKind, HEAD_TOO_LARGE, INVALID_TOKEN, METHOD_NOT_ALLOWED,
    UNKNOWN_ROUTE, reply,
};
use std::alloc::Global;

fn status_of(answer: &Answer) -> u16
    ensures status { result ≡ status_of answer.now }
    ensures is { IsReplyStatus result }
{
    match answer {
        Answer::Tagged(_) => 200,
        Answer::Plain(_) => 200,
        Answer::Wrapped { .. } => 200,
        Answer::Error(_) => 409,
    }
}

/// The reply that tells an answer.
pub fn answer_reply(alloc: Global, answer: &Answer, close: bool) -> Result<Vec<u8>, NoMemory>
    ensures { IfOk result (λ text. text.items ≡ text_of (answered answer.now) close) }
{
    let body = write(alloc, answer)?;
    reply(alloc, status_of(answer), BodyKind::Json, &body, close)
}

/// The reply to an argument that was not read, with this plain text.
pub fn complaint_reply(alloc: Global, complaint: &[u8], close: bool) -> Result<Vec<u8>, NoMemory>
    ensures { IfOk result (λ text. text.items ≡ text_of (plain 400 complaint.now) close) }
{
    reply(alloc, 400, BodyKind::Plain, complaint, close)
}

/// The reply to a request that is refused by its head.
pub fn fault_reply(alloc: Global, fault: HeadFault, close: bool) -> Result<Vec<u8>, NoMemory>
    ensures { IfOk result (λ text. text.items ≡ text_of (fault_said fault) close) }
{
    match fault {
        HeadFault::UnknownRoute => {
            reply(alloc, 404, BodyKind::Plain, UNKNOWN_ROUTE.as_bytes(), close)
        }
        HeadFault::NotPost => {
            reply(
                alloc,
                405,
                BodyKind::Plain,
                METHOD_NOT_ALLOWED.as_bytes(),
                close,
            )
        }
        HeadFault::NoToken => reply(alloc, 401, BodyKind::Json, INVALID_TOKEN.as_bytes(), close),
    }
}

/// The reply to bytes that begin no request, after which the connection ends.
pub fn bad_request_reply(alloc: Global) -> Result<Vec<u8>, NoMemory>
    ensures { IfOk result (λ text. text.items ≡ text_of bad_request true) }
{
    reply(alloc, 400, BodyKind::Plain, BAD_REQUEST.as_bytes(), true)
}

/// The reply to a head past a limit, after which the connection ends.
pub fn head_too_large_reply(alloc: Global) -> Result<Vec<u8>, NoMemory>
    ensures { IfOk result (λ text. text.items ≡ text_of head_too_large true) }
{
    reply(alloc, 431, BodyKind::Plain, HEAD_TOO_LARGE.as_bytes(), true)
}

/// What is told of a content past a limit.
#[tactic(auto, unfolding(crate::specs::Replies::too_large_answer))]
pub(crate) fn too_large_answer(alloc: Global) -> Result<Answer, NoMemory>
    ensures { IfOk result (λ answer. answer ≡ too_large_answer) }
{
    error_of(alloc, &["payload_too_large"])
}

/// What is told where the content isn't the one that was announced.
#[tactic(auto, unfolding(crate::specs::Replies::mismatch_answer))]
pub(crate) fn mismatch_answer(alloc: Global) -> Result<Answer, NoMemory>
    ensures { IfOk result (λ answer. answer ≡ mismatch_answer) }
{
    error_of(alloc, &["content_hash_mismatch"])
}

/// The reply to a body past the limit of its target, after which the connection ends.
pub fn body_too_large_reply(alloc: Global, target: &[u8]) -> Result<Vec<u8>, NoMemory>
    ensures { IfOk result (λ text. text.items ≡ text_of (body_too_large target.now) true) }
{
    if is_content_target(target) {
        let answer = too_large_answer(alloc)?;
        return answer_reply(alloc, &answer, true);
    }
    reply(alloc, 413, BodyKind::Plain, BODY_TOO_LARGE.as_bytes(), true)
}

/// The text that tells a sender who waits to send the body. It is no reply.
pub fn interim() -> &'static [u8]
    ensures { result.now ≡ interim_text }
{
    b"HTTP/1.1 100 Continue\r\n\r\n"
}
