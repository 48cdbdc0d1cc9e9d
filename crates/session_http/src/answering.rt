//! Answers a request that was read whole.
ghost use Rattle.std.specs.Prelude.{◌≡◌, ◌≤◌, ◌+◌, ◌∷◌, [], length, List, ℕ, None, true, IsTrue, IfOk, IfSome, OnOk, OnErr, IsErrOf, option_map};
ghost use Rattle.cmd_codec.specs.Commands.{HasSpelling};
ghost use Rattle.fh_world.specs.Causes.{Rose};
ghost use Rattle.fh_model.specs.declared.limits.TheConstants.{BLOCK_BYTES};
ghost use Rattle.fh_model.specs.declared.replies.Reply.{Reply};
ghost use Rattle.fh_model.specs.Content.{IsDigestOf};
ghost use Rattle.fh_model.specs.History.{state_of};
ghost use Rattle.api_types.specs.Routes.{has_content};
ghost use Rattle.host_seat.specs.Port.{Commits, KeepsPieces, Leaves, OthersEnter, PutsData, placed_at};
ghost use Rattle.session_rules.specs.Connection.{cmd_of};
ghost use Rattle.session_rules.specs.Decisions.{argued, decided, enters, loads, looks};
ghost use Rattle.session_rules.specs.Judged.{IsBody};
ghost use Rattle.session_rules.specs.Replies.{answer_to, answered, text_of};
ghost use Rattle.session_http.specs.Bodies.{Holds};
ghost use Rattle.session_http.specs.Points.{Answers, Calls, IsHeadOfFile, IsStuck, IsText, Misses, called_as, called_if};

use crate::bodies::Body;
use crate::finding::{find_answer, find_load, find_user};
use api_types::{Answer, Route};
use cmd_codec::has_spelling;
use fh_model::{Act, Bytes32, Cmd, FileMeta, LAST_SECOND, Names, NoMemory, Text};
use host_seat::{CommitFault, Port};
use http_in::Head;
use session_rules::{
    Caller, HeadFault, Load, Wish, act_answer, answer_reply, call_of, complaint_reply, fault_reply,
    form_of, load_head, wish_of,
};
use std::alloc::Global;

/// Who calls which route, or why nobody does.
pub(crate) type Call = Result<(Route, u64), HeadFault>;

/// What a request is answered.
#[derive(Drop)]
pub(crate) enum Answered {
    /// A text.
    Text(Vec<u8>),

    /// A head, and the content of the version with this rev, which has so many blocks.
    Content { head: Vec<u8>, rev: u64, count: u32 },
}

/// Decides who calls which route. Tokens are looked up only where the head's isn't the admin word.
#[tactic(auto, using(crate::proofs::Callers::calls_missed))]
pub(crate) fn find_caller<P: Port>(
    port: &mut P,
    admin: &Text,
    head: &Head,
) -> Result<Call, NoMemory>
    ensures calls { Calls P.alone admin.now (P.seen port.old) (P.seen port.new) head.now.method.items head.now.target.items (option_map (λ token. token.items) head.now.token) (called_if result) }
    ensures waits { P.waits port.new ≡ P.waits port.old }
    ensures blocks { P.blocks port.new ≡ P.blocks port.old }
    ensures number { P.number port.new ≡ P.number port.old }
    ensures faults { P.faults port.new ≡ P.faults port.old }
    ensures went { P.went port.old port.new }
{
    match call_of(admin, head) {
        Caller::Refused(fault) => Ok(Err(fault)),
        Caller::User(route, user) => Ok(Ok((route, user))),
        Caller::Bearer(route) => match find_user(port, head) {
            Ok(Some(user)) => Ok(Ok((route, user))),
            Ok(None) => Ok(Err(HeadFault::NoToken)),
            Err(NoMemory) => Err(NoMemory),
        },
    }
}

/// A reply that is a text, where memory served for it.
fn told(reply: Result<Vec<u8>, NoMemory>) -> Result<Answered, CommitFault>
    ensures text { (bytes : List ℕ) → IfOk reply (λ text. text.items ≡ bytes) → IfOk result (IsText bytes) }
    ensures quiet { ¬ IsErrOf result CommitFault.Disk }
{
    match reply {
        Ok(text) => Ok(Answered::Text(text)),
        Err(NoMemory) => Err(CommitFault::NoMemory),
    }
}

/// The reply that tells an answer.
fn tell(alloc: Global, answer: Answer, close: bool) -> Result<Answered, CommitFault>
    ensures text { IfOk result (IsText (text_of (answered answer) close)) }
    ensures quiet { ¬ IsErrOf result CommitFault.Disk }
{
    told(answer_reply(alloc, &answer, close))
}

/// Looks a path up, and gives the reply.
#[tactic(auto, using(crate::proofs::Callers::misses_waited))]
fn look<P: Port>(
    alloc: Global,
    port: &mut P,
    user: u64,
    path: &Text,
    close: bool,
) -> Result<Answered, CommitFault>
    ensures ok { (seat at : ℕ) → IfOk result (λ answered. Answers P.alone seat at (P.seen port.old) (P.seen port.new) (P.blocks port.old) (P.blocks port.new) (looks user path.now) close answered) }
    ensures memory { (seat at : ℕ) → IsErrOf result CommitFault.NoMemory → Misses P.alone seat at (P.seen port.old) (P.seen port.new) (P.blocks port.old) (P.blocks port.new) (looks user path.now) }
    ensures quiet { ¬ IsErrOf result CommitFault.Disk }
    ensures waits { P.waits port.new ≡ P.waits port.old }
    ensures number { P.number port.new ≡ P.number port.old }
    ensures faults { P.faults port.new ≡ P.faults port.old }
    ensures went { P.went port.old port.new }
{
    match find_answer(alloc, port, user, path) {
        Ok(answer) => tell(alloc, answer, close),
        Err(NoMemory) => Err(CommitFault::NoMemory),
    }
}

/// The head of the reply that sends a file, and what its content is fetched by.
fn head_of_file(
    alloc: Global,
    names: Names,
    meta: FileMeta,
    close: bool,
) -> Result<Answered, CommitFault>
    ensures file { IfOk result (λ answered. IsHeadOfFile names meta close answered) }
    ensures quiet { ¬ IsErrOf result CommitFault.Disk }
{
    let rev = meta.rev;
    // No file has 2^32 blocks, which would be 16 PiB.
    let Ok(count) = u32::try_from(meta.pieces.as_slice().len()) else {
        return Err(CommitFault::NoMemory);
    };
    let head = load_head(alloc, names, meta, close)?;
    Ok(Answered::Content { head, rev, count })
}

/// Looks a path up whose content is asked for, and gives the head of the reply, or the whole of it where there is no
/// content.
#[tactic(auto, using(crate::proofs::Callers::misses_waited))]
fn load<P: Port>(
    alloc: Global,
    port: &mut P,
    user: u64,
    path: &Text,
    close: bool,
) -> Result<Answered, CommitFault>
    ensures ok { (seat at : ℕ) → IfOk result (λ answered. Answers P.alone seat at (P.seen port.old) (P.seen port.new) (P.blocks port.old) (P.blocks port.new) (loads user path.now) close answered) }
    ensures memory { (seat at : ℕ) → IsErrOf result CommitFault.NoMemory → Misses P.alone seat at (P.seen port.old) (P.seen port.new) (P.blocks port.old) (P.blocks port.new) (loads user path.now) }
    ensures quiet { ¬ IsErrOf result CommitFault.Disk }
    ensures waits { P.waits port.new ≡ P.waits port.old }
    ensures number { P.number port.new ≡ P.number port.old }
    ensures faults { P.faults port.new ≡ P.faults port.old }
    ensures went { P.went port.old port.new }
{
    match find_load(alloc, port, user, path) {
        Ok(Load::Answered(answer)) => tell(alloc, answer, close),
        Ok(Load::File { names, meta }) => head_of_file(alloc, names, meta, close),
        Err(NoMemory) => Err(CommitFault::NoMemory),
    }
}

/// Lets the command of an act enter with these data, and gives what is told of it.
fn commit<P: Port>(
    port: &mut P,
    at: u64,
    act: Act,
    bytes: &[u8],
    digest: Option<Bytes32>,
) -> Result<Answer, CommitFault>
    requires spelled { HasSpelling (record { seat = P.number port.old; at = at; act = act }) }
    requires few { length bytes.now ≤ BLOCK_BYTES }
    requires digest { IsDigestOf bytes.now digest }
    ensures point { IfOk result (λ answer. (reply : Reply) × Commits P.alone (P.seen port.old) (P.seen port.new) (cmd_of (P.number port.old) at act) bytes.now reply × (answer ≡ answer_to act reply)) }
    ensures settled { OnOk result (Leaves (P.waits port.old) [] (P.waits port.new)) }
    ensures fault { OnErr result (OthersEnter P.alone (P.seen port.old) (P.seen port.new)) }
    ensures disk { IsErrOf result CommitFault.Disk → Rose (P.faults port.old) (P.faults port.new) × Leaves (P.waits port.old) (placed_at (P.seen port.old) bytes.now (cmd_of (P.number port.old) at act) ∷ []) (P.waits port.new) }
    ensures memory { IsErrOf result CommitFault.NoMemory → Leaves (P.waits port.old) [] (P.waits port.new) }
    ensures stored { OnOk result (IsTrue P.alone → PutsData (state_of (P.seen port.old)) (cmd_of (P.number port.old) at act) bytes.now (P.blocks port.old) (P.blocks port.new)) }
    ensures below { IsTrue P.alone → KeepsPieces (state_of (P.seen port.old)) (P.blocks port.old) (P.blocks port.new) }
    ensures number { P.number port.new ≡ P.number port.old }
    ensures later { P.faults port.old ≤ P.faults port.new }
    ensures told { ¬ IsErrOf result CommitFault.Disk → P.faults port.new ≡ P.faults port.old }
    ensures once { P.faults port.new ≤ P.faults port.old + 1 }
    ensures went { P.went port.old port.new }
{
    let form = form_of(&act);
    let reply = port.commit(at, act, bytes, digest)?;
    Ok(act_answer(form, reply))
}

/// Lets the command of an act enter with these data, and gives the reply.
#[tactic(auto, using(crate::proofs::Callers::misses_still, crate::proofs::Callers::misses_others, crate::proofs::Callers::stuck_at))]
fn enter<P: Port>(
    alloc: Global,
    port: &mut P,
    at: u64,
    act: Act,
    bytes: &[u8],
    digest: Option<Bytes32>,
    close: bool,
) -> Result<Answered, CommitFault>
    requires second { at ≤ LAST_SECOND }
    requires few { length bytes.now ≤ BLOCK_BYTES }
    requires digest { IsDigestOf bytes.now digest }
    ensures ok { IfOk result (λ answered. Answers P.alone (P.number port.old) at (P.seen port.old) (P.seen port.new) (P.blocks port.old) (P.blocks port.new) (enters act bytes.now) close answered) }
    ensures memory { IsErrOf result CommitFault.NoMemory → Misses P.alone (P.number port.old) at (P.seen port.old) (P.seen port.new) (P.blocks port.old) (P.blocks port.new) (enters act bytes.now) }
    ensures disk { IsErrOf result CommitFault.Disk → IsStuck P.alone (P.number port.old) at (P.seen port.old) (P.seen port.new) (P.blocks port.old) (P.blocks port.new) (P.waits port.old) (P.waits port.new) (enters act bytes.now) × Rose (P.faults port.old) (P.faults port.new) }
    ensures waits { (IsErrOf result CommitFault.Disk → ⊥) → Leaves (P.waits port.old) [] (P.waits port.new) }
    ensures number { P.number port.new ≡ P.number port.old }
    ensures later { P.faults port.old ≤ P.faults port.new }
    ensures told { ¬ IsErrOf result CommitFault.Disk → P.faults port.new ≡ P.faults port.old }
    ensures once { P.faults port.new ≤ P.faults port.old + 1 }
    ensures went { P.went port.old port.new }
{
    // No text of a body is as long as 2^32 bytes, which the limits of bodies see to.
    let cmd = Cmd { seat: 0, at, act };
    if !has_spelling(&cmd) {
        return Err(CommitFault::NoMemory);
    }
    let Cmd { act, .. } = cmd;
    match commit(port, at, act, bytes, digest) {
        Ok(answer) => tell(alloc, answer, close),
        Err(fault) => Err(fault),
    }
}

/// Does what the argument asks for, for a user who calls a route, and gives the reply. Only a content may not be at hand.
fn carry_out<P: Port>(
    alloc: Global,
    port: &mut P,
    at: u64,
    caller: (Route, u64),
    arg: Option<&[u8]>,
    body: Option<&[u8]>,
    close: bool,
) -> Result<Answered, CommitFault>
    requires second { at ≤ LAST_SECOND }
    requires body { option_map (λ bytes. bytes.now) body ≡ None → has_content caller.0 ≡ true }
    requires few { IfSome body (λ bytes. length bytes.now ≤ BLOCK_BYTES) }
    ensures ok { (content : List ℕ) → IsBody (option_map (λ bytes. bytes.now) body.entry) content → IfOk result (λ answered. Answers P.alone (P.number port.old) at (P.seen port.old) (P.seen port.new) (P.blocks port.old) (P.blocks port.new) (argued caller.0 caller.1 (option_map (λ bytes. bytes.now) arg.entry) content) close answered) }
    ensures memory { (content : List ℕ) → IsBody (option_map (λ bytes. bytes.now) body.entry) content → IsErrOf result CommitFault.NoMemory → Misses P.alone (P.number port.old) at (P.seen port.old) (P.seen port.new) (P.blocks port.old) (P.blocks port.new) (argued caller.0 caller.1 (option_map (λ bytes. bytes.now) arg.entry) content) }
    ensures disk { (content : List ℕ) → IsBody (option_map (λ bytes. bytes.now) body.entry) content → IsErrOf result CommitFault.Disk → IsStuck P.alone (P.number port.old) at (P.seen port.old) (P.seen port.new) (P.blocks port.old) (P.blocks port.new) (P.waits port.old) (P.waits port.new) (argued caller.0 caller.1 (option_map (λ bytes. bytes.now) arg.entry) content) × Rose (P.faults port.old) (P.faults port.new) }
    ensures waits { (IsErrOf result CommitFault.Disk → ⊥) → Leaves (P.waits port.old) [] (P.waits port.new) }
    ensures number { P.number port.new ≡ P.number port.old }
    ensures later { P.faults port.old ≤ P.faults port.new }
    ensures told { ¬ IsErrOf result CommitFault.Disk → P.faults port.new ≡ P.faults port.old }
    ensures once { P.faults port.new ≤ P.faults port.old + 1 }
    ensures went { P.went port.old port.new }
{
    let (route, user) = caller;
    match wish_of(alloc, route, user, arg, body) {
        Ok(Wish::Refused(text)) => told(complaint_reply(alloc, &text, close)),
        Ok(Wish::Answered(answer)) => tell(alloc, answer, close),
        Ok(Wish::Enter { act, digest }) => {
            // An act whose content isn't at hand was answered that it is too large.
            let Some(body) = body else {
                return Err(CommitFault::NoMemory);
            };
            let data = act.data_in(body);
            enter(alloc, port, at, act, data, digest, close)
        }
        Ok(Wish::Look { user, path }) => look(alloc, port, user, &path, close),
        Ok(Wish::Load { user, path }) => load(alloc, port, user, &path, close),
        Err(NoMemory) => Err(CommitFault::NoMemory),
    }
}

/// Answers a request that was read whole, at its point. Where its body was to be kept and is gone, memory was wanting.
pub(crate) fn respond<P: Port>(
    alloc: Global,
    port: &mut P,
    at: u64,
    call: Call,
    arg: Option<&[u8]>,
    taken: (Body, &[u8]),
    close: bool,
) -> Result<Answered, CommitFault>
    requires second { at ≤ LAST_SECOND }
    requires few { length taken.1.now ≤ BLOCK_BYTES }
    ensures ok { (content : List ℕ) → Holds taken.entry.0 taken.entry.1.now content → IfOk result (λ answered. Answers P.alone (P.number port.old) at (P.seen port.old) (P.seen port.new) (P.blocks port.old) (P.blocks port.new) (decided (option_map (λ bytes. bytes.now) arg.entry) content (called_as call)) close answered) }
    ensures memory { (content : List ℕ) → Holds taken.entry.0 taken.entry.1.now content → IsErrOf result CommitFault.NoMemory → Misses P.alone (P.number port.old) at (P.seen port.old) (P.seen port.new) (P.blocks port.old) (P.blocks port.new) (decided (option_map (λ bytes. bytes.now) arg.entry) content (called_as call)) }
    ensures disk { (content : List ℕ) → Holds taken.entry.0 taken.entry.1.now content → IsErrOf result CommitFault.Disk → IsStuck P.alone (P.number port.old) at (P.seen port.old) (P.seen port.new) (P.blocks port.old) (P.blocks port.new) (P.waits port.old) (P.waits port.new) (decided (option_map (λ bytes. bytes.now) arg.entry) content (called_as call)) × Rose (P.faults port.old) (P.faults port.new) }
    ensures waits { (IsErrOf result CommitFault.Disk → ⊥) → Leaves (P.waits port.old) [] (P.waits port.new) }
    ensures number { P.number port.new ≡ P.number port.old }
    ensures later { P.faults port.old ≤ P.faults port.new }
    ensures told { ¬ IsErrOf result CommitFault.Disk → P.faults port.new ≡ P.faults port.old }
    ensures once { P.faults port.new ≤ P.faults port.old + 1 }
    ensures went { P.went port.old port.new }
{
    let caller = match call {
        Ok(caller) => caller,
        Err(fault) => return told(fault_reply(alloc, fault, close)),
    };
    let (body, kept) = taken;
    match body {
        Body::Whole => carry_out(alloc, port, at, caller, arg, Some(kept), close),
        // Bodies that are no contents have a limit below a block.
        Body::Large if caller.0.has_content() => {
            carry_out(alloc, port, at, caller, arg, None, close)
        }
        Body::Large => Err(CommitFault::NoMemory),
        Body::Gone => Err(CommitFault::NoMemory),
    }
}
