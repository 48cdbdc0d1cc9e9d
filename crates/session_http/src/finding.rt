//! Looks at the machine.
ghost use Rattle.std.specs.Prelude.{◌≡◌, List, IfOk, option_and_then, option_map};
ghost use Rattle.fh_model.specs.declared.files.FileMeta.{FileMeta};
ghost use Rattle.fh_model.specs.declared.names.Name.{Name};
ghost use Rattle.fh_model.specs.Content.{size_of};
ghost use Rattle.fh_model.specs.History.{state_of};
ghost use Rattle.fh_model.specs.KeptFiles.{IsKept};
ghost use Rattle.fh_model.specs.Resolve.{resolve};
ghost use Rattle.fh_model.specs.State.{token_user};
ghost use Rattle.host_seat.specs.Port.{OthersEnter};
ghost use Rattle.session_rules.specs.Replies.{answer_to_look, load_of};

use api_types::Answer;
use fh_model::{NoMemory, Text};
use host_seat::Port;
use http_in::Head;
use session_rules::{Load, load_of, look_answer, user_of};
use std::alloc::Global;

/// The user whose token the head carries, as the machine stands now.
#[tactic(auto, using(crate::proofs::Callers::others_looked))]
pub(crate) fn find_user<P: Port>(port: &mut P, head: &Head) -> Result<Option<u64>, NoMemory>
    ensures user { IfOk result (λ user. user ≡ option_and_then (token_user (state_of (P.seen port.new))) (option_map (λ token. token.items) head.now.token)) }
    ensures point { OthersEnter P.alone (P.seen port.old) (P.seen port.new) }
    ensures waits { P.waits port.new ≡ P.waits port.old }
    ensures blocks { P.blocks port.new ≡ P.blocks port.old }
    ensures number { P.number port.new ≡ P.number port.old }
    ensures faults { P.faults port.new ≡ P.faults port.old }
    ensures went { P.went port.old port.new }
{
    match port.look() {
        Ok(image) => Ok(user_of(&image, head)),
        Err(NoMemory) => Err(NoMemory),
    }
}

/// What is told of a path that is looked up, as the machine stands now.
#[tactic(auto, using(crate::proofs::Callers::others_looked))]
pub(crate) fn find_answer<P: Port>(
    alloc: Global,
    port: &mut P,
    user: u64,
    path: &Text,
) -> Result<Answer, NoMemory>
    ensures answer { IfOk result (λ answer. answer ≡ answer_to_look (resolve (state_of (P.seen port.new)) user path.now)) }
    ensures point { OthersEnter P.alone (P.seen port.old) (P.seen port.new) }
    ensures waits { P.waits port.new ≡ P.waits port.old }
    ensures blocks { P.blocks port.new ≡ P.blocks port.old }
    ensures number { P.number port.new ≡ P.number port.old }
    ensures faults { P.faults port.new ≡ P.faults port.old }
    ensures went { P.went port.old port.new }
{
    match port.look() {
        Ok(image) => look_answer(alloc, &image, user, path),
        Err(NoMemory) => Err(NoMemory),
    }
}

/// What a path leads to whose content is asked for, as the machine stands now.
#[tactic(auto, using(crate::proofs::Callers::others_looked))]
pub(crate) fn find_load<P: Port>(
    alloc: Global,
    port: &mut P,
    user: u64,
    path: &Text,
) -> Result<Load, NoMemory>
    ensures load { IfOk result (λ load. load ≡ load_of (resolve (state_of (P.seen port.new)) user path.now)) }
    ensures file { IfOk result (λ load. (names : List Name) (meta : FileMeta) → load ≡ Load.File names meta → IsKept (state_of (P.seen port.new)) meta × (meta.size ≡ size_of meta.pieces)) }
    ensures point { OthersEnter P.alone (P.seen port.old) (P.seen port.new) }
    ensures waits { P.waits port.new ≡ P.waits port.old }
    ensures blocks { P.blocks port.new ≡ P.blocks port.old }
    ensures number { P.number port.new ≡ P.number port.old }
    ensures faults { P.faults port.new ≡ P.faults port.old }
    ensures went { P.went port.old port.new }
{
    match port.look() {
        Ok(image) => load_of(alloc, &image, user, path),
        Err(NoMemory) => Err(NoMemory),
    }
}
