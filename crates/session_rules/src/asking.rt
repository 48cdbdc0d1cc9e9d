//! What an argument asks for.
ghost use Rattle.std.specs.Prelude.{◌≡◌, List, ℕ, IfOk, IfErr, option_map};
ghost use Rattle.session_rules.specs.Decisions.{argued_by};
ghost use Rattle.session_rules.specs.Judged.{asked_as};

use api_json::{ArgumentFault, ReadFault, complaint, read};
use api_types::{Request, Route};
use fh_model::NoMemory;
use std::alloc::Global;

/// What an argument asks for.
#[derive(Debug, Drop)]
pub(crate) enum Asked {
    Request(Request),

    /// Nothing: it is refused, with this plain text.
    Refused(Vec<u8>),
}

/// Reads the argument of a request to a route, if there is one.
pub(crate) fn asked_of(
    alloc: Global,
    route: Route,
    argument: Option<&[u8]>,
) -> Result<Asked, NoMemory>
    ensures { (user : ℕ) (content : List ℕ) → IfOk result (λ asked. argued_by route user content (option_map (λ bytes. bytes.now) argument.entry) ≡ asked_as asked user content) }
{
    let Some(argument) = argument else {
        let text = complaint(alloc, route, ArgumentFault::MissingHeader)?;
        return Ok(Asked::Refused(text));
    };
    let fault = match read(alloc, route, argument) {
        Ok(request) => return Ok(Asked::Request(request)),
        Err(ReadFault::BadJson) => ArgumentFault::BadJson,
        Err(ReadFault::BadField { name }) => ArgumentFault::BadField { name },
        Err(ReadFault::NoMemory) => return Err(NoMemory),
    };
    let text = complaint(alloc, route, fault)?;
    Ok(Asked::Refused(text))
}
