//! The plain text of a reply to an argument that was not read.
ghost use Rattle.std.specs.Prelude.{◌≡◌, ◌++◌, IfOk, OnOk};
ghost use Rattle.api_json.specs.Complaints.{complaint_text, fault_text};

use crate::fields::FieldName;
use api_types::Route;
use fh_model::NoMemory;
use std::alloc::Global;

/// What is wrong with an argument.
#[derive(Clone, Copy, Debug, PartialEq, Eq)]
pub enum ArgumentFault {
    /// It is no JSON value.
    BadJson,

    /// A field breaks its rule.
    BadField { name: FieldName },

    /// The header `Dropbox-API-Arg`, which has it, is missing.
    MissingHeader,
}

fn push_fault(out: &mut Vec<u8>, fault: ArgumentFault) -> Result<(), NoMemory>
    ensures { OnOk result (out.new.items ≡ out.old.items ++ fault_text fault) }
{
    match fault {
        ArgumentFault::BadJson => out.extend_from_slice(b"bad json".as_slice())?,
        ArgumentFault::BadField { name } => {
            out.extend_from_slice(b"bad field ".as_slice())?;
            out.extend_from_slice(name.as_str().as_bytes())?;
        }
        ArgumentFault::MissingHeader => {
            out.extend_from_slice(b"missing header Dropbox-API-Arg".as_slice())?;
        }
    }
    Ok(())
}

/// The body of the reply 400 to a request of this route.
pub fn complaint(alloc: Global, route: Route, fault: ArgumentFault) -> Result<Vec<u8>, NoMemory>
    ensures { IfOk result (λ text. text.items ≡ complaint_text route fault) }
{
    let mut out = Vec::from_slice(alloc, b"Error in call to API function \"".as_slice())?;
    out.extend_from_slice(route.function().as_bytes())?;
    out.extend_from_slice(b"\": ".as_slice())?;
    push_fault(&mut out, fault)?;
    Ok(out)
}
