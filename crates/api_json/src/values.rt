//! The values of an argument's fields.
ghost use Rattle.std.specs.Prelude.{◌≡◌, ◌≢◌, IfOk, IfErr, Ok, Err, option_map};
ghost use Rattle.serde_json.specs.View.{view};
ghost use Rattle.api_json.specs.Values.{flag_in, held_in, text_in, value_of, values_of};
ghost use Rattle.api_json.specs.declared.reading.ReadFault.TheVariants as fault;

use crate::fields::{Field, Kind};
use crate::modes::mode_in;
use crate::optionals::{digest_in, moment_in};
use crate::reading::ReadFault;
use crate::rules::keeps;
use fh_model::{Bytes32, Mode, NoMemory, Text};
use serde_json::Value;
use std::alloc::Global;
use std::collections::VecDeque;

/// The value of a field.
#[derive(Debug, Drop)]
pub(crate) enum Held {
    Text(Text),
    Flag(bool),
    Moment(Option<u64>),
    Digest(Option<Bytes32>),
    Mode(Mode),
}

fn text_in(alloc: Global, found: Option<&Value>) -> Result<Option<Held>, NoMemory>
    ensures { IfOk result (λ value. value ≡ text_in (option_map (λ v. view v.now) found.entry)) }
{
    match found {
        Some(Value::String(text)) => {
            let text = String::from_str(alloc, text.as_str())?;
            Ok(Some(Held::Text(Text::new(text))))
        }
        _ => Ok(None),
    }
}

fn flag_in(default: bool, found: Option<&Value>) -> Option<Held>
    ensures { result ≡ flag_in default (option_map (λ v. view v.now) found.entry) }
{
    match found {
        None => Some(Held::Flag(default)),
        Some(Value::Null) => Some(Held::Flag(default)),
        Some(Value::Bool(flag)) => Some(Held::Flag(*flag)),
        Some(_) => None,
    }
}

/// What is found at a field's key, as a value of its kind.
fn held_in(alloc: Global, kind: Kind, found: Option<&Value>) -> Result<Option<Held>, NoMemory>
    ensures { IfOk result (λ value. value ≡ held_in kind (option_map (λ v. view v.now) found.entry)) }
{
    match kind {
        Kind::Text => text_in(alloc, found),
        Kind::Flag { default } => Ok(flag_in(default, found)),
        Kind::Moment => moment_in(alloc, found),
        Kind::Digest => Ok(digest_in(found)),
        Kind::Mode => Ok(mode_in(found)),
    }
}

fn read_value(alloc: Global, argument: &Value, field: &Field) -> Result<Held, ReadFault>
    ensures value { IfOk result (λ value. value_of (view argument.now) field.now ≡ Ok value) }
    ensures bad { IfErr result (λ found. found ≢ fault.NoMemory → value_of (view argument.now) field.now ≡ Err found) }
{
    let found = argument.get(field.name.as_str());
    match held_in(alloc, field.kind, found)? {
        Some(value) if keeps(field.rule, &value) => Ok(value),
        _ => Err(ReadFault::BadField { name: field.name }),
    }
}

/// The values of all fields in their order, or the first field that breaks its rule.
pub(crate) fn read_values(
    alloc: Global,
    argument: &Value,
    fields: &[Field],
) -> Result<VecDeque<Held>, ReadFault>
    ensures values { IfOk result (λ values. values_of (view argument.now) fields.now ≡ Ok values.items) }
    ensures bad { IfErr result (λ found. found ≢ fault.NoMemory → values_of (view argument.now) fields.now ≡ Err found) }
{
    let mut values = VecDeque::new(alloc);
    for field in fields {
        let value = read_value(alloc, argument, field)?;
        values.push_back(value)?;
    }
    Ok(values)
}
