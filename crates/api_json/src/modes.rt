//! The mode of a commit: a text, or an object with its tag.
ghost use Rattle.std.specs.Prelude.{◌≡◌, option_map};
ghost use Rattle.serde_json.specs.View.{view};
ghost use Rattle.serde_json.specs.Find.{get};
ghost use Rattle.std.specs.Prelude.{codes};
ghost use Rattle.api_json.specs.Values.{mode_in, mode_of, simple_mode, tagged_mode, update_of};

use crate::values::Held;
use fh_model::Mode;
use fold_path::revision;
use serde_json::Value;

/// A mode without fields.
fn simple_mode(tag: &str) -> Option<Mode>
    ensures { result ≡ simple_mode tag.now }
{
    if tag.as_bytes() == b"add".as_slice() {
        return Some(Mode::Add);
    }
    if tag.as_bytes() == b"overwrite".as_slice() {
        return Some(Mode::Overwrite);
    }
    None
}

/// The mode with a rev, by what is found at `update`.
fn update_of(found: Option<&Value>) -> Option<Mode>
    ensures { result ≡ update_of (option_map (λ v. view v.now) found.entry) }
{
    match found {
        Some(Value::String(digits)) => match revision(digits.as_str()) {
            Some(rev) => Some(Mode::Update(rev)),
            None => None,
        },
        _ => None,
    }
}

fn tagged_mode(found: &Value, tag: Option<&Value>) -> Option<Mode>
    ensures { result ≡ tagged_mode (view found.now) (option_map (λ v. view v.now) tag.entry) }
{
    match tag {
        Some(Value::String(tag)) => {
            if tag.as_str().as_bytes() == b"update".as_slice() {
                update_of(found.get("update"))
            } else {
                simple_mode(tag.as_str())
            }
        }
        _ => None,
    }
}

fn mode_of(found: &Value) -> Option<Mode>
    ensures { result ≡ mode_of (view found.now) }
{
    match found {
        Value::String(tag) => simple_mode(tag.as_str()),
        _ => tagged_mode(found, found.get(".tag")),
    }
}

pub(crate) fn mode_in(found: Option<&Value>) -> Option<Held>
    ensures { result ≡ mode_in (option_map (λ v. view v.now) found.entry) }
{
    match found {
        None => Some(Held::Mode(Mode::Add)),
        Some(Value::Null) => Some(Held::Mode(Mode::Add)),
        Some(found) => match mode_of(found) {
            Some(mode) => Some(Held::Mode(mode)),
            None => None,
        },
    }
}
