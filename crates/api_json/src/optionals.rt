//! Values that may be left out: moments and digests.
ghost use Rattle.std.specs.Prelude.{◌≡◌, IfOk, option_map};
ghost use Rattle.serde_json.specs.View.{view};
ghost use Rattle.api_json.specs.Values.{digest_in, digest_of, moment_in, told_digest, told_moment};
ghost use Rattle.api_types.specs.Stamps.{moment_of};

use crate::values::Held;
use api_types::read_stamp;
use fh_model::{Bytes32, NoMemory, Text};
use fold_path::is_lower_hex;
use hex::FromHex;
use serde_json::Value;
use std::alloc::Global;

fn told_moment(alloc: Global, text: &str) -> Result<Option<Held>, NoMemory>
    ensures { IfOk result (λ value. value ≡ told_moment (moment_of text.now)) }
{
    let text = Text::new(String::from_str(alloc, text)?);
    match read_stamp(&text) {
        Some(seconds) => Ok(Some(Held::Moment(Some(seconds)))),
        None => Ok(None),
    }
}

pub(crate) fn moment_in(alloc: Global, found: Option<&Value>) -> Result<Option<Held>, NoMemory>
    ensures { IfOk result (λ value. value ≡ moment_in (option_map (λ v. view v.now) found.entry)) }
{
    match found {
        None => Ok(Some(Held::Moment(None))),
        Some(Value::Null) => Ok(Some(Held::Moment(None))),
        Some(Value::String(text)) => told_moment(alloc, text.as_str()),
        Some(_) => Ok(None),
    }
}

/// The digest that 64 lower-case hex digits write.
fn digest_of(text: &str) -> Option<Bytes32>
    ensures { result ≡ digest_of text.now }
{
    if !is_lower_hex(text) {
        return None;
    }
    match <[u8; 32] as FromHex>::from_hex(text) {
        Ok(bytes) => Some(Bytes32 { bytes }),
        Err(_) => None,
    }
}

fn told_digest(text: &str) -> Option<Held>
    ensures { result ≡ told_digest (digest_of text.now) }
{
    match digest_of(text) {
        Some(digest) => Some(Held::Digest(Some(digest))),
        None => None,
    }
}

pub(crate) fn digest_in(found: Option<&Value>) -> Option<Held>
    ensures { result ≡ digest_in (option_map (λ v. view v.now) found.entry) }
{
    match found {
        None => Some(Held::Digest(None)),
        Some(Value::Null) => Some(Held::Digest(None)),
        Some(Value::String(text)) => told_digest(text.as_str()),
        Some(_) => None,
    }
}
