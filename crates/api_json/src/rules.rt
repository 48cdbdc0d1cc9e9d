//! What the table asks of a value besides its kind.
ghost use Rattle.std.specs.Prelude.{◌≡◌};
ghost use Rattle.std.specs.Char.{is_ascii_digit};
ghost use Rattle.std.specs.List.{list_all};
ghost use Rattle.api_json.specs.Values.{are_namespace_digits, is_add, is_root_path, keeps};

use crate::fields::Rule;
use crate::values::Held;
use fh_model::{Mode, NAMESPACE_MAX_DIGITS};

fn are_digits(bytes: &[u8]) -> bool
    ensures { result ≡ list_all is_ascii_digit bytes.now }
{
    bytes.iter().all(|b| b.is_ascii_digit())
}

fn are_namespace_digits(digits: &[u8]) -> bool
    ensures { result ≡ are_namespace_digits digits.now }
{
    !digits.is_empty() && (digits.len() <= NAMESPACE_MAX_DIGITS && are_digits(digits))
}

/// Whether a path is that of a root: no text, or a namespace without names.
fn is_root_path(path: &[u8]) -> bool
    ensures { result ≡ is_root_path path.now }
{
    if path.is_empty() {
        return true;
    }
    match path.strip_prefix(b"ns:".as_slice()) {
        Some(digits) => are_namespace_digits(digits),
        None => false,
    }
}

fn is_add(mode: Mode) -> bool
    ensures { result ≡ is_add mode }
{
    match mode {
        Mode::Add => true,
        Mode::Overwrite | Mode::Update(_) => false,
    }
}

pub(crate) fn keeps(rule: Rule, value: &Held) -> bool
    ensures { result ≡ keeps rule value.now }
{
    match (rule, value) {
        (Rule::BelowRoot, Held::Text(path)) => !is_root_path(path.as_bytes()),
        (Rule::Only(flag), Held::Flag(value)) => flag == *value,
        (Rule::Adds, Held::Mode(mode)) => is_add(*mode),
        _ => true,
    }
}
