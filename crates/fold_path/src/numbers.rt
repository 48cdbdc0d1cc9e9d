//! The numbers that the forms `id:`, `rev:` and `ns:` write.
ghost use Rattle.std.specs.Prelude.{◌≡◌, true, false, MatchOption, length};
ghost use Rattle.std.specs.Char.{is_ascii_digit};
ghost use Rattle.std.specs.List.{list_all};
ghost use Rattle.std.specs.Str.Parse.{digits_value};
ghost use Rattle.fh_model.specs.PathRule.{is_lower_hex, is_bad_revision, is_bad_space, number_of};

use fh_model::{ID_DIGITS, NAMESPACE_MAX_DIGITS, REV_MIN_DIGITS};

/// Whether each character is a digit or one of `a` to `f`.
pub fn is_lower_hex(text: &str) -> bool
    ensures { result ≡ list_all is_lower_hex text.now }
{
    text.as_bytes()
        .iter()
        .all(|b| b.is_ascii_digit() || (b'a' <= *b && *b <= b'f'))
}

fn is_decimal(text: &str) -> bool
    ensures { result ≡ list_all is_ascii_digit text.now }
{
    text.as_bytes().iter().all(|b| b.is_ascii_digit())
}

/// The number that the text writes in hex, or 0 where it writes none.
pub(crate) fn number_of(text: &str) -> u64
    ensures { result ≡ number_of text.now }
{
    if text.len() != ID_DIGITS || !is_lower_hex(text) {
        return 0;
    }
    u64::from_str_radix(text, 16).unwrap_or(0)
}

/// The number of a revision, where these digits may stand behind `rev:`: 9 or more, of which any number but 16 write 0.
pub fn revision(digits: &str) -> Option<u64>
    ensures { MatchOption result (is_bad_revision digits.now ≡ true) (λ number. (is_bad_revision digits.now ≡ false) × (number ≡ number_of digits.now)) }
{
    if digits.len() < REV_MIN_DIGITS || !is_lower_hex(digits) {
        return None;
    }
    Some(number_of(digits))
}

/// The number of a namespace, where what stands behind `ns:` may stand there.
pub(crate) fn space(digits: &str) -> Option<u64>
    ensures { MatchOption result (is_bad_space digits.now ≡ true) (λ number. (is_bad_space digits.now ≡ false) × (number ≡ digits_value 10 digits.now)) }
{
    if digits.is_empty() || NAMESPACE_MAX_DIGITS < digits.len() || !is_decimal(digits) {
        return None;
    }
    digits.parse::<u64>().ok()
}
