//! The text of a moment, as `2023-11-14T22:13:20Z`, and its reading.
ghost use Rattle.std.specs.Prelude.{◌≡◌, ◌<◌, ◌≤◌, ◌+◌, ◌/◌, ◌%◌, ◌↔◌, ℕ, IfOk, OnOk, IfSome, IfNone, IsAscii, IsTrue, codes, ◌++◌, get_or, length};
ghost use Rattle.fh_model.specs.Stamps.{stamp_text, time_text};
ghost use Rattle.api_types.specs.Calendar.{date_of};
ghost use Rattle.api_types.specs.Stamps.{IsStamp, moment_of};

use crate::calendar::{DATE_BYTES, date_at, days_to, ones, tens};
use fh_model::{LAST_SECOND, NoMemory, Text};
use std::alloc::Global;

/// The bytes of a time's text, with the letters around it.
const TIME_BYTES: usize = 10;

const DAY_SECONDS: u64 = 86_400;

/// The text of a time of the day, between its letters.
fn time_at(seconds: u64) -> [u8; TIME_BYTES]
    requires { seconds < 86400 }
    ensures value { result ≡ codes "T" ++ time_text seconds ++ codes "Z" }
    ensures ascii { IsAscii result }
{
    let hours = seconds / 3600;
    let minutes = seconds / 60 % 60;
    let seconds = seconds % 60;
    [
        b'T',
        tens(hours),
        ones(hours),
        b':',
        tens(minutes),
        ones(minutes),
        b':',
        tens(seconds),
        ones(seconds),
        b'Z',
    ]
}

/// Puts the date so many days after 1970 began, and nothing past the year 9999.
fn push_date(out: &mut Vec<u8>, days: u64) -> Result<(), NoMemory>
    ensures value { OnOk result (out.new.items ≡ out.old.items ++ date_of days) }
    ensures ascii { OnOk result (IsAscii (date_of days)) }
{
    if let Some(date) = date_at(days) {
        out.extend_from_slice(date.as_slice())?;
    }
    Ok(())
}

/// The text of the moment so many seconds after 1970 began. Past the year 9999 it has no date.
pub fn stamp(alloc: Global, seconds: u64) -> Result<Text, NoMemory>
    ensures { IfOk result (λ text. text ≡ stamp_text seconds) }
{
    let mut bytes = Vec::with_capacity(alloc, DATE_BYTES + TIME_BYTES)?;
    push_date(&mut bytes, seconds / DAY_SECONDS)?;
    bytes.extend_from_slice(time_at(seconds % DAY_SECONDS).as_slice())?;
    match String::from_utf8(bytes) {
        Ok(text) => Ok(Text::new(text)),
        Err(_) => unreachable!(),
    }
}

/// The number that two digits write.
fn number_at(bytes: &[u8], at: usize) -> u64
    requires { at + 1 < length bytes.now }
    ensures value { (n : ℕ) → n < 100 → get_or bytes.now at 0 ≡ 48 + n / 10 → get_or bytes.now (at + 1) 0 ≡ 48 + n % 10 → result ≡ n }
    ensures small { result < 100 }
{
    let tens = bytes[at].wrapping_sub(48) % 10;
    let ones = bytes[at + 1].wrapping_sub(48) % 10;
    u64::from(tens * 10 + ones)
}

/// The moment that the digits write. Where the text is that of no moment it is some number.
fn seconds_at(bytes: &[u8]) -> u64
    requires { length bytes.now ≡ 20 }
    ensures { (seconds : ℕ) → IsStamp bytes.now seconds → result ≡ seconds }
{
    let year = number_at(bytes, 0) * 100 + number_at(bytes, 2);
    let days = days_to(year, number_at(bytes, 5), number_at(bytes, 8));
    let hours = number_at(bytes, 11);
    let minutes = number_at(bytes, 14);
    days * DAY_SECONDS + hours * 3600 + minutes * 60 + number_at(bytes, 17)
}

fn are_same(first: &[u8], second: &[u8]) -> bool
    ensures { IsTrue result ↔ (first.now ≡ second.now) }
{
    first == second
}

/// Whether this is the text of the moment so many seconds after 1970 began.
fn is_stamp(bytes: &[u8], seconds: u64) -> bool
    requires { length bytes.now ≡ 20 }
    ensures { IsTrue result ↔ IsStamp bytes.now seconds }
{
    if seconds > LAST_SECOND {
        return false;
    }
    let Some(date) = date_at(seconds / DAY_SECONDS) else {
        return false;
    };
    let time = time_at(seconds % DAY_SECONDS);
    let (first, second) = bytes.split_at(DATE_BYTES);
    are_same(first, date.as_slice()) && are_same(second, time.as_slice())
}

/// The moment that a text tells, in seconds since 1970 began. None exactly where no moment up to `LAST_SECOND` has this
/// text. Takes no memory.
pub fn read_stamp(text: &Text) -> Option<u64>
    ensures value { result ≡ moment_of text.now }
    ensures some { IfSome result (λ seconds. IsStamp text.now seconds) }
    ensures none { IfNone result ((seconds : ℕ) → IsStamp text.now seconds → ⊥) }
{
    let bytes = text.as_bytes();
    if bytes.len() != DATE_BYTES + TIME_BYTES {
        return None;
    }
    let seconds = seconds_at(bytes);
    if is_stamp(bytes, seconds) {
        Some(seconds)
    } else {
        None
    }
}
