//! JSON text that may stand in a header.
ghost use Rattle.std.specs.Prelude.{◌≡◌, ◌++◌, ◌<◌, IfOk, OnOk, string_bytes};
ghost use Rattle.std.specs.Char.{digit_char};
ghost use Rattle.http_out.specs.HeaderSafe.{header_safe_text, pair_text, safe_char, unit_text};

use fh_model::{NoMemory, Text};
use std::alloc::Global;

/// The JSON with each character from 0x7F on as `\uXXXX` with lower-case digits, in one UTF-16 unit or two.
pub fn header_safe(alloc: Global, json: &str) -> Result<Text, NoMemory>
    ensures { IfOk result (λ text. text ≡ header_safe_text json.now) }
{
    let mut out = String::with_capacity(alloc, json.len())?;
    for c in json.chars() {
        push_safe(&mut out, c)?;
    }
    Ok(Text::new(out))
}

#[tactic(auto, unfolding(crate::specs::HeaderSafe::safe_char))]
fn push_safe(out: &mut String, c: char) -> Result<(), NoMemory>
    ensures { OnOk result (string_bytes out.new ≡ string_bytes out.old ++ safe_char c) }
{
    let code = c as u32;
    if code < 0x7f {
        out.push(c)?;
        return Ok(());
    }
    if code < 0x1_0000 {
        return push_unit(out, code);
    }
    push_pair(out, code - 0x1_0000)
}

/// A character of two units, by its distance from the first such character.
fn push_pair(out: &mut String, above: u32) -> Result<(), NoMemory>
    requires { above < 1_048_576 }
    ensures { OnOk result (string_bytes out.new ≡ string_bytes out.old ++ pair_text above) }
{
    push_unit(out, 0xd800 + above / 1024)?;
    push_unit(out, 0xdc00 + above % 1024)
}

#[tactic(auto, unfolding(crate::specs::HeaderSafe::unit_text))]
fn push_unit(out: &mut String, unit: u32) -> Result<(), NoMemory>
    requires { unit < 65536 }
    ensures { OnOk result (string_bytes out.new ≡ string_bytes out.old ++ unit_text unit) }
{
    out.push_str("\\u")?;
    out.push(hex_digit(unit / 4096))?;
    out.push(hex_digit(unit / 256 % 16))?;
    out.push(hex_digit(unit / 16 % 16))?;
    out.push(hex_digit(unit % 16))?;
    Ok(())
}

fn hex_digit(value: u32) -> char
    requires { value < 16 }
    ensures value { result ≡ digit_char value }
    ensures ascii { result < 128 }
{
    std::char::from_digit(value, 16).unwrap()
}
