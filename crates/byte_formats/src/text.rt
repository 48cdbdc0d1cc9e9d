ghost use Rattle.std.specs.Prelude.{◌≡◌, ◌<◌, ◌^◌, true, length};
ghost use Rattle.byte_formats.specs.Lists.{text};
ghost use Rattle.byte_formats.specs.Texts.{allows, after, characters, characters_at, fault_of, is_lead};
ghost use Rattle.byte_formats.specs.declared.text.Awaited.TheVariants.{Lead};
ghost use Rattle.byte_formats.specs.Given.{Gives};

use crate::{Field, Stop};
use fh_model::{NoMemory, Text};
use std::alloc::Global;

/// What the next byte of a text may be.
#[derive(Clone, Copy, Debug, PartialEq, Eq)]
pub enum Awaited {
    /// The first byte of a character.
    Lead,

    /// A further byte of a character, from `least` to `most`, and `more` bytes after it.
    Within { least: u8, most: u8, more: u8 },
}

/// Whether the byte may begin a character, where so many bytes are left with it.
fn is_lead(left: usize, byte: u8) -> bool
    ensures { result ≡ is_lead left byte }
{
    let bytes_after = match byte {
        0..=0x7F => 0,
        0x80..=0xDF => 1,
        0xE0..=0xEF => 2,
        0xF0..=0xFF => 3,
    };
    (byte < 0x80 || (0xC2..=0xF4).contains(&byte)) && bytes_after < left
}

/// What may come after the first byte of a character.
fn after_lead(lead: u8) -> Awaited
    ensures { result ≡ after Lead lead }
{
    let (least, most, more) = match lead {
        0..=0x7F => return Awaited::Lead,
        0x80..=0xDF => (0x80, 0xBF, 0),
        0xE0 => (0xA0, 0xBF, 1),
        0xED => (0x80, 0x9F, 1),
        0xE1..=0xEF => (0x80, 0xBF, 1),
        0xF0 => (0x90, 0xBF, 2),
        0xF4 => (0x80, 0x8F, 2),
        0xF1..=0xFF => (0x80, 0xBF, 2),
    };
    Awaited::Within { least, most, more }
}

impl Awaited {
    /// Whether the byte may come next, where so many bytes are left with it.
    fn allows(self, left: usize, byte: u8) -> bool
        ensures { result ≡ allows self left byte }
    {
        match self {
            Awaited::Lead => is_lead(left, byte),
            Awaited::Within { least, most, .. } => least <= byte && byte <= most,
        }
    }

    /// What may come after the byte.
    fn after(self, byte: u8) -> Awaited
        ensures { result ≡ after self byte }
    {
        match self {
            Awaited::Lead => after_lead(byte),
            Awaited::Within { more: 0, .. } => Awaited::Lead,
            Awaited::Within { more, .. } => Awaited::Within {
                least: 0x80,
                most: 0xBF,
                more: more - 1,
            },
        }
    }
}

/// How many bytes are left from the first one on with which no text of `len` bytes begins, if there is one or the
/// bytes end before it does.
fn fault_at(len: usize, bytes: &[u8]) -> Option<usize>
    ensures { result ≡ fault_of (characters_at Lead len bytes.now) }
{
    let mut awaited = Awaited::Lead;
    let mut rest = bytes;
    for done in 0..len {
        let Some((&byte, others)) = rest.split_first() else {
            return Some(0);
        };
        if !awaited.allows(len - done, byte) {
            return Some(rest.len());
        }
        awaited = awaited.after(byte);
        rest = others;
    }
    None
}

/// Takes a text of `len` bytes.
fn characters_at(len: usize, bytes: &[u8]) -> Result<(&str, &[u8]), Stop>
    ensures { Gives (λ x. (x.0.now, x.1.now)) result ((characters len).read bytes.now) }
{
    if let Some(left) = fault_at(len, bytes) {
        return Err(Stop::Bad(left));
    }
    let (front, rest) = bytes.split_at(len);
    // No fault was found, so that the bytes are UTF-8.
    Ok((str::from_utf8(front).unwrap(), rest))
}

impl Field for Text {
    ghost spells = { text.spell };

    ghost fits = { text.fits };

    ghost reads = { text.read };

    ghost is_short = { λ text. length text < 2 ^ 32 };

    ghost asks_memory = { true };

    fn read(alloc: Global, bytes: &[u8]) -> Result<(Text, &[u8]), Stop> {
        let (len, rest) = u32::read(alloc, bytes)?;
        let (front, rest) = characters_at(len as usize, rest)?;
        Ok((Text::new(String::from_str(alloc, front)?), rest))
    }

    fn put(&self, out: &mut Vec<u8>) -> Result<(), NoMemory> {
        let bytes = self.as_bytes();
        (bytes.len() as u32).put(out)?;
        out.extend_from_slice(bytes)?;
        Ok(())
    }

    fn has_spelling(&self) -> bool {
        self.as_str().len() <= u32::MAX as usize
    }
}
