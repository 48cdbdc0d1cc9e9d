ghost use Rattle.std.specs.Prelude.{◌≡◌, ℕ, ◌<◌, ◌≤◌, length, slice_index, map, All, IsTrue, option_map};
ghost use Rattle.httparse.specs.Spans.{IsHeaderWithin, header_bytes};
ghost use Rattle.http_in.specs.Fields.{is_same_name};
ghost use Rattle.http_in.specs.Values.{AreValues, IsNoted, first_of, value_if};

use httparse::spans::HeaderSpan;

/// Whether the names are one, without regard to case. Most are written as they are looked for, which is tested first.
#[inline(always)]
pub(crate) fn is_name(name: &[u8], wanted: &[u8]) -> bool
    ensures { result ≡ is_same_name name.now wanted.now }
{
    if name.len() != wanted.len() {
        return false;
    }
    has_bytes(name, wanted) || name.eq_ignore_ascii_case(wanted)
}

/// Whether the bytes are the same. The loop has no early exit, so that a constant length leaves no loop and no call.
#[inline(always)]
fn has_bytes(name: &[u8], wanted: &[u8]) -> bool
    requires { length name.now ≡ length wanted.now }
    ensures { IsTrue result → (k : ℕ) → k < length wanted.now → slice_index name.now k ≡ slice_index wanted.now k }
{
    let mut same = true;
    for i in 0..wanted.len() {
        same &= name[i] == wanted[i];
    }
    same
}

/// What the fields of a head say that is read: of each name the value of the first field.
#[derive(Clone, Copy, Drop)]
pub(crate) struct Values<'a> {
    /// Of `Content-Length`.
    pub length: Option<&'a [u8]>,
    /// How many fields are named `Content-Length`.
    pub lengths: usize,
    /// Of `Transfer-Encoding`.
    pub coding: Option<&'a [u8]>,
    /// Of `Expect`.
    pub expect: Option<&'a [u8]>,
    /// Of `Connection`.
    pub connection: Option<&'a [u8]>,
    /// Of `Authorization`.
    pub authorization: Option<&'a [u8]>,
    /// Of `Dropbox-API-Arg`.
    pub arg: Option<&'a [u8]>,
}

/// Keeps the value where the name is the one looked for and none was found before.
fn keep_first<'a>(found: &mut Option<&'a [u8]>, wanted: &[u8], name: &[u8], value: &'a [u8])
    ensures { option_map (λ v. v.now) found.new
        ≡ first_of (option_map (λ v. v.now) found.old) (value_if wanted.now (name.now, value.now)) }
{
    if is_name(name, wanted) && found.is_none() {
        *found = Some(value);
    }
}

impl<'a> Values<'a> {
    /// Notes one more field, behind those that were noted. Each name that is looked for has a length of its own, so a
    /// field's name is compared with one of them at most.
    fn note(&mut self, name: &[u8], value: &'a [u8])
        requires { self.old.lengths < usize.MAX }
        ensures { IsNoted self.old (name.now, value.now) self.new }
    {
        match name.len() {
            6 => keep_first(&mut self.expect, b"Expect".as_slice(), name, value),
            10 => keep_first(&mut self.connection, b"Connection".as_slice(), name, value),
            13 => keep_first(
                &mut self.authorization,
                b"Authorization".as_slice(),
                name,
                value,
            ),
            14 => self.note_length(name, value),
            15 => keep_first(&mut self.arg, b"Dropbox-API-Arg".as_slice(), name, value),
            17 => keep_first(
                &mut self.coding,
                b"Transfer-Encoding".as_slice(),
                name,
                value,
            ),
            _ => {}
        }
    }

    /// Notes one more field whose name is as long as `Content-Length`.
    fn note_length(&mut self, name: &[u8], value: &'a [u8])
        requires room { self.old.lengths < usize.MAX }
        requires long { length name.now ≡ 14 }
        ensures { IsNoted self.old (name.now, value.now) self.new }
    {
        if is_name(name, b"Content-Length".as_slice()) {
            self.lengths += 1;
            if self.length.is_none() {
                self.length = Some(value);
            }
        }
    }
}

/// The values of the fields, read in one go.
pub(crate) fn read_values<'a>(held: &'a [u8], spans: &[HeaderSpan]) -> Values<'a>
    requires { All (IsHeaderWithin (length held.now)) spans.now }
    ensures { AreValues (map (header_bytes held.now) spans.now) result }
{
    let mut values = Values {
        length: None,
        lengths: 0,
        coding: None,
        expect: None,
        connection: None,
        authorization: None,
        arg: None,
    };
    for span in spans {
        values.note(span.name.of(held), span.value.of(held));
    }
    values
}
