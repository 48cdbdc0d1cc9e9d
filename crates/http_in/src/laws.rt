ghost use Rattle.std.specs.Prelude.{◌≡◌, List, ℕ};
ghost use Rattle.http_in.specs.Unique.{OneEnding, OneBody, OneReading, Settles};
ghost use Rattle.http_in.specs.declared.place.Place.{Place};
ghost use Rattle.http_in.specs.declared.limits.TheConstants.{HEAD_MAX_BYTES, HEAD_MAX_LINES, BODY_MAX_BYTES, CONTENT_MAX_BYTES, CHUNK_LINE_MAX_BYTES, LENGTH_MAX_DIGITS};

/// The bytes left are a head, over a limit, bad or cut in one way, but for an end inside a broken target.
pub fn one_ending()
    ensures { (bytes : List ℕ) → OneEnding bytes }
{}

/// The bytes from a place inside a body on are one content and one ending.
pub fn one_body()
    ensures { (place : Place) (bytes : List ℕ) → OneBody place bytes }
{}

/// Bytes split into requests and one ending in one way, but for an end inside a broken target.
pub fn one_reading()
    ensures { (bytes : List ℕ) → OneReading bytes }
{}

/// Whatever follows bytes that are bad or past a limit, they stay so, behind the same requests.
pub fn endings_stand()
    ensures { (bytes : List ℕ) → Settles bytes }
{}

/// The limits, as numbers. Each other clause names them.
pub fn limits_are()
    ensures heads { (HEAD_MAX_BYTES ≡ 16384) × (HEAD_MAX_LINES ≡ 64) }
    ensures bodies { (BODY_MAX_BYTES ≡ 1048576) × (CONTENT_MAX_BYTES ≡ 157286400) }
    ensures chunk_lines { CHUNK_LINE_MAX_BYTES ≡ 4096 }
    ensures digits { LENGTH_MAX_DIGITS ≡ 18 }
{}
