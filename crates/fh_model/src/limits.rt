/// The last second that a clock tells or a command carries: 9999-12-31T23:59:59Z.
pub const LAST_SECOND: u64 = 253_402_300_799;

/// The most bytes of a name.
pub const NAME_MAX_BYTES: usize = 255;

/// The most names of a path.
pub const NAMES_MAX: usize = 64;

/// The most bytes of a path's text, and of its folded text.
pub const PATH_MAX_BYTES: usize = 4_096;

/// The hex digits of an item's or a revision's number.
pub const ID_DIGITS: usize = 16;

/// The fewest hex digits behind `rev:`.
pub const REV_MIN_DIGITS: usize = 9;

/// The most decimal digits of a namespace behind `ns:`.
pub const NAMESPACE_MAX_DIGITS: usize = 18;

/// The fewest bytes of a token.
pub const TOKEN_MIN_BYTES: usize = 8;

/// The most bytes of a token.
pub const TOKEN_MAX_BYTES: usize = 64;

/// The requests of one connection, after the last of which it ends.
pub const REQUESTS_MAX: u64 = 1_000_000;

/// The number at which a counter or the length of a namespace is spent: each act is refused from there on.
pub const SPENT_AT: u64 = 1 << 62;

/// The bytes of a whole block. Each block of a file has so many, but the last may have fewer.
pub const BLOCK_BYTES: usize = 4_194_304;
