use thiserror::Error;

/// Why bytes are not decoded.
#[derive(Clone, Copy, Debug, Drop, PartialEq, Eq, Error)]
pub enum CodecFault {
    /// The bytes are no spelling. The place is that of the first byte such that no spelling begins with the bytes up
    /// to and with it, or the length where there is no such byte.
    #[error("bad at byte {place}")]
    Bad { place: usize },

    #[error("out of memory")]
    NoMemory,
}
