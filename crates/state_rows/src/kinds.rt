ghost use Rattle.std.specs.Prelude.{◌≡◌};
ghost use Rattle.state_rows.specs.Rows.{is_kind, kind_of};

use fh_model::Row;

pub const COUNTERS: u8 = 128;

pub const USER: u8 = 129;

pub const NAMESPACE: u8 = 130;

/// Whether a row has this number.
pub fn is_kind(kind: u8) -> bool
    ensures { result ≡ is_kind kind }
{
    matches!(kind, COUNTERS | USER | NAMESPACE)
}

/// The number of the row's kind.
pub fn kind_of(row: &Row) -> u8
    ensures { result ≡ kind_of row.now }
{
    match row {
        Row::Counters { .. } => COUNTERS,
        Row::User { .. } => USER,
        Row::Namespace { .. } => NAMESPACE,
    }
}
