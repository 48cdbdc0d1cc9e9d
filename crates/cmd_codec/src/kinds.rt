ghost use Rattle.std.specs.Prelude.{◌≡◌};
ghost use Rattle.cmd_codec.specs.Commands.{is_kind, kind_of};

use fh_model::Act;

pub const MAKE_FOLDER: u8 = 1;

pub const UPLOAD: u8 = 2;

/// Whether an act has this number.
pub fn is_kind(kind: u8) -> bool
    ensures { result ≡ is_kind kind }
{
    matches!(kind, MAKE_FOLDER | UPLOAD)
}

/// The number of the act.
pub fn kind_of(act: &Act) -> u8
    ensures { result ≡ kind_of act.now }
{
    match act {
        Act::MakeFolder { .. } => MAKE_FOLDER,
        Act::Upload { .. } => UPLOAD,
    }
}
