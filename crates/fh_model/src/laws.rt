ghost use Rattle.std.specs.Prelude.{◌≡◌};
ghost use Rattle.fh_model.specs.declared.limits.TheConstants.{BLOCK_BYTES, ID_DIGITS, LAST_SECOND, NAME_MAX_BYTES, NAMES_MAX, NAMESPACE_MAX_DIGITS, PATH_MAX_BYTES, REQUESTS_MAX, REV_MIN_DIGITS, TOKEN_MAX_BYTES, TOKEN_MIN_BYTES};

/// The limits, as numbers. Each other clause names them.
pub fn limits_are()
    ensures paths { (NAME_MAX_BYTES ≡ 255) × (NAMES_MAX ≡ 64) × (PATH_MAX_BYTES ≡ 4096) }
    ensures digits { (ID_DIGITS ≡ 16) × (REV_MIN_DIGITS ≡ 9) × (NAMESPACE_MAX_DIGITS ≡ 18) }
    ensures tokens { (TOKEN_MIN_BYTES ≡ 8) × (TOKEN_MAX_BYTES ≡ 64) }
    ensures requests { REQUESTS_MAX ≡ 1000000 }
    ensures blocks { BLOCK_BYTES ≡ 4194304 }
    ensures moments { LAST_SECOND ≡ 253402300799 }
{}
