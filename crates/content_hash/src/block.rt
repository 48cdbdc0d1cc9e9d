ghost use Rattle.std.specs.Prelude.{◌≡◌, ◌≤◌, [], length, IfNone};
ghost use Rattle.fh_model.specs.declared.limits.TheConstants.{BLOCK_BYTES};
ghost use Rattle.fh_model.specs.Content.{IsDigestOf, content_hash};

use crate::of_digests;
use fh_model::Bytes32;
use sha2::{Digest, Sha256};

/// The digest of a content of at most one block, none where it has no byte, and its content hash.
pub fn of_block(content: &[u8]) -> (Option<Bytes32>, Bytes32)
    requires { length content.now ≤ BLOCK_BYTES }
    ensures some { IsDigestOf content.now result.0 }
    ensures none { IfNone result.0 (content.now ≡ []) }
    ensures hash { result.1.bytes ≡ content_hash content.now }
{
    match content {
        [] => (None, of_digests(&[])),
        [_, ..] => {
            let digest = Bytes32 {
                bytes: Sha256::digest(content),
            };
            (Some(digest), of_digests(&[digest]))
        }
    }
}
