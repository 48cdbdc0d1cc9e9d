ghost use Rattle.std.specs.Prelude.{◌≡◌, ℕ, List, map};
ghost use Rattle.fh_model.specs.Content.{blocks_of, content_hash};
ghost use Rattle.sha2.specs.Sha256.{sha256};
ghost use Rattle.content_hash.specs.Digests.{bytes_of, joined};

use fh_model::Bytes32;
use sha2::{Digest, Sha256};

/// The content hash, from the digests of the blocks in order.
pub fn of_digests(digests: &[Bytes32]) -> Bytes32
    ensures digest { result.bytes ≡ sha256 (joined digests.now) }
    ensures hash { (content : List ℕ) → map bytes_of digests.now ≡ map sha256 (blocks_of content) → result.bytes ≡ content_hash content }
{
    let mut hasher = Sha256::new();
    for digest in digests {
        hasher.update(digest.bytes.as_slice());
    }
    Bytes32 {
        bytes: hasher.finalize(),
    }
}
