// SHA-256 of what stands in two parts.
ghost use Rattle.std.specs.Prelude.{◌≡◌, ◌++◌, length};
ghost use Rattle.meta_log.specs.Meta.{digest_of};

use sha2::{Digest, Sha256};

/// The digest of two parts, one behind the other.
#[tactic(auto, unfolding(crate::specs::Meta::digest_of))]
pub(crate) fn digest_of_parts(first: &[u8], second: &[u8]) -> [u8; 32]
    ensures digest { result ≡ digest_of (first.now ++ second.now) }
    ensures size { length result ≡ 32 }
{
    let mut hasher = Sha256::new();
    hasher.update(first);
    hasher.update(second);
    hasher.finalize()
}
