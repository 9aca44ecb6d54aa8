ghost use Rattle.std.specs.Prelude.{◌≡◌, ◌<◌, ◌≤◌, ◌↔◌, ◌∷◌, ◌++◌, [], ℕ, List, Option, OnOk, OnErr};
ghost use Rattle.hash_index.specs.Pairs.{Pair, Agrees, Finds, IsFree, Keeps};

use groundwork::{LAST_ID, Memory};

/// The largest id that an index holds: an id takes 48 bits. The least is 1.
pub const LARGEST_ID: u64 = LAST_ID;

/// What tells the digest of an id.
pub trait Digests {
    /// What is told of each id.
    ghost digest_of: { Self → ℕ → Option (List ℕ) };

    /// The digest of the id, or None where the id is not known.
    fn digest_of(&self, id: u64) -> Option<[u8; 32]>
        ensures { result ≡ digest_of self.now id };
}

/// An index from digests to ids.
///
/// What its calls answer is promised where `tells` gives for each held id the digest of its pair, or None.
pub trait Index {
    /// The index stands for these pairs.
    ghost stands_for: { Self → List Pair → Type 0 };

    /// The least held id above `after` with this digest that `tells` knows, or None where there is none.
    fn find<T: Digests>(&self, digest: &[u8; 32], after: u64, tells: &T) -> Option<u64>
        ensures { (pairs : List Pair) → stands_for self.now pairs → Agrees (T.digest_of tells.now) pairs
            → Finds (T.digest_of tells.now) pairs digest.now after result };

    /// Adds a pair whose id is not held. Pairs whose ids `tells` does not know may be dropped.
    fn insert<T: Digests>(&mut self, digest: &[u8; 32], id: u64, tells: &T) -> Result<(), Memory>
        requires least { 0 < id }
        requires most { id ≤ LARGEST_ID }
        ensures ok { OnOk result ((pairs : List Pair) → stands_for self.old pairs
            → Agrees (T.digest_of tells.now) pairs → IsFree pairs id
            → (kept : List Pair) × Keeps (T.digest_of tells.now) pairs kept
            × stands_for self.new (kept ++ (digest.now, id) ∷ [])) }
        ensures refused { OnErr result ((pairs : List Pair) → stands_for self.old pairs ↔ stands_for self.new pairs) };

    /// Drops each pair.
    fn clear(&mut self)
        ensures { stands_for self.new [] };
}
