//! Hashes of pieces. The bucket of a piece is told by its hash, so each layout rests on it.

ghost use Rattle.std.specs.Prelude.{◌≡◌, List, ℕ};
ghost use Rattle.lk_merge.specs.Hash.{fnv64};

/// A hash of pieces: a function of the bytes (own; libwild: `hash_bytes`).
pub trait PieceHash {
    ghost hash_of: { Self → List ℕ → ℕ };

    /// The hash of some bytes.
    fn hash(&self, bytes: &[u8]) -> u64
        ensures { result ≡ hash_of self.now bytes.now };
}

/// The hash FNV-1a of 64 bits.
#[derive(Clone, Copy, Debug, PartialEq, Eq)]
pub struct Fnv64;

impl PieceHash for Fnv64 {
    ghost hash_of = { λ _. fnv64 };

    #[tactic(auto, unfolding(crate::specs::Hash::fnv64))]
    fn hash(&self, bytes: &[u8]) -> u64 {
        let mut hash: u64 = 0xcbf29ce484222325;
        for byte in bytes {
            hash = (hash ^ u64::from(*byte)).wrapping_mul(0x100000001b3);
        }
        hash
    }
}
