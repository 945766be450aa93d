//! The seed of the hashes of paths.

use std::hash::{BuildHasher, DefaultHasher, Hasher};

/// What the hashes of paths start with. Under one that nobody knows, nobody can name many files
/// whose hashes are equal.
#[derive(Clone, Copy)]
pub struct Seed {
    initial: DefaultHasher,
}

impl Seed {
    /// The same seed each time.
    pub fn fixed() -> Seed {
        Seed {
            initial: DefaultHasher::new(),
        }
    }

    /// The seed with these bytes, which should be random.
    pub fn of(bytes: &[u8]) -> Seed {
        let mut initial = DefaultHasher::new();
        initial.write(bytes);
        Seed { initial }
    }
}

impl BuildHasher for Seed {
    type Hasher = DefaultHasher;

    ghost build_hasher = { λ seed. seed.initial };

    fn build_hasher(&self) -> DefaultHasher {
        self.initial
    }
}
