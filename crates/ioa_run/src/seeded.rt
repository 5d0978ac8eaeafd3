//! Words by chance, the same for the same key.

ghost use Rattle.std.specs.Prelude.{◌≡◌, ◌%◌, ◌^◌, ◌<◌, ℕ};
ghost use Rattle.rand_chacha.specs.ChaCha.{ChaCha, word_at, key_of};
ghost use Rattle.ioa_run.specs.Seeds.{words_from};

use ioa_node::Words;
use rand_chacha::ChaCha8Rng;
use rand_core::SeedableRng;
use rand_core::utils::NextWord;
use std::marker::Model;

/// The words that ChaCha8 gives for a key and the number of a stream, from some place on.
#[derive(Drop)]
pub struct Seeded {
    generator: ChaCha8Rng,
}

impl Model for Seeded {
    ghost Value = { ChaCha };

    ghost view = { λ s. s.generator };

    ghost invariant = { λ s. s.generator.word_pos < 2 ^ 68 };
}

impl Seeded {
    /// The words of this key and stream, from the first.
    pub fn new(key: [u8; 32], stream: u64) -> Seeded
        ensures start { result ≡ record { key = key_of key; stream = stream; word_pos = 0 } }
        ensures words { (k : ℕ) → words_from result k ≡ word_at 4 (key_of key) stream (k % 2 ^ 68) }
    {
        let mut generator = ChaCha8Rng::from_seed(key);
        generator.set_stream(stream);
        Seeded { generator }
    }
}

impl Words for Seeded {
    ghost stream = { words_from };

    fn next(&mut self) -> u32 {
        self.generator.next_word()
    }
}
