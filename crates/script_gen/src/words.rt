//! Numbers that are drawn from the words of a seed.

ghost use Rattle.std.specs.Prelude.{◌≡◌, ◌<◌};
ghost use Rattle.script_gen.specs.Words.{draw, words_of};

use rand_chacha::ChaCha8Rng;
use rand_core::SeedableRng;
use rand_core::utils::NextWord;
use std::marker::Model;

/// The words of a seed's stream, from some place on: numbers of 32 bits from ChaCha with 8 rounds. Contracts see the generator's key,
/// stream and place. Definition: own.
#[derive(Drop)]
pub struct Words {
    generator: ChaCha8Rng,
}

impl Model for Words {
    ghost use Rattle.rand_chacha.specs.ChaCha.{ChaCha};

    ghost Value = { ChaCha };

    ghost view = { λ words. words.generator };
}

impl Words {
    /// The words of a seed's stream of this number, from the first one on. The streams of a seed have nothing in common that is known.
    #[tactic(auto, unfolding(crate::specs::Words::words_of))]
    pub fn new(seed: u64, stream: u64) -> Words
        ensures { result ≡ words_of seed stream }
    {
        let mut key = [0; 32];
        key[..8].copy_from_slice(&seed.to_le_bytes());
        let mut generator = ChaCha8Rng::from_seed(key);
        generator.set_stream(stream);
        Words { generator }
    }

    /// A number below the count: the next word modulo the count. A word is taken also where the count is 1.
    #[tactic(auto, unfolding(crate::specs::Words::draw))]
    pub fn draw(&mut self, count: usize) -> usize
        requires { 0 < count }
        ensures drawn { result ≡ (draw count self.old).0 }
        ensures left { self.new ≡ (draw count self.old).1 }
        ensures below { result < count }
    {
        self.generator.next_word() as usize % count
    }
}
