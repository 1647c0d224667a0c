//! Words that are drawn from a generator.
#![tactic(auto)]

ghost use Rattle.std.specs.Prelude.{◌≡◌, ◌<◌, ◌^◌};
ghost use Rattle.session_random.specs.Words as words;

use rand_core::SeedableRng;
use rand_core::utils::NextWord;
use rand_pcg::Pcg32;

/// The generator of a seed: the `Pcg32` that `seed_from_u64` makes of it.
#[tactic(auto, unfolding(crate::specs::Words::generator_of))]
pub fn generator_of(seed: u64) -> Pcg32
    ensures { result ≡ words.generator_of seed }
{
    Pcg32::seed_from_u64(seed)
}

/// Draws the next word, which has 32 bits.
#[tactic(auto, unfolding(crate::specs::Words::next_word, crate::specs::Words::next_generator))]
pub fn draw_word(generator: &mut Pcg32) -> u64
    ensures word { result ≡ words.next_word generator.old }
    ensures below { result < 2 ^ 32 }
    ensures after { generator.new ≡ words.next_generator generator.old }
{
    u64::from(generator.next_word())
}
