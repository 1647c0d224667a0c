//! What is drawn for the events.

ghost use Rattle.std.specs.Prelude.{◌≡◌, ◌<◌, ◌%◌};
ghost use Rattle.session_random.specs.Words.{next_generator, next_word};
ghost use Rattle.workload.specs.Draws.{after_draws, drawn};
ghost use Rattle.workload.specs.inner.Draws.{IsDrawn};

use rand_pcg::Pcg32;
use session_random::draw_word;

/// What is drawn for an event.
#[derive(Clone, Copy)]
pub(crate) struct Draws {
    /// At which replica it is.
    pub(crate) at: u64,
    /// What it is: a row of the table.
    pub(crate) row: u64,
    /// The number of its element.
    pub(crate) element: u64,
    /// The number of another element.
    pub(crate) other: u64,
    /// How a change goes into the history.
    pub(crate) capture: u64,
}

/// Draws for the next event; also what it doesn't need.
#[tactic(auto, unfolding(crate::specs::Draws::drawn, crate::specs::Draws::after_draws))]
pub(crate) fn draw_all(generator: &mut Pcg32) -> Draws
    ensures drawn { result ≡ drawn generator.old }
    ensures after { generator.new ≡ after_draws generator.old }
    ensures within { IsDrawn result }
{
    let at = draw(generator, 4);
    let row = draw(generator, 24);
    let element = draw(generator, 200);
    let other = draw(generator, 200);
    let capture = draw(generator, 8);
    Draws {
        at,
        row,
        element,
        other,
        capture,
    }
}

/// Draws a number below the limit.
fn draw(generator: &mut Pcg32, limit: u64) -> u64
    requires { 0 < limit }
    ensures number { result ≡ next_word generator.old % limit }
    ensures below { result < limit }
    ensures after { generator.new ≡ next_generator generator.old }
{
    draw_word(generator) % limit
}
