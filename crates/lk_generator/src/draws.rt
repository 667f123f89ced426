//! The numbers that a seed gives: a linear congruence of 64 bits, of which each draw shows the upper 31.

ghost use Rattle.std.specs.Prelude.{◌≡◌, ◌+◌, ◌<◌, ℕ, zero};
ghost use Rattle.lk_generator.specs.Draws.{pick, state_behind};

const MULTIPLIER: u64 = 6_364_136_223_846_793_005;

const INCREMENT: u64 = 1_442_695_040_888_963_407;

/// Where the draws of a seed have come to.
#[derive(Drop)]
pub(crate) struct Draws {
    state: u64,
}

impl Draws {
    /// The draws of a seed, before the first one.
    #[tactic(auto, unfolding(crate::specs::Draws::state_behind))]
    pub(crate) fn new(seed: u64) -> Draws
        ensures { result.state ≡ state_behind seed 0 }
    {
        Draws { state: seed }
    }

    /// The next draw, modulo `count`.
    #[tactic(auto, using(crate::proofs::DrawLemmas::drawn_behind))]
    pub(crate) fn pick(&mut self, count: u64) -> u64
        requires { 0 < count }
        ensures state { (seed n : ℕ) → self.old.state ≡ state_behind seed n → self.new.state ≡ state_behind seed (n + 1) }
        ensures picked { (seed n : ℕ) → self.old.state ≡ state_behind seed n → result ≡ pick seed (n + 1) count }
        ensures below { result < count }
    {
        self.state = self.state.wrapping_mul(MULTIPLIER).wrapping_add(INCREMENT);
        (self.state >> 33) % count
    }
}
