// The draws of a class load.
ghost use Rattle.std.specs.Prelude.{◌≡◌, ◌<◌};
ghost use Rattle.model.specs.Sheet.{plain_place};
ghost use Rattle.model.specs.Load.{next_state, draw_below, draw_effect};
ghost use Rattle.hir.specs.Says.{place_is};
ghost use Rattle.load.specs.Draws.{draw_is, drawn_is};

use copies::NO_PLACE;
use hir::effects::row_of;
use hir::{AliasingEffect, EffectKind, IdentifierId, Place};

// The state is multiplied, then increased, within 32 bits.
const MULTIPLIER: u32 = 1664525;

const INCREMENT: u32 = 1013904223;

// A draw takes the upper half of the state.
const UPPER: u32 = 65536;

// The kinds that are drawn, in the order of their draws.
const KINDS: [EffectKind; 9] = [
    EffectKind::Mutate,
    EffectKind::MutateConditionally,
    EffectKind::MutateTransitive,
    EffectKind::MutateTransitiveConditionally,
    EffectKind::Capture,
    EffectKind::Alias,
    EffectKind::MaybeAlias,
    EffectKind::Assign,
    EffectKind::CreateFrom,
];

// The state that a draw sets.
fn next_state(state: u32) -> u32
    ensures { result ≡ next_state state }
{
    state.wrapping_mul(MULTIPLIER).wrapping_add(INCREMENT)
}

// A place with no traits and no span.
pub fn plain_place(identifier: u32) -> Place
    ensures { place_is result ≡ plain_place identifier }
{
    Place {
        identifier: IdentifierId(identifier),
        ..NO_PLACE
    }
}

// Where the draws stand: at first the seed.
#[derive(Clone, Copy, Debug, PartialEq, Eq)]
pub struct Generator {
    pub state: u32,
}

impl Generator {
    // A number below k.
    pub fn below(&mut self, k: u32) -> u32
        requires { 0 < k }
        ensures { draw_is result self.new ≡ draw_below k self.old.state }
    {
        self.state = next_state(self.state);
        self.state / UPPER % k
    }

    // One effect over n identifiers: its kind, then its places.
    pub fn effect(&mut self, n: u32) -> AliasingEffect
        requires { 0 < n }
        ensures { drawn_is result self.new ≡ draw_effect n self.old.state }
    {
        let kind = KINDS[self.below(KINDS.len() as u32) as usize];
        let first = plain_place(self.below(n));
        let second = if 2 <= row_of(u32::from(kind)).places {
            plain_place(self.below(n))
        } else {
            NO_PLACE
        };
        AliasingEffect {
            kind,
            first,
            second,
            extra: 0,
        }
    }
}
