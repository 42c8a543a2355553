// A place: an identifier, the traits word split into its parts, a span.
ghost use Rattle.std.specs.Prelude.{◌≡◌, ◌≤◌};
ghost use Rattle.model.specs.Limits.{most_traits};
ghost use Rattle.model.specs.Traits.{effect_of, reactive_of, traits_word};
ghost use Rattle.model.specs.Sections.{place, unused};
ghost use Rattle.hir.specs.Numbers.{effect_number};
ghost use Rattle.hir.specs.Says.{place_says, place_or_unused};

use crate::limits::MOST_TRAITS;
use crate::{Cursor, Effect, IdentifierId, Place, Step};

// The effects by their numbers.
const EFFECTS: [Effect; 8] = [
    Effect::Unknown,
    Effect::Freeze,
    Effect::Read,
    Effect::Capture,
    Effect::ConditionallyMutateIterator,
    Effect::ConditionallyMutate,
    Effect::Mutate,
    Effect::Store,
];

// What is added to the position of a reactive place's effect.
const REACTIVE: u32 = 8;

// The position of the effect that a traits word names.
#[tactic(auto, unfolding(model::specs::Traits::effect_of))]
fn position_of(traits: u32) -> u32
    requires { traits ≤ most_traits }
    ensures { result ≡ effect_of traits }
{
    if REACTIVE <= traits {
        traits - REACTIVE
    } else {
        traits
    }
}

// The effect that a traits word names.
// Kept: it requires a traits word, which a `From` cannot, and so has no error for a `TryFrom`.
#[tactic(auto, using(crate::proofs::Ranges::effect_right), unfolding(model::specs::Traits::effect_of))]
pub fn effect_of(traits: u32) -> Effect
    requires { traits ≤ most_traits }
    ensures { effect_number result ≡ effect_of traits }
{
    EFFECTS[position_of(traits) as usize]
}

// Whether a traits word says reactive.
#[tactic(auto, unfolding(model::specs::Traits::reactive_of))]
pub fn reactive_of(traits: u32) -> bool
    ensures { result ≡ reactive_of traits }
{
    REACTIVE <= traits
}

// The effect that any word names as a traits word: by its lowest four bits.
#[tactic(auto, unfolding(model::specs::Traits::effect_of))]
pub fn effect_in(word: u32) -> Effect
    ensures { effect_number result ≡ effect_of word }
{
    effect_of(word % (MOST_TRAITS + 1))
}

// The traits word of both.
#[tactic(auto, using(crate::proofs::Ranges::effect_number_lem), unfolding(model::specs::Traits::traits_word))]
pub fn traits_word(effect: Effect, reactive: bool) -> u32
    ensures { result ≡ traits_word (effect_number effect) reactive }
{
    let position = u32::from(effect);
    if reactive {
        position + REACTIVE
    } else {
        position
    }
}

impl Cursor {
    // A place of an identifier below `n`.
    #[tactic(auto, using(model::proofs::ReadLaws::at_most_reads), unfolding(model::specs::Sections::place))]
    pub fn place(self, s: &[u32], n: u32) -> Step<Place>
        ensures { place_says result ≡ place n s.now self.at }
    {
        let (identifier, c) = self.below(s, n)?;
        let (traits, c) = c.at_most(s, MOST_TRAITS)?;
        let (span, c) = c.word(s)?;
        let place = Place {
            identifier: IdentifierId(identifier),
            effect: effect_of(traits),
            reactive: reactive_of(traits),
            span,
        };
        Ok((place, c))
    }

    // A place that an effect does not use: three words 0, but for an instance as the first.
    #[tactic(auto, unfolding(model::specs::Sections::unused))]
    fn unused(self, s: &[u32], instance: u32) -> Step<Place>
        ensures { place_says result ≡ unused instance s.now self.at }
    {
        let (identifier, c) = self.at_most(s, instance)?;
        let (_, c) = c.at_most(s, 0)?;
        let (_, c) = c.at_most(s, 0)?;
        let place = Place {
            identifier: IdentifierId(identifier),
            effect: Effect::Unknown,
            reactive: false,
            span: 0,
        };
        Ok((place, c))
    }

    pub fn place_if(self, s: &[u32], n: u32, used: bool, instance: u32) -> Step<Place>
        ensures { place_says result ≡ place_or_unused used n instance s.now self.at }
    {
        if used {
            self.place(s, n)
        } else {
            self.unused(s, instance)
        }
    }
}
