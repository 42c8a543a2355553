// What refusal 8 counts, and whether there is a diagnosis or an Apply.
ghost use Rattle.std.specs.Prelude.{◌≡◌};
ghost use Rattle.hir.specs.Numbers.{kind_says};
ghost use Rattle.reading.specs.Judging.{bump, tell_kind, over_told};
ghost use Rattle.reading.specs.TotalsSays.{totals_are};

use crate::blocks::Totals;
use hir::EffectKind;
use hir::effects::{Role, role_of};
use hir::limits::{MOST_MUTATIONS, MOST_RENDERS};

// One more, but no more than `stop`.
pub fn bump(x: u32, stop: u32) -> u32
    ensures { result ≡ bump stop x }
{
    if x < stop { x + 1 } else { x }
}

impl Totals {
    // Whether refusal 8 applies.
    #[tactic(auto, unfolding(crate::specs::Judging::over_told))]
    pub fn over(self) -> bool
        ensures { result ≡ over_told (totals_are self) }
    {
        MOST_MUTATIONS < self.mutations || MOST_RENDERS < self.renders
    }

    // An effect of this kind, of an instruction or of a terminal, whose effects count nothing.
    #[tactic(auto, unfolding(crate::specs::Judging::tell_kind, crate::specs::Judging::with_mutation, crate::specs::Judging::with_render, crate::specs::Judging::with_diagnosis, crate::specs::Judging::with_apply))]
    pub fn effect(self, kind: EffectKind, terminal: bool) -> Totals
        ensures { totals_are result ≡ tell_kind terminal (kind_says kind) (totals_are self) }
    {
        if terminal {
            return self;
        }
        match role_of(kind) {
            Role::Mutation => Totals {
                mutations: bump(self.mutations, MOST_MUTATIONS + 1),
                ..self
            },
            Role::Render => Totals {
                renders: bump(self.renders, MOST_RENDERS + 1),
                ..self
            },
            Role::Diagnosis => Totals {
                diagnoses: 1,
                ..self
            },
            Role::Nothing if kind == EffectKind::Apply => Totals { applies: 1, ..self },
            Role::Relation | Role::Nothing => self,
        }
    }
}
