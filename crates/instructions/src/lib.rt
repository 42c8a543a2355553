// What a block's instructions and its terminal do to the building: the second reading of the sheet, after it was accepted.
#![tactic(auto)]

ghost use Rattle.std.specs.Prelude.{◌≡◌};
ghost use Rattle.model.specs.Lists.{each, Every};
ghost use Rattle.model.specs.Mutation.{reason_of};
ghost use Rattle.model.specs.Building.{instruction as instruction_step};
ghost use Rattle.hir.specs.Says.{effect_is};
ghost use Rattle.hir.specs.Mutations.{reason_says};
ghost use Rattle.hir.specs.Words.{wide, effect_at, several, instruction_from, instructions_from};
ghost use Rattle.model.specs.Limits.{effect_width};
ghost use Rattle.instructions.specs.Cost.{costs, effect_cost, instruction_cost};
ghost use Rattle.instructions.specs.Ranges.{InRange, InstructionInRange};
ghost use Rattle.instructions.specs.Builds.{effect_step, Spends, Buildable, Ready, Builds};

use building::{Building, NodeValue, PendingMutation};
use hir::at::{EFFECT_WIDTH, List, effect_at, instruction_at, list_at};
use hir::{AliasingEffect, EffectKind, EvaluationOrder, FunctionId, MutationKind, MutationReason};

pub mod terminals;

// The reason that the extra word of Mutate gives, if any.
fn reason_of(extra: u32) -> Option<MutationReason>
    ensures { reason_says result ≡ reason_of extra }
{
    if extra == 0 {
        None
    } else {
        Some(MutationReason::AssignCurrentProperty)
    }
}

// An effect of an instruction with this order. MutateFrozen, MutateGlobal and Impure matter to the answer alone; Freeze, ImmutableCapture and Apply are no-ops.
fn build_effect(e: AliasingEffect, order: EvaluationOrder, ws: &mut [u32], b: &mut Building)
    requires { Buildable (effect_is e) InRange effect_cost ws.old b.old }
    ensures { Spends (effect_step order.0 (effect_is e)) (effect_cost (effect_is e)) ws.old b.old ws.new b.new }
{
    let from = e.first.identifier;
    let into = e.second.identifier;
    let local = PendingMutation {
        order,
        transitive: false,
        kind: MutationKind::Conditional,
        identifier: from,
        span: e.first.span,
        reason: None,
    };
    let transitive = PendingMutation {
        transitive: true,
        ..local
    };
    match e.kind {
        EffectKind::Mutate => b.push_mutation(
            ws,
            PendingMutation {
                kind: MutationKind::Definite,
                reason: reason_of(e.extra),
                ..local
            },
        ),
        EffectKind::MutateConditionally => b.push_mutation(ws, local),
        EffectKind::MutateTransitive => b.push_mutation(
            ws,
            PendingMutation {
                kind: MutationKind::Definite,
                ..transitive
            },
        ),
        EffectKind::MutateTransitiveConditionally => b.push_mutation(ws, transitive),
        EffectKind::Capture => b.capture(ws, from, into),
        EffectKind::Alias => b.assign(ws, from, into),
        EffectKind::MaybeAlias => b.maybe_alias(ws, from, into),
        EffectKind::Assign => b.assign_effect(ws, from, into),
        EffectKind::Create => b.create(ws, from, NodeValue::Object),
        EffectKind::CreateFrom => b.create_from(ws, from, into),
        EffectKind::CreateFunction => b.create(ws, from, NodeValue::Function(FunctionId(e.extra))),
        EffectKind::Render => b.push_render(ws, from),
        _ => {}
    }
}

// The effects of an instruction with this order; the position after them.
fn build_effects(
    list: List,
    s: &[u32],
    order: EvaluationOrder,
    ws: &mut [u32],
    b: &mut Building,
) -> usize
    requires { Ready (several list.count (wide effect_width effect_at) s.now list.first) (Every InRange) (costs effect_cost) s.now ws.old b.old }
    ensures { Builds (several list.count (wide effect_width effect_at) s.now list.first) (each (effect_step order.0)) (costs effect_cost) s.now ws.old b.old ws.new b.new result }
{
    let mut next = list.first;
    for _ in 0..list.count {
        build_effect(effect_at(s, next), order, ws, b);
        next += EFFECT_WIDTH;
    }
    next
}

// An instruction: its effects; the position after it.
fn build_instruction(at: usize, s: &[u32], ws: &mut [u32], b: &mut Building) -> usize
    requires { Ready (instruction_from s.now at) InstructionInRange instruction_cost s.now ws.old b.old }
    ensures { Builds (instruction_from s.now at) instruction_step instruction_cost s.now ws.old b.old ws.new b.new result }
{
    let i = instruction_at(s, at);
    build_effects(i.effects, s, i.order, ws, b)
}

// A block's instructions; the position after them.
pub fn build_instructions(at: usize, s: &[u32], ws: &mut [u32], b: &mut Building) -> usize
    requires { Ready (instructions_from s.now at) (Every InstructionInRange) (costs instruction_cost) s.now ws.old b.old }
    ensures { Builds (instructions_from s.now at) (each instruction_step) (costs instruction_cost) s.now ws.old b.old ws.new b.new result }
{
    let list = list_at(s, at);
    let mut next = list.first;
    for _ in 0..list.count {
        next = build_instruction(next, s, ws, b);
    }
    next
}
