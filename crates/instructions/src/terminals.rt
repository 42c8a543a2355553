// A block's terminal. Of its effects only Alias does something.
ghost use Rattle.model.specs.Lists.{each, Every};
ghost use Rattle.model.specs.Limits.{most_identifiers, effect_width};
ghost use Rattle.model.specs.Ranges.{PlaceBelow};
ghost use Rattle.model.specs.Building.{terminal_effect, terminal as terminal_step};
ghost use Rattle.hir.specs.Says.{place_is, effect_is};
ghost use Rattle.hir.specs.Words.{wide, effect_at, several, terminal_from};
ghost use Rattle.instructions.specs.Cost.{costs, terminal_effect_cost, terminal_cost};
ghost use Rattle.instructions.specs.Ranges.{InRange, TerminalInRange};
ghost use Rattle.instructions.specs.Builds.{Spends, Buildable, and_count, Ready, Builds};

use building::Building;
use hir::at::{EFFECT_WIDTH, List, Terminal, effect_at, past_places, terminal_at};
use hir::{AliasingEffect, EffectKind, Place};

fn build_terminal_effect(e: AliasingEffect, ws: &mut [u32], b: &mut Building)
    requires { Buildable (effect_is e) InRange terminal_effect_cost ws.old b.old }
    ensures { Spends (terminal_effect (effect_is e)) (terminal_effect_cost (effect_is e)) ws.old b.old ws.new b.new }
{
    match e.kind {
        EffectKind::Alias => b.assign(ws, e.first.identifier, e.second.identifier),
        _ => {}
    }
}

// The effects of a terminal that has no operands: their count stands behind the effects. The position after both.
fn build_terminal_effects(list: List, s: &[u32], ws: &mut [u32], b: &mut Building) -> usize
    requires { Ready (and_count (several list.count (wide effect_width effect_at) s.now list.first)) (Every InRange) (costs terminal_effect_cost) s.now ws.old b.old }
    ensures { Builds (and_count (several list.count (wide effect_width effect_at) s.now list.first)) (each terminal_effect) (costs terminal_effect_cost) s.now ws.old b.old ws.new b.new result }
{
    let mut next = list.first;
    for _ in 0..list.count {
        build_terminal_effect(effect_at(s, next), ws, b);
        next += EFFECT_WIDTH;
    }
    next + 1
}

// A terminal; the position after it. The value of a Return is assigned to `returns`; its order does not matter here.
pub fn build_terminal(
    at: usize,
    s: &[u32],
    ws: &mut [u32],
    b: &mut Building,
    returns: Place,
) -> usize
    requires place_below { PlaceBelow most_identifiers (place_is returns) }
    requires ready { Ready (terminal_from s.now at) TerminalInRange terminal_cost s.now ws.old b.old }
    ensures { Builds (terminal_from s.now at) (terminal_step (place_is returns)) terminal_cost s.now ws.old b.old ws.new b.new result }
{
    match terminal_at(s, at) {
        Terminal::Other(operands) => past_places(s, operands),
        Terminal::Return(value, effects) => {
            b.assign(ws, value.identifier, returns.identifier);
            build_terminal_effects(effects, s, ws, b)
        }
        Terminal::MaybeThrow(effects) => build_terminal_effects(effects, s, ws, b),
    }
}
