// The records of places as effects (the original's `collect_param_effects`).
ghost use Rattle.std.specs.Prelude.{[], ◌∷◌, ◌+◌, ◌*◌, ◌≤◌, ◌<◌, length};
ghost use Rattle.model.specs.Limits.{most_identifiers, effect_width};
ghost use Rattle.workspace.specs.Layout.{LEAST};
ghost use Rattle.model.specs.Lists.{gather};
ghost use Rattle.model.specs.Answer.{effect_words};
ghost use Rattle.hir.specs.Numbers.{kind_says};
ghost use Rattle.hir.specs.Says.{place_is};
ghost use Rattle.writing.specs.Wrote.{Writes, farthest};
ghost use Rattle.summary.specs.Records.{level_effects, Collected};
ghost use Rattle.workspace.specs.Tracked.{most_tracked, tracked_from};

use copies::{NO_PLACE, put_effect};
use hir::{AliasingEffect, EffectKind, Place};
use workspace::tracked::tracked;
use workspace::{LSPAN, RECORD, TSPAN};
use writing::Writer;

// The effect of a record, by the word of its kind, on a place with the record's span.
// Kept: the level is the two bits as they stand in the record's word, read by this match alone; an Option of a kind would be matched a second time. A struct of the two kinds would be made at the two calls and taken apart here.
fn put_record(
    out: &mut Writer<'_, u32>,
    level: u32,
    conditional: EffectKind,
    definite: EffectKind,
    reason: u32,
    p: Place,
)
    requires { out.old.at + effect_width ≤ farthest }
    ensures { Writes (gather effect_words (level_effects level (kind_says conditional) (kind_says definite) reason (place_is p))) out.old out.new }
{
    let (kind, extra) = match level {
        0 => return,
        1 => (conditional, 0),
        _ => (definite, reason),
    };
    let e = AliasingEffect {
        kind,
        first: p,
        second: NO_PLACE,
        extra,
    };
    put_effect(out, e);
}

// The records of a place's identifier as effects: the local one first. The reason's bit is its extra word.
fn collect_param_effects(ws: &[u32], p: Place, out: &mut Writer<'_, u32>)
    requires identifier_lt_most_identifiers { (p.identifier.0 < most_identifiers) × (LEAST ≤ length ws.now) }
    requires effect_width_bound { out.old.at + 2 * effect_width ≤ farthest }
    ensures { Collected ws.now (place_is p ∷ []) out.old out.new }
{
    let x = p.identifier.0 as usize;
    let w = ws[RECORD + x];
    put_record(
        out,
        w % 4,
        EffectKind::MutateConditionally,
        EffectKind::Mutate,
        w / 16 % 2,
        Place {
            span: ws[LSPAN + x],
            ..p
        },
    );
    put_record(
        out,
        w / 4 % 4,
        EffectKind::MutateTransitiveConditionally,
        EffectKind::MutateTransitive,
        0,
        Place {
            span: ws[TSPAN + x],
            ..p
        },
    );
}

// The same for `count` tracked places from `first` on.
pub fn collect_effects(ws: &[u32], first: usize, count: usize, out: &mut Writer<'_, u32>)
    requires count_bound { (first + count ≤ most_tracked) × (LEAST ≤ length ws.now) }
    requires count_bound_2 { out.old.at + 2 * effect_width * count ≤ farthest }
    ensures { Collected ws.now (tracked_from ws.now first count) out.old out.new }
{
    for i in 0..count {
        collect_param_effects(ws, tracked(ws, first + i), out);
    }
}
