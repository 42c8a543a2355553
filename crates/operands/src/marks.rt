// What an instruction's effects say of an identifier (the original's `operand_effects`): the last effect that names it decides.
ghost use Rattle.std.specs.Prelude.{◌≡◌, [], map, ◌+◌, ◌*◌, ◌≤◌, ◌<◌, length, get_or};
ghost use Rattle.model.specs.Limits.{most_identifiers, place_width};
ghost use Rattle.model.specs.Lists.{gather, Every};
ghost use Rattle.model.specs.Answer.{place_words};
ghost use Rattle.model.specs.Marks.{capture_or_read, flow_marks, mark, marks_of, operand_effects, mark_of, with_mark};
ghost use Rattle.hir.specs.Numbers.{effect_number};
ghost use Rattle.hir.specs.Says.{effect_is};
ghost use Rattle.workspace.specs.Layout.{LEAST};
ghost use Rattle.writing.specs.Wrote.{Writes, farthest};
ghost use Rattle.operands.specs.Ranges.{ranges_of};
ghost use Rattle.operands.specs.Known.{places_at, effects_in, IntoBelow};

use crate::given::with_effect;
use crate::ranges::end_of;
use copies::put_place;
use hir::at::{EFFECT_WIDTH, List, PLACE_WIDTH, effect_at, place_at};
use hir::{AliasingEffect, Effect, EffectKind, EvaluationOrder, IdentifierId};
use writing::Writer;

// Capture if the end is above the order, else Read.
pub fn capture_or_read(ws: &[u32], x: IdentifierId, order: EvaluationOrder) -> Effect
    requires { (x.0 < most_identifiers) × (LEAST ≤ length ws.now) }
    ensures { effect_number result ≡ capture_or_read (get_or (ranges_of ws.now).ends x.0 0) order.0 }
{
    if order < end_of(ws, x) {
        return Effect::Capture;
    }
    Effect::Read
}

// A mark on the effect's place.
fn mark_place(e: AliasingEffect, x: IdentifierId, given: Effect, before: Effect) -> Effect
    ensures { effect_number result ≡ mark_of (mark (effect_is e).first (effect_number given) []) x.0 (effect_number before) }
{
    if x == e.first.identifier {
        return given;
    }
    before
}

// The marks of an instruction's effects, by the ends as they stand.
#[derive(Clone, Copy, Debug, PartialEq, Eq)]
pub struct Marks<'a> {
    pub sheet: &'a [u32],
    pub effects: List,
    pub ws: &'a [u32],
    pub order: EvaluationOrder,
}

impl Marks<'_> {
    // A relation: "from" by the end of "into", then "into" is Store.
    fn mark_flow(&self, e: AliasingEffect, x: IdentifierId, before: Effect) -> Effect
        requires { (e.second.identifier.0 < most_identifiers) × (LEAST ≤ length self.now.ws.now) }
        ensures { effect_number result ≡ mark_of (flow_marks (ranges_of self.now.ws.now).ends self.now.order.0 (effect_is e) []) x.0 (effect_number before) }
    {
        if x == e.second.identifier {
            return Effect::Store;
        }
        if x == e.first.identifier {
            return capture_or_read(self.ws, e.second.identifier, self.order);
        }
        before
    }

    // The mark of x after one effect more.
    fn mark_by(&self, e: AliasingEffect, x: IdentifierId, before: Effect) -> Effect
        requires { IntoBelow (effect_is e) × (LEAST ≤ length self.now.ws.now) }
        ensures { effect_number result ≡ mark_of (marks_of (effect_is e).kind (ranges_of self.now.ws.now).ends self.now.order.0 (effect_is e) []) x.0 (effect_number before) }
    {
        match e.kind {
            EffectKind::Freeze => mark_place(e, x, Effect::Freeze, before),
            EffectKind::Mutate => mark_place(e, x, Effect::Store, before),
            EffectKind::MutateConditionally
            | EffectKind::MutateTransitive
            | EffectKind::MutateTransitiveConditionally => {
                mark_place(e, x, Effect::ConditionallyMutate, before)
            }
            EffectKind::Capture
            | EffectKind::Alias
            | EffectKind::MaybeAlias
            | EffectKind::Assign
            | EffectKind::CreateFrom => self.mark_flow(e, x, before),
            _ => before,
        }
    }

    // The mark of x, or what it has without one.
    pub fn mark_of(&self, x: IdentifierId, without: Effect) -> Effect
        requires effects_in_bounds { (effects_in self.now.sheet.now self.now.effects).next ≤ length self.now.sheet.now }
        requires every { Every IntoBelow (effects_in self.now.sheet.now self.now.effects).what × (LEAST ≤ length self.now.ws.now) }
        ensures { effect_number result ≡ mark_of (operand_effects (ranges_of self.now.ws.now).ends self.now.order.0 (effects_in self.now.sheet.now self.now.effects).what) x.0 (effect_number without) }
    {
        let mut next = self.effects.first;
        let mut mark = without;
        for _ in 0..self.effects.count {
            mark = self.mark_by(effect_at(self.sheet, next), x, mark);
            next += EFFECT_WIDTH;
        }
        mark
    }

    // The places of a list, each with its mark.
    pub fn put_marked(&self, list: List, without: Effect, out: &mut Writer<'_, u32>)
        requires list_in_bounds { (places_at self.now.sheet.now list).next ≤ length self.now.sheet.now }
        requires effects_in_bounds { (effects_in self.now.sheet.now self.now.effects).next ≤ length self.now.sheet.now }
        requires every { Every IntoBelow (effects_in self.now.sheet.now self.now.effects).what × (LEAST ≤ length self.now.ws.now) }
        requires count_bound { out.old.at + place_width * list.count ≤ farthest }
        ensures { Writes (gather place_words (map (with_mark (operand_effects (ranges_of self.now.ws.now).ends self.now.order.0 (effects_in self.now.sheet.now self.now.effects).what) (effect_number without)) (places_at self.now.sheet.now list).what)) out.old out.new }
    {
        let mut next = list.first;
        for _ in 0..list.count {
            let p = place_at(self.sheet, next);
            put_place(out, with_effect(p, self.mark_of(p.identifier, without)));
            next += PLACE_WIDTH;
        }
    }
}
