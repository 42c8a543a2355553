// The phis of a block.
ghost use Rattle.std.specs.Prelude.{◌≡◌, [], map, ◌+◌, ◌≤◌, length};
ghost use Rattle.model.specs.Limits.{most_identifiers};
ghost use Rattle.model.specs.Lists.{gather, among, Every};
ghost use Rattle.model.specs.Ranges.{PhiBelow};
ghost use Rattle.model.specs.Answer.{place_words};
ghost use Rattle.model.specs.Operands.{phis_marked, phi_starts, phis};
ghost use Rattle.hir.specs.Words.{several, phi_from, phis_from};
ghost use Rattle.workspace.specs.Layout.{LEAST};
ghost use Rattle.writing.specs.Wrote.{Writes, farthest};
ghost use Rattle.operands.specs.Ranges.{ranges_of, Ranged};
ghost use Rattle.operands.specs.Given.{given_phi};
ghost use Rattle.operands.specs.Phis.{phi_identifier, phis_in, PhisBelow, PlacesPut};
ghost use Rattle.operands.specs.Known.{InnerFunctions, Lists};
ghost use Rattle.operands.specs.Passes.{Passable, Passed};

use crate::given::{give, put_places};
use crate::marks::capture_or_read;
use crate::ranges::start_if;
use crate::{Pass, Section};
use copies::past::past_phi;
use copies::put_place;
use hir::at::{List, OPERAND_WIDTH, list_at, phi_at};
use hir::{Effect, EvaluationOrder, IdentifierId};
use writing::Writer;

// Whether one of `count` phis from `first` on has this identifier.
fn named(sheet: &[u32], first: usize, count: u32, x: IdentifierId) -> bool
    requires { (several count phi_from sheet.now first).next ≤ length sheet.now }
    ensures { result ≡ among x.0 (map phi_identifier (several count phi_from sheet.now first).what) }
{
    let mut next = first;
    for _ in 0..count {
        if phi_at(sheet, next).place.identifier == x {
            return true;
        }
        next = past_phi(sheet, next);
    }
    false
}

// A phi's place and its operands.
fn put_phi(
    sheet: &[u32],
    from: usize,
    place: Option<Effect>,
    operands: Option<Effect>,
    out: &mut Writer<'_, u32>,
)
    requires from_in_bounds { (phi_from sheet.now from).next ≤ length sheet.now }
    requires sheet_bound { out.old.at + length sheet.now ≤ farthest + from }
    ensures { Writes (gather place_words (given_phi place operands (phi_from sheet.now from).what)) out.old out.new }
{
    let phi = phi_at(sheet, from);
    put_place(out, give(phi.place, place));
    put_places(sheet, phi.operands, OPERAND_WIDTH, operands, out);
}

// The phis' places: of those with one identifier only the first is marked, as the original finds them by identifier.
fn put_phis(
    sheet: &[u32],
    list: List,
    ws: &[u32],
    order: EvaluationOrder,
    out: &mut Writer<'_, u32>,
)
    requires list_in_bounds { (phis_in sheet.now list).next ≤ length sheet.now }
    requires every { Every (PhiBelow most_identifiers) (phis_in sheet.now list).what × (LEAST ≤ length ws.now) }
    requires sheet_bound { out.old.at + length sheet.now ≤ farthest + list.first }
    ensures { PlacesPut (phis_marked (ranges_of ws.now) order.0 [] (phis_in sheet.now list).what) list.first (phis_in sheet.now list).next out.old out.new }
{
    let mut next = list.first;
    for done in 0..list.count {
        let x = phi_at(sheet, next).place.identifier;
        if named(sheet, list.first, done, x) {
            put_phi(sheet, next, None, None, out);
        } else {
            let effect = capture_or_read(ws, x, order);
            put_phi(sheet, next, Some(Effect::Store), Some(effect), out);
        }
        next = past_phi(sheet, next);
    }
}

// The phis' starts, one below the block's first order; the position after the phis.
fn start_phis(sheet: &[u32], list: List, ws: &mut [u32], order: EvaluationOrder) -> usize
    requires list_in_bounds { (phis_in sheet.now list).next ≤ length sheet.now }
    requires every { Every (PhiBelow most_identifiers) (phis_in sheet.now list).what × (LEAST ≤ length ws.old) }
    ensures { Ranged (phi_starts order.0 (phis_in sheet.now list).what) ws.old ws.new × (result ≡ (phis_in sheet.now list).next) }
{
    let before = EvaluationOrder(order.0.saturating_sub(1));
    let mut next = list.first;
    for _ in 0..list.count {
        start_if(ws, phi_at(sheet, next).place, order, before);
        next = past_phi(sheet, next);
    }
    next
}

impl Pass<'_> {
    // A block's phis, by the ends as they stand when the pass comes to it; the position after them.
    pub(crate) fn phis(
        &self,
        from: usize,
        order: EvaluationOrder,
        ws: &mut [u32],
        out: &mut Writer<'_, u32>,
    ) -> usize
        requires { (lists : Lists) × Passable phis_from PhisBelow self.now.sheet.now lists ws.old from out.old }
        ensures { (lists : Lists) → Passed phis_from PhisBelow (λ (fs : InnerFunctions). phis order.0) self.now.section self.now.sheet.now lists from ws.old out.old ws.new out.new result }
    {
        let list = list_at(self.sheet, from);
        if self.section == Section::Phis {
            put_phis(self.sheet, list, ws, order, out);
        }
        start_phis(self.sheet, list, ws, order)
    }
}
