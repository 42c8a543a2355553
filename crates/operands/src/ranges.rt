// The ranges in the workspace while the pass runs: starts and ends, a word for each identifier.
ghost use Rattle.std.specs.Prelude.{◌≡◌, ◌+◌, ◌≤◌, ◌<◌, length, get_or, set};
ghost use Rattle.model.specs.Limits.{most_identifiers, most_order};
ghost use Rattle.model.specs.Lists.{each};
ghost use Rattle.model.specs.Sheet.{StoreContext};
ghost use Rattle.model.specs.Ranges.{PlaceBelow};
ghost use Rattle.model.specs.Answer.{range_words, section};
ghost use Rattle.model.specs.Operands.{or_if_unset, start_if, name_lvalue, store_value};
ghost use Rattle.hir.specs.Says.{place_is};
ghost use Rattle.workspace.specs.Layout.{LEAST};
ghost use Rattle.writing.specs.Wrote.{Writes, farthest};
ghost use Rattle.operands.specs.Ranges.{ranges_of, Ranged, first_ranges, most_ranges};
ghost use Rattle.operands.specs.Known.{places_at, PlacesIn};

use hir::at::{List, PLACE_WIDTH, place_at};
use hir::{EvaluationOrder, IdentifierId, Place};
use workspace::{ENDS, STARTS};
use writing::Writer;

// The end of an identifier's range.
pub fn end_of(ws: &[u32], x: IdentifierId) -> EvaluationOrder
    requires { (x.0 < most_identifiers) × (LEAST ≤ length ws.now) }
    ensures { result.0 ≡ get_or (ranges_of ws.now).ends x.0 0 }
{
    EvaluationOrder(ws[ENDS + x.0 as usize])
}

// What is unset becomes `order`.
fn set_unset(ws: &mut [u32], at: usize, order: u32)
    requires { at < length ws.old }
    ensures { ws.new ≡ set ws.old at (or_if_unset (get_or ws.old at 0) order) }
{
    if EvaluationOrder(ws[at]).is_unset() {
        ws[at] = order;
    }
}

// A start that is unset becomes `start`, if the end is above `order`.
pub fn start_if(ws: &mut [u32], p: Place, order: EvaluationOrder, start: EvaluationOrder)
    requires { PlaceBelow most_identifiers (place_is p) × (LEAST ≤ length ws.old) }
    ensures { Ranged (start_if order.0 start.0 (place_is p)) ws.old ws.new }
{
    if order < end_of(ws, p.identifier) {
        set_unset(ws, STARTS + p.identifier.0 as usize, start.0);
    }
}

// An lvalue of an instruction with this order: start and end, where they are unset.
pub fn name_lvalue(ws: &mut [u32], p: Place, order: EvaluationOrder)
    requires { PlaceBelow most_identifiers (place_is p) × ((LEAST ≤ length ws.old) × (order.0 ≤ most_order)) }
    ensures { Ranged (name_lvalue order.0 (place_is p)) ws.old ws.new }
{
    let x = p.identifier.0 as usize;
    set_unset(ws, STARTS + x, order.0);
    set_unset(ws, ENDS + x, order.0 + 1);
}

// The lvalues of a list.
pub fn name_lvalues(sheet: &[u32], list: List, ws: &mut [u32], order: EvaluationOrder)
    requires places_in { PlacesIn sheet.now list }
    requires in_bounds { (LEAST ≤ length ws.old) × (order.0 ≤ most_order) }
    ensures { Ranged (each (name_lvalue order.0) (places_at sheet.now list).what) ws.old ws.new }
{
    let mut next = list.first;
    for _ in 0..list.count {
        name_lvalue(ws, place_at(sheet, next), order);
        next += PLACE_WIDTH;
    }
}

// The starts of the operands of a list.
pub fn start_operands(sheet: &[u32], list: List, ws: &mut [u32], order: EvaluationOrder)
    requires places_in { PlacesIn sheet.now list }
    requires in_bounds { LEAST ≤ length ws.old }
    ensures { Ranged (each (start_if order.0 order.0) (places_at sheet.now list).what) ws.old ws.new }
{
    let mut next = list.first;
    for _ in 0..list.count {
        start_if(ws, place_at(sheet, next), order, order);
        next += PLACE_WIDTH;
    }
}

// The section of ranges.
pub fn put_ranges(ws: &[u32], count: u32, out: &mut Writer<'_, u32>)
    requires count_le_most_identifiers { (count ≤ most_identifiers) × (LEAST ≤ length ws.now) }
    requires most_ranges_bound { out.old.at + most_ranges ≤ farthest }
    ensures { Writes (section range_words (first_ranges count (ranges_of ws.now))) out.old out.new }
{
    out.put(count);
    for x in 0..count as usize {
        out.put_pair(ws[STARTS + x], ws[ENDS + x]);
    }
}

// StoreContext: the end of what is stored, where it is not above the order.
pub fn store(ws: &mut [u32], x: IdentifierId, order: EvaluationOrder)
    requires { (x.0 < most_identifiers) × ((LEAST ≤ length ws.old) × (order.0 ≤ most_order)) }
    ensures { Ranged (store_value order.0 (StoreContext x.0)) ws.old ws.new }
{
    if end_of(ws, x) <= order {
        ws[ENDS + x.0 as usize] = order.0 + 1;
    }
}
