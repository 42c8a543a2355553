// The context places of inner functions: where they stand in the lists, and the mark of each in the workspace.
ghost use Rattle.std.specs.Prelude.{◌≡◌, ◌+◌, ◌*◌, ◌≤◌, ◌<◌, length};
ghost use Rattle.model.specs.Limits.{most_functions, most_inner_context, place_width};
ghost use Rattle.model.specs.Lists.{Every};
ghost use Rattle.model.specs.Marks.{operand_effects};
ghost use Rattle.writing.specs.Wrote.{farthest};
ghost use Rattle.operands.specs.Ranges.{ranges_of};
ghost use Rattle.operands.specs.Known.{InnerFunctions, effects_in, IntoBelow, Known, ContextOf};
ghost use Rattle.operands.specs.Marking.{Marking, ContextPut, ContextsPut};

use crate::given::{give, given_by};
use crate::marks::Marks;
use copies::put_place;
use hir::at::{DIAGNOSTIC_WIDTH, List, PLACE_WIDTH, list_at, place_at};
use hir::{Effect, EvaluationOrder, FunctionId};
use workspace::{CONTEXTS, FUNCTIONS};
use writing::Writer;

// The most context places of an inner function.
const INNER_CONTEXT: usize = 64;

// The context places of an inner function: behind its diagnostics.
pub fn context_of(lists: &[u32], ws: &[u32], function: FunctionId) -> List
    requires { (fs : InnerFunctions) × (Known lists.now ws.now fs × (function.0 < length fs)) }
    ensures { ContextOf lists.now ws.now function.0 result }
{
    let start = ws[FUNCTIONS + function.0 as usize] as usize;
    let diagnostics = list_at(lists, start);
    list_at(
        lists,
        diagnostics.first + DIAGNOSTIC_WIDTH * diagnostics.count as usize,
    )
}

// Marks the context places of an inner function by an instruction's effects; those without a mark are Read.
pub fn mark_context(
    sheet: &[u32],
    lists: &[u32],
    function: FunctionId,
    effects: List,
    ws: &mut [u32],
    order: EvaluationOrder,
)
    requires known { (fs : InnerFunctions) × (Known lists.now ws.old fs × (function.0 < length fs)) }
    requires effects_in_bounds { (effects_in sheet.now effects).next ≤ length sheet.now }
    requires every { Every IntoBelow (effects_in sheet.now effects).what }
    ensures { Marking (operand_effects (ranges_of ws.old).ends order.0 (effects_in sheet.now effects).what) function.0 lists.now ws.old ws.new }
{
    let list = context_of(lists, ws, function);
    let first = CONTEXTS + INNER_CONTEXT * function.0 as usize;
    let mut next = list.first;
    for i in 0..list.count as usize {
        let p = place_at(lists, next);
        let marks = Marks {
            sheet,
            effects,
            ws,
            order,
        };
        let mark = marks.mark_of(p.identifier, Effect::Read);
        ws[first + i] = u32::from(mark) + 1;
        next += PLACE_WIDTH;
    }
}

// The context places of an inner function, with their marks.
fn put_context(lists: &[u32], ws: &[u32], function: FunctionId, out: &mut Writer<'_, u32>)
    requires known { (fs : InnerFunctions) × (Known lists.now ws.now fs × (function.0 < length fs)) }
    requires most_inner_context_bound { out.old.at + place_width * most_inner_context ≤ farthest }
    ensures { ContextPut function.0 lists.now ws.now out.old out.new }
{
    let list = context_of(lists, ws, function);
    let first = CONTEXTS + INNER_CONTEXT * function.0 as usize;
    let mut next = list.first;
    for i in 0..list.count as usize {
        put_place(out, give(place_at(lists, next), given_by(ws[first + i])));
        next += PLACE_WIDTH;
    }
}

// The context places of all inner functions.
pub fn put_contexts(lists: &[u32], ws: &[u32], count: u32, out: &mut Writer<'_, u32>)
    requires known { (fs : InnerFunctions) × (Known lists.now ws.now fs × (count ≡ length fs)) }
    requires most_functions_bound { out.old.at + place_width * most_inner_context * most_functions ≤ farthest }
    ensures { ContextsPut count lists.now ws.now out.old out.new }
{
    for k in 0..count {
        put_context(lists, ws, FunctionId(k), out);
    }
}
