// The section of effects: those copied, the records of context and parameters, Create for returns, and what simulated walks find.
ghost use Rattle.std.specs.Prelude.{◌≡◌, ◌+◌, ◌≤◌, ◌<◌, length};
ghost use Rattle.model.specs.Limits.{most_identifiers, most_index};
ghost use Rattle.model.specs.Sheet.{Sheet};
ghost use Rattle.model.specs.State.{simulated};
ghost use Rattle.model.specs.Simulated.{simulation};
ghost use Rattle.hir.specs.Says.{place_is};
ghost use Rattle.hir.specs.Words.{several, block_from};
ghost use Rattle.workspace.specs.Rows.{Indexed};
ghost use Rattle.workspace.specs.Tracked.{most_tracked};
ghost use Rattle.aliasing.specs.Says.{mode_says, mutation_says};
ghost use Rattle.writing.specs.Wrote.{farthest};
ghost use Rattle.summary.specs.Simulates.{most_flows, most_effects, Marked, Simulates, CopiedPut, Before, EffectsPut};

use crate::flows::put_flows;
use crate::records::collect_effects;
use crate::tracked::mark_tracked;
use aliasing::{Mutation, clear_marks, mutate};
use copies::effect_lists::{Section, copy_effects};
use copies::returns::put_create_returns;
use dataflow::function::HirFunction;
use hir::at::EFFECT_WIDTH;
use hir::{EvaluationOrder, IdentifierId, MutationKind, Place};
use workspace::tracked::tracked;
use workspace::{HANDED, SIMULATED};
use writing::Writer;

// The simulated mutation of a place: transitive, Conditional, moving no end.
fn simulated(index: u32, into: Place) -> Mutation
    requires { (into.identifier.0 < most_identifiers) × (index ≤ most_index + most_tracked) }
    ensures { (mutation_says result ≡ simulation index (place_is into)) × (mode_says result ≡ simulated) }
{
    Mutation {
        index,
        start: into.identifier,
        end: EvaluationOrder::UNSET,
        transitive: true,
        kind: MutationKind::Conditional,
        span: into.span,
        reason: None,
        should_record_errors: false,
    }
}

// One simulated walk for each of `count` tracked places, from this index on; the entries that each took are kept, and what each finds is written.
fn simulate(
    ws: &mut [u32],
    count: usize,
    index: u32,
    returns: IdentifierId,
    out: &mut Writer<'_, u32>,
)
    requires indexed { Indexed ws.old }
    requires marked { (s : Sheet) × Marked s ws.old count index returns.0 }
    requires count_le_most_tracked { (count ≤ most_tracked) × ((index ≤ most_index) × (out.old.at + most_flows ≤ farthest)) }
    ensures { Simulates ws.old count index returns.0 out.old ws.new out.new }
{
    clear_marks(ws);
    for i in 0..count {
        let into = tracked(ws, i);
        let next = index + i as u32;
        let walk = mutate(ws, HANDED, simulated(next, into));
        ws[SIMULATED + i] = walk.count;
        put_flows(ws, count, into, next, returns, out);
    }
}

// The effects of instructions that are copied: where there is none, no pass over the sheet.
fn put_copied(sheet: &[u32], f: HirFunction, out: &mut Writer<'_, u32>)
    requires first_in_bounds { (several f.blocks.count block_from sheet.now f.blocks.first).next ≤ length sheet.now }
    requires sheet_bound { out.old.at + length sheet.now ≤ farthest }
    ensures { CopiedPut sheet.now f out.old out.new }
{
    if f.copies {
        copy_effects(sheet, f.blocks, Section::Effects, out);
    }
}

// The section, the first simulated walk having this index.
pub fn put_effects(
    sheet: &[u32],
    ws: &mut [u32],
    f: HirFunction,
    index: u32,
    out: &mut Writer<'_, u32>,
)
    requires indexed { Indexed ws.old }
    requires before { (s : Sheet) × Before s sheet.now ws.old f index }
    requires index_le_most_index { (index ≤ most_index) × (out.old.at + most_effects ≤ farthest) }
    ensures { EffectsPut sheet.now ws.old f index out.old ws.new out.new }
{
    let params = f.params as usize;
    let context = f.context as usize;
    let start = out.at;
    out.put(0);
    put_copied(sheet, f, out);
    collect_effects(ws, params, context, out);
    collect_effects(ws, 0, params, out);
    put_create_returns(sheet, f.identifiers.first, f.returns, out);
    mark_tracked(ws, params + context);
    simulate(ws, params + context + 1, index, f.returns.identifier, out);
    let count = (out.at - (start + 1)) / EFFECT_WIDTH;
    out.patch(start, count as u32);
}
