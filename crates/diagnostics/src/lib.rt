// The section of diagnostics: those recorded while building, then those handed over by mutations and by renders.
#![tactic(auto)]

ghost use Rattle.std.specs.Prelude.{◌+◌, ◌*◌, ◌≤◌, length};
ghost use Rattle.model.specs.Limits.{most_functions, most_renders};
ghost use Rattle.model.specs.Sheet.{Sheet};
ghost use Rattle.hir.specs.Words.{several, block_from};
ghost use Rattle.workspace.specs.Layout.{MUTATIONS};
ghost use Rattle.workspace.specs.Rows.{Indexed};
ghost use Rattle.writing.specs.Wrote.{farthest};
ghost use Rattle.copies.specs.Functions.{functions_of, Functions};
ghost use Rattle.dataflow.specs.Function.{Describes, Stands};
ghost use Rattle.diagnostics.specs.Diagnosed.{most_handed, most_diagnosed, RendersPut, RecordedPut, DiagnosticsPut};

use copies::effect_lists::{Section, copy_effects};
use copies::functions::put_handed;
use dataflow::function::HirFunction;
use hir::IdentifierId;
use hir::at::DIAGNOSTIC_WIDTH;
use renders::render;
use workspace::RENDERS;
use writing::Writer;

// Process renders: the pending ones in order; the diagnostics of the functions that each hands over.
fn process_renders(
    lists: &[u32],
    ws: &mut [u32],
    count: u32,
    renders: usize,
    out: &mut Writer<'_, u32>,
)
    requires indexed { Indexed ws.old }
    requires count_le_most_functions { (count ≤ most_functions) × (renders ≤ most_renders) }
    requires functions { Functions lists.now ws.old (functions_of lists.now ws.old count) }
    requires renders_bound { out.old.at + most_handed * renders ≤ farthest }
    ensures { RendersPut lists.now ws.old count renders out.old ws.new out.new }
{
    for i in 0..renders {
        let w = ws[RENDERS + i];
        let taken = render(ws, w / 512, IdentifierId(w % 512));
        put_handed(lists, ws, count, taken.hand, out);
    }
}

// The diagnostics that are recorded: none unless errors are, and none where no effect is copied.
fn put_recorded(sheet: &[u32], f: HirFunction, out: &mut Writer<'_, u32>)
    requires first_in_bounds { (several f.blocks.count block_from sheet.now f.blocks.first).next ≤ length sheet.now }
    requires sheet_bound { out.old.at + length sheet.now ≤ farthest }
    ensures { RecordedPut sheet.now f out.old out.new }
{
    if f.errors && f.copies {
        copy_effects(sheet, f.blocks, Section::Diagnostics, out);
    }
}

// The section; mutations handed over the functions up to `hand`, whose diagnostics stand in `lists`.
pub fn put_diagnostics(
    sheet: &[u32],
    lists: &[u32],
    ws: &mut [u32],
    f: HirFunction,
    renders: usize,
    hand: usize,
    out: &mut Writer<'_, u32>,
)
    requires indexed { Indexed ws.old }
    requires describes { (s : Sheet) × (Describes s sheet.now f × Stands s lists.now ws.old) }
    requires renders_le_most_renders { (renders ≤ most_renders) × ((hand ≤ MUTATIONS) × (out.old.at + most_diagnosed ≤ farthest)) }
    ensures { DiagnosticsPut sheet.now lists.now ws.old f renders hand out.old ws.new out.new }
{
    let start = out.at;
    out.put(0);
    let first = out.at;
    put_recorded(sheet, f, out);
    put_handed(lists, ws, f.m, hand, out);
    if f.errors {
        process_renders(lists, ws, f.m, renders, out);
    }
    out.patch(start, ((out.at - first) / DIAGNOSTIC_WIDTH) as u32);
}
