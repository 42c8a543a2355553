// The pass over operands: the original's second loop over the blocks. It gives every operand its effect and sets range starts, and ends that nothing else set.
// It runs once for each section of places, since the answer has them one after another.
#![tactic(auto)]

ghost use Rattle.std.specs.Prelude.{◌≡◌, ◌+◌, ◌≤◌, length};
ghost use Rattle.model.specs.Sheet.{Sheet};
ghost use Rattle.writing.specs.Wrote.{farthest};
ghost use Rattle.operands.specs.Known.{InnerFunctions, Known};
ghost use Rattle.operands.specs.Whole.{Passing, most_section, SectionPut, most_inner, InnerPut, most_operand_words, OperandsPut};

use dataflow::function::HirFunction;
use hir::at::PLACE_WIDTH;
use writing::Writer;

pub mod begin;
pub mod blocks;
mod contexts;
mod given;
mod instruction;
mod marks;
mod phis;
pub mod ranges;
mod terminals;

// A range's start and end.
pub const RANGE_WIDTH: usize = 2;

// Which places are written.
// Kept: what a step writes is stated by it (`places_in`); as closures in `Pass` each step would need that contract of its own.
#[derive(Clone, Copy, Debug, PartialEq, Eq)]
pub enum Section {
    Phis,
    Instructions,
    Terminals,
}

// What the pass over blocks reads: the sheet, the lists of the inner functions, which places are written, and whether the function is an expression.
#[derive(Clone, Copy, Debug, PartialEq, Eq)]
pub struct Pass<'a> {
    pub sheet: &'a [u32],
    pub lists: &'a [u32],
    pub section: Section,
    pub expression: bool,
}

// One section of places: the pass from its beginning.
fn put_section(
    sheet: &[u32],
    lists: &[u32],
    f: HirFunction,
    section: Section,
    ws: &mut [u32],
    out: &mut Writer<'_, u32>,
)
    requires passing { (s : Sheet) × Passing s sheet.now lists.now ws.old f }
    requires most_section_bound { out.old.at + most_section ≤ farthest }
    ensures { SectionPut section sheet.now lists.now f ws.old out.old ws.new out.new }
{
    begin::begin(sheet, f.identifiers, ws);
    let count = out.at;
    out.put(0);
    let start = out.at;
    let pass = Pass {
        sheet,
        lists,
        section,
        expression: f.function_expression,
    };
    pass.blocks(f.blocks, ws, out);
    out.patch(count, ((out.at - start) / PLACE_WIDTH) as u32);
}

// The section of inner contexts.
fn put_inner(lists: &[u32], functions: u32, ws: &[u32], out: &mut Writer<'_, u32>)
    requires known { (fs : InnerFunctions) × (Known lists.now ws.now fs × (functions ≡ length fs)) }
    requires most_inner_bound { out.old.at + most_inner ≤ farthest }
    ensures { InnerPut functions lists.now ws.now out.old out.new }
{
    let count = out.at;
    out.put(0);
    let start = out.at;
    contexts::put_contexts(lists, ws, functions, out);
    out.patch(count, ((out.at - start) / PLACE_WIDTH) as u32);
}

// The four sections of places: phis, instructions, terminals, inner; the context places of inner functions stand in `lists`. The ranges after the pass are left in the workspace.
pub fn put_operands(
    sheet: &[u32],
    lists: &[u32],
    f: HirFunction,
    ws: &mut [u32],
    out: &mut Writer<'_, u32>,
)
    requires passing { (s : Sheet) × Passing s sheet.now lists.now ws.old f }
    requires most_operand_words_bound { out.old.at + most_operand_words ≤ farthest }
    ensures { OperandsPut sheet.now lists.now f ws.old out.old ws.new out.new }
{
    put_section(sheet, lists, f, Section::Phis, ws, out);
    put_section(sheet, lists, f, Section::Instructions, ws, out);
    put_section(sheet, lists, f, Section::Terminals, ws, out);
    put_inner(lists, f.m, ws, out);
}
