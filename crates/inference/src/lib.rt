// The port of `infer_mutation_aliasing_ranges`.
#![tactic(auto)]

ghost use Rattle.std.specs.Prelude.{◌≡◌, ◌+◌, ◌≤◌, length};
ghost use Rattle.model.specs.Limits.{most_identifiers};
ghost use Rattle.workspace.specs.Layout.{LEAST};
ghost use Rattle.model.specs.Sheet.{Sheet};
ghost use Rattle.model.specs.Call.{read, holds, admit, IsSheet};
ghost use Rattle.workspace.specs.Sort.{cleared_from};
ghost use Rattle.inference.specs.Outcome.{Inferred};
ghost use Rattle.writing.specs.Wrote.{farthest};
ghost use Rattle.operands.specs.Ranges.{most_ranges};
ghost use Rattle.operands.specs.Whole.{Passing, most_operand_words};
ghost use Rattle.inference.specs.Whole.{NoneUnless, AppliesIs, Keeps, Prepared, Prepares, most_tracked_words, TrackedPut, most_middle, MiddlePut, PassedPut, most_answer, AnswerPut};

use aliasing::process_mutations;
use building::Building;
use dataflow::build_blocks;
use dataflow::function::{HirFunction, Read};
use dataflow::parameters::read_function;
use diagnostics::put_diagnostics;
use hir::limits::MOST_RELATIONS;
use hir::refusal::Refusal;
use operands::ranges::put_ranges;
use operands::{RANGE_WIDTH, put_operands};
use summary::simulation::put_effects;
use summary::tracked::put_marked;
use summary::walks::put_walks;
use workspace::{END, IDENTIFIERS, LEAST, RECORD, clear, clear_from};
use writing::Writer;

// There is no record yet, and the ends are the sheet's n ones. The spans are not cleared: a record whose word is 0 is none.
fn keep(ws: &mut [u32], n: usize)
    requires { (LEAST ≤ length ws.old) × (n ≤ most_identifiers) }
    ensures { Keeps n ws.old ws.new }
{
    clear(ws, RECORD, IDENTIFIERS);
    clear(ws, END + n, IDENTIFIERS - n);
}

// Part 1: builds the data flow graph of a sheet that was read and lays it out for the walks; refused, if it would hold too much. Unless `copies`, its instructions have no effect of kind 14 to 17; `applies` says whether one has Apply.
fn build(sheet: &[u32], ws: &mut [u32], copies: bool, applies: bool) -> Result<Read, Refusal>
    requires in_bounds { LEAST ≤ length ws.old }
    requires sheet { (s : Sheet) × IsSheet sheet.now s }
    requires none_unless { NoneUnless copies sheet.now }
    requires applies_is { AppliesIs applies sheet.now }
    ensures { Prepares (holds (read sheet.now)) sheet.now ws.old ws.new result }
{
    let Read {
        mut function,
        mut building,
    } = read_function(sheet, ws);
    function.copies = copies;
    function.applies = applies;
    build_blocks(function.blocks, sheet, ws, &mut building, function.returns);
    if MOST_RELATIONS < building.held.most {
        return Err(Refusal::Totals);
    }
    building.lay_out(ws);
    keep(ws, function.identifiers.count as usize);
    Ok(Read { function, building })
}

// Reads a sheet and builds it: refusals 1 to 8, or the sheet before its first mutation.
pub fn prepare(sheet: &[u32], ws: &mut [u32]) -> Result<Read, Refusal>
    ensures { Prepares (admit sheet.now (length ws.old)) sheet.now ws.old ws.new result }
{
    if ws.len() < LEAST {
        return Err(Refusal::ShortWorkspace);
    }
    let totals = reading::read(sheet)?;
    let copies = 0 < totals.diagnoses || 0 < totals.renders;
    build(sheet, ws, copies, 0 < totals.applies)
}

// The sections of params and context.
fn put_tracked(ws: &[u32], f: HirFunction, out: &mut Writer<'_, u32>)
    requires in_bounds { LEAST ≤ length ws.now }
    requires most_tracked_words_bound { out.old.at + most_tracked_words ≤ farthest }
    ensures { TrackedPut ws.now f out.old out.new }
{
    let params = f.params as usize;
    let context = f.context as usize;
    put_marked(ws, 0, params, out);
    put_marked(ws, params, context, out);
}

// Runs the mutations, the renders and the simulated mutations, and writes the sections from params to walks.
fn put_middle(
    sheet: &[u32],
    lists: &[u32],
    ws: &mut [u32],
    f: HirFunction,
    b: Building,
    out: &mut Writer<'_, u32>,
)
    requires prepared { (s : Sheet) × Prepared s sheet.now lists.now ws.old f b }
    requires most_middle_bound { out.old.at + most_middle ≤ farthest }
    ensures { MiddlePut sheet.now lists.now ws.old f b out.old ws.new out.new }
{
    let hand = process_mutations(ws, b.mutations, f.errors);
    put_tracked(ws, f, out);
    put_diagnostics(sheet, lists, ws, f, b.renders, hand, out);
    put_effects(sheet, ws, f, b.index(), out);
    let walks = (f.params + f.context + 1) as usize;
    put_walks(ws, b.mutations, walks, out);
}

// Runs the pass over operands and writes its four sections, then the ranges from `first` on, which stand before all other sections.
fn put_passed(
    sheet: &[u32],
    lists: &[u32],
    ws: &mut [u32],
    f: HirFunction,
    first: usize,
    out: &mut Writer<'_, u32>,
)
    requires passing { (s : Sheet) × Passing s sheet.now lists.now ws.old f }
    requires most_ranges_bound { (first + most_ranges ≤ farthest) × (out.old.at + most_operand_words ≤ farthest) }
    ensures { PassedPut sheet.now lists.now f ws.old first out.old ws.new out.new }
{
    put_operands(sheet, lists, f, ws, out);
    let end = out.at;
    out.at = first;
    put_ranges(ws, f.identifiers.count, out);
    out.at = end;
}

// Writes the answer's sections. The inner functions stand in `lists`. The ranges are known when the pass is done, so they are written last.
pub fn put_answer(
    sheet: &[u32],
    lists: &[u32],
    ws: &mut [u32],
    f: HirFunction,
    b: Building,
    out: &mut Writer<'_, u32>,
)
    requires prepared { (s : Sheet) × Prepared s sheet.now lists.now ws.old f b }
    requires most_answer_bound { out.old.at + most_answer ≤ farthest }
    ensures { AnswerPut sheet.now lists.now ws.old f b out.old ws.new out.new }
{
    let first = out.at;
    out.at += 1 + RANGE_WIDTH * f.identifiers.count as usize;
    put_middle(sheet, lists, ws, f, b, out);
    put_passed(sheet, lists, ws, f, first, out);
}

// A refusal leaves both buffers all 0.
pub fn refuse<E>(ws: &mut [u32], answer: &mut [u32], refusal: E) -> Result<usize, E>
    ensures refused { result ≡ Err refusal }
    ensures workspace { ws.new ≡ cleared_from 0 ws.old }
    ensures answer { answer.new ≡ cleared_from 0 answer.old }
{
    clear_from(ws, 0);
    clear_from(answer, 0);
    Err(refusal)
}

// The whole call: the answer of an accepted sheet, or a refusal where the buffer is shorter.
pub fn infer_mutation_aliasing_ranges(
    sheet: &[u32],
    workspace: &mut [u32],
    answer: &mut [u32],
) -> Result<usize, Refusal>
    ensures { Inferred sheet.now workspace.old answer.old result workspace.new answer.new }
{
    match prepare(sheet, workspace) {
        Err(refusal) => refuse(workspace, answer, refusal),
        Ok(Read { function, building }) => {
            if function.applies {
                return refuse(workspace, answer, Refusal::Apply);
            }
            let mut out = Writer::new(answer);
            put_answer(sheet, sheet, workspace, function, building, &mut out);
            let length = out.at;
            if answer.len() < length {
                return refuse(workspace, answer, Refusal::ShortAnswer);
            }
            clear_from(workspace, 0);
            clear_from(answer, length);
            Ok(length)
        }
    }
}
