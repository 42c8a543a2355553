// The diagnostics of inner functions (the original's `append_function_errors`).
ghost use Rattle.std.specs.Prelude.{◌+◌, ◌-◌, ◌*◌, ◌≤◌, length};
ghost use Rattle.std.proofs.Math.Seq.{slice};
ghost use Rattle.model.specs.Limits.{most_functions, diagnostic_width};
ghost use Rattle.model.specs.Lists.{gather};
ghost use Rattle.model.specs.Answer.{function_errors, diagnostic_words};
ghost use Rattle.hir.specs.Words.{wide, diagnostic_at, several};
ghost use Rattle.workspace.specs.Layout.{LEAST, HANDED, MUTATIONS};
ghost use Rattle.writing.specs.Wrote.{Writes, farthest};
ghost use Rattle.copies.specs.Functions.{most_errors, functions_of, Functions};

use crate::put_diagnostic;
use hir::FunctionId;
use hir::at::{DIAGNOSTIC_WIDTH, List, diagnostic_at, list_at};
use workspace::{FUNCTIONS, HANDED};
use writing::Writer;

// A list of diagnostics, by a writer of its own, whose position stays in a register.
fn copy_diagnostics(lists: &[u32], list: List, out: &mut Writer<'_, u32>)
    requires first_in_bounds { (several list.count (wide diagnostic_width diagnostic_at) lists.now list.first).next ≤ length lists.now }
    requires count_bound { out.old.at + diagnostic_width * list.count ≤ farthest }
    ensures { Writes (gather diagnostic_words (several list.count (wide diagnostic_width diagnostic_at) lists.now list.first).what) out.old out.new }
{
    let mut own = Writer {
        buffer: &mut *out.buffer,
        at: out.at,
    };
    let mut next = list.first;
    for _ in 0..list.count {
        put_diagnostic(&mut own, diagnostic_at(lists, next));
        next += DIAGNOSTIC_WIDTH;
    }
    out.at = own.at;
}

// The diagnostics of one of `count` inner functions, whose list stands where the workspace says. A function that is not there has none.
fn append_function_errors(
    lists: &[u32],
    ws: &[u32],
    count: u32,
    function: FunctionId,
    out: &mut Writer<'_, u32>,
)
    requires count_le_most_functions { (count ≤ most_functions) × (LEAST ≤ length ws.now) }
    requires functions { Functions lists.now ws.now (functions_of lists.now ws.now count) }
    requires most_errors_bound { out.old.at + most_errors ≤ farthest }
    ensures { Writes (gather diagnostic_words (function_errors (functions_of lists.now ws.now count) function.0)) out.old out.new }
{
    if count <= function.0 {
        return;
    }
    let start = ws[FUNCTIONS + function.0 as usize] as usize;
    copy_diagnostics(lists, list_at(lists, start), out);
}

// The diagnostics of the inner functions that mutations handed over, up to `hand`.
pub fn put_handed(lists: &[u32], ws: &[u32], count: u32, hand: usize, out: &mut Writer<'_, u32>)
    requires count_le_most_functions { (count ≤ most_functions) × ((hand ≤ MUTATIONS) × (LEAST ≤ length ws.now)) }
    requires functions { Functions lists.now ws.now (functions_of lists.now ws.now count) }
    requires hand_bound { out.old.at + most_errors * (hand - HANDED) ≤ farthest }
    ensures { Writes (gather diagnostic_words (gather (function_errors (functions_of lists.now ws.now count)) (slice HANDED hand ws.now))) out.old out.new }
{
    for i in HANDED..hand {
        append_function_errors(lists, ws, count, FunctionId(ws[i]), out);
    }
}
