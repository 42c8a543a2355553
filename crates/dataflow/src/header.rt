// The sections up to the inner functions, read a second time.
ghost use Rattle.std.specs.Prelude.{◌≡◌, ◌&&◌, not, ◌≤◌, length};
ghost use Rattle.model.specs.Limits.{most_identifiers, most_functions, most_sheet, identifier_width};
ghost use Rattle.hir.specs.Words.{wide, identifier_at, several, placed, function_from};
ghost use Rattle.workspace.specs.Layout.{LEAST, END, FUNCTIONS};
ghost use Rattle.dataflow.specs.Accepted.{Accepted};
ghost use Rattle.dataflow.specs.Read.{end_of, stands_at, Stores, TopRead};

use hir::Flags;
use hir::at::{
    DIAGNOSTIC_WIDTH, FLAGS_WIDTH, IDENTIFIER_WIDTH, List, flags_at, identifier_at, list_at,
    past_places,
};
use workspace::{END, FUNCTIONS};

// Stores the ends of the identifiers; the position after them.
fn read_ends(sheet: &[u32], list: List, ws: &mut [u32]) -> usize
    requires first_in_bounds { (several list.count (wide identifier_width identifier_at) sheet.now list.first).next ≤ length sheet.now }
    requires count_le_most_identifiers { (list.count ≤ most_identifiers) × (LEAST ≤ length ws.old) }
    ensures { Stores (wide identifier_width identifier_at) end_of list END sheet.now ws.old ws.new result }
{
    let mut next = list.first;
    for to in END..END + list.count as usize {
        ws[to] = identifier_at(sheet, next).mutable_range.end.0;
        next += IDENTIFIER_WIDTH;
    }
    next
}

// The position after an inner function: after its diagnostics and its context.
fn skip_function(sheet: &[u32], at: usize) -> usize
    requires { (function_from sheet.now at).next ≤ length sheet.now }
    ensures { result ≡ (function_from sheet.now at).next }
{
    let diagnostics = list_at(sheet, at);
    let after = diagnostics.first + DIAGNOSTIC_WIDTH * diagnostics.count as usize;
    past_places(sheet, list_at(sheet, after))
}

// Stores where each inner function stands; the position after them.
fn read_functions(sheet: &[u32], list: List, ws: &mut [u32]) -> usize
    requires first_in_bounds { (several list.count function_from sheet.now list.first).next ≤ length sheet.now }
    requires count_le_most_functions { (list.count ≤ most_functions) × ((LEAST ≤ length ws.old) × (length sheet.now ≤ most_sheet)) }
    ensures { Stores (placed function_from) stands_at list FUNCTIONS sheet.now ws.old ws.new result }
{
    let mut next = list.first;
    for to in FUNCTIONS..FUNCTIONS + list.count as usize {
        ws[to] = next as u32;
        next = skip_function(sheet, next);
    }
    next
}

// The flags, the identifiers and the inner functions: errors recorded or not, a function expression or not, the lists of both, and where the parameters begin.
#[derive(Clone, Copy, Debug, PartialEq, Eq)]
pub struct Top {
    pub errors: bool,
    pub function_expression: bool,
    pub identifiers: List,
    pub functions: List,
    pub next: usize,
}

// Errors are recorded if validations is set and it is no function expression.
fn records_errors(flags: Flags) -> bool
    ensures { result ≡ flags.validations && not flags.function_expression }
{
    flags.validations && !flags.function_expression
}

// The sections up to the inner functions.
pub fn read_top(sheet: &[u32], ws: &mut [u32]) -> Top
    requires accepted { Accepted sheet.now }
    requires in_bounds { LEAST ≤ length ws.old }
    ensures { TopRead sheet.now ws.old ws.new result }
{
    let flags = flags_at(sheet, 0);
    let identifiers = list_at(sheet, FLAGS_WIDTH);
    let after = read_ends(sheet, identifiers, ws);
    let functions = list_at(sheet, after);
    let next = read_functions(sheet, functions, ws);
    Top {
        errors: records_errors(flags),
        function_expression: flags.function_expression,
        identifiers,
        functions,
        next,
    }
}
