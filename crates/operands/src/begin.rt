// What the pass begins on: the sheet's starts, the ends after the real walks, and no mark.
ghost use Rattle.std.specs.Prelude.{◌≡◌, map, ◌≤◌, length};
ghost use Rattle.std.proofs.lemmas.List.Edits.{sets};
ghost use Rattle.std.proofs.Math.Seq.{slice};
ghost use Rattle.model.specs.Limits.{most_identifiers};
ghost use Rattle.workspace.specs.Layout.{LEAST, END, SEEN, STARTS, ENDS};
ghost use Rattle.operands.specs.Begun.{identifiers_in, start_of, Begun};

use hir::at::{IDENTIFIER_WIDTH, List, identifier_at};
use workspace::{CONTEXTS, END, ENDS, IDENTIFIERS, PASSED, STARTS, clear};

// Stores the starts of the identifiers.
fn read_starts(sheet: &[u32], list: List, ws: &mut [u32])
    requires list_in_bounds { (identifiers_in sheet.now list).next ≤ length sheet.now }
    requires count_le_most_identifiers { (list.count ≤ most_identifiers) × (LEAST ≤ length ws.old) }
    ensures { ws.new ≡ sets ws.old STARTS (map start_of (identifiers_in sheet.now list).what) }
{
    let mut next = list.first;
    for to in STARTS..STARTS + list.count as usize {
        ws[to] = identifier_at(sheet, next).mutable_range.start.0;
        next += IDENTIFIER_WIDTH;
    }
}

// Copies the ends. A loop and not `copy_within`, which would need `memcpy` from outside.
fn copy_ends(ws: &mut [u32])
    requires { LEAST ≤ length ws.old }
    ensures { ws.new ≡ sets ws.old ENDS (slice END SEEN ws.old) }
{
    for x in 0..IDENTIFIERS {
        ws[ENDS + x] = ws[END + x];
    }
}

// Before the first block.
pub fn begin(sheet: &[u32], identifiers: List, ws: &mut [u32])
    requires identifiers_in_bounds { (identifiers_in sheet.now identifiers).next ≤ length sheet.now }
    requires count_le_most_identifiers { (identifiers.count ≤ most_identifiers) × (LEAST ≤ length ws.old) }
    ensures { Begun (identifiers_in sheet.now identifiers).what ws.old ws.new }
{
    clear(ws, STARTS, IDENTIFIERS);
    read_starts(sheet, identifiers, ws);
    copy_ends(ws);
    clear(ws, CONTEXTS, PASSED - CONTEXTS);
}
