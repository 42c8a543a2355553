// The service: calls over the records that the host lends, one for each caller.
#![tactic(auto)]

ghost use Rattle.std.specs.Prelude.{◌≡◌, length as ListN·length};
ghost use Rattle.model.specs.Limits.{least_workspace, most_sheet};
ghost use Rattle.model.specs.Service.{new_caller};
ghost use Rattle.service.specs.Drawn.{Drawn};
ghost use Rattle.service.specs.Loaded.{reply_of, Loaded, LoadedFor};
ghost use Rattle.service.specs.Served.{Served, Outside, ServedOf, ServedFor};

use dot::draw;
use hir::limits::{LEAST_WORKSPACE, MOST_SHEET};
use hir::refusal::Refusal;
use inference::{infer_mutation_aliasing_ranges, refuse};
use load::class_load;

// A caller's record: its next serial.
#[repr(C)]
#[derive(Clone, Copy, Debug, PartialEq, Eq)]
pub struct Caller {
    pub next: u32,
}

// Kept: the C interface has the refusal as a number.
// The refusal's number, 0 for none; the serial of an accepted call, else 0; the answer's length. A class load and a drawing take no serial; the length is the sheet's in words, the text's in bytes.
#[repr(C)]
#[derive(Clone, Copy, Debug, PartialEq, Eq)]
pub struct Reply {
    pub refusal: u32,
    pub serial: u32,
    pub length: usize,
}

// A reply, and the serial that is next.
#[derive(Clone, Copy, Debug, PartialEq, Eq)]
pub struct Turn {
    pub reply: Reply,
    pub next: u32,
}

// The whole call, with the serial as a number.
pub fn turn_from(serial: u32, sheet: &[u32], workspace: &mut [u32], answer: &mut [u32]) -> Turn
    ensures { Served serial sheet.now workspace.old answer.old result.reply result.next workspace.new answer.new }
{
    match infer_mutation_aliasing_ranges(sheet, workspace, answer) {
        Ok(length) => Turn {
            reply: Reply {
                refusal: 0,
                serial,
                length,
            },
            next: serial.wrapping_add(1),
        },
        Err(refusal) => Turn {
            next: serial,
            reply: Reply::from(Err(refusal)),
        },
    }
}

// The refusal of a caller outside the records.
fn refuse_outside(workspace: &mut [u32], answer: &mut [u32]) -> Reply
    ensures { Outside workspace.old answer.old result workspace.new answer.new }
{
    Reply::from(refuse(workspace, answer, Refusal::OutsideRecords))
}

// The whole call for one of so many callers, with its serial as a number: for a program, which holds no records.
pub fn turn_for(
    callers: usize,
    position: usize,
    serial: u32,
    sheet: &[u32],
    workspace: &mut [u32],
    answer: &mut [u32],
) -> Turn
    ensures { ServedOf callers position serial sheet.now workspace.old answer.old result.reply result.next workspace.new answer.new }
{
    if callers <= position {
        return Turn {
            reply: refuse_outside(workspace, answer),
            next: serial,
        };
    }
    turn_from(serial, sheet, workspace, answer)
}

// The service call: it takes the serial of the caller at a position, calls the inference, and stores the successor.
pub fn service_infer(
    callers: &mut [Caller],
    position: usize,
    sheet: &[u32],
    workspace: &mut [u32],
    answer: &mut [u32],
) -> Reply
    ensures { ServedFor callers.old position sheet.now workspace.old answer.old result callers.new workspace.new answer.new }
{
    if callers.len() <= position {
        return refuse_outside(workspace, answer);
    }
    let serial = callers[position].next;
    let turn = turn_from(serial, sheet, workspace, answer);
    callers[position].next = turn.next;
    turn.reply
}

// The reply to a call that takes no serial.
impl From<Result<usize, Refusal>> for Reply {
    ghost from_gives = { λ outcome reply. reply ≡ reply_of outcome };

    fn from(outcome: Result<usize, Refusal>) -> Reply {
        match outcome {
            Ok(length) => Reply {
                refusal: 0,
                serial: 0,
                length,
            },
            Err(refusal) => Reply {
                refusal: u32::from(refusal),
                serial: 0,
                length: 0,
            },
        }
    }
}

// A class load: the sheet of a seed, n identifiers and m effects. It takes no serial.
pub fn service_load(seed: u32, n: u32, m: u32, sheet: &mut [u32]) -> Reply
    ensures { Loaded seed n m sheet.old result sheet.new }
{
    Reply::from(class_load(seed, n, m, sheet))
}

// A class load for one of so many callers.
fn load_from(callers: usize, position: usize, seed: u32, n: u32, m: u32, sheet: &mut [u32]) -> Reply
    ensures { LoadedFor callers position seed n m sheet.old result sheet.new }
{
    if position < callers {
        return Reply::from(class_load(seed, n, m, sheet));
    }
    sheet.fill(0);
    Reply::from(Err(Refusal::OutsideRecords))
}

// A class load for the caller at a position. It takes no serial, and leaves every record.
pub fn service_load_for(
    callers: &[Caller],
    position: usize,
    seed: u32,
    n: u32,
    m: u32,
    sheet: &mut [u32],
) -> Reply
    ensures { LoadedFor (ListN·length callers.now) position seed n m sheet.old result sheet.new }
{
    load_from(callers.len(), position, seed, n, m, sheet)
}

// A drawing: the graph of a sheet as a DOT file. It takes no serial.
pub fn service_dot(sheet: &[u32], workspace: &mut [u32], text: &mut [u8]) -> Reply
    ensures { Drawn sheet.now workspace.old text.old result workspace.new text.new }
{
    Reply::from(draw(sheet, workspace, text))
}

// A new record.
pub fn service_new() -> Caller
    ensures { result.next ≡ new_caller.next }
{
    Caller { next: 0 }
}

// How many words a workspace has at least.
pub fn service_least_workspace() -> usize
    ensures { result ≡ least_workspace }
{
    LEAST_WORKSPACE
}

// How many words a sheet has at most.
pub fn service_most_sheet() -> usize
    ensures { result ≡ most_sheet }
{
    MOST_SHEET
}
