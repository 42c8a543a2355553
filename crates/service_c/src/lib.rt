// The service as a static library: each function is that of the same name in crate `service`, with its clauses, under C's calling convention.
#![tactic(auto)]

ghost use Rattle.std.specs.Prelude.{◌≡◌, length as ListN·length};
ghost use Rattle.model.specs.Limits.{least_workspace, most_sheet};
ghost use Rattle.model.specs.Service.{new_caller};
ghost use Rattle.service.specs.Drawn.{Drawn};
ghost use Rattle.service.specs.Loaded.{Loaded, LoadedFor};
ghost use Rattle.service.specs.Served.{ServedFor};

use service::{Caller, Reply};

// The service call: it takes the serial of the caller at a position, calls the inference, and stores the successor.
#[unsafe(no_mangle)]
pub extern "C" fn service_infer(
    callers: &mut [Caller],
    position: usize,
    sheet: &[u32],
    workspace: &mut [u32],
    answer: &mut [u32],
) -> Reply
    ensures { ServedFor callers.old position sheet.now workspace.old answer.old result callers.new workspace.new answer.new }
{
    service::service_infer(callers, position, sheet, workspace, answer)
}

// A class load: the sheet of a seed, n identifiers and m effects. It takes no serial.
#[unsafe(no_mangle)]
pub extern "C" fn service_load(seed: u32, n: u32, m: u32, sheet: &mut [u32]) -> Reply
    ensures { Loaded seed n m sheet.old result sheet.new }
{
    service::service_load(seed, n, m, sheet)
}

// A class load for the caller at a position. It takes no serial, and leaves every record.
#[unsafe(no_mangle)]
pub extern "C" fn service_load_for(
    callers: &[Caller],
    position: usize,
    seed: u32,
    n: u32,
    m: u32,
    sheet: &mut [u32],
) -> Reply
    ensures { LoadedFor (ListN·length callers.now) position seed n m sheet.old result sheet.new }
{
    service::service_load_for(callers, position, seed, n, m, sheet)
}

// A drawing: the graph of a sheet as a DOT file. It takes no serial.
#[unsafe(no_mangle)]
pub extern "C" fn service_dot(sheet: &[u32], workspace: &mut [u32], text: &mut [u8]) -> Reply
    ensures { Drawn sheet.now workspace.old text.old result workspace.new text.new }
{
    service::service_dot(sheet, workspace, text)
}

// A new record.
#[unsafe(no_mangle)]
pub extern "C" fn service_new() -> Caller
    ensures { result.next ≡ new_caller.next }
{
    service::service_new()
}

// How many words a workspace has at least.
#[unsafe(no_mangle)]
pub extern "C" fn service_least_workspace() -> usize
    ensures { result ≡ least_workspace }
{
    service::service_least_workspace()
}

// How many words a sheet has at most.
#[unsafe(no_mangle)]
pub extern "C" fn service_most_sheet() -> usize
    ensures { result ≡ most_sheet }
{
    service::service_most_sheet()
}
