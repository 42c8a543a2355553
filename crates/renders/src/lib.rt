// The render walk over the graph in the lent workspace (the original's `render`).
#![tactic(auto)]

ghost use Rattle.std.specs.Prelude.{◌≡◌, ◌<◌};
ghost use Rattle.model.specs.Limits.{most_identifiers};
ghost use Rattle.workspace.specs.Layout.{QUEUE};
ghost use Rattle.workspace.specs.Rows.{Indexed, rows_of};
ghost use Rattle.aliasing.specs.Pushes.{Room, deg};
ghost use Rattle.writing.specs.Wrote.{Wrote};
ghost use Rattle.renders.specs.Renders.{passes_w, origins_w, Ready, Stepped, Walked, Rendered};

use aliasing::pushes::{Direction, QueueEntry, push_list};
use aliasing::{StepLeft, Taken, hand_over_function};
use hir::{IdentifierId, MutationKind};
use workspace::{
    ALIASES, CAPTURES, HANDED, IDENTIFIERS, MISSING, QUEUE, RECORD, SEEN, VALUE, clear,
};

// A node of value v and record w that is missing, or has a record.
fn passes_by(v: u32, w: u32) -> bool
    ensures { result ≡ passes_w v w }
{
    v == MISSING || w % 16 != 0
}

// Created-from, aliases and captures of the node of a place. An entry of this walk says no more than its place.
fn push_origins(ws: &mut [u32], index: u32, place: IdentifierId, top: usize) -> usize
    requires room { Room ws.old top (deg (rows_of ws.old) place.0) }
    requires place_lt_most_identifiers { place.0 < most_identifiers }
    ensures { Wrote (origins_w (rows_of ws.old) place.0 index) ws.old top ws.new result }
{
    let x = place.0 as usize;
    let entry = QueueEntry {
        place,
        transitive: false,
        direction: Direction::Backwards,
        kind: MutationKind::Conditional,
    };
    let top = push_list(ws, 4 * x, index, entry, top);
    let top = push_list(ws, 4 * x + ALIASES as usize, index, entry, top);
    push_list(ws, 4 * x + CAPTURES as usize, index, entry, top)
}

// Takes the last entry pushed.
fn step(ws: &mut [u32], top: usize, hand: usize, index: u32) -> StepLeft
    requires ready { Ready ws.old top hand }
    requires lt_top { QUEUE < top }
    ensures { Stepped index ws.old top hand ws.new result.top result.hand }
{
    let top = top - 1;
    let place = IdentifierId(ws[top] % 512);
    let x = place.0 as usize;
    if ws[SEEN + x] != 0 {
        return StepLeft { top, hand };
    }
    ws[SEEN + x] = 1;
    if passes_by(ws[VALUE + x], ws[RECORD + x]) {
        return StepLeft { top, hand };
    }
    let hand = hand_over_function(ws, x, hand);
    let top = push_origins(ws, index, place, top);
    StepLeft { top, hand }
}

// Takes entries until none is left.
// Kept: the loop of aliasing's `walk` around another step; a generic loop would take the step's relation, the invariant and the measure as ghosts, which is more than the loop.
fn walk(ws: &mut [u32], index: u32, mut top: usize, mut hand: usize) -> Taken
    requires { Ready ws.old top hand }
    ensures { Walked index ws.old top hand ws.new result.count result.hand }
{
    let mut count: u32 = 0;
    while QUEUE < top {
        let left = step(ws, top, hand, index);
        top = left.top;
        hand = left.hand;
        count += 1;
    }
    Taken { count, hand }
}

// The render walk from `start`: the entries taken, and where the functions handed over end.
pub fn render(ws: &mut [u32], index: u32, start: IdentifierId) -> Taken
    requires indexed { Indexed ws.old }
    requires start_lt_most_identifiers { start.0 < most_identifiers }
    ensures { Rendered index start.0 ws.old ws.new result.count result.hand }
{
    clear(ws, SEEN, IDENTIFIERS);
    ws[QUEUE] = start.0;
    walk(ws, index, QUEUE + 1, HANDED)
}
