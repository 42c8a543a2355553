// The phis that have operands: one word for each, by which its operands are read again from the sheet when a block ends.
ghost use Rattle.std.specs.Prelude.{◌+◌, ◌≤◌, ◌<◌, [], ◌∷◌, length};
ghost use Rattle.model.specs.Limits.{most_identifiers, most_blocks, most_sheet, most_index};
ghost use Rattle.model.specs.Lists.{gather, Every};
ghost use Rattle.hir.specs.Parts.{operand_is};
ghost use Rattle.workspace.specs.Layout.{LEAST};
ghost use Rattle.building.specs.Phis.{most_phis, waiting_at, operands_from, operands_of, phis_of, from, Stands, Known, Stores, PushesPhi};
ghost use Rattle.building.specs.Held.{Room};

use crate::Held;
use crate::graph::store;
use crate::pending::has_come;
use hir::IdentifierId;
use hir::at::{OPERAND_WIDTH, Operand, operand_at, phi_at};
use hir::limits::MOST_SHEET;
use workspace::{PHIS, Relation};

// Stores the word of the phi at `at`, whose first operand has this index, after the first `count` ones.
pub fn push_phi(ws: &mut [u32], count: usize, at: usize, index: u32)
    requires { (LEAST ≤ length ws.old) × ((count < most_phis) × ((at < most_sheet) × (index < most_index))) }
    ensures { PushesPhi at index ws.old count ws.new }
{
    ws[PHIS + count] = at as u32 + MOST_SHEET as u32 * index;
}

// Stores a phi operand, if its predecessor is one of `count` blocks that came, from number `first` on.
fn store_operand(
    ws: &mut [u32],
    h: &mut Held,
    o: Operand,
    index: u32,
    into: IdentifierId,
    first: usize,
    count: usize,
)
    requires room { Room ws.old h.old }
    requires identifier_lt_most_identifiers { (o.place.identifier.0 < most_identifiers) × ((into.0 < most_identifiers) × ((index < most_index) × (first + count ≤ most_blocks))) }
    ensures { Stores (from first count ws.old) (waiting_at into.0 index (operand_is o) ∷ []) ws.old h.old ws.new h.new }
{
    if has_come(ws, first, count, o.predecessor) {
        store(ws, h, Relation::Alias, index, o.place.identifier, into);
    }
}

// The same with each operand of the phi at `at`; the first one has this index.
pub fn store_operands(
    s: &[u32],
    at: usize,
    start: u32,
    ws: &mut [u32],
    h: &mut Held,
    first: usize,
    count: usize,
)
    requires room { Room ws.old h.old }
    requires stands { Stands s.now at start × (first + count ≤ most_blocks) }
    ensures { Stores (from first count ws.old) (operands_from s.now at start) ws.old h.old ws.new h.new }
{
    let phi = phi_at(s, at);
    let into = phi.place.identifier;
    let mut next = phi.operands.first;
    for index in start..start + phi.operands.count {
        store_operand(ws, h, operand_at(s, next), index, into, first, count);
        next += OPERAND_WIDTH;
    }
}

// The same with the operands of every phi so far.
pub fn wake(s: &[u32], ws: &mut [u32], h: &mut Held, phis: usize, first: usize)
    requires room { Room ws.old h.old }
    requires every { Every (Known s.now) (phis_of ws.old phis) × ((phis ≤ most_phis) × (first < most_blocks)) }
    ensures { Stores (from first 1 ws.old) (gather (operands_of s.now) (phis_of ws.old phis)) ws.old h.old ws.new h.new }
{
    for i in 0..phis {
        let w = ws[PHIS + i];
        let at = (w % MOST_SHEET as u32) as usize;
        store_operands(s, at, w / MOST_SHEET as u32, ws, h, first, 1);
    }
}
