// A block's phis: each gets a node, then its operands are assigned to it, or wait for a block that has not come.
ghost use Rattle.model.specs.Lists.{each, Every};
ghost use Rattle.model.specs.Building.{phi_node};
ghost use Rattle.hir.specs.Words.{phi_from, phis_from};
ghost use Rattle.instructions.specs.Cost.{costs};
ghost use Rattle.instructions.specs.Builds.{Ready, Builds};
ghost use Rattle.dataflow.specs.Cost.{phi_cost};
ghost use Rattle.dataflow.specs.Ranges.{PhiInRange};

use building::Building;
use hir::at::{OPERAND_WIDTH, list_at, phi_at};

// A phi: its node, then its operands; the position after it.
fn build_phi(at: usize, s: &[u32], ws: &mut [u32], b: &mut Building) -> usize
    requires { Ready (phi_from s.now at) PhiInRange phi_cost s.now ws.old b.old }
    ensures { Builds (phi_from s.now at) phi_node phi_cost s.now ws.old b.old ws.new b.new result }
{
    let operands = phi_at(s, at).operands;
    b.phi(s, ws, at);
    operands.first + operands.count as usize * OPERAND_WIDTH
}

// A block's phis; the position after them.
pub fn build_phis(at: usize, s: &[u32], ws: &mut [u32], b: &mut Building) -> usize
    requires { Ready (phis_from s.now at) (Every PhiInRange) (costs phi_cost) s.now ws.old b.old }
    ensures { Builds (phis_from s.now at) (each phi_node) (costs phi_cost) s.now ws.old b.old ws.new b.new result }
{
    let list = list_at(s, at);
    let mut next = list.first;
    for _ in 0..list.count {
        next = build_phi(next, s, ws, b);
    }
    next
}
