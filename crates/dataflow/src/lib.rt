// The original's first loop over the blocks, which builds the data flow graph: the second reading of the sheet, after it was accepted.
#![tactic(auto)]

ghost use Rattle.model.specs.Limits.{most_identifiers};
ghost use Rattle.model.specs.Lists.{each, Every};
ghost use Rattle.model.specs.Ranges.{PlaceBelow};
ghost use Rattle.model.specs.Building.{block as block_step};
ghost use Rattle.hir.specs.Says.{place_is};
ghost use Rattle.hir.specs.Words.{several, block_from};
ghost use Rattle.instructions.specs.Cost.{costs};
ghost use Rattle.instructions.specs.Builds.{Ready, Builds};
ghost use Rattle.dataflow.specs.Cost.{block_cost};
ghost use Rattle.dataflow.specs.Ranges.{BlockInRange};

use crate::phis::build_phis;
use building::Building;
use hir::Place;
use hir::at::{List, number_at};
use instructions::build_instructions;
use instructions::terminals::build_terminal;

pub mod function;
pub mod header;
pub mod parameters;
mod phis;

// A block: its phis, its instructions, what waits for it, its terminal; the position after it. That it has come is noted with what waits: no instruction asks.
fn build_block(at: usize, s: &[u32], ws: &mut [u32], b: &mut Building, returns: Place) -> usize
    requires place_below { PlaceBelow most_identifiers (place_is returns) }
    requires ready { Ready (block_from s.now at) BlockInRange block_cost s.now ws.old b.old }
    ensures { Builds (block_from s.now at) (block_step (place_is returns)) block_cost s.now ws.old b.old ws.new b.new result }
{
    let number = number_at(s, at);
    let next = build_phis(at + 1, s, ws, b);
    let next = build_instructions(next, s, ws, b);
    b.wake(s, ws, number);
    build_terminal(next, s, ws, b, returns)
}

// The blocks; the position after them.
pub fn build_blocks(
    blocks: List,
    s: &[u32],
    ws: &mut [u32],
    b: &mut Building,
    returns: Place,
) -> usize
    requires place_below { PlaceBelow most_identifiers (place_is returns) }
    requires ready { Ready (several blocks.count block_from s.now blocks.first) (Every BlockInRange) (costs block_cost) s.now ws.old b.old }
    ensures { Builds (several blocks.count block_from s.now blocks.first) (each (block_step (place_is returns))) (costs block_cost) s.now ws.old b.old ws.new b.new result }
{
    let mut next = blocks.first;
    for _ in 0..blocks.count {
        next = build_block(next, s, ws, b, returns);
    }
    next
}
