// The blocks, one after another.
ghost use Rattle.std.specs.Prelude.{◌≡◌, ◌≤◌, length};
ghost use Rattle.model.specs.Lists.{each, Every};
ghost use Rattle.model.specs.Operands.{first_order, block};
ghost use Rattle.hir.specs.Words.{several, instructions_from, terminal_from, block_from};
ghost use Rattle.operands.specs.Known.{InnerFunctions};
ghost use Rattle.operands.specs.Passes.{BlockOf, Passable, Passed};

use crate::Pass;
use copies::past::past_phis;
use hir::EvaluationOrder;
use hir::at::{List, list_at, order_at};
use writing::Writer;

// The block's first order: its first instruction's, else its terminal's. The instructions stand at `from`.
fn first_order(sheet: &[u32], from: usize) -> EvaluationOrder
    requires { (terminal_from sheet.now (instructions_from sheet.now from).next).next ≤ length sheet.now }
    ensures { result.0 ≡ first_order (instructions_from sheet.now from).what (terminal_from sheet.now (instructions_from sheet.now from).next).what }
{
    let list = list_at(sheet, from);
    if list.count == 0 {
        return order_at(sheet, list.first + 1);
    }
    order_at(sheet, list.first)
}

impl Pass<'_> {
    // A block: phis, instructions, terminal; the position after it.
    fn block(&self, from: usize, ws: &mut [u32], out: &mut Writer<'_, u32>) -> usize
        requires { Passable block_from BlockOf self.now.sheet.now self.now.lists.now ws.old from out.old }
        ensures { Passed block_from BlockOf (block self.now.expression) self.now.section self.now.sheet.now self.now.lists.now from ws.old out.old ws.new out.new result }
    {
        let inside = past_phis(self.sheet, from + 1);
        let order = first_order(self.sheet, inside);
        let instructions = self.phis(from + 1, order, ws, out);
        let terminal = self.instructions(instructions, ws, out);
        self.terminal(terminal, ws, out)
    }

    // Some blocks; the position after them.
    pub fn blocks(&self, blocks: List, ws: &mut [u32], out: &mut Writer<'_, u32>) -> usize
        requires { Passable (several blocks.count block_from) (λ (fs : InnerFunctions). Every (BlockOf fs)) self.now.sheet.now self.now.lists.now ws.old blocks.first out.old }
        ensures { Passed (several blocks.count block_from) (λ (fs : InnerFunctions). Every (BlockOf fs)) (λ (fs : InnerFunctions). each (block self.now.expression fs)) self.now.section self.now.sheet.now self.now.lists.now blocks.first ws.old out.old ws.new out.new result }
    {
        let mut next = blocks.first;
        for _ in 0..blocks.count {
            next = self.block(next, ws, out);
        }
        next
    }
}
