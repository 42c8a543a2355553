// The terminal of a block.
ghost use Rattle.std.specs.Prelude.{◌≡◌, ◌+◌, ◌≤◌, length};
ghost use Rattle.model.specs.Lists.{pick};
ghost use Rattle.model.specs.Traits.{freeze_effect, read_effect};
ghost use Rattle.model.specs.Operands.{terminal_places, terminal};
ghost use Rattle.hir.specs.Numbers.{effect_number};
ghost use Rattle.hir.specs.Words.{terminal_from};
ghost use Rattle.writing.specs.Wrote.{farthest};
ghost use Rattle.operands.specs.Phis.{PlacesPut};
ghost use Rattle.operands.specs.Known.{InnerFunctions, Lists};
ghost use Rattle.operands.specs.Passes.{AnyTerminal, Passable, Passed};

use crate::given::{put_places, with_effect};
use crate::{Pass, Section};
use copies::past::past_terminal;
use copies::put_place;
use hir::Effect;
use hir::at::{PLACE_WIDTH, Terminal, terminal_at};
use writing::Writer;

// The effect of Return's value.
fn returned(expression: bool) -> Effect
    ensures { effect_number result ≡ pick expression read_effect freeze_effect }
{
    if expression {
        return Effect::Read;
    }
    Effect::Freeze
}

// Its places: Return's value, or its operands, which are Read.
fn put_terminal(sheet: &[u32], from: usize, expression: bool, out: &mut Writer<'_, u32>)
    requires from_in_bounds { (terminal_from sheet.now from).next ≤ length sheet.now }
    requires sheet_bound { out.old.at + length sheet.now ≤ farthest + from }
    ensures { PlacesPut (terminal_places expression (terminal_from sheet.now from).what) from (terminal_from sheet.now from).next out.old out.new }
{
    match terminal_at(sheet, from) {
        Terminal::Other(operands) => {
            put_places(sheet, operands, PLACE_WIDTH, Some(Effect::Read), out)
        }
        Terminal::Return(value, _) => put_place(out, with_effect(value, returned(expression))),
        Terminal::MaybeThrow(_) => {}
    }
}

impl Pass<'_> {
    // A terminal; the position after it.
    pub(crate) fn terminal(&self, from: usize, ws: &[u32], out: &mut Writer<'_, u32>) -> usize
        requires { (lists : Lists) × Passable terminal_from AnyTerminal self.now.sheet.now lists ws.now from out.old }
        ensures { (lists : Lists) → Passed terminal_from AnyTerminal (λ (fs : InnerFunctions). terminal self.now.expression) self.now.section self.now.sheet.now lists from ws.now out.old ws.now out.new result }
    {
        if self.section == Section::Terminals {
            put_terminal(self.sheet, from, self.expression, out);
        }
        past_terminal(self.sheet, from)
    }
}
