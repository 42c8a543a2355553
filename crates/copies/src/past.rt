// Where a part ends that is passed over.
ghost use Rattle.std.specs.Prelude.{◌≡◌, ◌+◌, ◌*◌, ◌≤◌, length};
ghost use Rattle.model.specs.Limits.{effect_width};
ghost use Rattle.hir.specs.Words.{phi_from, phis_from, terminal_from};

use hir::at::{
    EFFECT_WIDTH, List, OPERAND_WIDTH, PLACE_WIDTH, Terminal, list_at, past_places, terminal_at,
};

pub fn past_phi(sheet: &[u32], from: usize) -> usize
    requires { (phi_from sheet.now from).next ≤ length sheet.now }
    ensures { result ≡ (phi_from sheet.now from).next }
{
    let operands = list_at(sheet, from + PLACE_WIDTH);
    operands.first + (operands.count as usize) * OPERAND_WIDTH
}

// A phi count and the phis.
pub fn past_phis(sheet: &[u32], from: usize) -> usize
    requires { (phis_from sheet.now from).next ≤ length sheet.now }
    ensures { result ≡ (phis_from sheet.now from).next }
{
    let list = list_at(sheet, from);
    let mut next = list.first;
    for _ in 0..list.count {
        next = past_phi(sheet, next);
    }
    next
}

// The effects of a terminal that has no operands: their count stands behind the effects.
fn past_effects(sheet: &[u32], list: List) -> usize
    requires { list.first + effect_width * list.count + 1 ≤ length sheet.now }
    ensures { result ≡ list.first + effect_width * list.count + 1 }
{
    list.first + EFFECT_WIDTH * (list.count as usize) + 1
}

pub fn past_terminal(sheet: &[u32], from: usize) -> usize
    requires { (terminal_from sheet.now from).next ≤ length sheet.now }
    ensures { result ≡ (terminal_from sheet.now from).next }
{
    match terminal_at(sheet, from) {
        Terminal::Other(operands) => past_places(sheet, operands),
        Terminal::Return(_, effects) => past_effects(sheet, effects),
        Terminal::MaybeThrow(effects) => past_effects(sheet, effects),
    }
}
