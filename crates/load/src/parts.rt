// The parts of a class load's sheet, written one after another.
ghost use Rattle.std.specs.Prelude.{[], ◌∷◌, ◌+◌, ◌≤◌, ◌<◌, length, replicate};
ghost use Rattle.model.specs.Limits.{most_load_effects};
ghost use Rattle.model.specs.Sheet.{Other};
ghost use Rattle.model.specs.Answer.{section};
ghost use Rattle.model.specs.Encoder.{flags_words, identifier_words, instruction_words, terminal_words, block_words};
ghost use Rattle.model.specs.Load.{load_flags, load_identifier, load_instruction, load_instructions, load_block};
ghost use Rattle.hir.specs.Says.{effect_is};
ghost use Rattle.writing.specs.Wrote.{Writes, farthest};
ghost use Rattle.load.specs.Parts.{params_words, returns_words};

use crate::draws::{Generator, plain_place};
use copies::{put_effect, put_place};
use hir::limits::{FLAG_COUNT, RETURNS_COUNT};
use hir::{AliasingEffect, EvaluationOrder, TerminalKind};
use writing::Writer;

// The flags: no function expression, with validations.
const FUNCTION_EXPRESSION: u32 = 0;

const VALIDATIONS: u32 = 1;

// The word of a type that the sheet does not know.
const OTHER_TYPE: u32 = 0;

// The parameter, the lvalue of every instruction, and the number of the block.
const PARAMETER: u32 = 0;

const LVALUE: u32 = 0;

const BLOCK: u32 = 0;

// The first instruction's order.
const FIRST_ORDER: u32 = 1;

// The value of an instruction: neither a function nor a StoreContext.
const PLAIN: u32 = 0;

// The count of a list with nothing in it, and of a list with one.
const NONE: u32 = 0;

const ONE: u32 = 1;

// The flags after their count.
pub fn put_flags(sheet: &mut Writer<'_, u32>)
    requires { sheet.old.at + length (flags_words load_flags) ≤ farthest }
    ensures { Writes (flags_words load_flags) sheet.old sheet.new }
{
    sheet.put(FLAG_COUNT);
    sheet.put(FUNCTION_EXPRESSION);
    sheet.put(VALIDATIONS);
}

// An identifier with no range.
fn put_identifier(sheet: &mut Writer<'_, u32>)
    requires { sheet.old.at + length (identifier_words load_identifier) ≤ farthest }
    ensures { Writes (identifier_words load_identifier) sheet.old sheet.new }
{
    sheet.put(EvaluationOrder::UNSET.0);
    sheet.put(EvaluationOrder::UNSET.0);
    sheet.put(OTHER_TYPE);
}

// The identifiers after their count.
pub fn put_identifiers(sheet: &mut Writer<'_, u32>, n: u32)
    requires { sheet.old.at + length (section identifier_words (replicate n load_identifier)) ≤ farthest }
    ensures { Writes (section identifier_words (replicate n load_identifier)) sheet.old sheet.new }
{
    sheet.put(n);
    for _ in 0..n {
        put_identifier(sheet);
    }
}

// No inner functions, one parameter, no context.
pub fn put_params(sheet: &mut Writer<'_, u32>)
    requires { sheet.old.at + length params_words ≤ farthest }
    ensures { Writes params_words sheet.old sheet.new }
{
    sheet.put(NONE);
    sheet.put(ONE);
    put_place(sheet, plain_place(PARAMETER));
    sheet.put(NONE);
}

// Returns after its count: the last identifier.
pub fn put_returns(sheet: &mut Writer<'_, u32>, n: u32)
    requires n_nonzero { 0 < n }
    requires n_bound { sheet.old.at + length (returns_words n) ≤ farthest }
    ensures { Writes (returns_words n) sheet.old sheet.new }
{
    sheet.put(RETURNS_COUNT);
    put_place(sheet, plain_place(n - 1));
}

// An instruction of one effect, with neither value lvalues nor operands.
fn put_instruction(sheet: &mut Writer<'_, u32>, order: u32, effect: AliasingEffect)
    requires { sheet.old.at + length (instruction_words (load_instruction order (effect_is effect))) ≤ farthest }
    ensures { Writes (instruction_words (load_instruction order (effect_is effect))) sheet.old sheet.new }
{
    sheet.put(order);
    put_place(sheet, plain_place(LVALUE));
    sheet.put(NONE);
    sheet.put(NONE);
    sheet.put(PLAIN);
    sheet.put(ONE);
    put_effect(sheet, effect);
}

// The instructions after their count: m of them, whose effects are drawn from the seed on.
fn put_instructions(sheet: &mut Writer<'_, u32>, seed: u32, n: u32, m: u32)
    requires n_nonzero { (0 < n) × (m ≤ most_load_effects) }
    requires seed_bound { sheet.old.at + length (section instruction_words (load_instructions n 1 m seed)) ≤ farthest }
    ensures { Writes (section instruction_words (load_instructions n 1 m seed)) sheet.old sheet.new }
{
    sheet.put(m);
    let mut draws = Generator { state: seed };
    for order in FIRST_ORDER..=m {
        put_instruction(sheet, order, draws.effect(n));
    }
}

// A terminal that is none of those that matter, with no operands.
fn put_terminal(sheet: &mut Writer<'_, u32>, order: u32)
    requires { sheet.old.at + length (terminal_words (Other order [])) ≤ farthest }
    ensures { Writes (terminal_words (Other order [])) sheet.old sheet.new }
{
    sheet.put(u32::from(TerminalKind::Other));
    sheet.put(order);
    sheet.put(NONE);
}

// The blocks after their count: one, without phis.
pub fn put_blocks(sheet: &mut Writer<'_, u32>, seed: u32, n: u32, m: u32)
    requires n_nonzero { (0 < n) × (m ≤ most_load_effects) }
    requires m_bound { sheet.old.at + length (section block_words (load_block seed n m ∷ [])) ≤ farthest }
    ensures { Writes (section block_words (load_block seed n m ∷ [])) sheet.old sheet.new }
{
    sheet.put(ONE);
    sheet.put(BLOCK);
    sheet.put(NONE);
    put_instructions(sheet, seed, n, m);
    put_terminal(sheet, m + 1);
}
