// Judges the blocks of a sheet: each word is held to its range, and what refusal 8 counts is counted on the way.
ghost use Rattle.std.specs.Prelude.{◌≡◌};
ghost use Rattle.model.specs.Sheet.{BlockId as ModelBlock};
ghost use Rattle.model.specs.Lists.{each};
ghost use Rattle.model.specs.Reading.{counted_from};
ghost use Rattle.model.specs.Asking.{effect, effects, instruction, terminal, block, tell_effect, tell_instruction, tell_terminal, tell_block};
ghost use Rattle.model.specs.Limits.{most_count};
ghost use Rattle.reading.specs.Judging.{judge, counting, nothing_yet, instruction_effects, terminal_effects, blocks_of};
ghost use Rattle.reading.specs.TotalsSays.{so_far, totals_says};
ghost use Rattle.reading.specs.Says.{cursor_says};
ghost use Rattle.reading.specs.Whole.{uses};

use crate::Heading;
use crate::parts::times;
use crate::sections::{phis, places};
use hir::effects::{effect_after, row_of};
use hir::limits::{
    ABSENT_COUNT, MOST_BLOCKS, MOST_COUNT, MOST_KIND, MOST_LVALUES, MOST_OPERANDS, NO_OPERANDS,
};
use hir::refusal::Refusal;
use hir::{BlockId, Cursor, Step, TerminalKind};

// The mutations and renders so far, each no higher than one above its limit; 1 if an instruction had a diagnosis; 1 if one had an Apply.
#[derive(Clone, Copy, Debug, Default, PartialEq, Eq)]
pub struct Totals {
    pub mutations: u32,
    pub renders: u32,
    // Kept: these two stay numbers, since docs/MAP.md names `Totals::effect`, which takes a `Totals` of any numbers; a bool would ask more of callers.
    pub diagnoses: u32,
    pub applies: u32,
}

// An effect: an instruction's is counted at its kind, where refusal 8 may come, before its places; a terminal's is asked with the totals as they were.
#[tactic(auto, using(crate::proofs::BlockLaws::effect_laws))]
fn effect(c: Cursor, s: &[u32], h: Heading, terminal: bool, totals: Totals) -> Step<Totals>
    ensures { totals_says result ≡ judge (effect counting terminal h.identifiers h.functions) (tell_effect counting terminal) (so_far totals) s.now c.at }
{
    let (number, c) = c.at_most(s, MOST_KIND)?;
    let row = row_of(number);
    let totals = totals.effect(row.kind, terminal);
    if totals.over() {
        return Err(Refusal::Totals);
    }
    let (_, c) = effect_after(c, s, h.identifiers, h.functions, row)?;
    Ok((totals, c))
}

// An effect count and the effects, of an instruction or of a terminal.
#[tactic(auto, using(crate::proofs::JudgeLaws::section_refused), unfolding(model::specs::Asking::effects))]
fn effects(c: Cursor, s: &[u32], h: Heading, terminal: bool, totals: Totals) -> Step<Totals>
    ensures { totals_says result ≡ judge (effects counting terminal h.identifiers h.functions) (each (tell_effect counting terminal)) (so_far totals) s.now c.at }
{
    let (count, c) = c.count(s, MOST_COUNT)?;
    times(
        count,
        (totals, c),
        |(totals, c)| effect(c, s, h, terminal, totals),
    )
}

// An instruction's effects, of which the list may be absent.
#[tactic(auto, unfolding(model::specs::Reading::optional, crate::specs::Judging::telling, model::specs::Asking::effects, model::specs::Reading::counted_from, model::specs::Reading::count))]
fn instruction_effects(c: Cursor, s: &[u32], h: Heading, totals: Totals) -> Step<Totals>
    ensures { totals_says result ≡ instruction_effects h.identifiers h.functions (so_far totals) s.now c.at }
{
    let (count, after) = c.word(s)?;
    if count == ABSENT_COUNT {
        return Ok((totals, after));
    }
    effects(c, s, h, false, totals)
}

// What stands between an instruction's order and its effects: lvalue, value lvalues, operands, value.
#[tactic(auto, unfolding(crate::specs::Whole::uses))]
fn uses(c: Cursor, s: &[u32], h: Heading) -> Result<Cursor, Refusal>
    ensures { cursor_says result ≡ uses h.identifiers h.functions s.now c.at }
{
    let (_, c) = c.place(s, h.identifiers)?;
    let (_, c) = places(c, s, h.identifiers, MOST_LVALUES)?;
    let (_, c) = places(c, s, h.identifiers, MOST_OPERANDS)?;
    let (_, c) = c.value(s, h.identifiers, h.functions)?;
    Ok(c)
}

// An order, places and a value, an effect count and the effects.
#[tactic(auto, using(crate::proofs::BlockLaws::instruction_laws), unfolding(crate::specs::Whole::judged_instruction))]
fn instruction(c: Cursor, s: &[u32], h: Heading, totals: Totals) -> Step<Totals>
    ensures { totals_says result ≡ judge (instruction counting h.identifiers h.functions) (tell_instruction counting) (so_far totals) s.now c.at }
{
    let (_, c) = c.order(s)?;
    let c = uses(c, s, h)?;
    instruction_effects(c, s, h, totals)
}

// An instruction count and the instructions.
#[tactic(auto, using(crate::proofs::JudgeLaws::section_refused))]
fn instructions(c: Cursor, s: &[u32], h: Heading, totals: Totals) -> Step<Totals>
    ensures { totals_says result ≡ judge (counted_from most_count (instruction counting h.identifiers h.functions) (tell_instruction counting)) (each (tell_instruction counting)) (so_far totals) s.now c.at }
{
    let (count, c) = c.count(s, MOST_COUNT)?;
    times(
        count,
        (totals, c),
        |(totals, c)| instruction(c, s, h, totals),
    )
}

// The effects of a Return or a MaybeThrow, and the count of its operands, which is 0.
#[tactic(auto, unfolding(crate::specs::Judging::terminal_effects))]
fn terminal_effects(c: Cursor, s: &[u32], h: Heading, totals: Totals) -> Step<Totals>
    ensures { totals_says result ≡ terminal_effects h.identifiers h.functions (so_far totals) s.now c.at }
{
    let (totals, c) = effects(c, s, h, true, totals)?;
    let (_, c) = c.fixed(s, NO_OPERANDS)?;
    Ok((totals, c))
}

// Kind and order; of a Return its value; of a Return and a MaybeThrow the effects; the operands.
#[tactic(auto, using(crate::proofs::BlockLaws::terminal_laws))]
fn terminal(c: Cursor, s: &[u32], h: Heading, totals: Totals) -> Step<Totals>
    ensures { totals_says result ≡ judge (terminal counting h.identifiers h.functions) (tell_terminal counting) (so_far totals) s.now c.at }
{
    let (kind, c) = c.terminal_kind(s)?;
    let (_, c) = c.order(s)?;
    match kind {
        TerminalKind::Other => {
            let (_, end) = places(c, s, h.identifiers, MOST_OPERANDS)?;
            Ok((totals, end))
        }
        TerminalKind::Return => {
            let (_, c) = c.place(s, h.identifiers)?;
            terminal_effects(c, s, h, totals)
        }
        TerminalKind::MaybeThrow => terminal_effects(c, s, h, totals),
    }
}

// What follows a block's number.
#[tactic(auto, using(crate::proofs::BlockLaws::block_laws))]
fn block(c: Cursor, s: &[u32], h: Heading, totals: Totals) -> Step<Totals>
    ensures { (number : ModelBlock) → totals_says result ≡ judge (block counting h.identifiers h.functions number) (tell_block counting) (so_far totals) s.now c.at }
{
    let (_, c) = phis(c, s, h.identifiers)?;
    let (totals, c) = instructions(c, s, h, totals)?;
    terminal(c, s, h, totals)
}

// A block count and the blocks, of which no two have one number. Numbers mostly rise, and then none of those before is looked at.
// Kept: a loop of its own, not `times`, for each block is held to the numbers of those before it.
pub fn blocks(c: Cursor, s: &[u32], h: Heading) -> Step<Totals>
    ensures { totals_says result ≡ judge (blocks_of h.identifiers h.functions) (each (tell_block counting)) nothing_yet s.now c.at }
{
    let (count, mut c) = c.count(s, MOST_BLOCKS)?;
    let mut totals = Totals::default();
    let mut used = [0; MOST_BLOCKS as usize];
    let mut above = 0;
    for k in 0..count as usize {
        let (BlockId(number), after) = c.block_number(s)?;
        if number < above && used[..k].contains(&number) {
            return Err(Refusal::UsedTwice);
        }
        above = above.max(number + 1);
        used[k] = number;
        (totals, c) = block(after, s, h, totals)?;
    }
    Ok((totals, c))
}
