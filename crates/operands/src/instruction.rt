// The instructions of a block.
ghost use Rattle.std.specs.Prelude.{◌+◌, ◌*◌, ◌≤◌, length};
ghost use Rattle.model.specs.Limits.{place_width};
ghost use Rattle.model.specs.Lists.{gather, each, Every};
ghost use Rattle.model.specs.Answer.{place_words};
ghost use Rattle.model.specs.Operands.{name_lvalues, instruction_places, instruction};
ghost use Rattle.hir.specs.Words.{instruction_from, instructions_from};
ghost use Rattle.workspace.specs.Layout.{LEAST};
ghost use Rattle.writing.specs.Wrote.{Writes, farthest};
ghost use Rattle.operands.specs.Ranges.{Ranged};
ghost use Rattle.operands.specs.Known.{InnerFunctions, instruction_is, InstructionIn, InstructionKnown};
ghost use Rattle.operands.specs.Instruction.{marks_now, of_instructions, BelowOf, ValueMarked, AllStarted, ListedPassed};
ghost use Rattle.operands.specs.Passes.{Passable, Passed};

use crate::contexts::{context_of, mark_context};
use crate::given::with_effect;
use crate::marks::Marks;
use crate::ranges::{name_lvalue, name_lvalues, start_operands, store};
use crate::{Pass, Section};
use copies::put_place;
use hir::at::{EFFECT_WIDTH, Instruction, instruction_at, list_at};
use hir::{Effect, InstructionValue};
use writing::Writer;

// First the lvalues' ranges.
fn name_all(sheet: &[u32], i: Instruction, ws: &mut [u32])
    requires { (LEAST ≤ length ws.old) × ((fs : InnerFunctions) × InstructionIn sheet.now fs i) }
    ensures { Ranged (name_lvalues (instruction_is sheet.now i)) ws.old ws.new }
{
    name_lvalue(ws, i.lvalue, i.order);
    name_lvalues(sheet, i.value_lvalues, ws, i.order);
}

// Its places with the marks of its effects: lvalues, else ConditionallyMutate; then operands, else Read.
fn put_uses(sheet: &[u32], i: Instruction, ws: &[u32], out: &mut Writer<'_, u32>)
    requires in_bounds { (LEAST ≤ length ws.now) × ((fs : InnerFunctions) × InstructionIn sheet.now fs i) }
    requires count_bound { out.old.at + place_width * (1 + i.value_lvalues.count + i.operands.count) ≤ farthest }
    ensures { Writes (gather place_words (instruction_places (marks_now sheet.now ws.now i) (instruction_is sheet.now i))) out.old out.new }
{
    let marks = Marks {
        sheet,
        effects: i.effects,
        ws,
        order: i.order,
    };
    let mark = marks.mark_of(i.lvalue.identifier, Effect::ConditionallyMutate);
    put_place(out, with_effect(i.lvalue, mark));
    marks.put_marked(i.value_lvalues, Effect::ConditionallyMutate, out);
    marks.put_marked(i.operands, Effect::Read, out);
}

impl Pass<'_> {
    // Its places, where the section is that of instructions.
    fn put_instruction(&self, i: Instruction, ws: &[u32], out: &mut Writer<'_, u32>)
        requires in_bounds { (LEAST ≤ length ws.now) × ((fs : InnerFunctions) × InstructionIn self.now.sheet.now fs i) }
        requires count_bound { out.old.at + place_width * (1 + i.value_lvalues.count + i.operands.count) ≤ farthest }
        ensures { Writes (gather place_words (of_instructions self.now.section (instruction_places (marks_now self.now.sheet.now ws.now i) (instruction_is self.now.sheet.now i)))) out.old out.new }
    {
        if self.section == Section::Instructions {
            put_uses(self.sheet, i, ws, out);
        }
    }

    // The marks of the context places of the inner function that it makes.
    fn mark_value(&self, i: Instruction, ws: &mut [u32])
        requires { (fs : InnerFunctions) × InstructionKnown self.now.sheet.now self.now.lists.now ws.old fs i }
        ensures { ValueMarked self.now.sheet.now self.now.lists.now i ws.old ws.new }
    {
        if let InstructionValue::Function(k) = i.value {
            mark_context(self.sheet, self.lists, k, i.effects, ws, i.order);
        }
    }

    // The starts of its operands, then of those context places; last what it stores.
    fn start_all(&self, i: Instruction, ws: &mut [u32])
        requires { (fs : InnerFunctions) × InstructionKnown self.now.sheet.now self.now.lists.now ws.old fs i }
        ensures { AllStarted self.now.sheet.now self.now.lists.now i ws.old ws.new }
    {
        start_operands(self.sheet, i.operands, ws, i.order);
        match i.value {
            InstructionValue::Plain => {}
            InstructionValue::Function(k) => {
                let context = context_of(self.lists, ws, k);
                start_operands(self.lists, context, ws, i.order);
            }
            InstructionValue::StoreContext(x) => store(ws, x, i.order),
        }
    }

    // What only an instruction with a list of effects does.
    fn pass_listed(&self, i: Instruction, ws: &mut [u32])
        requires { (fs : InnerFunctions) × InstructionKnown self.now.sheet.now self.now.lists.now ws.old fs i }
        ensures { ListedPassed self.now.sheet.now self.now.lists.now i ws.old ws.new }
    {
        if i.listed {
            self.mark_value(i, ws);
            self.start_all(i, ws);
        }
    }

    // An instruction; the position after it.
    fn instruction(&self, from: usize, ws: &mut [u32], out: &mut Writer<'_, u32>) -> usize
        requires { Passable instruction_from BelowOf self.now.sheet.now self.now.lists.now ws.old from out.old }
        ensures { Passed instruction_from BelowOf instruction self.now.section self.now.sheet.now self.now.lists.now from ws.old out.old ws.new out.new result }
    {
        let i = instruction_at(self.sheet, from);
        name_all(self.sheet, i, ws);
        self.put_instruction(i, ws, out);
        self.pass_listed(i, ws);
        i.effects.first + EFFECT_WIDTH * i.effects.count as usize
    }

    // A block's instructions; the position after them.
    pub(crate) fn instructions(
        &self,
        from: usize,
        ws: &mut [u32],
        out: &mut Writer<'_, u32>,
    ) -> usize
        requires { Passable instructions_from (λ (fs : InnerFunctions). Every (BelowOf fs)) self.now.sheet.now self.now.lists.now ws.old from out.old }
        ensures { Passed instructions_from (λ (fs : InnerFunctions). Every (BelowOf fs)) (λ (fs : InnerFunctions). each (instruction fs)) self.now.section self.now.sheet.now self.now.lists.now from ws.old out.old ws.new out.new result }
    {
        let list = list_at(self.sheet, from);
        let mut next = list.first;
        for _ in 0..list.count {
            next = self.instruction(next, ws, out);
        }
        next
    }
}
