// The effects of instructions in the answer: those that are copied, and the diagnostics among them.
ghost use Rattle.std.specs.Prelude.{◌≡◌, ◌+◌, ◌≤◌, length};
ghost use Rattle.model.specs.Lists.{gather};
ghost use Rattle.hir.specs.Table.{role_says};
ghost use Rattle.hir.specs.Words.{wide, effect_at, several, instruction_from, instructions_from, block_from};
ghost use Rattle.model.specs.Limits.{effect_width};
ghost use Rattle.writing.specs.Wrote.{farthest};
ghost use Rattle.copies.specs.Copies.{Copies};
ghost use Rattle.copies.specs.Words.{takes, copy_words, instruction_words, block_words};

use crate::past::{past_phis, past_terminal};
use crate::{put_diagnostic, put_effect};
use hir::at::{EFFECT_WIDTH, List, effect_at, instruction_at, list_at};
use hir::effects::{Role, diagnostic_of, role_of};
use writing::Writer;

// The section that effects of instructions are copied to.
// Kept: five functions hand it down, and what each writes is stated by it (`copy_words`); closures would need that contract at each of the five.
#[derive(Clone, Copy, Debug, PartialEq, Eq)]
pub enum Section {
    Diagnostics,
    Effects,
}

// Whether the section takes an effect of this role.
fn takes(section: Section, role: Role) -> bool
    ensures { result ≡ takes section (role_says role) }
{
    match section {
        Section::Diagnostics => matches!(role, Role::Diagnosis),
        Section::Effects => matches!(role, Role::Diagnosis | Role::Render),
    }
}

// What the section takes of the effect that stands here.
fn copy_effect(sheet: &[u32], from: usize, section: Section, out: &mut Writer<'_, u32>)
    requires effect_width_in_bounds { from + effect_width ≤ length sheet.now }
    requires sheet_bound { out.old.at + length sheet.now ≤ farthest + from }
    ensures { Copies (wide effect_width effect_at) (copy_words section) sheet.now from out.old out.new (from + effect_width) }
{
    let e = effect_at(sheet, from);
    if !takes(section, role_of(e.kind)) {
        return;
    }
    match section {
        Section::Diagnostics => put_diagnostic(out, diagnostic_of(e)),
        Section::Effects => put_effect(out, e),
    }
}

// A list of effects; the position after it.
fn copy_list(sheet: &[u32], effects: List, section: Section, out: &mut Writer<'_, u32>) -> usize
    requires first_in_bounds { (several effects.count (wide effect_width effect_at) sheet.now effects.first).next ≤ length sheet.now }
    requires sheet_bound { out.old.at + length sheet.now ≤ farthest + effects.first }
    ensures { Copies (several effects.count (wide effect_width effect_at)) (gather (copy_words section)) sheet.now effects.first out.old out.new result }
{
    let mut next = effects.first;
    for _ in 0..effects.count {
        copy_effect(sheet, next, section, out);
        next += EFFECT_WIDTH;
    }
    next
}

fn copy_instruction(
    sheet: &[u32],
    from: usize,
    section: Section,
    out: &mut Writer<'_, u32>,
) -> usize
    requires from_in_bounds { (instruction_from sheet.now from).next ≤ length sheet.now }
    requires sheet_bound { out.old.at + length sheet.now ≤ farthest + from }
    ensures { Copies instruction_from (instruction_words section) sheet.now from out.old out.new result }
{
    let i = instruction_at(sheet, from);
    copy_list(sheet, i.effects, section, out)
}

// An instruction count and the instructions.
fn copy_instructions(
    sheet: &[u32],
    from: usize,
    section: Section,
    out: &mut Writer<'_, u32>,
) -> usize
    requires from_in_bounds { (instructions_from sheet.now from).next ≤ length sheet.now }
    requires sheet_bound { out.old.at + length sheet.now ≤ farthest + from }
    ensures { Copies instructions_from (gather (instruction_words section)) sheet.now from out.old out.new result }
{
    let list = list_at(sheet, from);
    let mut next = list.first;
    for _ in 0..list.count {
        next = copy_instruction(sheet, next, section, out);
    }
    next
}

// A block: its phis and its terminal are passed over.
fn copy_block(sheet: &[u32], from: usize, section: Section, out: &mut Writer<'_, u32>) -> usize
    requires from_in_bounds { (block_from sheet.now from).next ≤ length sheet.now }
    requires sheet_bound { out.old.at + length sheet.now ≤ farthest + from }
    ensures { Copies block_from (block_words section) sheet.now from out.old out.new result }
{
    let inside = past_phis(sheet, from + 1);
    let next = copy_instructions(sheet, inside, section, out);
    past_terminal(sheet, next)
}

// The effects of the instructions of some blocks.
pub fn copy_effects(
    sheet: &[u32],
    blocks: List,
    section: Section,
    out: &mut Writer<'_, u32>,
) -> usize
    requires first_in_bounds { (several blocks.count block_from sheet.now blocks.first).next ≤ length sheet.now }
    requires sheet_bound { out.old.at + length sheet.now ≤ farthest + blocks.first }
    ensures { Copies (several blocks.count block_from) (gather (block_words section)) sheet.now blocks.first out.old out.new result }
{
    let mut next = blocks.first;
    for _ in 0..blocks.count {
        next = copy_block(sheet, next, section, out);
    }
    next
}
