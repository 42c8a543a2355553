// The parts of an accepted sheet, read a second time: each by the position at which it stands.
ghost use Rattle.std.specs.Prelude.{◌≡◌, ◌+◌, ◌*◌, ◌≤◌, length};
ghost use Rattle.hir.specs.Says.{place_is, effect_is, flags_are, identifier_is, diagnostic_is};
ghost use Rattle.hir.specs.Words.{word_at, place_at, effect_at, operand_at, identifier_at, diagnostic_at, flags_at, value_from, instruction_from, terminal_from};
ghost use Rattle.model.specs.Limits.{place_width, effect_width, operand_width, identifier_width, diagnostic_width, flags_width};
ghost use Rattle.hir.specs.Parts.{operand_is, ListAt, PhiAt, ValueAt, EffectsAt, InstructionAt, TerminalAt};

use crate::effects::row_of;
use crate::limits::ABSENT_COUNT;
use crate::parts::type_of;
use crate::places::{effect_in, reactive_of};
use crate::{
    AliasingEffect, BlockId, Diagnostic, EvaluationOrder, Flags, FunctionId, Identifier,
    IdentifierId, InstructionValue, MutableRange, Place,
};

pub const PLACE_WIDTH: usize = 3;

pub const EFFECT_WIDTH: usize = 8;

pub const OPERAND_WIDTH: usize = 4;

pub const IDENTIFIER_WIDTH: usize = 3;

pub const DIAGNOSTIC_WIDTH: usize = 2;

pub const FLAGS_WIDTH: usize = 3;

// A list: how many parts, and where the first stands.
// Kept: lists are positions in the sheet (document 01), and nothing is copied out of it.
#[derive(Clone, Copy, Debug, PartialEq, Eq)]
pub struct List {
    pub count: u32,
    pub first: usize,
}

// A phi operand.
#[derive(Clone, Copy, Debug, PartialEq, Eq)]
pub struct Operand {
    pub predecessor: BlockId,
    pub place: Place,
}

// A phi.
#[derive(Clone, Copy, Debug, PartialEq, Eq)]
pub struct Phi {
    pub place: Place,
    pub operands: List,
}

// An instruction's value, and the position after it.
#[derive(Clone, Copy, Debug, PartialEq, Eq)]
pub struct Value {
    pub value: InstructionValue,
    pub next: usize,
}

// An instruction's effects: whether the list is there, and the list, empty if it is not.
// Kept: all but one of the users go over the list and do not ask whether it is there; an Option would be opened in each.
#[derive(Clone, Copy, Debug, PartialEq, Eq)]
pub struct Effects {
    pub listed: bool,
    pub list: List,
}

// An instruction.
// Kept: `listed` stands beside `effects`, as in `Effects`.
#[derive(Clone, Copy, Debug, PartialEq, Eq)]
pub struct Instruction {
    pub order: EvaluationOrder,
    pub lvalue: Place,
    pub value_lvalues: List,
    pub operands: List,
    pub value: InstructionValue,
    pub listed: bool,
    pub effects: List,
}

// A terminal: its operands, or its value and its effects.
#[derive(Clone, Copy, Debug, PartialEq, Eq)]
pub enum Terminal {
    Other(List),
    Return(Place, List),
    MaybeThrow(List),
}

pub fn place_at(s: &[u32], at: usize) -> Place
    requires { at + place_width ≤ length s.now }
    ensures { place_is result ≡ place_at s.now at }
{
    let traits = s[at + 1];
    Place {
        identifier: IdentifierId(s[at]),
        effect: effect_in(traits),
        reactive: reactive_of(traits),
        span: s[at + 2],
    }
}

#[tactic(auto, using(crate::proofs::AtLaws::row_kind))]
pub fn effect_at(s: &[u32], at: usize) -> AliasingEffect
    requires { at + effect_width ≤ length s.now }
    ensures { effect_is result ≡ effect_at s.now at }
{
    AliasingEffect {
        kind: row_of(s[at]).kind,
        first: place_at(s, at + 1),
        second: place_at(s, at + 4),
        extra: s[at + 7],
    }
}

pub fn operand_at(s: &[u32], at: usize) -> Operand
    requires { at + operand_width ≤ length s.now }
    ensures { operand_is result ≡ operand_at s.now at }
{
    Operand {
        predecessor: BlockId(s[at]),
        place: place_at(s, at + 1),
    }
}

pub fn identifier_at(s: &[u32], at: usize) -> Identifier
    requires { at + identifier_width ≤ length s.now }
    ensures { identifier_is result ≡ identifier_at s.now at }
{
    Identifier {
        mutable_range: MutableRange {
            start: EvaluationOrder(s[at]),
            end: EvaluationOrder(s[at + 1]),
        },
        kind: type_of(s[at + 2]),
    }
}

// The flags, after their count.
pub fn flags_at(s: &[u32], at: usize) -> Flags
    requires { at + flags_width ≤ length s.now }
    ensures { flags_are result ≡ flags_at s.now at }
{
    Flags {
        function_expression: s[at + 1] == 1,
        validations: s[at + 2] == 1,
    }
}

// The number of a block.
pub fn number_at(s: &[u32], at: usize) -> BlockId
    requires { at + 1 ≤ length s.now }
    ensures { result.0 ≡ word_at s.now at }
{
    BlockId(s[at])
}

// A count, and where what it counts begins.
pub fn list_at(s: &[u32], at: usize) -> List
    requires { at + 1 ≤ length s.now }
    ensures { ListAt s.now at result }
{
    List {
        count: s[at],
        first: at + 1,
    }
}

pub fn phi_at(s: &[u32], at: usize) -> Phi
    requires { at + place_width + 1 ≤ length s.now }
    ensures { PhiAt s.now at result }
{
    Phi {
        place: place_at(s, at),
        operands: list_at(s, at + PLACE_WIDTH),
    }
}

// The order of an instruction.
pub fn order_at(s: &[u32], at: usize) -> EvaluationOrder
    requires { at + 1 ≤ length s.now }
    ensures { result.0 ≡ word_at s.now at }
{
    EvaluationOrder(s[at])
}

// The position after the places of a list.
pub fn past_places(s: &[u32], list: List) -> usize
    requires { list.first + place_width * list.count ≤ length s.now }
    ensures { result ≡ list.first + place_width * list.count }
{
    list.first + PLACE_WIDTH * (list.count as usize)
}

#[tactic(auto, using(crate::proofs::Widths::value_rises))]
pub fn value_at(s: &[u32], at: usize) -> Value
    requires { (value_from s.now at).next ≤ length s.now }
    ensures { ValueAt s.now at result }
{
    let inside = at + 1;
    match s[at] {
        0 => Value {
            value: InstructionValue::Plain,
            next: inside,
        },
        1 => Value {
            value: InstructionValue::Function(FunctionId(s[inside])),
            next: inside + 1,
        },
        _ => Value {
            value: InstructionValue::StoreContext(IdentifierId(s[inside])),
            next: inside + 1,
        },
    }
}

// The effects of an instruction: a count of its own says that the list is absent.
fn effects_at(s: &[u32], at: usize) -> Effects
    requires { at + 1 ≤ length s.now }
    ensures { EffectsAt s.now at result.listed result.list }
{
    let count = s[at];
    let first = at + 1;
    if count == ABSENT_COUNT {
        Effects {
            listed: false,
            list: List { count: 0, first },
        }
    } else {
        Effects {
            listed: true,
            list: List { count, first },
        }
    }
}

#[tactic(auto, using(crate::proofs::Values::lvalues_inside))]
pub fn instruction_at(s: &[u32], at: usize) -> Instruction
    requires { (instruction_from s.now at).next ≤ length s.now }
    ensures { InstructionAt s.now at result }
{
    let order = order_at(s, at);
    let lvalue = place_at(s, at + 1);
    let value_lvalues = list_at(s, at + 1 + PLACE_WIDTH);
    let operands = list_at(s, past_places(s, value_lvalues));
    let v = value_at(s, past_places(s, operands));
    let e = effects_at(s, v.next);
    Instruction {
        order,
        lvalue,
        value_lvalues,
        operands,
        value: v.value,
        listed: e.listed,
        effects: e.list,
    }
}

// Of an inner function.
pub fn diagnostic_at(s: &[u32], at: usize) -> Diagnostic
    requires { at + diagnostic_width ≤ length s.now }
    ensures { diagnostic_is result ≡ diagnostic_at s.now at }
{
    Diagnostic {
        identity: s[at],
        instance: s[at + 1],
    }
}

#[tactic(auto, using(crate::proofs::Widths::terminal_rises, crate::proofs::Widths::return_rises))]
pub fn terminal_at(s: &[u32], at: usize) -> Terminal
    requires { (terminal_from s.now at).next ≤ length s.now }
    ensures { TerminalAt s.now at result }
{
    let inside = at + 2;
    match s[at] {
        0 => Terminal::Other(list_at(s, inside)),
        1 => Terminal::Return(place_at(s, inside), list_at(s, inside + PLACE_WIDTH)),
        _ => Terminal::MaybeThrow(list_at(s, inside)),
    }
}
