// The parts that are not effects: orders, block numbers, values, kinds of terminals, flags, identifiers, diagnostics.
ghost use Rattle.std.specs.Prelude.{◌≡◌};
ghost use Rattle.model.specs.Limits.{most_order, most_block_number, most_terminal};
ghost use Rattle.model.specs.Reading.{at_most};
ghost use Rattle.model.specs.Sections.{flags, identifier, diagnostic, instruction_value};
ghost use Rattle.hir.specs.Numbers.{type_says};
ghost use Rattle.model.specs.Sections.{type_of};
ghost use Rattle.hir.specs.Says.{order_says, block_says, value_says, kind_step_says, flags_says, identifier_says, diagnostic_says};

use crate::limits::{
    FLAG_COUNT, MOST_BLOCK_NUMBER, MOST_DIAGNOSTIC, MOST_FLAG, MOST_ORDER, MOST_RANGE,
    MOST_TERMINAL, MOST_TYPE, MOST_VALUE,
};
use crate::{
    BlockId, Cursor, Diagnostic, EvaluationOrder, Flags, FunctionId, Identifier, IdentifierId,
    IdentifierType, InstructionValue, MutableRange, Step, TerminalKind,
};

// The type of a number; one above 2 is refused before.
// Kept: the second reading asks for the type of any word, as `type_of` of the definitions does, so there is no error for a `TryFrom`.
pub fn type_of(number: u32) -> IdentifierType
    ensures { type_says result ≡ type_of number }
{
    match number {
        1 => IdentifierType::Primitive,
        2 => IdentifierType::Jsx,
        _ => IdentifierType::Other,
    }
}

impl Cursor {
    pub fn order(self, s: &[u32]) -> Step<EvaluationOrder>
        ensures { order_says result ≡ at_most most_order s.now self.at }
    {
        let (order, c) = self.at_most(s, MOST_ORDER)?;
        Ok((EvaluationOrder(order), c))
    }

    // A block's own number, or a predecessor's.
    pub fn block_number(self, s: &[u32]) -> Step<BlockId>
        ensures { block_says result ≡ at_most most_block_number s.now self.at }
    {
        let (number, c) = self.at_most(s, MOST_BLOCK_NUMBER)?;
        Ok((BlockId(number), c))
    }

    // The value word, then an inner function below `m` or an identifier below `n`.
    #[tactic(auto, unfolding(model::specs::Sections::instruction_value))]
    pub fn value(self, s: &[u32], n: u32, m: u32) -> Step<InstructionValue>
        ensures { value_says result ≡ instruction_value n m s.now self.at }
    {
        let (word, c) = self.at_most(s, MOST_VALUE)?;
        match word {
            0 => Ok((InstructionValue::Plain, c)),
            1 => {
                let (function, c) = c.below(s, m)?;
                Ok((InstructionValue::Function(FunctionId(function)), c))
            }
            _ => {
                let (identifier, c) = c.below(s, n)?;
                Ok((InstructionValue::StoreContext(IdentifierId(identifier)), c))
            }
        }
    }

    #[tactic(auto, using(model::proofs::ReadLaws::at_most_reads))]
    pub fn terminal_kind(self, s: &[u32]) -> Step<TerminalKind>
        ensures { kind_step_says result ≡ at_most most_terminal s.now self.at }
    {
        let (number, c) = self.at_most(s, MOST_TERMINAL)?;
        let kind = match number {
            0 => TerminalKind::Other,
            1 => TerminalKind::Return,
            _ => TerminalKind::MaybeThrow,
        };
        Ok((kind, c))
    }

    // The count of flags, then both.
    #[tactic(auto, unfolding(model::specs::Sections::flags, model::specs::Sections::flag))]
    pub fn flags(self, s: &[u32]) -> Step<Flags>
        ensures { flags_says result ≡ flags s.now self.at }
    {
        let (_, c) = self.fixed(s, FLAG_COUNT)?;
        let (function_expression, c) = c.at_most(s, MOST_FLAG)?;
        let (validations, c) = c.at_most(s, MOST_FLAG)?;
        let flags = Flags {
            function_expression: function_expression == 1,
            validations: validations == 1,
        };
        Ok((flags, c))
    }

    // A range and a type.
    #[tactic(auto, unfolding(model::specs::Sections::identifier))]
    pub fn identifier(self, s: &[u32]) -> Step<Identifier>
        ensures { identifier_says result ≡ identifier s.now self.at }
    {
        let (start, c) = self.at_most(s, MOST_RANGE)?;
        let (end, c) = c.at_most(s, MOST_RANGE)?;
        let (number, c) = c.at_most(s, MOST_TYPE)?;
        let identifier = Identifier {
            mutable_range: MutableRange {
                start: EvaluationOrder(start),
                end: EvaluationOrder(end),
            },
            kind: type_of(number),
        };
        Ok((identifier, c))
    }

    // Identity, then instance.
    #[tactic(auto, unfolding(model::specs::Sections::diagnostic))]
    pub fn diagnostic(self, s: &[u32]) -> Step<Diagnostic>
        ensures { diagnostic_says result ≡ diagnostic s.now self.at }
    {
        let (identity, c) = self.at_most(s, MOST_DIAGNOSTIC)?;
        let (instance, c) = c.at_most(s, MOST_DIAGNOSTIC)?;
        Ok((Diagnostic { identity, instance }, c))
    }
}
