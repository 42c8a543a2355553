// What a sheet is made of, under the names of the original's high-level intermediate representation, and the parts that are read word by word.
#![tactic(auto)]

ghost use Rattle.std.specs.Prelude.{◌≡◌, eqb};
ghost use Rattle.hir.specs.Numbers.{effect_number, kind_number, terminal_number, value_number, reason_number};

pub mod at;
pub mod effects;
pub mod limits;
pub mod parts;
pub mod places;
pub mod refusal;
pub mod words;

use refusal::Refusal;

// An identifier's number, below the count of identifiers.
// Kept: its bound stands in contracts, since `at::place_at` makes one of any word.
#[derive(Clone, Copy, Debug, PartialEq, Eq)]
pub struct IdentifierId(pub u32);

// A block's number.
#[derive(Clone, Copy, Debug, PartialEq, Eq)]
pub struct BlockId(pub u32);

// An inner function's number, below the count of inner functions.
#[derive(Clone, Copy, Debug, PartialEq, Eq)]
pub struct FunctionId(pub u32);

// An instruction's order, and each end of a range.
#[derive(Clone, Copy, Debug, PartialEq, Eq, PartialOrd, Ord)]
pub struct EvaluationOrder(pub u32);

impl EvaluationOrder {
    // The order of a range that has none yet.
    // Kept: no `Option`, since document 01 gives the unset order to its own type.
    pub const UNSET: EvaluationOrder = EvaluationOrder(0);

    pub fn is_unset(self) -> bool
        ensures { result ≡ eqb self.0 0 }
    {
        self == EvaluationOrder::UNSET
    }
}

// How a place uses its identifier.
#[derive(Clone, Copy, Debug, PartialEq, Eq)]
pub enum Effect {
    Unknown,
    Freeze,
    Read,
    Capture,
    ConditionallyMutateIterator,
    ConditionallyMutate,
    Mutate,
    Store,
}

// The position in the original's enum.
impl From<Effect> for u32 {
    ghost from_gives = { λ effect n. n ≡ effect_number effect };

    fn from(effect: Effect) -> u32 {
        effect as u32
    }
}

// A use of an identifier. The span is 0 for none.
// Kept: the span is a word of the sheet, which goes into the answer as it is.
#[derive(Clone, Copy, Debug, PartialEq, Eq)]
pub struct Place {
    pub identifier: IdentifierId,
    pub effect: Effect,
    pub reactive: bool,
    pub span: u32,
}

// The cases of the original's `AliasingEffect`.
#[derive(Clone, Copy, Debug, PartialEq, Eq)]
pub enum EffectKind {
    Freeze,
    Mutate,
    MutateConditionally,
    MutateTransitive,
    MutateTransitiveConditionally,
    Capture,
    Alias,
    MaybeAlias,
    Assign,
    Create,
    CreateFrom,
    ImmutableCapture,
    Apply,
    CreateFunction,
    MutateFrozen,
    MutateGlobal,
    Impure,
    Render,
}

// The position in the original's enum.
impl From<EffectKind> for u32 {
    ghost from_gives = { λ kind n. n ≡ kind_number kind };

    fn from(kind: EffectKind) -> u32 {
        kind as u32
    }
}

// An effect: "from" is the first place, "into" the second; one that the kind does not use is all 0.
#[derive(Clone, Copy, Debug, PartialEq, Eq)]
pub struct AliasingEffect {
    pub kind: EffectKind,
    pub first: Place,
    pub second: Place,
    pub extra: u32,
}

// What is recorded for an error (the original's `AliasingDiagnostic`): what it says, and where it was raised.
#[derive(Clone, Copy, Debug, PartialEq, Eq)]
pub struct Diagnostic {
    pub identity: u32,
    pub instance: u32,
}

// How sure a mutation is.
#[derive(Clone, Copy, Debug, PartialEq, Eq, PartialOrd, Ord)]
pub enum MutationKind {
    Conditional,
    Definite,
}

// Why a value is mutated, where it is known.
#[derive(Clone, Copy, Debug, PartialEq, Eq)]
pub enum MutationReason {
    AssignCurrentProperty,
}

// What an instruction computes, as far as the pass over operands asks: FunctionExpression and ObjectMethod are `Function`.
#[derive(Clone, Copy, Debug, PartialEq, Eq)]
pub enum InstructionValue {
    Plain,
    Function(FunctionId),
    StoreContext(IdentifierId),
}

// The terminals that matter here; every other one is `Other`.
#[derive(Clone, Copy, Debug, PartialEq, Eq)]
pub enum TerminalKind {
    Other,
    Return,
    MaybeThrow,
}

// The position in the original's enum.
impl From<TerminalKind> for u32 {
    ghost from_gives = { λ kind n. n ≡ terminal_number kind };

    fn from(kind: TerminalKind) -> u32 {
        kind as u32
    }
}

// What kind of value Create makes.
#[derive(Clone, Copy, Debug, PartialEq, Eq)]
pub enum ValueKind {
    Mutable,
    Frozen,
    Primitive,
    MaybeFrozen,
    Global,
    Context,
}

// The position in the original's enum.
impl From<ValueKind> for u32 {
    ghost from_gives = { λ kind n. n ≡ value_number kind };

    fn from(kind: ValueKind) -> u32 {
        kind as u32
    }
}

// Why a value is what it is.
#[derive(Clone, Copy, Debug, PartialEq, Eq)]
pub enum ValueReason {
    KnownReturnSignature,
    State,
    ReducerState,
    Context,
    Effect,
    HookCaptured,
    HookReturn,
    Global,
    JsxCaptured,
    StoreLocal,
    ReactiveFunctionArgument,
    Other,
}

// The position in the original's enum.
impl From<ValueReason> for u32 {
    ghost from_gives = { λ reason n. n ≡ reason_number reason };

    fn from(reason: ValueReason) -> u32 {
        reason as u32
    }
}

// What the sheet knows of an identifier's type.
#[derive(Clone, Copy, Debug, PartialEq, Eq)]
pub enum IdentifierType {
    Other,
    Primitive,
    Jsx,
}

// From the start, up to and without the end.
#[derive(Clone, Copy, Debug, PartialEq, Eq)]
pub struct MutableRange {
    pub start: EvaluationOrder,
    pub end: EvaluationOrder,
}

#[derive(Clone, Copy, Debug, PartialEq, Eq)]
pub struct Identifier {
    pub mutable_range: MutableRange,
    pub kind: IdentifierType,
}

#[derive(Clone, Copy, Debug, PartialEq, Eq)]
pub struct Flags {
    pub function_expression: bool,
    pub validations: bool,
}

// The reading position: the words read so far.
#[derive(Clone, Copy, Debug, PartialEq, Eq)]
pub struct Cursor {
    pub at: usize,
}

// A part and the position after it, or a refusal.
pub type Step<T> = Result<(T, Cursor), Refusal>;
