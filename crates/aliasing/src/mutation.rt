// What `mutate` is called with.
ghost use Rattle.std.specs.Prelude.{◌≡◌, ◌<◌, false};
ghost use Rattle.model.specs.Limits.{most_identifiers};
ghost use Rattle.aliasing.specs.Limits.{index_room};

use hir::{EvaluationOrder, IdentifierId, MutationKind, MutationReason};

// Its start is one of the identifiers, and a record's word has room for its index. A simulated mutation has its end unset and records no errors.
#[derive(Clone, Copy, Debug, PartialEq, Eq)]
pub struct Mutation {
    pub end: EvaluationOrder,
    pub transitive: bool,
    pub kind: MutationKind,
    pub start: IdentifierId,
    pub index: u32,
    pub reason: Option<MutationReason>,
    pub span: u32,
    pub should_record_errors: bool,
    pub ghost starts_below: { start.0 < most_identifiers },
    pub ghost index_fits: { index < index_room },
    pub ghost quiet: { end.0 ≡ 0 → should_record_errors ≡ false },
}
