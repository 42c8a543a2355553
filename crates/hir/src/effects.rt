// An effect, held to the table of its kind.
ghost use Rattle.std.specs.Prelude.{◌≡◌};
ghost use Rattle.model.specs.Effects.{row_of, diagnostic_of};
ghost use Rattle.model.specs.Sections.{extra, effect_after};
ghost use Rattle.hir.specs.Numbers.{kind_says};
ghost use Rattle.hir.specs.Says.{word_says, effect_says, effect_is, diagnostic_is};
ghost use Rattle.hir.specs.Table.{role_says, row_says, table_row, OwnRow};

use crate::limits::{MOST_DIAGNOSTIC, MOST_KIND};
use crate::{AliasingEffect, Cursor, Diagnostic, EffectKind, Step};

// What an effect of an instruction is for.
#[derive(Clone, Copy, Debug, PartialEq, Eq)]
pub enum Role {
    Relation,
    Mutation,
    Render,
    Diagnosis,
    Nothing,
}

// How many places a kind uses, the largest instance of its diagnostic (0 where it has none), and its largest extra word.
#[derive(Clone, Copy, Debug, PartialEq, Eq)]
pub struct Row {
    pub kind: EffectKind,
    pub places: u32,
    pub instance: u32,
    pub extra: u32,
}

const ROWS: [Row; 18] = [
    Row {
        kind: EffectKind::Freeze,
        places: 1,
        instance: 0,
        extra: 11,
    },
    Row {
        kind: EffectKind::Mutate,
        places: 1,
        instance: 0,
        extra: 1,
    },
    Row {
        kind: EffectKind::MutateConditionally,
        places: 1,
        instance: 0,
        extra: 0,
    },
    Row {
        kind: EffectKind::MutateTransitive,
        places: 1,
        instance: 0,
        extra: 0,
    },
    Row {
        kind: EffectKind::MutateTransitiveConditionally,
        places: 1,
        instance: 0,
        extra: 0,
    },
    Row {
        kind: EffectKind::Capture,
        places: 2,
        instance: 0,
        extra: 0,
    },
    Row {
        kind: EffectKind::Alias,
        places: 2,
        instance: 0,
        extra: 0,
    },
    Row {
        kind: EffectKind::MaybeAlias,
        places: 2,
        instance: 0,
        extra: 0,
    },
    Row {
        kind: EffectKind::Assign,
        places: 2,
        instance: 0,
        extra: 0,
    },
    Row {
        kind: EffectKind::Create,
        places: 1,
        instance: 0,
        extra: 71,
    },
    Row {
        kind: EffectKind::CreateFrom,
        places: 2,
        instance: 0,
        extra: 0,
    },
    Row {
        kind: EffectKind::ImmutableCapture,
        places: 2,
        instance: 0,
        extra: 0,
    },
    Row {
        kind: EffectKind::Apply,
        places: 0,
        instance: 0,
        extra: 0,
    },
    Row {
        kind: EffectKind::CreateFunction,
        places: 1,
        instance: 0,
        extra: 63,
    },
    Row {
        kind: EffectKind::MutateFrozen,
        places: 1,
        instance: MOST_DIAGNOSTIC,
        extra: MOST_DIAGNOSTIC,
    },
    Row {
        kind: EffectKind::MutateGlobal,
        places: 1,
        instance: MOST_DIAGNOSTIC,
        extra: MOST_DIAGNOSTIC,
    },
    Row {
        kind: EffectKind::Impure,
        places: 1,
        instance: MOST_DIAGNOSTIC,
        extra: MOST_DIAGNOSTIC,
    },
    Row {
        kind: EffectKind::Render,
        places: 1,
        instance: 0,
        extra: 0,
    },
];

// The table's row of a kind's number; a number above 17 is refused before.
#[tactic(auto, using(crate::proofs::EffectTable::row_right, crate::proofs::EffectTable::row_beyond))]
pub fn row_of(number: u32) -> Row
    ensures { row_says result ≡ table_row number }
{
    if number <= MOST_KIND {
        ROWS[number as usize]
    } else {
        ROWS[0]
    }
}

// What an effect of each kind is for, by the kind's number.
const ROLES: [Role; 18] = [
    Role::Nothing,
    Role::Mutation,
    Role::Mutation,
    Role::Mutation,
    Role::Mutation,
    Role::Relation,
    Role::Relation,
    Role::Relation,
    Role::Relation,
    Role::Nothing,
    Role::Relation,
    Role::Nothing,
    Role::Nothing,
    Role::Nothing,
    Role::Diagnosis,
    Role::Diagnosis,
    Role::Diagnosis,
    Role::Render,
];

// What an effect of this kind is for, in an instruction.
#[tactic(auto, using(crate::proofs::EffectTable::role_right))]
pub fn role_of(kind: EffectKind) -> Role
    ensures { role_says result ≡ (row_of (kind_says kind)).role }
{
    ROLES[u32::from(kind) as usize]
}

// The diagnostic of an effect that is a diagnosis.
pub fn diagnostic_of(e: AliasingEffect) -> Diagnostic
    ensures { diagnostic_is result ≡ diagnostic_of (effect_is e) }
{
    Diagnostic {
        identity: e.extra,
        instance: e.second.identifier.0,
    }
}

// The extra word: at most the table's; for CreateFunction below the count of inner functions.
fn extra(c: Cursor, s: &[u32], m: u32, row: Row) -> Step<u32>
    requires { row.extra ≡ (row_of (kind_says row.kind)).extra }
    ensures { word_says result ≡ extra m (kind_says row.kind) s.now c.at }
{
    if row.kind == EffectKind::CreateFunction {
        c.below(s, m)
    } else {
        c.at_most(s, row.extra)
    }
}

// An effect after its kind, over `n` identifiers and `m` inner functions: first place, second place, extra.
pub fn effect_after(c: Cursor, s: &[u32], n: u32, m: u32, row: Row) -> Step<AliasingEffect>
    requires { OwnRow (row_says row) }
    ensures { effect_says result ≡ effect_after n m (kind_says row.kind) s.now c.at }
{
    let (first, c) = c.place_if(s, n, 1 <= row.places, 0)?;
    let (second, c) = c.place_if(s, n, 2 <= row.places, row.instance)?;
    let (extra, c) = extra(c, s, m, row)?;
    let effect = AliasingEffect {
        kind: row.kind,
        first,
        second,
        extra,
    };
    Ok((effect, c))
}
