// Create for returns.
ghost use Rattle.std.specs.Prelude.{◌≡◌, ◌+◌, ◌≤◌, length};
ghost use Rattle.model.specs.Summary.{value_kind};
ghost use Rattle.model.specs.Answer.{effect_words};
ghost use Rattle.hir.specs.Numbers.{type_says, value_number};
ghost use Rattle.hir.specs.Says.{place_is};
ghost use Rattle.hir.specs.Words.{identifier_at};
ghost use Rattle.model.specs.Limits.{effect_width, identifier_width};
ghost use Rattle.writing.specs.Wrote.{Writes, farthest};
ghost use Rattle.copies.specs.Returns.{identifier_from, create_of};

use crate::{NO_PLACE, put_effect};
use hir::at::{IDENTIFIER_WIDTH, identifier_at};
use hir::{
    AliasingEffect, EffectKind, IdentifierId, IdentifierType, Place, ValueKind, ValueReason,
};
use writing::Writer;

// The type of an identifier, the first of which stands at `first`.
fn type_at(sheet: &[u32], first: usize, identifier: IdentifierId) -> IdentifierType
    requires { identifier_from first identifier.0 + identifier_width ≤ length sheet.now }
    ensures { type_says result ≡ (identifier_at sheet.now (identifier_from first identifier.0)).type }
{
    identifier_at(sheet, first + IDENTIFIER_WIDTH * (identifier.0 as usize)).kind
}

// The kind of value that a type is returned as.
fn value_kind(t: IdentifierType) -> ValueKind
    ensures { value_number result ≡ value_kind (type_says t) }
{
    match t {
        IdentifierType::Primitive => ValueKind::Primitive,
        IdentifierType::Jsx => ValueKind::Frozen,
        IdentifierType::Other => ValueKind::Mutable,
    }
}

// Create for returns, by its identifier's type.
pub fn put_create_returns(sheet: &[u32], first: usize, returns: Place, out: &mut Writer<'_, u32>)
    requires identifier_width_in_bounds { identifier_from first returns.identifier.0 + identifier_width ≤ length sheet.now }
    requires effect_width_bound { out.old.at + effect_width ≤ farthest }
    ensures { Writes (effect_words (create_of (place_is returns) (identifier_at sheet.now (identifier_from first returns.identifier.0)).type)) out.old out.new }
{
    let value = value_kind(type_at(sheet, first, returns.identifier));
    let reason = ValueReason::KnownReturnSignature;
    let e = AliasingEffect {
        kind: EffectKind::Create,
        first: returns,
        second: NO_PLACE,
        extra: 6 * u32::from(reason) + u32::from(value),
    };
    put_effect(out, e);
}
