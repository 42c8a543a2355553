// What the answer takes over from the sheet: places and effects in words, the effects and the diagnostics of instructions, the diagnostics of inner functions, and Create for returns.
#![tactic(auto)]

ghost use Rattle.std.specs.Prelude.{◌+◌, ◌≤◌};
ghost use Rattle.model.specs.Answer.{place_words, diagnostic_words, effect_words};
ghost use Rattle.hir.specs.Says.{place_is, diagnostic_is, effect_is};
ghost use Rattle.model.specs.Limits.{place_width, diagnostic_width, effect_width};
ghost use Rattle.writing.specs.Wrote.{Writes, farthest};

use hir::places::traits_word;
use hir::{AliasingEffect, Diagnostic, Effect, IdentifierId, Place};
use writing::Writer;

pub mod effect_lists;
pub mod functions;
pub mod past;
pub mod returns;

// The place that an effect does not use.
pub const NO_PLACE: Place = Place {
    identifier: IdentifierId(0),
    effect: Effect::Unknown,
    reactive: false,
    span: 0,
};

// A place in words.
pub fn put_place(out: &mut Writer<'_, u32>, p: Place)
    requires { out.old.at + place_width ≤ farthest }
    ensures { Writes (place_words (place_is p)) out.old out.new }
{
    out.put_triple(p.identifier.0, traits_word(p.effect, p.reactive), p.span);
}

// A diagnostic in words, the identity first.
pub fn put_diagnostic(out: &mut Writer<'_, u32>, d: Diagnostic)
    requires { out.old.at + diagnostic_width ≤ farthest }
    ensures { Writes (diagnostic_words (diagnostic_is d)) out.old out.new }
{
    out.put_pair(d.identity, d.instance);
}

// A place of an effect, word by word: so `put_effect` stays small enough to stand inside its callers' loops.
fn put_effect_place(out: &mut Writer<'_, u32>, p: Place)
    requires { out.old.at + place_width ≤ farthest }
    ensures { Writes (place_words (place_is p)) out.old out.new }
{
    out.put(p.identifier.0);
    out.put(traits_word(p.effect, p.reactive));
    out.put(p.span);
}

// An effect in words.
pub fn put_effect(out: &mut Writer<'_, u32>, e: AliasingEffect)
    requires { out.old.at + effect_width ≤ farthest }
    ensures { Writes (effect_words (effect_is e)) out.old out.new }
{
    out.put(u32::from(e.kind));
    put_effect_place(out, e.first);
    put_effect_place(out, e.second);
    out.put(e.extra);
}
