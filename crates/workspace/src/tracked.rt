// The tracked places: parameters, context, returns.
ghost use Rattle.std.specs.Prelude.{◌≡◌, ◌≤◌, ◌<◌, length};
ghost use Rattle.model.specs.Limits.{most_identifiers};
ghost use Rattle.hir.specs.Says.{place_is};
ghost use Rattle.workspace.specs.Layout.{LEAST};
ghost use Rattle.workspace.specs.Tracked.{most_tracked, tracked_at, Tracks};

use crate::TRACKED;
use hir::places::{effect_in, reactive_of, traits_word};
use hir::{IdentifierId, Place};

// Stores place i.
pub fn track(ws: &mut [u32], i: usize, p: Place)
    requires i_lt_most_tracked { (i < most_tracked) × (LEAST ≤ length ws.old) }
    requires identifier_lt_most_identifiers { p.identifier.0 < most_identifiers }
    ensures { Tracks ws.old i (place_is p) ws.new }
{
    ws[TRACKED + 2 * i] = p.identifier.0 + 512 * traits_word(p.effect, p.reactive);
    ws[TRACKED + 2 * i + 1] = p.span;
}

// Place i.
#[tactic(auto, unfolding(crate::specs::Tracked::tracked_at, crate::specs::Tracked::place_of))]
pub fn tracked(ws: &[u32], i: usize) -> Place
    requires { (i < most_tracked) × (LEAST ≤ length ws.now) }
    ensures { place_is result ≡ tracked_at ws.now i }
{
    let w = ws[TRACKED + 2 * i];
    Place {
        identifier: IdentifierId(w % 512),
        effect: effect_in(w / 512),
        reactive: reactive_of(w / 512),
        span: ws[TRACKED + 2 * i + 1],
    }
}
