// What a simulated walk finds: the tracked places that it reached flow into the walk's place.
ghost use Rattle.std.specs.Prelude.{◌≡◌, ◌+◌, ◌*◌, ◌≤◌, ◌<◌, length, eqb};
ghost use Rattle.model.specs.Limits.{most_identifiers, effect_width};
ghost use Rattle.workspace.specs.Layout.{LEAST};
ghost use Rattle.workspace.specs.Tracked.{most_tracked};
ghost use Rattle.model.specs.Lists.{pick};
ghost use Rattle.model.specs.Sheet.{Alias, Capture};
ghost use Rattle.hir.specs.Numbers.{kind_says};
ghost use Rattle.hir.specs.Says.{place_is};
ghost use Rattle.writing.specs.Wrote.{farthest};
ghost use Rattle.summary.specs.Sections.{Flow, Flows};

use copies::put_effect;
use hir::{AliasingEffect, EffectKind, IdentifierId, Place};
use workspace::RECORD;
use workspace::tracked::tracked;
use writing::Writer;

// Alias into returns, Capture into any other place.
fn flow_kind(into: IdentifierId, returns: IdentifierId) -> EffectKind
    ensures { kind_says result ≡ pick (eqb into.0 returns.0) Alias Capture }
{
    if into == returns {
        EffectKind::Alias
    } else {
        EffectKind::Capture
    }
}

// The effect of one tracked place, if the walk of this index reached it last.
// Kept: into, index and returns go together through this function and the next alone; a struct for them, made once in `simulate`, is longer than what it saves.
fn put_flow(
    ws: &[u32],
    from: Place,
    into: Place,
    index: u32,
    returns: IdentifierId,
    out: &mut Writer<'_, u32>,
)
    requires identifier_lt_most_identifiers { (from.identifier.0 < most_identifiers) × (LEAST ≤ length ws.now) }
    requires effect_width_bound { out.old.at + effect_width ≤ farthest }
    ensures { Flow ws.now (place_is from) (place_is into) index returns.0 out.old out.new }
{
    let x = from.identifier;
    if x != into.identifier && x != returns && ws[RECORD + x.0 as usize] / 32 == index {
        let e = AliasingEffect {
            kind: flow_kind(into.identifier, returns),
            first: from,
            second: into,
            extra: 0,
        };
        put_effect(out, e);
    }
}

// The effects of all `count` tracked places after the walk of `into`.
pub fn put_flows(
    ws: &[u32],
    count: usize,
    into: Place,
    index: u32,
    returns: IdentifierId,
    out: &mut Writer<'_, u32>,
)
    requires count_le_most_tracked { (count ≤ most_tracked) × (LEAST ≤ length ws.now) }
    requires count_bound { out.old.at + effect_width * count ≤ farthest }
    ensures { Flows ws.now count (place_is into) index returns.0 out.old out.new }
{
    for i in 0..count {
        put_flow(ws, tracked(ws, i), into, index, returns, out);
    }
}
