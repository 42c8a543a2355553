// The tracked places with the marks of those that have a record.
ghost use Rattle.std.specs.Prelude.{◌≡◌, ◌+◌, ◌*◌, ◌≤◌, ◌<◌, length};
ghost use Rattle.model.specs.Limits.{most_identifiers, place_width};
ghost use Rattle.model.specs.Summary.{marked};
ghost use Rattle.model.specs.State.{State, has_record};
ghost use Rattle.aliasing.specs.State.{nodes_of, record_at};
ghost use Rattle.hir.specs.Says.{place_is};
ghost use Rattle.writing.specs.Wrote.{farthest};
ghost use Rattle.summary.specs.Records.{Holds};
ghost use Rattle.workspace.specs.Layout.{LEAST};
ghost use Rattle.workspace.specs.Tracked.{most_tracked};
ghost use Rattle.summary.specs.Tracked.{Marks};
ghost use Rattle.summary.specs.Sections.{Marked};

use copies::put_place;
use hir::{Effect, IdentifierId, Place};
use workspace::RECORD;
use workspace::tracked::{track, tracked};
use writing::Writer;

// Whether the node of x has a record.
fn has_record(ws: &[u32], x: IdentifierId) -> bool
    requires { (x.0 < most_identifiers) × (LEAST ≤ length ws.now) }
    ensures { result ≡ has_record (record_at (nodes_of ws.now) x.0) }
{
    ws[RECORD + x.0 as usize] % 16 != 0
}

// The place with the Capture mark, if its identifier has a record.
fn marked(ws: &[u32], p: Place) -> Place
    requires { (p.identifier.0 < most_identifiers) × (LEAST ≤ length ws.now) }
    ensures { (t : State) → Holds ws.now t → place_is result ≡ marked t (place_is p) }
{
    if has_record(ws, p.identifier) {
        Place {
            effect: Effect::Capture,
            ..p
        }
    } else {
        p
    }
}

// The section of params or of context: `count` tracked places from `first` on, with their marks.
// Kept: the loops over tracked places (here, in `mark_tracked` and in `collect_effects`) share their head alone; `each_tracked(ws, first, count, |p| put_place(out, marked(ws, p)))` is no plainer, and `mark_tracked` writes to ws.
pub fn put_marked(ws: &[u32], first: usize, count: usize, out: &mut Writer<'_, u32>)
    requires count_bound { (first + count ≤ most_tracked) × (LEAST ≤ length ws.now) }
    requires count_bound_2 { out.old.at + 1 + place_width * count ≤ farthest }
    ensures { Marked ws.now first count out.old out.new }
{
    out.put(count as u32);
    for i in 0..count {
        put_place(out, marked(ws, tracked(ws, first + i)));
    }
}

// The first `count` places get their marks in the workspace.
pub fn mark_tracked(ws: &mut [u32], count: usize)
    requires { (count < most_tracked) × (LEAST ≤ length ws.old) }
    ensures { Marks ws.old count ws.new }
{
    for i in 0..count {
        let p = marked(ws, tracked(ws, i));
        track(ws, i, p);
    }
}
