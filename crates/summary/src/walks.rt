// The section of walks: the entries taken by each real, then by each simulated walk.
ghost use Rattle.std.specs.Prelude.{◌+◌, ◌*◌, ◌≤◌, ◌<◌, ◌++◌, length};
ghost use Rattle.model.specs.Limits.{most_mutations};
ghost use Rattle.workspace.specs.Layout.{LEAST};
ghost use Rattle.workspace.specs.Tracked.{most_tracked};
ghost use Rattle.model.specs.Lists.{gather};
ghost use Rattle.model.specs.Answer.{count_words, section};
ghost use Rattle.aliasing.specs.Pending.{taken_of};
ghost use Rattle.writing.specs.Wrote.{Writes, farthest};
ghost use Rattle.summary.specs.Sections.{most_walks, counts_of, simulated_of};

use workspace::{MUTATIONS, SIMULATED};
use writing::Writer;

// The counts of `count` walks, one in `stride` words from `first` on.
fn put_counts(ws: &[u32], first: usize, stride: usize, count: usize, out: &mut Writer<'_, u32>)
    requires count_in_bounds { first + stride * count < length ws.now }
    requires count_bound { out.old.at + count ≤ farthest }
    ensures { Writes (gather count_words (counts_of ws.now first stride count)) out.old out.new }
{
    for i in 0..count {
        out.put(ws[first + stride * i]);
    }
}

// The section of walks. A real walk left its count in the last of the three words of its mutation.
pub fn put_walks(ws: &[u32], real: usize, simulated: usize, out: &mut Writer<'_, u32>)
    requires real_le_most_mutations { (real ≤ most_mutations) × ((simulated ≤ most_tracked) × (LEAST ≤ length ws.now)) }
    requires most_walks_bound { out.old.at + most_walks ≤ farthest }
    ensures { Writes (section count_words (taken_of ws.now real ++ simulated_of ws.now simulated)) out.old out.new }
{
    out.put((real + simulated) as u32);
    put_counts(ws, MUTATIONS + 2, 3, real, out);
    put_counts(ws, SIMULATED, 1, simulated, out);
}
