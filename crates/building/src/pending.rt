// What building leaves for the walks, and the blocks that have come.
ghost use Rattle.std.specs.Prelude.{◌≡◌, ◌+◌, ◌*◌, ◌≤◌, ◌<◌, length, eqb};
ghost use Rattle.model.specs.Limits.{most_identifiers, most_blocks, most_mutations, most_renders, most_index};
ghost use Rattle.std.specs.Int.{from_bool};
ghost use Rattle.hir.specs.Mutations.{kind_says, kind_bit, reason_says, reason_bit};
ghost use Rattle.workspace.specs.Layout.{LEAST, SEEN};
ghost use Rattle.std.proofs.Math.Seq.{slice};
ghost use Rattle.building.specs.Logs.{any_p};
ghost use Rattle.building.specs.Built.{PushesMutation, PushesRender, PushesBlock};

use crate::PendingMutation;
use hir::{BlockId, IdentifierId};
use workspace::{MUTATIONS, RENDERS, SEEN};

// The first word of a mutation with this index.
fn mutation_word(m: PendingMutation, index: u32) -> u32
    requires { (m.identifier.0 < most_identifiers) × (index < most_index) }
    ensures { result ≡ m.identifier.0 + 512 * from_bool m.transitive + 1024 * kind_bit m.kind + 2048 * reason_bit m.reason + 4096 * index }
{
    m.identifier.0
        + 512 * u32::from(m.transitive)
        + 1024 * m.kind as u32
        + 2048 * u32::from(m.reason.is_some())
        + 4096 * index
}

// Stores a mutation in three words, after the first `count` ones.
pub fn push_mutation(ws: &mut [u32], count: usize, index: u32, m: PendingMutation)
    requires in_bounds { (LEAST ≤ length ws.old) × (count < most_mutations) }
    requires identifier_lt_most_identifiers { (m.identifier.0 < most_identifiers) × (index < most_index) }
    ensures { PushesMutation (record { index = index; order = m.order.0; kind = kind_says m.kind; transitive = m.transitive; identifier = m.identifier.0; span = m.span; reason = reason_says m.reason }) ws.old count ws.new }
{
    let at = MUTATIONS + 3 * count;
    ws[at] = mutation_word(m, index);
    ws[at + 1] = m.order.0;
    ws[at + 2] = m.span;
}

// Stores a render in one word, after the first `count` ones.
pub fn push_render(ws: &mut [u32], count: usize, index: u32, identifier: IdentifierId)
    requires in_bounds { (LEAST ≤ length ws.old) × (count < most_renders) }
    requires identifier_lt_most_identifiers { (identifier.0 < most_identifiers) × (index < most_index) }
    ensures { PushesRender (record { index = index; identifier = identifier.0 }) ws.old count ws.new }
{
    ws[RENDERS + count] = identifier.0 + 512 * index;
}

// Notes a block's number, after the first `count` ones.
pub fn push_block(ws: &mut [u32], count: usize, block: BlockId)
    requires { (LEAST ≤ length ws.old) × (count < most_blocks) }
    ensures { PushesBlock block.0 ws.old count ws.new }
{
    ws[SEEN + count] = block.0;
}

// Is the block one of `count` that came, from number `first` on? Mostly none came, and then no list is searched: `contains` is a call.
pub fn has_come(ws: &[u32], first: usize, count: usize, block: BlockId) -> bool
    requires { (LEAST ≤ length ws.now) × (first + count ≤ most_blocks) }
    ensures { result ≡ any_p (eqb block.0) (slice (SEEN + first) (SEEN + first + count) ws.now) }
{
    if count == 0 {
        return false;
    }
    let start = SEEN + first;
    ws[start..start + count].contains(&block.0)
}
