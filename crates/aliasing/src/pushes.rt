// What an accepted node pushes onto the walk's queue, which lies in the lent workspace (in the original, inside `mutate`).
// A word of a node's edges or entries is the other node's identifier + 512 * the relation + 2048 * the index.
ghost use Rattle.std.specs.Prelude.{◌≡◌, ◌+◌, ◌-◌, ◌*◌, ◌≤◌, ◌<◌, length, get_or};
ghost use Rattle.std.proofs.Math.Seq.{slice};
ghost use Rattle.model.specs.Limits.{most_identifiers};
ghost use Rattle.workspace.specs.Rows.{rows_of, most_lists, row_f, row_b};
ghost use Rattle.workspace.specs.Graph.{ALIASES, MAYBE, CAPTURES};
ghost use Rattle.workspace.specs.Pending.{kind_of};
ghost use Rattle.hir.specs.Mutations.{kind_bit, kind_says};
ghost use Rattle.aliasing.specs.Says.{bit, direction_bit, word_of, Unpacked};
ghost use Rattle.aliasing.specs.Pushes.{edge_level, forward_w, entries_w, blocked_w, aliases_w, captures_w, pushed_w, Room, words_f, words_b, deg};
ghost use Rattle.writing.specs.Wrote.{Wrote};

use hir::{IdentifierId, MutationKind};
use workspace::{ALIASES, BBOUND, BENTRY, CAPTURES, FBOUND, FEDGE, MAYBE, PHI, VALUE};

// How a walk comes to a node.
#[derive(Clone, Copy, Debug, PartialEq, Eq)]
pub enum Direction {
    Backwards,
    Forwards,
}

// What a walk is to visit.
#[derive(Clone, Copy, Debug, PartialEq, Eq)]
pub struct QueueEntry {
    pub place: IdentifierId,
    pub transitive: bool,
    pub direction: Direction,
    pub kind: MutationKind,
}

impl QueueEntry {
    // Its word in the queue: the identifier, and a bit each for transitive, Forwards and Definite.
    pub fn pack(self) -> u32
        requires { self.place.0 < most_identifiers }
        ensures { result ≡ word_of self }
    {
        self.place.0
            + 512 * u32::from(self.transitive)
            + 1024 * self.direction as u32
            + 2048 * self.kind as u32
    }

    // The entry of a word.
    pub fn unpack(word: u32) -> Self
        ensures { Unpacked word result }
    {
        QueueEntry {
            place: IdentifierId(word % 512),
            transitive: word / 512 % 2 == 1,
            direction: if word / 1024 % 2 == 0 {
                Direction::Backwards
            } else {
                Direction::Forwards
            },
            kind: kind_of(word / 2048 % 2),
        }
    }
}

// The kind of a bit.
// Kept: any word is a bit here, as for `kind_of` of the definitions, so there is no error for a `TryFrom`; a `From` would stand in crate hir, which owns the type and knows no words.
pub(crate) fn kind_of(bit: u32) -> MutationKind
    ensures { kind_says result ≡ kind_of bit }
{
    if bit == 0 {
        MutationKind::Conditional
    } else {
        MutationKind::Definite
    }
}

// MaybeAlias edges downgrade to conditional mutation.
fn edge_kind(w: u32, kind: MutationKind) -> MutationKind
    ensures { kind_bit result ≡ edge_level w (kind_bit kind) }
{
    if w / 512 % 4 == MAYBE {
        MutationKind::Conditional
    } else {
        kind
    }
}

// Pushes the forward edges that lie from `at` to `end`. It stops at the first whose index is not below.
#[tactic(auto, using(crate::proofs::Pushing::forward_stopped, crate::proofs::Pushing::forward_done))]
fn push_forward(
    ws: &mut [u32],
    at: usize,
    end: usize,
    index: u32,
    entry: QueueEntry,
    top: usize,
) -> usize
    requires { (at ≤ end) × ((end ≤ top) × (top + (end - at) ≤ length ws.old)) }
    ensures { Wrote (forward_w index (bit entry.transitive) (kind_bit entry.kind) (slice at end ws.old)) ws.old top ws.new result }
{
    let mut len = top;
    for i in at..end {
        let w = ws[i];
        if w / 2048 >= index {
            break;
        }
        let pushed = QueueEntry {
            place: IdentifierId(w % 512),
            direction: Direction::Forwards,
            kind: edge_kind(w, entry.kind),
            ..entry
        };
        ws[len] = pushed.pack();
        len += 1;
    }
    len
}

// Pushes those of the entries from `at` to `end` whose index is below.
fn push_entries(
    ws: &mut [u32],
    at: usize,
    end: usize,
    index: u32,
    entry: QueueEntry,
    top: usize,
) -> usize
    requires { (at ≤ end) × ((end ≤ top) × (top + (end - at) ≤ length ws.old)) }
    ensures { Wrote (entries_w index (bit entry.transitive) (kind_bit entry.kind) (slice at end ws.old)) ws.old top ws.new result }
{
    let mut len = top;
    for i in at..end {
        let w = ws[i];
        if w / 2048 >= index {
            continue;
        }
        let pushed = QueueEntry {
            place: IdentifierId(w % 512),
            direction: Direction::Backwards,
            ..entry
        };
        ws[len] = pushed.pack();
        len += 1;
    }
    len
}

// How many words lie before a row. A bound counts the words from its row on, so the first counts all.
fn words_before(ws: &[u32], first: usize, bound: usize) -> usize
    requires { (first < length ws.now) × ((bound < length ws.now) × (get_or ws.now bound 0 ≤ get_or ws.now first 0)) }
    ensures { result ≡ get_or ws.now first 0 - get_or ws.now bound 0 }
{
    (ws[first] - ws[bound]) as usize
}

// One list of entries, each pushed as this one with its own place: list l of node x is row 4 * x + l.
#[tactic(auto, using(workspace::proofs::Rows::list_bounds))]
pub fn push_list(ws: &mut [u32], k: usize, index: u32, entry: QueueEntry, top: usize) -> usize
    requires room { Room ws.old top (words_b (rows_of ws.old) k) }
    requires k_lt_most_lists { k < most_lists }
    ensures { Wrote (entries_w index (bit entry.transitive) (kind_bit entry.kind) (row_b (rows_of ws.old) k)) ws.old top ws.new result }
{
    let lo = words_before(ws, BBOUND, BBOUND + k);
    let hi = words_before(ws, BBOUND, BBOUND + k + 1);
    push_entries(ws, BENTRY + lo, BENTRY + hi, index, entry, top)
}

// Forward edges: Capture a -> b, Alias a -> b: mutate(a) => mutate(b).
#[tactic(auto, using(workspace::proofs::Rows::edge_bounds))]
fn push_edges(ws: &mut [u32], index: u32, entry: QueueEntry, top: usize) -> usize
    requires room { Room ws.old top (words_f (rows_of ws.old) entry.place.0) }
    requires place_lt_most_identifiers { entry.place.0 < most_identifiers }
    ensures { Wrote (forward_w index (bit entry.transitive) (kind_bit entry.kind) (row_f (rows_of ws.old) entry.place.0)) ws.old top ws.new result }
{
    let x = entry.place.0 as usize;
    let lo = words_before(ws, FBOUND, FBOUND + x);
    let hi = words_before(ws, FBOUND, FBOUND + x + 1);
    push_forward(ws, FEDGE + lo, FEDGE + hi, index, entry, top)
}

// A phi arrived at forwards.
fn blocked(v: u32, direction: Direction) -> bool
    ensures { result ≡ blocked_w v (direction_bit direction) }
{
    direction == Direction::Forwards && v == PHI
}

// Backward alias edges, then MaybeAlias backward edges (downgrade to conditional).
fn push_aliases(ws: &mut [u32], index: u32, entry: QueueEntry, top: usize) -> usize
    requires room { Room ws.old top (words_b (rows_of ws.old) (4 * entry.place.0 + ALIASES) + words_b (rows_of ws.old) (4 * entry.place.0 + MAYBE)) }
    requires place_lt_most_identifiers { entry.place.0 < most_identifiers }
    ensures { Wrote (aliases_w (rows_of ws.old) entry.place.0 (direction_bit entry.direction) index (bit entry.transitive) (kind_bit entry.kind)) ws.old top ws.new result }
{
    let x = entry.place.0 as usize;
    if blocked(ws[VALUE + x], entry.direction) {
        return top;
    }
    let top = push_list(ws, 4 * x + ALIASES as usize, index, entry, top);
    let maybe = QueueEntry {
        kind: MutationKind::Conditional,
        ..entry
    };
    push_list(ws, 4 * x + MAYBE as usize, index, maybe, top)
}

// Only transitive mutations affect captures backward.
fn push_captures(ws: &mut [u32], index: u32, entry: QueueEntry, top: usize) -> usize
    requires room { Room ws.old top (words_b (rows_of ws.old) (4 * entry.place.0 + CAPTURES)) }
    requires place_lt_most_identifiers { entry.place.0 < most_identifiers }
    ensures { Wrote (captures_w (rows_of ws.old) entry.place.0 index (bit entry.transitive) (kind_bit entry.kind)) ws.old top ws.new result }
{
    if !entry.transitive {
        return top;
    }
    let x = entry.place.0 as usize;
    push_list(ws, 4 * x + CAPTURES as usize, index, entry, top)
}

// All that the node of an entry pushes, in the original's order.
fn push_entry(ws: &mut [u32], index: u32, entry: QueueEntry, top: usize) -> usize
    requires room { Room ws.old top (deg (rows_of ws.old) entry.place.0) }
    requires place_lt_most_identifiers { entry.place.0 < most_identifiers }
    ensures { Wrote (pushed_w (rows_of ws.old) entry.place.0 (direction_bit entry.direction) index (bit entry.transitive) (kind_bit entry.kind)) ws.old top ws.new result }
{
    let x = entry.place.0 as usize;
    let created = QueueEntry {
        transitive: true,
        ..entry
    };
    let top = push_edges(ws, index, entry, top);
    let top = push_list(ws, 4 * x, index, created, top);
    let top = push_aliases(ws, index, entry, top);
    push_captures(ws, index, entry, top)
}

// All that node x pushes where the walk comes to it forwards, direction 1, or backwards, any other.
// Kept: it takes numbers, since docs/MAP.md names it and its contract speaks of any direction; an entry would ask more of callers.
pub fn push_all(
    ws: &mut [u32],
    x: usize,
    direction: u32,
    index: u32,
    transitive: u32,
    kind: u32,
    top: usize,
) -> usize
    requires room { Room ws.old top (deg (rows_of ws.old) x) }
    requires x_lt_most_identifiers { (x < most_identifiers) × ((transitive < 2) × (kind < 2)) }
    ensures { Wrote (pushed_w (rows_of ws.old) x direction index transitive kind) ws.old top ws.new result }
{
    let entry = QueueEntry {
        place: IdentifierId(x as u32),
        transitive: transitive == 1,
        direction: if direction == 1 {
            Direction::Forwards
        } else {
            Direction::Backwards
        },
        kind: kind_of(kind),
    };
    push_entry(ws, index, entry, top)
}
