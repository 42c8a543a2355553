// The two logs, word by word.
ghost use Rattle.std.specs.Prelude.{◌≡◌, true, ◌+◌, ◌*◌, ◌/◌, ◌%◌, ◌≤◌, ◌<◌, max, length};
ghost use Rattle.std.proofs.Math.Seq.{slice};
ghost use Rattle.model.specs.Limits.{most_identifiers, most_relations, most_index};
ghost use Rattle.model.specs.Graph.{has_node};
ghost use Rattle.workspace.specs.Layout.{LEAST, EDGES, ENTRIES};
ghost use Rattle.workspace.specs.Numbers.{table_number, relation_number};
ghost use Rattle.building.specs.Logs.{pack_w, owner_w, owns_w, any_p, any_w, edge_g, entry_g};
ghost use Rattle.building.specs.Held.{held_over, graph_of, Marked, Room, Builds, Others, Left};

use crate::Held;
use hir::limits::MOST_RELATIONS;
use workspace::{EDGES, ENTRIES, MARKS, Relation, Table};

// A log word.
pub fn pack(from: u32, into: u32, relation: Relation, index: u32) -> u32
    requires { (from < most_identifiers) × ((into < most_identifiers) × (index < most_index)) }
    ensures { result ≡ pack_w from into (relation_number relation) index }
{
    from + 512 * into + 262144 * u32::from(relation) + 1048576 * index
}

// Who holds a word: "from" holds an edge, "into" an entry.
#[tactic(auto, unfolding(crate::specs::Logs::owner_w))]
fn owner(table: Table, w: u32) -> u32
    ensures { result ≡ owner_w (table_number table) w }
{
    match table {
        Table::Edges => w % 512,
        Table::Entries => w / 512 % 512,
    }
}

// Is there an entry with the same from, into and list? Looks at every word, so that the loop is compiled to vectors.
fn has_entry(ws: &[u32], n: usize, w: u32) -> bool
    requires { (LEAST ≤ length ws.now) × (n ≤ most_relations) }
    ensures { result ≡ any_w w (slice ENTRIES (ENTRIES + n) ws.now) }
{
    ws[ENTRIES..ENTRIES + n]
        .iter()
        .fold(false, |found, &v| found | (v % 1048576 == w % 1048576))
}

// Does x hold one of n words? Looks at every word, as above.
fn holds(ws: &[u32], table: Table, at: usize, n: usize, x: u32) -> bool
    requires { at + n ≤ length ws.now }
    ensures { result ≡ any_p (owns_w (table_number table) x) (slice at (at + n) ws.now) }
{
    ws[at..at + n]
        .iter()
        .fold(false, |found, &w| found | (owner(table, w) == x))
}

// So many words at the front of a log are others', found 16 at a time: mostly x holds none, or its words are the last.
fn others(ws: &[u32], table: Table, at: usize, n: usize, x: u32) -> usize
    requires { at + n ≤ length ws.now }
    ensures { Others (owns_w (table_number table) x) at n ws.now result }
{
    // Kept: `position`, word by word, makes creations of values that hold relations 1.8 times as slow.
    let mut i = 0;
    while i + 16 <= n {
        if holds(ws, table, at + i, 16, x) {
            return i;
        }
        i += 16;
    }
    i
}

// Takes the words that x holds out of a log; the others keep their order.
pub fn leave(ws: &mut [u32], table: Table, at: usize, n: usize, x: u32) -> usize
    requires { at + n ≤ length ws.old }
    ensures { Left (table_number table) at n x ws.old ws.new result }
{
    let first = others(ws, table, at, n, x);
    let mut left = first;
    for i in first..n {
        let w = ws[at + i];
        if owner(table, w) != x {
            ws[at + left] = w;
            left += 1;
        }
    }
    left
}

// Takes the edges of x out, if it is marked: else it has none.
pub fn leave_edges(ws: &mut [u32], n: usize, x: u32) -> usize
    requires in_bounds { (LEAST ≤ length ws.old) × ((n ≤ most_relations) × (x < most_identifiers)) }
    requires marked { Marked ws.old n }
    ensures { Left 0 EDGES n x ws.old ws.new result }
{
    if ws[MARKS + x as usize] == 0 {
        return n;
    }
    leave(ws, Table::Edges, EDGES, n, x)
}

// One more would be held than there is room for.
fn over(h: &mut Held)
    ensures { h.new ≡ held_over h.old }
{
    h.most = MOST_RELATIONS + 1;
}

// Stores the edge of a word, whose "from" has a node and is marked.
pub fn add_edge(ws: &mut [u32], h: &mut Held, w: u32)
    requires room { Room ws.old h.old }
    requires w_value { has_node (graph_of ws.old h.old) (w % 512) ≡ true }
    ensures { Builds (edge_g w) ws.old h.old ws.new h.new }
{
    if MOST_RELATIONS <= h.edges {
        return over(h);
    }
    ws[EDGES + h.edges] = w;
    ws[MARKS + (w % 512) as usize] = 1;
    h.edges += 1;
    h.most = h.most.max(h.edges);
}

// Stores the entry of a word, whose "into" has a node: once for each "from" and list.
pub fn add_entry(ws: &mut [u32], h: &mut Held, w: u32)
    requires room { Room ws.old h.old }
    requires w_value { has_node (graph_of ws.old h.old) (w / 512 % 512) ≡ true }
    ensures { Builds (entry_g w) ws.old h.old ws.new h.new }
{
    if has_entry(ws, h.entries, w) {
        return;
    }
    if MOST_RELATIONS <= h.entries {
        return over(h);
    }
    ws[ENTRIES + h.entries] = w;
    h.entries += 1;
    h.most = h.most.max(h.entries);
}
