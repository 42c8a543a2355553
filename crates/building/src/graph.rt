// The alias graph: nodes are created, and relations stored.
ghost use Rattle.std.specs.Prelude.{◌≡◌, ◌+◌, ◌≤◌, ◌<◌, length};
ghost use Rattle.model.specs.Limits.{most_identifiers, most_index};
ghost use Rattle.model.specs.Graph.{create, relate, create_from};
ghost use Rattle.model.specs.Graph.{assign as assign_effect};
ghost use Rattle.workspace.specs.Layout.{LEAST};
ghost use Rattle.workspace.specs.Graph.{MISSING, value_of};
ghost use Rattle.workspace.specs.Numbers.{relation_says};
ghost use Rattle.building.specs.Held.{has_value, Room, Builds, Laid};

use crate::Held;
use crate::logs::{add_edge, add_entry, leave, leave_edges, pack};
use hir::IdentifierId;
use workspace::{
    BBOUND, EDGES, ENTRIES, FBOUND, IDENTIFIERS, LISTS, MISSING, OBJECT, Relation, Table, VALUE,
};

// Has x a node?
fn exists(ws: &[u32], x: IdentifierId) -> bool
    requires { (LEAST ≤ length ws.now) × (x.0 < most_identifiers) }
    ensures { result ≡ has_value ws.now x.0 }
{
    ws[VALUE + x.0 as usize] != MISSING
}

// Creates the node of x, in place of the one that was there: that one's own words leave the logs. A missing node holds none.
pub fn create(ws: &mut [u32], h: &mut Held, x: IdentifierId, value: u32)
    requires room { Room ws.old h.old }
    requires x_lt_most_identifiers { (x.0 < most_identifiers) × (MISSING < value) }
    ensures { Builds (create x.0 (value_of value)) ws.old h.old ws.new h.new }
{
    if exists(ws, x) {
        h.edges = leave_edges(ws, h.edges, x.0);
        h.entries = leave(ws, Table::Entries, ENTRIES, h.entries, x.0);
    }
    ws[VALUE + x.0 as usize] = value;
}

// Stores a relation: skipped if either node is missing.
pub fn store(
    ws: &mut [u32],
    h: &mut Held,
    relation: Relation,
    index: u32,
    from: IdentifierId,
    into: IdentifierId,
)
    requires room { Room ws.old h.old }
    requires from_lt_most_identifiers { (from.0 < most_identifiers) × ((into.0 < most_identifiers) × (index < most_index)) }
    ensures { Builds (relate (relation_says relation) index from.0 into.0) ws.old h.old ws.new h.new }
{
    if !exists(ws, from) || !exists(ws, into) {
        return;
    }
    let w = pack(from.0, into.0, relation, index);
    add_edge(ws, h, w);
    add_entry(ws, h, w);
}

// An Assign effect first creates a missing "into".
pub fn assign(ws: &mut [u32], h: &mut Held, index: u32, from: IdentifierId, into: IdentifierId)
    requires room { Room ws.old h.old }
    requires from_lt_most_identifiers { (from.0 < most_identifiers) × ((into.0 < most_identifiers) × (index < most_index)) }
    ensures { Builds (assign_effect index from.0 into.0) ws.old h.old ws.new h.new }
{
    if !exists(ws, into) {
        create(ws, h, into, OBJECT);
    }
    store(ws, h, Relation::Alias, index, from, into);
}

// CreateFrom always creates "into"; its entry is stored even if "from" has no node.
pub fn create_from(ws: &mut [u32], h: &mut Held, index: u32, from: IdentifierId, into: IdentifierId)
    requires room { Room ws.old h.old }
    requires from_lt_most_identifiers { (from.0 < most_identifiers) × ((into.0 < most_identifiers) × (index < most_index)) }
    ensures { Builds (create_from index from.0 into.0) ws.old h.old ws.new h.new }
{
    create(ws, h, into, OBJECT);
    let w = pack(from.0, into.0, Relation::CreatedFrom, index);
    if exists(ws, from) {
        add_edge(ws, h, w);
    }
    add_entry(ws, h, w);
}

// Lays the two logs out in rows, for the walks.
pub fn lay_out(ws: &mut [u32], h: Held)
    requires { Room ws.old h }
    ensures { Laid ws.old h ws.new }
{
    workspace::sort(ws, Table::Edges as u32, FBOUND, IDENTIFIERS, EDGES, h.edges);
    workspace::sort(ws, Table::Entries as u32, BBOUND, LISTS, ENTRIES, h.entries);
}
