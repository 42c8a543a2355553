// The graph in the workspace, node by node.
ghost use Rattle.std.specs.Prelude.{◌+◌, ◌≡◌, ◌≤◌, ◌<◌, length};
ghost use Rattle.model.specs.Limits.{most_identifiers, most_relations};
ghost use Rattle.model.specs.Dot.{node_lines, edge_lines, dot};
ghost use Rattle.workspace.specs.Layout.{LEAST};
ghost use Rattle.workspace.specs.Rows.{rows_of, Indexed};
ghost use Rattle.workspace.specs.Graph.{graph_of_rows};
ghost use Rattle.writing.specs.Wrote.{Writes, farthest};
ghost use Rattle.dot.specs.Lines.{most_line, most_row, most_nodes, most_edges, row_text, node_text, edges_text, Put};

use crate::lines::{put_edge_line, put_node_line};
use crate::text::put_bytes;
use workspace::{FBOUND, FEDGE, IDENTIFIERS, MISSING, VALUE};
use writing::Writer;

// The line of identifier x, if it has a node.
fn put_node(ws: &[u32], x: usize, text: &mut Writer<'_, u8>)
    requires in_bounds { (LEAST ≤ length ws.now) × (x < most_identifiers) }
    requires most_line_bound { text.old.at + most_line ≤ farthest }
    ensures { Put (node_text (rows_of ws.now) x) most_line text.old text.new }
{
    if ws[VALUE + x] != MISSING {
        put_node_line(text, x as u32);
    }
}

// A line for each node, in rising identifier.
fn put_nodes(ws: &[u32], text: &mut Writer<'_, u8>)
    requires in_bounds { LEAST ≤ length ws.now }
    requires most_nodes_bound { text.old.at + most_nodes ≤ farthest }
    ensures { Put (node_lines (graph_of_rows (rows_of ws.now))) most_nodes text.old text.new }
{
    for x in 0..IDENTIFIERS {
        put_node(ws, x, text);
    }
}

// A line for each of the edges of node x, by their words, in stored order.
fn put_row(edges: &[u32], x: u32, text: &mut Writer<'_, u8>)
    requires edges_bound { length edges.now ≤ most_relations }
    requires most_row_bound { text.old.at + most_row ≤ farthest }
    ensures { Put (row_text x edges.now) most_row text.old text.new }
{
    for &w in edges {
        put_edge_line(text, x, w);
    }
}

// The lines of the edges of identifier x, if it has a node. A bound counts the words from its row on, so the first counts all.
fn put_edges_of(ws: &[u32], x: usize, text: &mut Writer<'_, u8>)
    requires indexed { Indexed ws.now × (x < most_identifiers) }
    requires most_row_bound { text.old.at + most_row ≤ farthest }
    ensures { Put (edges_text (rows_of ws.now) x) most_row text.old text.new }
{
    if ws[VALUE + x] == MISSING {
        return;
    }
    let all = ws[FBOUND];
    let lo = (all - ws[FBOUND + x]) as usize;
    let hi = (all - ws[FBOUND + x + 1]) as usize;
    put_row(&ws[FEDGE + lo..FEDGE + hi], x as u32, text);
}

// A line for each forward edge, by node.
fn put_edges(ws: &[u32], text: &mut Writer<'_, u8>)
    requires indexed { Indexed ws.now }
    requires most_edges_bound { text.old.at + most_edges ≤ farthest }
    ensures { Put (edge_lines (graph_of_rows (rows_of ws.now))) most_edges text.old text.new }
{
    for x in 0..IDENTIFIERS {
        put_edges_of(ws, x, text);
    }
}

// The whole text, from the beginning of the buffer.
pub fn put_graph(ws: &[u32], text: &mut Writer<'_, u8>)
    requires indexed { Indexed ws.now }
    requires at_start { text.old.at ≡ 0 }
    ensures { Writes (dot (graph_of_rows (rows_of ws.now))) text.old text.new }
{
    put_bytes(text, b"digraph g {\n");
    put_nodes(ws, text);
    put_edges(ws, text);
    put_bytes(text, b"}\n");
}
