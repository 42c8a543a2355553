// The lines of a drawing: one for a node, one for a forward edge.
ghost use Rattle.std.specs.Prelude.{◌+◌, ◌≤◌, ◌<◌};
ghost use Rattle.model.specs.Graph.{edge_kind};
ghost use Rattle.model.specs.Dot.{kind_word, node_line, edge_line};
ghost use Rattle.workspace.specs.Graph.{relation_of, edge_row};
ghost use Rattle.writing.specs.Wrote.{Writes, farthest};
ghost use Rattle.dot.specs.Lines.{most_kind, most_ends, most_label, most_line, ends_text, label_text, Put};

use crate::text::{put_bytes, put_digits};
use workspace::{CAPTURES, MAYBE};
use writing::Writer;

// The line of node x.
pub fn put_node_line(text: &mut Writer<'_, u8>, x: u32)
    requires { text.old.at + most_line ≤ farthest }
    ensures { Put (node_line x) most_line text.old text.new }
{
    put_bytes(text, b"  n");
    put_digits(text, x);
    put_bytes(text, b";\n");
}

// The word of an edge's kind, by the list of its relation: the edge of a created-from relation is an alias.
// Kept: as a `Relation` it would be matched twice, once to decode the word's number; no plainer.
fn put_kind(text: &mut Writer<'_, u8>, list: u32)
    requires { (list < 4) × (text.old.at + most_kind ≤ farthest) }
    ensures { Writes (kind_word (edge_kind (relation_of list))) text.old text.new }
{
    match list {
        CAPTURES => put_bytes(text, b"capture"),
        MAYBE => put_bytes(text, b"maybe"),
        _ => put_bytes(text, b"alias"),
    }
}

// Both ends of an edge.
fn put_ends(text: &mut Writer<'_, u8>, from: u32, into: u32)
    requires { text.old.at + most_ends ≤ farthest }
    ensures { Writes (ends_text from into) text.old text.new }
{
    put_bytes(text, b"  n");
    put_digits(text, from);
    put_bytes(text, b" -> n");
    put_digits(text, into);
}

// The label of an edge, and the line's end.
fn put_label(text: &mut Writer<'_, u8>, list: u32, index: u32)
    requires { (list < 4) × (text.old.at + most_label ≤ farthest) }
    ensures { Writes (label_text (edge_kind (relation_of list)) index) text.old text.new }
{
    put_bytes(text, b" [label=\"");
    put_kind(text, list);
    put_bytes(text, b" ");
    put_digits(text, index);
    put_bytes(text, b"\"];\n");
}

// The line of an edge of node x, by its word.
pub fn put_edge_line(text: &mut Writer<'_, u8>, x: u32, w: u32)
    requires { text.old.at + most_line ≤ farthest }
    ensures { Put (edge_line x (edge_row w)) most_line text.old text.new }
{
    put_ends(text, x, w % 512);
    put_label(text, w / 512 % 4, w / 2048);
}
