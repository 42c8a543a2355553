// The graph of a sheet as a DOT file (document 02, order 6).
#![tactic(auto)]

ghost use Rattle.model.specs.Call.{refusal as refused};
ghost use Rattle.hir.specs.Refusals.{refusal_number};
ghost use Rattle.inference.specs.Outcome.{Came};
ghost use Rattle.dot.specs.Drawn.{Drawn};

use crate::graph::put_graph;
use hir::refusal::Refusal;
use inference::prepare;
use writing::Writer;

mod graph;
mod lines;
mod text;

// A refusal leaves both buffers all 0.
// Kept: beside that of crate inference, which clears words; one over words and bytes would take the zero as an argument, and is no plainer.
fn refuse(ws: &mut [u32], text: &mut [u8], refusal: Refusal) -> Result<usize, Refusal>
    ensures { Came (refused (refusal_number refusal)) ws.old text.old result ws.new text.new }
{
    ws.fill(0);
    text.fill(0);
    Err(refusal)
}

// The drawing: the text of an accepted sheet's graph, then zeros, or a refusal where there are fewer bytes. Apply is no refusal here.
pub fn draw(sheet: &[u32], workspace: &mut [u32], text: &mut [u8]) -> Result<usize, Refusal>
    ensures { Drawn sheet.now workspace.old text.old result workspace.new text.new }
{
    if let Err(refusal) = prepare(sheet, workspace) {
        return refuse(workspace, text, refusal);
    }
    let mut out = Writer::new(text);
    put_graph(workspace, &mut out);
    let length = out.at;
    if text.len() < length {
        return refuse(workspace, text, Refusal::ShortAnswer);
    }
    workspace.fill(0);
    text[length..].fill(0);
    Ok(length)
}
