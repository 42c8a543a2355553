// The sections before the blocks of an accepted sheet, read a second time; parameters, context and returns get their nodes.
ghost use Rattle.std.specs.Prelude.{◌≡◌, ◌≤◌, length};
ghost use Rattle.hir.specs.Words.{wide, place_at, several};
ghost use Rattle.model.specs.Limits.{place_width};
ghost use Rattle.workspace.specs.Layout.{LEAST};
ghost use Rattle.building.specs.Built.{Sound};
ghost use Rattle.dataflow.specs.Accepted.{sections_of, Accepted};
ghost use Rattle.dataflow.specs.ReadFunction.{FunctionRead};
ghost use Rattle.dataflow.specs.Places.{PlacesReady, PlacesRead, TrackedRead};

use crate::function::{HirFunction, Read};
use crate::header::read_top;
use building::{Building, NodeValue};
use hir::Place;
use hir::at::{List, PLACE_WIDTH, list_at, place_at};
use workspace::tracked::track;

// The places of a list, tracked from number `first` on; each gets a node. The position after them.
fn read_places(sheet: &[u32], list: List, first: usize, ws: &mut [u32], b: &mut Building) -> usize
    requires { PlacesReady (several list.count (wide place_width place_at) sheet.now list.first) first sheet.now ws.old b.old }
    ensures { PlacesRead (several list.count (wide place_width place_at) sheet.now list.first) first ws.old b.old ws.new b.new result }
{
    let mut next = list.first;
    for i in first..first + list.count as usize {
        let p = place_at(sheet, next);
        track(ws, i, p);
        b.create(ws, p.identifier, NodeValue::Object);
        next += PLACE_WIDTH;
    }
    next
}

// How many parameters and context places there are, returns, and the blocks.
#[derive(Clone, Copy, Debug, PartialEq, Eq)]
pub struct Tracked {
    pub params: u32,
    pub context: u32,
    pub returns: Place,
    pub blocks: List,
}

// The sections from the parameters, which stand at `at`, up to the blocks; each place gets a node.
fn read_tracked(sheet: &[u32], at: usize, ws: &mut [u32], b: &mut Building) -> Tracked
    requires accepted { Accepted sheet.now }
    requires at_value { at ≡ (sections_of sheet.now).params }
    requires sound { Sound ws.old b.old }
    ensures { TrackedRead sheet.now ws.old b.old ws.new b.new result }
{
    let params = list_at(sheet, at);
    let after_params = read_places(sheet, params, 0, ws, b);
    let context = list_at(sheet, after_params);
    let after = read_places(sheet, context, params.count as usize, ws, b);
    let returns = place_at(sheet, after + 1);
    track(ws, (params.count + context.count) as usize, returns);
    b.create(ws, returns.identifier, NodeValue::Object);
    let blocks = list_at(sheet, after + 1 + PLACE_WIDTH);
    Tracked {
        params: params.count,
        context: context.count,
        returns,
        blocks,
    }
}

// The sections before the blocks.
pub fn read_function(sheet: &[u32], ws: &mut [u32]) -> Read
    requires accepted { Accepted sheet.now }
    requires in_bounds { LEAST ≤ length ws.old }
    ensures { FunctionRead sheet.now ws.old ws.new result }
{
    let top = read_top(sheet, ws);
    let mut building = building::start(ws);
    let t = read_tracked(sheet, top.next, ws, &mut building);
    Read {
        function: HirFunction {
            errors: top.errors,
            function_expression: top.function_expression,
            copies: true,
            applies: false,
            identifiers: top.identifiers,
            m: top.functions.count,
            params: t.params,
            context: t.context,
            returns: t.returns,
            blocks: t.blocks,
        },
        building,
    }
}
