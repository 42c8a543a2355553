// The walk of a mutation over the graph in the lent workspace (the original's `mutate`), and the loop over the pending mutations.
#![tactic(auto)]

ghost use Rattle.std.specs.Prelude.{◌≡◌, ◌+◌, ◌-◌, ◌*◌, ◌≤◌, ◌<◌, length, get_or};
ghost use Rattle.model.specs.Limits.{most_identifiers, most_order};
ghost use Rattle.workspace.specs.Layout.{LEAST, BASE, MUTATIONS, QUEUE, VALUE};
ghost use Rattle.workspace.specs.Rows.{Indexed};
ghost use Rattle.writing.specs.Wrote.{Wrote};
ghost use Rattle.hir.specs.Mutations.{kind_bit};
ghost use Rattle.aliasing.specs.Says.{bit};
ghost use Rattle.aliasing.specs.State.{Handing, NoneAbove};
ghost use Rattle.aliasing.specs.Accepts.{enter_w, enters_w, raise_w, record_w, accept_w, function_w, hand_w};
ghost use Rattle.aliasing.specs.Walks.{most_base, Ready, Stepped, Walked, Unmarked, BaseTaken, Mutated};
ghost use Rattle.aliasing.specs.Pending.{Pending, Made, Processed};

use crate::pushes::{Direction, QueueEntry, kind_of, push_all};
use hir::{EvaluationOrder, IdentifierId, MutationReason};
use workspace::{
    BASE, END, FUNCTION, HANDED, IDENTIFIERS, LSPAN, MISSING, MUTATIONS, QUEUE, RECORD, SEEN,
    TSPAN, VALUE, clear,
};

mod mutation;
pub mod pushes;

pub use mutation::Mutation;

// Marks are cleared before a walk would count from a higher base.
const MOST_BASE: u32 = 4096;

// What a step leaves: the queue's top, and where the next function is to be handed over.
#[derive(Clone, Copy, Debug, PartialEq, Eq)]
pub struct StepLeft {
    pub top: usize,
    pub hand: usize,
}

// What a walk leaves: the entries taken, and where the next function is to be handed over.
#[derive(Clone, Copy, Debug, PartialEq, Eq)]
pub struct Taken {
    pub count: u32,
    pub hand: usize,
}

// The end at `at` becomes the larger of itself and this one; an unset end moves none.
fn raise_end(ws: &mut [u32], at: usize, end: EvaluationOrder)
    requires { at < length ws.old }
    ensures { ws.new ≡ raise_w ws.old at end.0 }
{
    if end.is_unset() {
        return;
    }
    ws[at] = ws[at].max(end.0);
}

// The record of an accepted node: the higher kind of the transitive or local one with its span, the first reason, the largest index.
fn record(ws: &mut [u32], entry: QueueEntry, m: Mutation)
    requires { (entry.place.0 < most_identifiers) × (LEAST ≤ length ws.old) }
    ensures { ws.new ≡ record_w ws.old entry.place.0 (bit entry.transitive) (kind_bit entry.kind + 1) m }
{
    let x = entry.place.0 as usize;
    let level = entry.kind as u32 + 1;
    let w = ws[RECORD + x];
    let local = w % 4;
    let kind = w / 4 % 4;
    let reason = (w / 16 % 2).max(u32::from(m.reason.is_some()));
    let rest = 16 * reason + 32 * (w / 32).max(m.index);
    if entry.transitive {
        ws[RECORD + x] = local + 4 * kind.max(level) + rest;
        if kind < level {
            ws[TSPAN + x] = m.span;
        }
    } else {
        ws[RECORD + x] = local.max(level) + 4 * kind + rest;
        if local < level {
            ws[LSPAN + x] = m.span;
        }
    }
}

// What an accepted node keeps of the mutation.
fn accept(ws: &mut [u32], entry: QueueEntry, m: Mutation)
    requires { (entry.place.0 < most_identifiers) × (LEAST ≤ length ws.old) }
    ensures { ws.new ≡ accept_w ws.old entry.place.0 (bit entry.transitive) (kind_bit entry.kind + 1) m }
{
    record(ws, entry, m);
    raise_end(ws, END + entry.place.0 as usize, m.end);
}

// A function node hands over its function, whose diagnostics the caller appends.
pub fn hand_over_function(ws: &mut [u32], x: usize, hand: usize) -> usize
    requires { (x < most_identifiers) × ((LEAST ≤ length ws.old) × (hand ≤ MUTATIONS)) }
    ensures { Wrote (function_w (get_or ws.old (VALUE + x) 0)) ws.old hand ws.new result }
{
    let v = ws[VALUE + x];
    if v < FUNCTION {
        return hand;
    }
    ws[hand] = v - FUNCTION;
    hand + 1
}

// A node without a record hands over its function, if errors are recorded.
fn record_errors(ws: &mut [u32], x: usize, errors: bool, hand: usize) -> usize
    requires { (x < most_identifiers) × ((LEAST ≤ length ws.old) × (hand ≤ MUTATIONS)) }
    ensures { Wrote (hand_w ws.old (get_or ws.old (VALUE + x) 0) x errors) ws.old hand ws.new result }
{
    if errors && ws[RECORD + x] % 16 == 0 {
        return hand_over_function(ws, x, hand);
    }
    hand
}

// Is x to be accepted at this level? It has a node, and was not marked at a higher one; it is marked now.
fn enter(ws: &mut [u32], x: usize, level: u32) -> bool
    requires { (x < most_identifiers) × ((LEAST ≤ length ws.old) × (level ≤ most_base + 1)) }
    ensures { (ws.new ≡ enter_w ws.old x level) × (result ≡ enters_w ws.old x level) }
{
    if level < ws[SEEN + x] {
        return false;
    }
    ws[SEEN + x] = level + 1;
    ws[VALUE + x] != MISSING
}

// Takes the last entry pushed. The walk's levels count from `base` on.
fn step(ws: &mut [u32], top: usize, hand: usize, m: Mutation, base: u32) -> StepLeft
    requires ready { Ready base ws.old top hand }
    requires lt_top { QUEUE < top }
    ensures { Stepped m base ws.old top hand ws.new result.top result.hand }
{
    let top = top - 1;
    let entry = QueueEntry::unpack(ws[top]);
    let x = entry.place.0 as usize;
    if !enter(ws, x, base + entry.kind as u32) {
        return StepLeft { top, hand };
    }
    let hand = record_errors(ws, x, m.should_record_errors, hand);
    accept(ws, entry, m);
    let transitive = u32::from(entry.transitive);
    let top = push_all(
        ws,
        x,
        entry.direction as u32,
        m.index,
        transitive,
        entry.kind as u32,
        top,
    );
    StepLeft { top, hand }
}

// Takes entries until none is left.
// Kept: a turn takes the last entry and pushes others, so there is no index to count and nothing to go over.
fn walk(ws: &mut [u32], mut top: usize, mut hand: usize, m: Mutation, base: u32) -> Taken
    requires { Ready base ws.old top hand }
    ensures { Walked m base ws.old top hand ws.new result.count result.hand }
{
    let mut count: u32 = 0;
    while QUEUE < top {
        let left = step(ws, top, hand, m, base);
        top = left.top;
        hand = left.hand;
        count += 1;
    }
    Taken { count, hand }
}

// No identifier is marked, and levels count from 0.
pub fn clear_marks(ws: &mut [u32])
    requires { Indexed ws.old }
    ensures { Unmarked ws.old ws.new }
{
    clear(ws, SEEN, IDENTIFIERS);
    ws[BASE] = 0;
}

// Where the levels of a walk count from, above the marks of earlier walks; the next walk's count from 2 higher. Marks that have come high are cleared.
fn take_base(ws: &mut [u32]) -> u32
    requires indexed { Indexed ws.old }
    requires none_above { NoneAbove (get_or ws.old BASE 0) ws.old }
    ensures { BaseTaken ws.old ws.new result }
{
    if MOST_BASE < ws[BASE] {
        clear_marks(ws);
    }
    let base = ws[BASE];
    ws[BASE] = base + 2;
    base
}

// The walk of one mutation: the entries taken, and the functions handed over from `hand` on.
pub fn mutate(ws: &mut [u32], hand: usize, m: Mutation) -> Taken
    requires indexed { Indexed ws.old }
    requires handing { Handing ws.old hand }
    ensures { Mutated m ws.old hand ws.new result.count result.hand }
{
    let base = take_base(ws);
    let entry = QueueEntry {
        place: m.start,
        transitive: m.transitive,
        direction: Direction::Backwards,
        kind: m.kind,
    };
    ws[QUEUE] = entry.pack();
    walk(ws, QUEUE + 1, hand, m, base)
}

// The pending mutation of three words, as `mutate` is called with it.
fn pending_mutation(w: u32, order: u32, span: u32, errors: bool) -> Mutation
    requires { order ≤ most_order }
    ensures { Made w order span errors result }
{
    Mutation {
        index: w / 4096,
        start: IdentifierId(w % 512),
        end: EvaluationOrder(order + 1),
        transitive: w / 512 % 2 == 1,
        kind: kind_of(w / 1024 % 2),
        span,
        reason: (w / 2048 % 2 == 1).then_some(MutationReason::AssignCurrentProperty),
        should_record_errors: errors,
    }
}

// Process mutations: the pending ones in order. The entries that each walk took stay where its span was; returned is where the functions handed over end.
pub fn process_mutations(ws: &mut [u32], count: usize, should_record_errors: bool) -> usize
    requires indexed { Indexed ws.old }
    requires pending { Pending ws.old count }
    ensures { Processed should_record_errors ws.old count ws.new result }
{
    clear_marks(ws);
    let mut hand = HANDED;
    for i in 0..count {
        let at = MUTATIONS + 3 * i;
        let m = pending_mutation(ws[at], ws[at + 1], ws[at + 2], should_record_errors);
        let taken = mutate(ws, hand, m);
        ws[at + 2] = taken.count;
        hand = taken.hand;
    }
    hand
}
