// Building, up to the original's second loop over the blocks: the alias graph, the phis whose operands may wait, and the mutations and renders to come.
// All of it lies in the lent workspace; a `Building` has the counts.
#![tactic(auto)]

ghost use Rattle.std.specs.Prelude.{◌≡◌, ℕ, ◌+◌, ◌≤◌, ◌<◌, length};
ghost use Rattle.model.specs.Limits.{most_identifiers, most_blocks, most_mutations, most_renders, most_index};
ghost use Rattle.model.specs.Graph.{create, relate, create_from, into_aliases, into_maybe_aliases, into_captures};
ghost use Rattle.model.specs.Graph.{assign as assign_effect};
ghost use Rattle.model.specs.Built.{changed, related, mutates};
ghost use Rattle.model.specs.Built.{renders as renders_place};
ghost use Rattle.model.specs.Building.{phi_node};
ghost use Rattle.hir.specs.Words.{phi_from};
ghost use Rattle.workspace.specs.Layout.{LEAST};
ghost use Rattle.hir.specs.Mutations.{kind_says, reason_says};
ghost use Rattle.workspace.specs.Graph.{MISSING, value_of};
ghost use Rattle.workspace.specs.Numbers.{relation_says};
ghost use Rattle.building.specs.Built.{value_is, FunctionBelow, place_at, index_of, Sound, Holding, PhiFits, phi_operands, ends, StepsOn, Steps, LaysOut, Starts};

use hir::at::phi_at;
use hir::{BlockId, EvaluationOrder, FunctionId, IdentifierId, MutationKind, MutationReason};
use pending::{has_come, push_block};
use phis::{push_phi, store_operands, wake};
use workspace::{FUNCTION, IDENTIFIERS, OBJECT, PHI, Relation, VALUE};

mod graph;
mod logs;
mod pending;
mod phis;

// How many forward edges and entries are held; the most of either that was held at any time, or more than there is room for.
#[derive(Clone, Copy, Debug, PartialEq, Eq)]
pub struct Held {
    pub edges: usize,
    pub entries: usize,
    pub most: usize,
}

// The counts of the building so far: also the phis that have operands, the blocks that have come, and the relation effects, mutations and renders.
#[derive(Clone, Copy, Debug, PartialEq, Eq)]
pub struct Building {
    pub held: Held,
    pub phis: usize,
    pub come: usize,
    pub relations: usize,
    pub mutations: usize,
    pub renders: usize,
}

// What a node stands for.
#[derive(Clone, Copy, Debug, PartialEq, Eq)]
pub enum NodeValue {
    Object,
    Phi,
    Function(FunctionId),
}

// A mutation to come after building, but for its index.
#[derive(Clone, Copy, Debug, PartialEq, Eq)]
pub struct PendingMutation {
    pub order: EvaluationOrder,
    pub transitive: bool,
    pub kind: MutationKind,
    pub identifier: IdentifierId,
    pub span: u32,
    pub reason: Option<MutationReason>,
}

// The word of a value.
// Kept: it requires a function that has room in the word, which a `From` cannot.
fn value_word(value: NodeValue) -> u32
    requires { FunctionBelow value }
    ensures { (MISSING < result) × (value_of result ≡ value_is value) }
{
    match value {
        NodeValue::Object => OBJECT,
        NodeValue::Phi => PHI,
        NodeValue::Function(f) => f.0 + FUNCTION,
    }
}

impl Building {
    // The running index.
    pub fn index(self) -> u32
        requires { index_of self ≤ most_index }
        ensures { result ≡ index_of self }
    {
        (self.relations + self.mutations + self.renders) as u32
    }

    // A node for `place`, in place of the one that it had: that one's own relations are dropped.
    pub fn create(&mut self, ws: &mut [u32], place: IdentifierId, value: NodeValue)
        requires sound { Sound ws.old self.old }
        requires place_lt_most_identifiers { (place.0 < most_identifiers) × FunctionBelow value }
        ensures { Steps (changed (create place.0 (value_is value))) 0 0 0 0 ws.old self.old ws.new self.new }
    {
        graph::create(ws, &mut self.held, place, value_word(value));
    }

    // A relation, skipped if either node is missing.
    fn relate(&mut self, ws: &mut [u32], relation: Relation, from: IdentifierId, into: IdentifierId)
        requires sound { Sound ws.old self.old }
        requires self_bound { (index_of self.old < most_index) × ((from.0 < most_identifiers) × (into.0 < most_identifiers)) }
        ensures { Steps (related (λ (i : ℕ). relate (relation_says relation) i from.0 into.0)) 1 0 0 0 ws.old self.old ws.new self.new }
    {
        let index = self.index();
        graph::store(ws, &mut self.held, relation, index, from, into);
        self.relations += 1;
    }

    // "from" is captured in "into".
    // Kept: this one and the next two differ in the relation alone, and hand on to `relate`; that names are those of the original is a rule of the project.
    pub fn capture(&mut self, ws: &mut [u32], from: IdentifierId, into: IdentifierId)
        requires sound { Sound ws.old self.old }
        requires self_bound { (index_of self.old < most_index) × ((from.0 < most_identifiers) × (into.0 < most_identifiers)) }
        ensures { Steps (related (λ (i : ℕ). relate into_captures i from.0 into.0)) 1 0 0 0 ws.old self.old ws.new self.new }
    {
        self.relate(ws, Relation::Capture, from, into);
    }

    // "into" is an alias of "from".
    pub fn assign(&mut self, ws: &mut [u32], from: IdentifierId, into: IdentifierId)
        requires sound { Sound ws.old self.old }
        requires self_bound { (index_of self.old < most_index) × ((from.0 < most_identifiers) × (into.0 < most_identifiers)) }
        ensures { Steps (related (λ (i : ℕ). relate into_aliases i from.0 into.0)) 1 0 0 0 ws.old self.old ws.new self.new }
    {
        self.relate(ws, Relation::Alias, from, into);
    }

    // "into" may be an alias of "from".
    pub fn maybe_alias(&mut self, ws: &mut [u32], from: IdentifierId, into: IdentifierId)
        requires sound { Sound ws.old self.old }
        requires self_bound { (index_of self.old < most_index) × ((from.0 < most_identifiers) × (into.0 < most_identifiers)) }
        ensures { Steps (related (λ (i : ℕ). relate into_maybe_aliases i from.0 into.0)) 1 0 0 0 ws.old self.old ws.new self.new }
    {
        self.relate(ws, Relation::MaybeAlias, from, into);
    }

    // An Assign effect: as `assign`, but a missing "into" is created first.
    pub fn assign_effect(&mut self, ws: &mut [u32], from: IdentifierId, into: IdentifierId)
        requires sound { Sound ws.old self.old }
        requires self_bound { (index_of self.old < most_index) × ((from.0 < most_identifiers) × (into.0 < most_identifiers)) }
        ensures { Steps (related (λ (i : ℕ). assign_effect i from.0 into.0)) 1 0 0 0 ws.old self.old ws.new self.new }
    {
        let index = self.index();
        graph::assign(ws, &mut self.held, index, from, into);
        self.relations += 1;
    }

    // "into" is created from "from", always; its entry is stored even if "from" has no node.
    pub fn create_from(&mut self, ws: &mut [u32], from: IdentifierId, into: IdentifierId)
        requires sound { Sound ws.old self.old }
        requires self_bound { (index_of self.old < most_index) × ((from.0 < most_identifiers) × (into.0 < most_identifiers)) }
        ensures { Steps (related (λ (i : ℕ). create_from i from.0 into.0)) 1 0 0 0 ws.old self.old ws.new self.new }
    {
        let index = self.index();
        graph::create_from(ws, &mut self.held, index, from, into);
        self.relations += 1;
    }

    // A phi's operands: those from blocks that have come are stored, the others wait.
    fn operands(&mut self, s: &[u32], ws: &mut [u32], at: usize, count: u32)
        requires sound { Sound ws.old self.old × Holding s.now ws.old self.old }
        requires phi_fits { PhiFits s.now at self.old × ((count ≡ length (phi_from s.now at).what.operands) × (0 < count)) }
        ensures { StepsOn s.now (phi_operands (phi_from s.now at).what) count 0 0 0 ws.old self.old ws.new self.new }
    {
        let index = self.index();
        push_phi(ws, self.phis, at, index);
        store_operands(s, at, index, ws, &mut self.held, 0, self.come);
        self.phis += 1;
        self.relations += count as usize;
    }

    // The phi at `at`: its node, then its operands.
    pub fn phi(&mut self, s: &[u32], ws: &mut [u32], at: usize)
        requires sound { Sound ws.old self.old × Holding s.now ws.old self.old }
        requires phi_fits { PhiFits s.now at self.old }
        ensures { StepsOn s.now (phi_node (phi_from s.now at).what) (length (phi_from s.now at).what.operands) 0 0 0 ws.old self.old ws.new self.new }
    {
        let phi = phi_at(s, at);
        let count = phi.operands.count;
        self.create(ws, phi.place.identifier, NodeValue::Phi);
        if count != 0 {
            self.operands(s, ws, at, count);
        }
    }

    // The end of a block, before its terminal: what waits for it is stored, and it has come. A sheet has no block twice; a second one would find that nothing waits.
    pub fn wake(&mut self, s: &[u32], ws: &mut [u32], block: BlockId)
        requires sound { Sound ws.old self.old × Holding s.now ws.old self.old }
        requires come_lt_most_blocks { self.old.come < most_blocks }
        ensures { StepsOn s.now (ends block.0) 0 0 0 1 ws.old self.old ws.new self.new }
    {
        push_block(ws, self.come, block);
        if !has_come(ws, 0, self.come, block) {
            wake(s, ws, &mut self.held, self.phis, self.come);
        }
        self.come += 1;
    }

    // A mutation, to come after building.
    pub fn push_mutation(&mut self, ws: &mut [u32], m: PendingMutation)
        requires sound { Sound ws.old self.old }
        requires self_bound { (index_of self.old < most_index) × ((self.old.mutations < most_mutations) × (m.identifier.0 < most_identifiers)) }
        ensures { Steps (mutates m.transitive (kind_says m.kind) (reason_says m.reason) m.order.0 (place_at m.identifier.0 m.span)) 0 1 0 0 ws.old self.old ws.new self.new }
    {
        pending::push_mutation(ws, self.mutations, self.index(), m);
        self.mutations += 1;
    }

    // A render of `place`, to come after building.
    pub fn push_render(&mut self, ws: &mut [u32], place: IdentifierId)
        requires sound { Sound ws.old self.old }
        requires self_bound { (index_of self.old < most_index) × ((self.old.renders < most_renders) × (place.0 < most_identifiers)) }
        ensures { Steps (renders_place (place_at place.0 0)) 0 0 1 0 ws.old self.old ws.new self.new }
    {
        pending::push_render(ws, self.renders, self.index(), place);
        self.renders += 1;
    }

    // The end of building: lays the graph out in rows, for the walks.
    pub fn lay_out(self, ws: &mut [u32])
        requires { Sound ws.old self }
        ensures { LaysOut ws.old self ws.new }
    {
        graph::lay_out(ws, self.held);
    }
}

// The start of building: no identifier has a node.
pub fn start(ws: &mut [u32]) -> Building
    requires { LEAST ≤ length ws.old }
    ensures { Starts ws.old ws.new result }
{
    workspace::clear(ws, VALUE, IDENTIFIERS);
    Building {
        held: Held {
            edges: 0,
            entries: 0,
            most: 0,
        },
        phis: 0,
        come: 0,
        relations: 0,
        mutations: 0,
        renders: 0,
    }
}
