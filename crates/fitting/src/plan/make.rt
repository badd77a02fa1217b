// The making of a plan from a draft and the nodes that fitting wrote. It is total: where something is off, it gives the plan of the one-state draft.
ghost use Rattle.std.specs.Prelude.{◌≡◌, Decides, MatchOption};
ghost use Rattle.rules.specs.trees.Costs.{Price, Lawful};
ghost use Rattle.rulefile.specs.Draft.{contents_of, empty_contents};
ghost use Rattle.pruning.specs.Drafts.{rule_of};
ghost use Rattle.fitting.specs.declared.fit.Fitting.{Fitting};
ghost use Rattle.fitting.specs.Reading.{Walkable, GivesPruned};
ghost use Rattle.fitting.specs.Plans.{AsFitted, PlanOf, one_state, one_leaf};

use crate::fit::{Fitting, NODES, fit_states};
use crate::measure::Measure;
use crate::plan::Plan;
use crate::plan::access::Sets;
use pruning::Pruning;
use pruning::states::only;
use rulefile::draft::Draft;
use rulefile::draft::make::make_draft;
use rules::Node;

// The one tree of the one-state plan.
static LEAF: [Node; 1] = [Node::Leaf { set: 0 }];

// The plan of a draft over nodes that hold its trees at the tops.
fn plan_of<'a>(draft: Draft<'a>, nodes: &'a [Node], tops: [u16; 32]) -> Plan<'a>
    requires walkable { Walkable (rule_of draft) nodes.now tops }
    requires pruned { GivesPruned (rule_of draft) nodes.now tops }
    ensures draft { contents_of result.draft ≡ contents_of draft.entry }
    ensures nodes { result.nodes.now ≡ nodes.now }
    ensures tops { result.tops ≡ tops }
{
    let pruning = Pruning::of(&draft);
    let sets = Sets {
        live: pruning.live(),
        safe: pruning.safe(),
        starts: pruning.starts(),
        release: pruning.release().map_or(0, only),
    };
    let lines = draft.lines();
    Plan {
        draft,
        nodes,
        tops,
        lines,
        sets,
    }
}

// The draft of one nameless start state and no moves.
fn one_state_draft() -> Draft<'static>
    ensures contents { contents_of result ≡ empty_contents }
    ensures rule { rule_of result ≡ one_state }
{
    make_draft(&[], &[], &[])
}

// The plan of the one-state draft.
fn one_state_plan() -> Plan<'static>
    ensures contents { contents_of result.draft ≡ empty_contents }
    ensures plan { (price : Price) → Lawful price → PlanOf price one_state one_leaf result }
{
    plan_of(one_state_draft(), &LEAF, [0; 32])
}

// Whether two nodes are the same: a function over `==`, so that a clause of this crate says that no part of a node is left out.
fn equal_nodes(a: Node, b: Node) -> bool
    ensures { Decides result (a ≡ b) }
{
    a == b
}

// Whether two lists hold the same nodes, each pair compared by `equal_nodes`.
fn same_nodes(a: &[Node], b: &[Node]) -> bool
    ensures { Decides result (a.now ≡ b.now) }
{
    a.len() == b.len() && a.iter().zip(b).all(|(x, y)| equal_nodes(*x, *y))
}

// What fitting tells of a draft, where the nodes are as it leaves them.
fn as_fitted<M: Measure>(measure: &M, draft: &Draft, nodes: &[Node]) -> Option<Fitting>
    ensures { MatchOption result ((told : Fitting) → AsFitted (M.price measure.now) (rule_of draft.now) nodes.now told → ⊥) (AsFitted (M.price measure.now) (rule_of draft.now) nodes.now) }
{
    if nodes.len() < NODES {
        return None;
    }
    let mut scratch = [Node::Leaf { set: 0 }; NODES];
    let told = fit_states(measure, draft, &mut scratch);
    same_nodes(&nodes[..told.behind], &scratch[..told.behind]).then_some(told)
}

// The plan of a draft over nodes that are as fitting leaves them; else the plan of the one-state draft.
pub fn make_plan<'a, M: Measure>(measure: &M, draft: Draft<'a>, nodes: &'a [Node]) -> Plan<'a>
    ensures taken { (told : Fitting) → AsFitted (M.price measure.now) (rule_of draft.entry) nodes.now told → (contents_of result.draft ≡ contents_of draft.entry) × PlanOf (M.price measure.now) (rule_of draft.entry) nodes.now result }
    ensures refused { ((told : Fitting) → AsFitted (M.price measure.now) (rule_of draft.entry) nodes.now told → ⊥) → (contents_of result.draft ≡ empty_contents) × PlanOf (M.price measure.now) one_state one_leaf result }
{
    let Some(told) = as_fitted(measure, &draft, nodes) else {
        return one_state_plan();
    };
    plan_of(draft, nodes, told.tops())
}
