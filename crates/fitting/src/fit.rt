// Fitting a draft: the best trees of all its states, written into a lent list of nodes, and what each costs.
ghost use Rattle.std.specs.Prelude.{◌≡◌, ◌≤◌, length};
ghost use Rattle.pruning.specs.Drafts.{rule_of};
ghost use Rattle.fitting.specs.Fits.{refusal_number, DraftFitted, Answered, told_tops};

use crate::measure::Measure;
use crate::state::fit_state;
use pruning::Pruning;
use rulefile::draft::Draft;
use rules::Node;

// How many nodes suffice for the trees of every rule: 32 states, each with a tree of at most 127 nodes.
pub const NODES: usize = 4064;

// Why fitting is refused.
#[derive(Clone, Copy, Debug, PartialEq, Eq)]
pub enum FitRefusal {
    // fewer than 4,064 nodes
    FewNodes = 23,
}

impl FitRefusal {
    // The refusal's number. A method and no `From`: `u8::from` would not say which number.
    pub fn number(self) -> u8
        ensures { result ≡ refusal_number self }
    {
        self as u8
    }
}

// A state's fitted tree: what it costs, and the place of its top node.
#[derive(Clone, Copy, Default)]
pub struct FittedTree {
    pub cost: u64,
    pub top: u16,
}

// What fitting tells: each state's tree, with a cost and a top of 0 past the states; how many states there are; and the place behind the last tree.
// The room is fixed at 32 places, with the count beside it, since fitting takes no memory from a heap.
#[derive(Clone, Copy)]
pub struct Fitting {
    pub trees: [FittedTree; 32],
    pub states: usize,
    pub behind: usize,
}

impl Fitting {
    // The top places, 0 past the states.
    pub(crate) fn tops(&self) -> [u16; 32]
        ensures { result ≡ told_tops self.now }
    {
        self.trees.map(|tree| tree.top)
    }
}

// Fits the states of a draft, in their order, from place 0 on.
pub(crate) fn fit_states<M: Measure>(measure: &M, draft: &Draft, nodes: &mut [Node]) -> Fitting
    requires { 4064 ≤ length nodes.old }
    ensures { DraftFitted (M.price measure.now) (rule_of draft.now) nodes.old nodes.new result }
{
    let pruning = Pruning::of(draft);
    let lines = draft.lines();
    let states = draft.states().len();
    let mut trees = [FittedTree::default(); 32];
    let mut behind = 0usize;
    for (q, tree) in trees[..states].iter_mut().enumerate() {
        let sets = pruning.sets(q as u8);
        let fitted = fit_state(measure, &lines, &sets, nodes, behind);
        *tree = FittedTree {
            cost: fitted.cost,
            top: behind as u16,
        };
        behind = fitted.behind;
    }
    Fitting {
        trees,
        states,
        behind,
    }
}

// Fits a draft: writes the best trees of its states into the nodes, from place 0 on, and tells what they cost. With too few nodes nothing is written.
pub fn fit<M: Measure>(
    measure: &M,
    draft: &Draft,
    nodes: &mut [Node],
) -> Result<Fitting, FitRefusal>
    ensures { Answered (M.price measure.now) (rule_of draft.now) nodes.old nodes.new result }
{
    if nodes.len() < NODES {
        return Err(FitRefusal::FewNodes);
    }
    Ok(fit_states(measure, draft, nodes))
}
