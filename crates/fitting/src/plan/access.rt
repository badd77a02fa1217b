// What a plan tells: its nodes and the top places in them, its lines, and its sets of states.
ghost use Rattle.std.specs.Prelude.{◌≡◌, ◌<◌, ◌≤◌, length, slice_index};
ghost use Rattle.rules.specs.trees.Layouts.{Stands};
ghost use Rattle.rules.specs.watch.Holding.{tree_of, Sound};
ghost use Rattle.pruning.specs.Drafts.{rule_of};
ghost use Rattle.fitting.specs.Plans.{plan_trees};

use crate::plan::Plan;
use rules::{Line, Node};

// Sets of states of a plan, bit q for the state q: the live and the safe ones, the start states, and the release state.
#[derive(Clone, Copy)]
pub struct Sets {
    pub live: u32,
    pub safe: u32,
    pub starts: u32,
    pub release: u32,
}

impl<'a> Plan<'a> {
    // The nodes.
    pub fn nodes(&self) -> &'a [Node]
        ensures { result.now ≡ self.now.nodes.now }
    {
        self.nodes
    }

    // The place of a state's top node, and 0 past the 32 places. The tree that stands there serves the state. A place and no `Option`, since the call
    // answers every number, and the fixed table has a place for each of 32.
    pub fn top(&self, state: u8) -> u16
        ensures is { state < 32 → result ≡ slice_index self.now.tops state }
        ensures past { 32 ≤ state → result ≡ 0 }
        ensures stands { state < length (rule_of self.now.draft).states → Stands self.now.nodes.now result (tree_of (plan_trees self.now) state) }
        ensures sound { Sound (rule_of self.now.draft) (plan_trees self.now) }
    {
        self.tops.get(state as usize).copied().unwrap_or(0)
    }

    // The six lines.
    pub fn lines(&self) -> [Line; 6]
        ensures { result ≡ (rule_of self.now.draft).lines }
    {
        self.lines
    }

    // The sets of states.
    pub fn sets(&self) -> Sets
        ensures { result ≡ self.now.sets }
    {
        self.sets
    }
}
