// A plan: a draft with the trees fitted to it, and what a watch needs of both. It borrows the nodes, and is moved, never copied.
ghost use Rattle.std.specs.Prelude.{◌≡◌};
ghost use Rattle.pruning.specs.Drafts.{rule_of};
ghost use Rattle.pruning.specs.Computed.{live_states, safe_states};
ghost use Rattle.fitting.specs.Reading.{start_states, release_set, Walkable, GivesPruned};

use access::Sets;
use rulefile::draft::Draft;
use rules::{Line, Node};

pub mod access;
pub mod make;

// A plan: the draft, the nodes with each state's top place, the lines, and the live, the safe, the start and the release states as sets, bit q for the
// state q. Each state's tree can be walked down from its top, and gives the state's pruned sets. There is a top for each of 32 states, since a plan
// takes no memory from a heap.
#[derive(Drop)]
pub struct Plan<'a> {
    draft: Draft<'a>,
    nodes: &'a [Node],
    tops: [u16; 32],
    lines: [Line; 6],
    sets: Sets,
    ghost lines_are: { lines ≡ (rule_of draft).lines },
    ghost live_is: { sets.live ≡ live_states (rule_of draft) },
    ghost safe_is: { sets.safe ≡ safe_states (rule_of draft) },
    ghost starts_are: { sets.starts ≡ start_states (rule_of draft).states },
    ghost release_is: { sets.release ≡ release_set (rule_of draft) },
    ghost walkable: { Walkable (rule_of draft) nodes.now tops },
    ghost pruned: { GivesPruned (rule_of draft) nodes.now tops },
}
