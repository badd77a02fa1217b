// Fitting one state: its tables of best costs and lines, and the best tree, written from a place on.
ghost use Rattle.std.specs.Prelude.{◌≡◌, ◌+◌, ◌^◌, ◌<◌, ◌≤◌, length};
ghost use Rattle.std.specs.List.{AllByRecursion};
ghost use Rattle.rules.specs.automata.Rules.{LineInRange};
ghost use Rattle.fitting.specs.States.{StateFitted};
ghost use Rattle.fitting.specs.Tables.{value_at};

use crate::best::fill_tables;
use crate::measure::Measure;
use crate::tree::write_tree;
use events::Cell;
use rules::{Line, Node};

// What fitting a state tells: the place behind its tree, and what the tree costs.
#[derive(Clone, Copy)]
pub(crate) struct Fit {
    pub behind: usize,
    pub cost: u64,
}

// Fits a state that wants a set at each of the 64 events: writes its best tree from a place on, and tells the place behind it and its cost.
pub(crate) fn fit_state<M: Measure>(
    measure: &M,
    lines: &[Line; 6],
    sets: &[u32; 64],
    nodes: &mut [Node],
    place: usize,
) -> Fit
    requires lines { AllByRecursion LineInRange lines.now }
    requires room { place + 127 ≤ length nodes.old }
    requires low { place + 127 < 2 ^ 16 }
    ensures { StateFitted (M.price measure.now) lines.now (value_at sets.now) place nodes.old nodes.new result.behind result.cost }
{
    let mut costs = [0u64; 729];
    let mut chosen = [None; 729];
    fill_tables(measure, lines, sets, &mut costs, &mut chosen);
    // cell 0 fixes no line, so its tree is the state's
    let behind = write_tree(&chosen, sets, Cell { number: 0 }, nodes, place);
    Fit {
        behind,
        cost: costs[0],
    }
}
