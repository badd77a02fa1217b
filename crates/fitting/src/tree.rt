// Polling trees, written into a list of nodes: a fork first, then its whole on part, then its whole off part.
ghost use Rattle.std.specs.Prelude.{◌≡◌, suc, ◌+◌, ◌^◌, ◌<◌, ◌≤◌, length};
ghost use Rattle.events.specs.Cells.{free_in, lowest};
ghost use Rattle.rules.specs.declared.Node.TheVariants as node;
ghost use Rattle.fitting.specs.States.{Written};
ghost use Rattle.fitting.specs.Tables.{value_at, line_at, Chosen};

use crate::cells::split;
use events::Cell;
use rules::Node;

// The leaf of a cell, with the set of the lowest event that the cell covers.
fn leaf(sets: &[u32; 64], cell: Cell) -> Node
    ensures { result ≡ node.Leaf (value_at sets.now (lowest cell.number)) }
{
    Node::Leaf {
        set: sets[cell.lowest_event() as usize],
    }
}

// The fork that stands before its on part, with its off part at a place.
fn fork(line: u8, place: usize, off: usize) -> Node
    requires place { place + 1 < 2 ^ 16 }
    requires off { off < 2 ^ 16 }
    ensures { result ≡ node.Fork line (place + 1) off }
{
    Node::Fork {
        line,
        on: (place + 1) as u16,
        off: off as u16,
    }
}

// Writes the best tree of a cell from a place on, by the table of chosen lines, and answers the place behind it.
// The list and the place go along as parameters: a tree written by recursion in plain code is a form that the product's users named.
pub(crate) fn write_tree(
    chosen: &[Option<u8>; 729],
    sets: &[u32; 64],
    cell: Cell,
    nodes: &mut [Node],
    place: usize,
) -> usize
    requires chosen { Chosen (value_at sets.now) chosen.now }
    requires room { place + 2 ^ suc (free_in cell.number) ≤ suc (length nodes.old) }
    requires low { place + 2 ^ suc (free_in cell.number) ≤ 2 ^ 16 }
    ensures { Written (value_at sets.now) (line_at chosen.now) cell.number place nodes.old nodes.new result }
{
    let Some(line) = chosen[cell.number as usize] else {
        nodes[place] = leaf(sets, cell);
        return place + 1;
    };
    let Some(parts) = split(cell, line) else {
        unreachable()
    };
    let off = write_tree(chosen, sets, parts.on, nodes, place + 1);
    let end = write_tree(chosen, sets, parts.off, nodes, off);
    nodes[place] = fork(line, place, off);
    end
}
