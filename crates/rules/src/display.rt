// The records of a rule and the nodes of its trees as text.
ghost use Rattle.std.specs.Prelude.{Some};
ghost use Rattle.rules.specs.Text.{line_text, state_text, move_text, node_text};

use crate::{Line, Move, Node, State};
use std::fmt;

// A line's cost and chance, as in `cost 10 chance 20`.
impl fmt::Display for Line {
    ghost output = { λ line. Some (line_text line) };

    fn fmt<W: fmt::Write>(&self, f: &mut fmt::Formatter<W>) -> fmt::Result {
        write!(f, "cost {} chance {}", self.cost, self.chance)
    }
}

// What a state is, in one word.
impl fmt::Display for State {
    ghost output = { λ state. Some (state_text state) };

    fn fmt<W: fmt::Write>(&self, f: &mut fmt::Formatter<W>) -> fmt::Result {
        f.write_str(match (self.start, self.accepting) {
            (true, true) => "both",
            (true, false) => "start",
            (false, true) => "accepting",
            (false, false) => "plain",
        })
    }
}

// A move's from-state, cell and to-state, as in `0 1 1`.
impl fmt::Display for Move {
    ghost output = { λ step. Some (move_text step) };

    fn fmt<W: fmt::Write>(&self, f: &mut fmt::Formatter<W>) -> fmt::Result {
        write!(f, "{} {} {}", self.from, self.cell, self.to)
    }
}

// A fork's line and the places of its parts, as in `1?2:5`, and a leaf's set as a number.
impl fmt::Display for Node {
    ghost output = { λ node. Some (node_text node) };

    fn fmt<W: fmt::Write>(&self, f: &mut fmt::Formatter<W>) -> fmt::Result {
        match *self {
            Node::Fork { line, on, off } => write!(f, "{line}?{on}:{off}"),
            Node::Leaf { set } => write!(f, "{set}"),
        }
    }
}
