// The moves of a draft.
ghost use Rattle.std.specs.Prelude.{◌≡◌, ◌&&◌, ◌==◌};
ghost use Rattle.std.proofs.Props.{props};
ghost use Rattle.events.specs.Sets.{has};
ghost use Rattle.pruning.specs.Drafts.{rule_of};
ghost use Rattle.pruning.specs.Computed.{Ranged};

use crate::states::holds;
use rulefile::draft::Draft;
use rules::Move;

// Moves that each go from a state below 32 to a state below 32, on a cell.
#[derive(Clone, Copy)]
pub(crate) struct Moves<'a> {
    pub(crate) all: &'a [Move],
    ghost ranged: { Ranged all.now } by { Prim.hlevel props },
}

impl<'a> Moves<'a> {
    // The moves of a draft.
    pub(crate) fn of(draft: &Draft<'a>) -> Moves<'a>
        ensures { result.all.now ≡ (rule_of draft.now).moves }
    {
        Moves { all: draft.moves() }
    }
}

// Whether a move goes from the state into the set.
pub(crate) fn goes_into(m: Move, state: u8, set: u32) -> bool
    ensures { result ≡ (m.from == state && has set m.to) }
{
    m.from == state && holds(set, m.to)
}
