// Live states: by closure under predecessors until nothing changes, over the accepting states that moves lead back to.
ghost use Rattle.std.specs.Prelude.{◌≡◌, ℕ, ◌<◌, List};
ghost use Rattle.pruning.specs.Computed.{meets, entry, targets, widened, reaching, turning, live_in};

use crate::moves::Moves;
use crate::states::{holds, meet, only, settle, states_where};
use std::marker::Model;

// The states that the moves of each state lead to: bit r of the mask at the place q for a move from q to r.
#[derive(Drop)]
pub(crate) struct Edges {
    masks: [u32; 32],
}

// Contracts speak of the masks alone.
impl Model for Edges {
    ghost Value = { List ℕ };

    ghost view = { λ edges. edges.masks };
}

impl Edges {
    // The edges of the moves.
    pub(crate) fn of(moves: &Moves) -> Edges
        ensures { (q : ℕ) → entry result q ≡ targets moves.now.all.now q }
    {
        let mut masks = [0; 32];
        for m in moves.all {
            masks[m.from as usize] |= only(m.to);
        }
        Edges { masks }
    }

    // Whether a state has a target in the set.
    fn leads_into(&self, set: u32, state: u8) -> bool
        requires { state < 32 }
        ensures { result ≡ meets (entry self.now state) set }
    {
        meet(self.masks[state as usize], set)
    }

    // The set with every state that has a target in it.
    fn with_predecessors(&self, set: u32) -> u32
        ensures { result ≡ widened (entry self.now) set }
    {
        states_where(|q| holds(set, q) || self.leads_into(set, q))
    }

    // The states from which moves, or none, lead into the set.
    fn reaching(&self, seed: u32) -> u32
        ensures { result ≡ reaching (entry self.now) seed }
    {
        settle(seed, |set| self.with_predecessors(set))
    }

    // The accepting states that moves lead back to.
    fn turning(&self, accepts: u32) -> u32
        ensures { result ≡ turning (entry self.now) accepts }
    {
        states_where(|q| holds(accepts, q) && self.leads_into(self.reaching(only(q)), q))
    }

    // The states that lead to an accepting state to which moves lead back.
    pub(crate) fn live(&self, accepts: u32) -> u32
        ensures { result ≡ live_in (entry self.now) accepts }
    {
        self.reaching(self.turning(accepts))
    }
}
