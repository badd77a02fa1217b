// Pruning: the live and the safe states of a draft, its release state, and the pruned sets of each state.
#![tactic(auto)]

ghost use Rattle.std.specs.Prelude.{◌≡◌, ℕ, ◌<◌, ◌≤◌, true, false, ◌↔◌, length, MatchOption, slice_index};
ghost use Rattle.events.specs.Sets.{has, ◌∈◌};
ghost use Rattle.rules.specs.automata.Rules.{Starts, WellFormed};
ghost use Rattle.rules.specs.automata.Runs.{Live, Safe};
ghost use Rattle.rules.specs.automata.Pruning.{IsPrunedSet, Wants};
ghost use Rattle.pruning.specs.Drafts.{rule_of, IsRelease};
ghost use Rattle.pruning.specs.Computed.{live_states, safe_states, pruned_set};

use crate::live::Edges;
use crate::moves::Moves;
use crate::states::{first, holds, states_with};
use rulefile::draft::Draft;

mod live;
mod moves;
mod safe;
mod select;
pub mod states;

// How many events there are: each of six lines on or off.
const EVENTS: u8 = 64;

// A draft with its live and its safe states.
#[derive(Clone, Copy)]
pub struct Pruning<'d, 'a> {
    draft: &'d Draft<'a>,
    live: u32,
    safe: u32,
    ghost live_is: { live ≡ live_states (rule_of draft.now) },
    ghost safe_is: { safe ≡ safe_states (rule_of draft.now) },
}

impl<'d, 'a> Pruning<'d, 'a> {
    // The pruning of a draft.
    pub fn of(draft: &'d Draft<'a>) -> Pruning<'d, 'a>
        ensures same { result.draft.now ≡ draft.now }
        ensures well { WellFormed (rule_of draft.now) }
    {
        let moves = Moves::of(draft);
        let accepts = states_with(draft.states(), |state| state.accepting);
        let live = Edges::of(&moves).live(accepts);
        let safe = moves.safe_among(live);
        Pruning { draft, live, safe }
    }

    // The start states, bit q for the state q.
    pub fn starts(&self) -> u32
        ensures { (q : ℕ) → (q ∈ result) ↔ Starts (rule_of self.now.draft.now) q }
    {
        states_with(self.draft.states(), |state| state.start)
    }

    // The live states, bit q for the state q.
    pub fn live(&self) -> u32
        ensures { (q : ℕ) → (q ∈ result) ↔ Live (rule_of self.now.draft.now) q }
    {
        self.live
    }

    // The safe states, bit q for the state q.
    pub fn safe(&self) -> u32
        ensures { (q : ℕ) → (q ∈ result) ↔ Safe (rule_of self.now.draft.now) q }
    {
        self.safe
    }

    // The release state, which is the lowest safe one; none where no state is safe.
    pub fn release(&self) -> Option<u8>
        ensures { IsRelease (rule_of self.now.draft.now) result }
    {
        first(self.safe)
    }

    // The pruned set of a state where it is the same at each event: that of a safe state, or of one that is not live.
    fn steady_set(&self, state: u8) -> Option<u32>
        ensures { MatchOption result ((has self.now.safe state ≡ false) × (has self.now.live state ≡ true)) (λ set. (e : ℕ) → set ≡ pruned_set (rule_of self.now.draft.now) state e) }
    {
        if holds(self.safe, state) {
            return Some(self.released_set(state));
        }
        if holds(self.live, state) {
            None
        } else {
            Some(0)
        }
    }

    // The pruned set of a state at an event. A number above 63 is no event, and a state that the rule does not have leads to nothing.
    pub fn set_at(&self, state: u8, event: u8) -> u32
        ensures pruned { event < 64 → IsPrunedSet (rule_of self.now.draft.now) state event result }
        ensures none { 64 ≤ event → result ≡ 0 }
        ensures past { length (rule_of self.now.draft.now).states ≤ state → result ≡ 0 }
    {
        if event < EVENTS {
            self.pruned_set(state, event)
        } else {
            0
        }
    }

    // The pruned set of a state at an event. It is not read off the sets of all 64 events, which would each be gathered for one.
    fn pruned_set(&self, state: u8, event: u8) -> u32
        requires { event < 64 }
        ensures { result ≡ pruned_set (rule_of self.now.draft.now) state event }
    {
        match self.steady_set(state) {
            Some(set) => set,
            None => self.selected_at(state, event),
        }
    }

    // The pruned sets of a state, by event.
    fn pruned_sets(&self, state: u8) -> [u32; 64]
        ensures { (e : ℕ) → e < 64 → slice_index result e ≡ pruned_set (rule_of self.now.draft.now) state e }
    {
        match self.steady_set(state) {
            Some(set) => [set; 64],
            None => self.selected_sets(state),
        }
    }

    // The pruned sets of a state, by event. A state that the rule does not have leads to nothing.
    pub fn sets(&self, state: u8) -> [u32; 64]
        ensures pruned { Wants (rule_of self.now.draft.now) state (λ e. slice_index result e) }
        ensures past { length (rule_of self.now.draft.now).states ≤ state → (e : ℕ) → e < 64 → slice_index result e ≡ 0 }
    {
        self.pruned_sets(state)
    }
}
