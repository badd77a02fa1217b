// What an event, and each of the 64 events, selects from the moves of a state that pruning keeps.
ghost use Rattle.std.specs.Prelude.{◌≡◌, ℕ, ◌^◌, ◌<◌, ◌&&◌, length, if◌then◌else◌, ◌==◌, bit_or, nat_eq, slice_index};
ghost use Rattle.events.specs.Cells.{covers};
ghost use Rattle.events.specs.Sets.{has};
ghost use Rattle.pruning.specs.Drafts.{rule_of};
ghost use Rattle.pruning.specs.Computed.{lowest_member, selected_kept};

use crate::Pruning;
use crate::moves::{Moves, goes_into};
use crate::states::{first, holds, only};
use events::{contains, events_of, members_of};
use rules::Move;

// Adds a bit to the set of each covered event, and leaves the other sets as they are.
fn add_to_covered(sets: &mut [u32; 64], covered: u64, bit: u32)
    ensures long { length sets.new ≡ 64 }
    ensures added { (e : ℕ) → e < 64 → slice_index sets.new e ≡ (if has covered e then bit_or (slice_index sets.old e) bit else slice_index sets.old e) }
{
    for event in members_of(covered) {
        sets[event as usize] |= bit;
    }
}

// Whether an event selects the target of a move from the state into the set.
fn selects(m: Move, state: u8, set: u32, event: u8) -> bool
    requires { (m.cell < 729) × (event < 64) }
    ensures { result ≡ ((m.from == state && has set m.to) && covers m.cell event) }
{
    goes_into(m, state, set) && contains(events_of(m.cell), event)
}

impl Pruning<'_, '_> {
    // What a live target stands for: the release state if it is safe, and else itself.
    fn stand_in(&self, to: u8) -> u8
        ensures { result ≡ (if has self.now.safe to then lowest_member self.now.safe else to) }
    {
        match first(self.safe) {
            Some(release) if holds(self.safe, to) => release,
            _ => to,
        }
    }

    // The pruned set of a safe state: the release state leads to itself, and any other to nothing.
    pub(crate) fn released_set(&self, state: u8) -> u32
        requires { state < 32 }
        ensures { result ≡ (if nat_eq state (lowest_member self.now.safe) then 2 ^ state else 0) }
    {
        if first(self.safe) == Some(state) {
            only(state)
        } else {
            0
        }
    }

    // The states that an event selects from the moves of a state to live states, each safe one replaced by the release state.
    pub(crate) fn selected_at(&self, state: u8, event: u8) -> u32
        requires { event < 64 }
        ensures { result ≡ selected_kept (rule_of self.now.draft.now).moves self.now.live self.now.safe (lowest_member self.now.safe) state event }
    {
        let moves = Moves::of(self.draft);
        let mut set = 0;
        for m in moves.all {
            if selects(*m, state, self.live, event) {
                set |= only(self.stand_in(m.to));
            }
        }
        set
    }

    // The states that each event selects from the moves of a state to live states, each safe one replaced by the release state, in one pass over the moves.
    pub(crate) fn selected_sets(&self, state: u8) -> [u32; 64]
        ensures { (e : ℕ) → e < 64 → slice_index result e ≡ selected_kept (rule_of self.now.draft.now).moves self.now.live self.now.safe (lowest_member self.now.safe) state e }
    {
        let moves = Moves::of(self.draft);
        let mut sets = [0; 64];
        for m in moves.all {
            if goes_into(*m, state, self.live) {
                add_to_covered(&mut sets, events_of(m.cell), only(self.stand_in(m.to)));
            }
        }
        sets
    }
}
