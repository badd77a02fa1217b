// Safe states: of the live states, those that cannot go on inside the set on every event are removed until nothing changes.
ghost use Rattle.std.specs.Prelude.{◌≡◌};
ghost use Rattle.pruning.specs.Computed.{covered_into, kept, safe_in};

use crate::moves::{Moves, goes_into};
use crate::states::{holds, settle, states_where};
use events::events_of;

impl Moves<'_> {
    // The events that some move from the state into the set covers.
    fn covered_into(&self, state: u8, set: u32) -> u64
        ensures { result ≡ covered_into self.now.all.now state set }
    {
        let mut events = 0;
        for m in self.all {
            if goes_into(*m, state, set) {
                events |= events_of(m.cell);
            }
        }
        events
    }

    // The members that can go on inside the set on every event.
    fn kept(&self, set: u32) -> u32
        ensures { result ≡ kept self.now.all.now set }
    {
        states_where(|q| holds(set, q) && self.covered_into(q, set) == u64::MAX)
    }

    // What is left of the live states once no more are removed.
    pub(crate) fn safe_among(&self, live: u32) -> u32
        ensures { result ≡ safe_in self.now.all.now live }
    {
        settle(live, |set| self.kept(set))
    }
}
