// A watch over a plan, and a watch that has ended: types of their own, moved on by the call that changes what may be done.
ghost use Rattle.std.specs.Prelude.{◌≡◌, ℕ, ◌<◌, ◌≤◌, true, length};
ghost use Rattle.events.specs.Sets.{has};
ghost use Rattle.fitting.specs.Plans.{plan_rule};

use fitting::plan::Plan;
use rules::{Shown, Snapshot};

pub mod arm;
pub mod look;
pub mod rehearse;
pub mod take;

// A watch: the plan that it was armed from, and what it keeps. It has taken at most 1,000,000,000 events, and holds states of its rule.
#[derive(Drop)]
pub struct Watch<'p, 'd> {
    plan: &'p Plan<'d>,
    state: Snapshot,
    ghost few: { state.count ≤ 1000000000 },
    ghost states: { (q : ℕ) → has state.held q ≡ true → q < length (plan_rule plan.now).states },
}

// A watch that was closed. It does nothing more, and keeps what it showed at last.
#[derive(Drop)]
pub struct Closed {
    last: Shown,
}
