// What a watch keeps: when it is armed, and after one event more.
ghost use Rattle.std.specs.Prelude.{◌≡◌};
ghost use Rattle.watch.specs.Steps.{settled_by, reads_by, next_by, stepped_by, begun_with, start_by};
ghost use Rattle.watch.specs.Watching.{release_of};

use fitting::plan::Plan;
use fitting::plan::access::Sets;
use rules::{Snapshot, Verdict};

// The release state of a plan, as a set that is empty where there is none.
#[derive(Clone, Copy)]
pub(crate) struct Release {
    set: u32,
}

impl Release {
    // The release state of a plan.
    pub(crate) fn of(plan: &Plan) -> Self
        ensures { result.set ≡ release_of plan.now }
    {
        Release {
            set: plan.sets().release,
        }
    }

    // The set that is held: the release state alone where it is among the states reached.
    fn settle(self, reached: u32) -> u32
        ensures { result ≡ settled_by self.set reached }
    {
        if reached & self.set == 0 {
            reached
        } else {
            self.set
        }
    }

    // The verdict that a held set gives at a count.
    fn read_verdict(self, count: u32, held: u32) -> Verdict
        ensures { result ≡ reads_by self.set count held }
    {
        if held == 0 {
            Verdict::BreachAt(count)
        } else if held & self.set == 0 {
            Verdict::Open
        } else {
            Verdict::ClearSince(count)
        }
    }

    // The verdict after one event more: OPEN is read anew, and any other stays.
    fn next_verdict(self, before: Verdict, count: u32, held: u32) -> Verdict
        ensures { result ≡ next_by self.set count held before }
    {
        match before {
            Verdict::Open => self.read_verdict(count, held),
            _ => before,
        }
    }

    // What a watch keeps after an event that leads to these states, with the count that is then told.
    pub(crate) fn step(self, before: Snapshot, reached: u32, count: u32) -> Snapshot
        ensures { result ≡ stepped_by self.set reached count before }
    {
        let held = self.settle(reached);
        Snapshot {
            held,
            count,
            verdict: self.next_verdict(before.verdict, count, held),
        }
    }

    // What a watch keeps that holds this set and has taken no event.
    pub(crate) fn begin(self, held: u32) -> Snapshot
        ensures { result ≡ begun_with self.set held }
    {
        Snapshot {
            held,
            count: 0,
            verdict: self.read_verdict(0, held),
        }
    }
}

// The set that a watch newly armed holds: the live start states, or the release state alone where one of them is safe.
pub(crate) fn start_set(sets: Sets) -> u32
    ensures { result ≡ start_by sets }
{
    if sets.starts & sets.safe == 0 {
        sets.starts & sets.live
    } else {
        sets.release
    }
}
