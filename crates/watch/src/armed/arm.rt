// Arming a plan, and beginning again.
ghost use Rattle.std.specs.Prelude.{◌≡◌, ℕ, List, Ok};
ghost use Rattle.rules.specs.declared.Call.TheVariants as call;
ghost use Rattle.rules.specs.declared.Answer.TheVariants as answer;
ghost use Rattle.watch.specs.Watching.{CalledOn, ArmedOn};

use crate::armed::Watch;
use crate::step::{Release, start_set};
use fitting::plan::Plan;

impl<'p, 'd> Watch<'p, 'd> {
    // A watch of no events over a plan. A plan may be armed any number of times.
    #[tactic(auto, using(crate::proofs::ArmLaws::armed_there, crate::proofs::ArmLaws::armed_within))]
    pub fn arm(plan: &'p Plan<'d>) -> Self
        ensures armed { ArmedOn plan.now result.state }
        ensures plan { result.plan.now ≡ plan.now }
    {
        Watch {
            plan,
            state: Release::of(plan).begin(start_set(plan.sets())),
        }
    }

    // Begins again, as arming does.
    #[tactic(auto, using(crate::proofs::CallLaws::rearm_called))]
    pub fn rearm(&mut self)
        ensures rearmed { (coming : List ℕ) → CalledOn self.old.plan.now call.Rearm self.old.state coming (Ok answer.Armed) self.new.state coming }
        ensures plan { self.new.plan.now ≡ self.old.plan.now }
    {
        *self = Watch::arm(self.plan);
    }
}
