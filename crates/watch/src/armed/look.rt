// What a watch shows, and its end.
ghost use Rattle.std.specs.Prelude.{◌≡◌, ℕ, List, Ok};
ghost use Rattle.rules.specs.declared.Call.TheVariants as call;
ghost use Rattle.rules.specs.declared.Answer.TheVariants as answer;
ghost use Rattle.watch.specs.Watching.{CalledOn};

use crate::armed::{Closed, Watch};
use rules::Shown;

impl Watch<'_, '_> {
    // The verdict and the count.
    #[tactic(auto, using(crate::proofs::CallLaws::look_called))]
    pub fn look(&self) -> Shown
        ensures shown { (coming : List ℕ) → CalledOn self.now.plan.now call.Look self.now.state coming (Ok (answer.Shown result)) self.now.state coming }
    {
        Shown {
            verdict: self.state.verdict,
            count: self.state.count,
        }
    }

    // Ends the watch, and answers what a look would.
    pub fn close(self) -> (Closed, Shown)
        ensures shown { (coming : List ℕ) → CalledOn self.entry.plan.now call.Look self.entry.state coming (Ok (answer.Shown result.1)) self.entry.state coming }
        ensures last { result.0.last ≡ result.1 }
    {
        let last = self.look();
        (Closed { last }, last)
    }
}
