// Takes: one event of a source, by polls down the trees of the held states.
ghost use Rattle.std.specs.Prelude.{◌≡◌};
ghost use Rattle.std.specs.Result.{result_map_both};
ghost use Rattle.rules.specs.declared.Call.TheVariants as call;
ghost use Rattle.rules.specs.declared.Answer.TheVariants as answer;
ghost use Rattle.watch.specs.Watching.{CalledOn};

use crate::armed::Watch;
use crate::polling::{Gathered, gather};
use crate::step::Release;
use rules::{Refusal, Taken, Verdict};
use sources::source::LineSource;

// The most events that a watch takes.
const MOST: u32 = 1_000_000_000;

impl Watch<'_, '_> {
    // Takes the first event of a source.
    #[tactic(auto, using(crate::proofs::TakeLaws::take_breached, crate::proofs::TakeLaws::take_full, crate::proofs::TakeLaws::take_nothing_waits, crate::proofs::TakeLaws::take_taken, crate::proofs::TakeLaws::taken_within))]
    pub fn take<S: LineSource>(&mut self, source: &mut S) -> Result<Taken, Refusal>
        ensures taken { CalledOn self.old.plan.now call.Take self.old.state (S.LineSource.events source.old) (result_map_both answer.Taken (λ why. why) result) self.new.state (S.LineSource.events source.new) }
        ensures plan { self.new.plan.now ≡ self.old.plan.now }
    {
        let state = self.state;
        let (Verdict::Open | Verdict::ClearSince(_)) = state.verdict else {
            return Err(Refusal::Breached);
        };
        let 0..MOST = state.count else {
            return Err(Refusal::Full);
        };
        let true = source.waiting() else {
            return Err(Refusal::NothingWaits);
        };
        let Gathered { set, polled } = gather(self.plan, state.held, source);
        let after = Release::of(self.plan).step(state, set, state.count + 1);
        let _ = (*source).drop_first();
        self.state = after;
        Ok(Taken {
            verdict: after.verdict,
            polled,
        })
    }
}
