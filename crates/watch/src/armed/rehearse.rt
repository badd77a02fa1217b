// Rehearsals: events tried without a source, after which the watch is as it was.
ghost use Rattle.std.specs.Prelude.{◌≡◌, ℕ, ◌<◌, ◌≤◌, true, List, length, IfSome, IfNone};
ghost use Rattle.std.specs.Result.{result_map_both};
ghost use Rattle.events.specs.Sets.{has};
ghost use Rattle.rules.specs.declared.Call.TheVariants as call;
ghost use Rattle.rules.specs.declared.Answer.TheVariants as answer;
ghost use Rattle.rules.specs.watch.Holding.{leads_to};
ghost use Rattle.fitting.specs.Plans.{plan_rule, plan_trees};
ghost use Rattle.watch.specs.Steps.{stepped_by};
ghost use Rattle.watch.specs.Watching.{CalledOn, release_of};

use crate::armed::Watch;
use crate::polling::gather;
use crate::step::Release;
use fitting::plan::Plan;
use rules::{Refusal, Snapshot, Tried, Verdict, Word};
use sources::plain::PlainLog;
use sources::source::is_event;

// Lends what a watch keeps for a trial, and puts it back as it was saved.
struct Rehearsal<'w> {
    state: &'w mut Snapshot,
    saved: Snapshot,
}

impl Drop for Rehearsal<'_> {
    fn drop(self)
        ensures { self.exit.0.now ≡ self.entry.saved }
    {
        let Rehearsal { state, saved } = self;
        *state = saved;
    }
}

// What a watch over a plan would hold and show after one event more, its count as it was; and nothing where the number is no event.
#[tactic(auto, using(crate::proofs::TrialLaws::one_waits, crate::proofs::TrialLaws::one_head))]
fn tried(plan: &Plan, before: Snapshot, event: u8) -> Option<Snapshot>
    requires { (q : ℕ) → has before.held q ≡ true → q < length (plan_rule plan.now).states }
    ensures event { IfSome result (λ after. event < 64) }
    ensures tried { IfSome result (λ after. after ≡ stepped_by (release_of plan.now) (leads_to (plan_trees plan.now) before.held event) before.count before) }
    ensures none { IfNone result (64 ≤ event) }
{
    if !is_event(event) {
        return None;
    }
    let one = [event];
    let log = PlainLog::over(&one);
    let reached = gather(plan, before.held, &log).set;
    Some(Release::of(plan).step(before, reached, before.count))
}

impl Watch<'_, '_> {
    // Tries events from the set held now, up to the first that gives BREACH, and tells the word and how many were tried.
    #[tactic(auto, using(crate::proofs::TrialLaws::trial_more, crate::proofs::TrialLaws::trial_refused))]
    pub fn rehearse(&mut self, events: &[u8]) -> Result<Tried, Refusal>
        ensures rehearsed { (coming : List ℕ) → CalledOn self.old.plan.now (call.Rehearse events.entry) self.old.state coming (result_map_both answer.Tried (λ why. why) result) self.new.state coming }
        ensures state { self.new.state ≡ self.old.state }
        ensures plan { self.new.plan.now ≡ self.old.plan.now }
    {
        let (Verdict::Open | Verdict::ClearSince(_)) = self.state.verdict else {
            return Err(Refusal::Breached);
        };
        let plan = self.plan;
        let saved = self.state;
        let trial = Rehearsal {
            state: &mut self.state,
            saved,
        };
        for (i, event) in events.iter().enumerate() {
            let Some(after) = tried(plan, *trial.state, *event) else {
                return Err(Refusal::NoEvent { at: i });
            };
            *trial.state = after;
            if let Verdict::BreachAt(_) = trial.state.verdict {
                return Ok(Tried {
                    word: Word::Breach,
                    count: i + 1,
                });
            }
        }
        Ok(Tried {
            word: trial.state.verdict.word(),
            count: events.len(),
        })
    }
}
