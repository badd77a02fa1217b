// A run: a draft fitted by a measure, its plan armed, and any list of calls made of the watch.
ghost use Rattle.std.specs.Prelude.{◌≡◌, ℕ, min, false, length, take, drop, is_ok};
ghost use Rattle.rules.specs.declared.Answer.TheVariants as answer;
ghost use Rattle.pruning.specs.Drafts.{rule_of};
ghost use Rattle.watch.specs.Running.{CallsMade, RunAnswered, lent};
ghost use Rattle.watch.specs.Watching.{CalledOn};

use crate::armed::Watch;
use fitting::Measure;
use fitting::fit::{FitRefusal, Fitting, fit};
use fitting::plan::Plan;
use fitting::plan::make::make_plan;
use rulefile::draft::Draft;
use rules::{Answer, Call, Node, Refusal, Tried};
use sources::source::LineSource;

// What a run tells: what fitting told, and how many calls were made.
#[derive(Clone, Copy)]
pub struct Ran {
    pub told: Fitting,
    pub made: usize,
}

// What a rehearsal told, as an answer among all: a function over `Answer::Tried`, so that a clause of this crate says that word and count stay.
fn rehearsed(tried: Tried) -> Answer
    ensures { result ≡ answer.Tried tried }
{
    Answer::Tried(tried)
}

impl Watch<'_, '_> {
    // Makes one call, and answers what it answers.
    pub fn make<S: LineSource>(&mut self, source: &mut S, call: Call) -> Result<Answer, Refusal>
        ensures made { CalledOn self.old.plan.now call.entry self.old.state (S.LineSource.events source.old) result self.new.state (S.LineSource.events source.new) }
        ensures plan { self.new.plan.now ≡ self.old.plan.now }
    {
        match call {
            Call::Take => self.take(source).map(Answer::Taken),
            Call::Look => Ok(Answer::Shown(self.look())),
            Call::Rehearse(events) => self.rehearse(events).map(rehearsed),
            Call::Rearm => {
                self.rearm();
                Ok(Answer::Armed)
            }
        }
    }
}

// Arms a plan, and makes calls of the watch one after the other, as far as both lists go.
fn watch_calls<S: LineSource>(
    plan: &Plan,
    source: &mut S,
    calls: &[Call],
    answers: &mut [Result<Answer, Refusal>],
) -> usize
    ensures made { result ≡ min (length calls.now) (length answers.old) }
    ensures called { CallsMade plan.now (take result calls.now) (S.LineSource.events source.old) (take result answers.new) (S.LineSource.events source.new) }
    ensures rest { drop result answers.new ≡ drop result answers.old }
{
    let mut watch = Watch::arm(plan);
    let made = calls.len().min(answers.len());
    // The calls are taken from an iterator of their own: by `zip` a proof would know nothing of the answers that were written, and by `enumerate` over
    // the answers that are made the clause `called` was not proved.
    let mut rest = calls.iter();
    for answer in answers.iter_mut() {
        let Some(call) = rest.next() else { break };
        *answer = watch.make(source, *call);
    }
    made
}

// Fits a draft by a measure into the nodes, arms the plan, and makes the calls of the watch one after the other, each with its answer in the list of
// answers; as many are made as that list has room for. With too few nodes nothing is done.
pub fn run<M: Measure, S: LineSource>(
    measure: &M,
    draft: Draft,
    nodes: &mut [Node],
    source: &mut S,
    calls: &[Call],
    answers: &mut [Result<Answer, Refusal>],
) -> Result<Ran, FitRefusal>
    ensures answered { RunAnswered (M.price measure.now) (rule_of draft.entry) calls.now (lent nodes.old answers.old (S.LineSource.events source.old)) (lent nodes.new answers.new (S.LineSource.events source.new)) result }
    ensures refused { is_ok result ≡ false → source.new ≡ source.old }
{
    let told = fit(measure, &draft, nodes)?;
    let plan = make_plan(measure, draft, nodes);
    let made = watch_calls(&plan, source, calls, answers);
    Ok(Ran { told, made })
}
