// Ways down the trees of the held states, by polls of a source's first event. No line is polled twice.
ghost use Rattle.std.specs.Prelude.{◌≡◌, ℕ, ◌^◌, ◌<◌, true, length, bit_and, bit_or};
ghost use Rattle.events.specs.Sets.{has};
ghost use Rattle.rules.specs.trees.Trees.{gives, polls};
ghost use Rattle.rules.specs.watch.Holding.{leads_to, polls_of};
ghost use Rattle.sources.specs.Waiting.{any_waiting};
ghost use Rattle.fitting.specs.Plans.{plan_rule, plan_trees};
ghost use Rattle.fitting.specs.Reading.{sound_at, tree_at};
ghost use Rattle.watch.specs.Polling.{head_of};

use events::{contains, members_of};
use fitting::plan::Plan;
use rules::Node;
use sources::source::LineSource;

// Polls of a source's first event: the lines polled so far, and those of them that are on.
#[derive(Drop)]
struct Polls<'s, S: LineSource> {
    source: &'s S,
    polled: u8,
    on: u8,
    ghost waiting: { any_waiting (S.LineSource.events source.now) ≡ true },
    ghost known: { on ≡ bit_and (head_of (S.LineSource.events source.now)) polled },
}

impl<'s, S: LineSource> Polls<'s, S> {
    // Whether a line was polled before.
    fn was_polled(&self, line: u8) -> bool
        ensures { result ≡ has self.now.polled line }
    {
        contains(u64::from(self.polled), line)
    }

    // Whether a line is on in the first event, by a poll unless it was polled before. A line is a number here and no type of its own, as in the nodes.
    fn ask(&mut self, line: u8) -> bool
        requires { line < 6 }
        ensures source { self.new.source.now ≡ self.old.source.now }
        ensures answer { result ≡ has (head_of (S.LineSource.events self.old.source.now)) line }
        ensures polled { self.new.polled ≡ bit_or self.old.polled (2 ^ line) }
    {
        if self.was_polled(line) {
            return contains(u64::from(self.on), line);
        }
        let Ok(on) = self.source.poll(line) else {
            unreachable()
        };
        self.polled |= 1 << line;
        if on {
            self.on |= 1 << line;
        }
        on
    }

    // The set that the tree at a place gives for the first event.
    fn descend(&mut self, nodes: &[Node], top: u16) -> u32
        requires { sound_at 7 nodes.now top ≡ true }
        ensures source { self.new.source.now ≡ self.old.source.now }
        ensures set { result ≡ gives (tree_at 7 nodes.now top) (head_of (S.LineSource.events self.old.source.now)) }
        ensures polled { self.new.polled ≡ bit_or self.old.polled (polls (tree_at 7 nodes.now top) (head_of (S.LineSource.events self.old.source.now))) }
    {
        let mut at = top as usize;
        loop {
            match nodes[at] {
                Node::Leaf { set } => return set,
                Node::Fork { line, on, off } => {
                    at = if self.ask(line) {
                        on as usize
                    } else {
                        off as usize
                    };
                }
            }
        }
    }
}

// What the trees of the held states give together, and the lines polled for it.
#[derive(Clone, Copy)]
pub(crate) struct Gathered {
    pub set: u32,
    pub polled: u8,
}

// Goes down the tree of every held state, lowest first.
pub(crate) fn gather<S: LineSource>(plan: &Plan, held: u32, source: &S) -> Gathered
    requires waiting { any_waiting (S.LineSource.events source.now) ≡ true }
    requires states { (q : ℕ) → has held q ≡ true → q < length (plan_rule plan.now).states }
    ensures set { result.set ≡ leads_to (plan_trees plan.now) held (head_of (S.LineSource.events source.now)) }
    ensures polled { result.polled ≡ polls_of (plan_trees plan.now) held (head_of (S.LineSource.events source.now)) }
{
    let nodes = plan.nodes();
    let mut polls = Polls {
        source,
        polled: 0,
        on: 0,
    };
    let mut set = 0u32;
    for state in members_of(u64::from(held)) {
        set |= polls.descend(nodes, plan.top(state));
    }
    Gathered {
        set,
        polled: polls.polled,
    }
}
