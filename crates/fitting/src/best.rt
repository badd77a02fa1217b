// The best cost in each of the 729 cells and the line to fork on there, filled from the last cell down.
ghost use Rattle.std.specs.Prelude.{◌≡◌, ℕ, ◌<◌, true, false, MatchOption};
ghost use Rattle.std.specs.List.{AllByRecursion};
ghost use Rattle.events.specs.Cells.{Free, free_in};
ghost use Rattle.rules.specs.automata.Rules.{LineInRange, line_of};
ghost use Rattle.rules.specs.trees.Bests.{Constant, fork_price, Bests};
ghost use Rattle.fitting.specs.Tables.{value_at, line_at, SmallAfter, cheaper_of, LeastFork, Picked, Chosen};

use crate::cells::{free_lines, split};
use crate::measure::{ForkNumbers, Measure};
use events::{Cell, members_of};
use rules::Line;

// A fork on a line, and its price.
#[derive(Clone, Copy)]
pub(crate) struct Fork {
    pub line: u8,
    pub cost: u64,
}

// The cheaper of two forks, and the first where they cost the same. One that is missing gives way. `filter_map` and `min_by_key` would do without it;
// with them the clause of `least` was not proved, and their speed in this loop was not measured.
fn cheaper(first: Option<Fork>, next: Option<Fork>) -> Option<Fork>
    ensures { result ≡ cheaper_of first next }
{
    match (first, next) {
        (Some(a), Some(b)) => Some(if b.cost < a.cost { b } else { a }),
        (first, None) => first,
        (None, next) => next,
    }
}

// Whether all events that the cell covers have the same set.
pub(crate) fn is_constant(sets: &[u32; 64], cell: Cell) -> bool
    ensures same { result ≡ true → Constant (value_at sets.now) cell.number }
    ensures other { result ≡ false → Constant (value_at sets.now) cell.number → ⊥ }
{
    let first = sets[cell.lowest_event() as usize];
    members_of(cell.events()).all(|event| sets[event as usize] == first)
}

// The forks in a cell, which a measure prices from the costs of the cells after it.
#[derive(Drop)]
struct Forks<'a, M> {
    measure: &'a M,
    lines: &'a [Line; 6],
    costs: &'a [u64; 729],
    cell: Cell,
    ghost in_range: { (i : ℕ) → i < 6 → LineInRange (line_of lines.now i) },
    ghost small: { SmallAfter (value_at costs.now) cell.number },
}

impl<'a, M: Measure> Forks<'a, M> {
    // The fork on one of the six lines, if the line is free. `unpolled` is the count of free lines, which the caller counts once for all lines.
    fn on_line(&self, line: u8, unpolled: u8) -> Option<Fork>
        requires line { line < 6 }
        requires count { unpolled ≡ free_in self.now.cell.number }
        ensures { MatchOption result (Free self.now.cell.number line → ⊥) (λ fork. Free self.now.cell.number line × (fork.line ≡ line) × (fork.cost ≡ fork_price (M.price self.now.measure.now) self.now.lines.now (value_at self.now.costs.now) self.now.cell.number line)) }
    {
        let parts = split(self.cell, line)?;
        let card = self.lines[line as usize];
        let cost = self.measure.price(ForkNumbers {
            cost: card.cost,
            chance: card.chance,
            unpolled,
            on: self.costs[parts.on.number as usize],
            off: self.costs[parts.off.number as usize],
        });
        Some(Fork { line, cost })
    }

    // The cheapest fork, on the lowest line of those that cost the same, if a line is free.
    fn least(&self) -> Option<Fork>
        ensures { MatchOption result (free_in self.now.cell.number ≡ 0) (LeastFork (M.price self.now.measure.now) self.now.lines.now (value_at self.now.costs.now) self.now.cell.number) }
    {
        let unpolled = free_lines(self.cell);
        (0..6)
            .map(|line| self.on_line(line, unpolled))
            .fold(None, cheaper)
    }

    // The fork to put in the cell, or none where all covered events have the same set.
    fn pick(&self, sets: &[u32; 64]) -> Option<Fork>
        ensures { Picked (M.price self.now.measure.now) self.now.lines.now (value_at sets.now) (value_at self.now.costs.now) self.now.cell.number result }
    {
        if is_constant(sets, self.cell) {
            None
        } else {
            self.least()
        }
    }
}

// Fills the tables of best costs and chosen lines, from the last cell down.
// They are two arrays and not one of pairs: the array of best costs alone is a form that the product's users named. Cells go by number, since a fork is
// priced from the costs of later cells.
pub(crate) fn fill_tables<M: Measure>(
    measure: &M,
    lines: &[Line; 6],
    sets: &[u32; 64],
    costs: &mut [u64; 729],
    chosen: &mut [Option<u8>; 729],
)
    requires { AllByRecursion LineInRange lines.now }
    ensures bests { Bests (M.price measure.now) lines.now (value_at sets.now) (value_at costs.new) (line_at chosen.new) }
    ensures chosen { Chosen (value_at sets.now) chosen.new }
{
    for number in (0..729).rev() {
        let pick = Forks {
            measure,
            lines,
            costs,
            cell: Cell { number },
        }
        .pick(sets);
        costs[number as usize] = pick.map_or(0, |fork| fork.cost);
        chosen[number as usize] = pick.map(|fork| fork.line);
    }
}
