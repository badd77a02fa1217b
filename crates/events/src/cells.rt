// Cells, and the events that they cover.
ghost use Rattle.std.specs.Prelude.{◌≡◌, ℕ, ◌<◌, ◌≤◌, MatchOption};
ghost use Rattle.events.specs.Sets.{has};
ghost use Rattle.events.specs.Cells.{covers, lowest};

use crate::table::COVERED;

// How many cells there are: 3 to the power of 6.
const CELLS: u16 = 729;

// A cell: a number below 729, whose digits in base three say which lines are free, on or off.
#[derive(Clone, Copy)]
pub struct Cell {
    pub number: u16,
    pub ghost low: { number < 729 },
}

impl Cell {
    // The cell with a number, if there is one.
    pub fn new(number: u16) -> Option<Cell>
        ensures { MatchOption result (729 ≤ number) (λ cell. cell.number ≡ number) }
    {
        if number < CELLS {
            Some(Cell { number })
        } else {
            None
        }
    }

    // The events that the cell covers, as a set.
    pub fn events(self) -> u64
        ensures { (e : ℕ) → e < 64 → has result e ≡ covers self.number e }
    {
        COVERED[self.number as usize]
    }

    // The lowest event that the cell covers.
    pub fn lowest_event(self) -> u8
        ensures { result ≡ lowest self.number }
    {
        self.events().trailing_zeros() as u8
    }
}
