// The lines of a cell: which are free, and the two cells that fix a free line.
ghost use Rattle.std.specs.Prelude.{◌≡◌, ◌+◌, ◌*◌, ◌^◌, ◌<◌, ◌==◌, MatchOption};
ghost use Rattle.events.specs.Cells.{digit, Free, free_in, on_cell, off_cell};

use events::Cell;

// The weights of the six digits. A table and no `pow`, by which each would be multiplied out anew at every line of every cell.
const WEIGHTS: [u16; 6] = [1, 3, 9, 27, 81, 243];

// The weight of a line's digit. A line is a number below 6 here and no type of its own: it would be wrapped and unwrapped at each index and shift.
fn weight(line: u8) -> u16
    requires { line < 6 }
    ensures { result ≡ 3 ^ line }
{
    WEIGHTS[line as usize]
}

// Whether a line is free in a cell.
fn is_free(cell: Cell, line: u8) -> bool
    requires { line < 6 }
    ensures { result ≡ (digit cell.number line == 0) }
{
    cell.number / weight(line) % 3 == 0
}

// How many lines are free in a cell.
pub(crate) fn free_lines(cell: Cell) -> u8
    ensures { result ≡ free_in cell.number }
{
    (0..6).map(|line| u8::from(is_free(cell, line))).sum()
}

// The cell with the digit of a free line changed to a digit.
fn with_digit(cell: Cell, line: u8, digit: u16) -> Cell
    requires free { Free cell.number line }
    requires digit { digit < 3 }
    ensures { result.number ≡ cell.number + digit * 3 ^ line }
{
    Cell {
        number: cell.number + digit * weight(line),
    }
}

// The two cells that fix a line: to on, and to off.
#[derive(Clone, Copy)]
pub(crate) struct Parts {
    pub on: Cell,
    pub off: Cell,
}

// The two cells that fix one of the six lines, if it is free.
pub(crate) fn split(cell: Cell, line: u8) -> Option<Parts>
    requires { line < 6 }
    ensures { MatchOption result (Free cell.number line → ⊥) (λ parts. Free cell.number line × (parts.on.number ≡ on_cell cell.number line) × (parts.off.number ≡ off_cell cell.number line)) }
{
    if !is_free(cell, line) {
        return None;
    }
    Some(Parts {
        on: with_digit(cell, line, 1),
        off: with_digit(cell, line, 2),
    })
}
