// A draft: what reading a good rule file gives. It borrows the file and the records that the check wrote, and is moved, never copied.
ghost use Rattle.std.specs.Prelude.{◌≡◌, true, length, is_ok};
ghost use Rattle.rulefile.specs.File.{file_of, rows_of_lines, rows_of_states, rows_of_moves};

use crate::record::{LineRecord, StateRecord};
use rules::Move;

pub mod access;
pub mod make;

// A draft: a good file, and the records of what it holds.
#[derive(Drop)]
pub struct Draft<'a> {
    file: &'a [u8],
    lines: [LineRecord; 6],
    states: &'a [StateRecord],
    moves: &'a [Move],
    ghost six: { length lines ≡ 6 },
    ghost read: { is_ok (file_of file.now) ≡ true },
    ghost line_rows: { lines ≡ rows_of_lines (file_of file.now) },
    ghost state_rows: { states.now ≡ rows_of_states (file_of file.now) },
    ghost move_rows: { moves.now ≡ rows_of_moves (file_of file.now) },
}
