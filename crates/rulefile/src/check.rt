// The check of a rule file: it refuses, or writes the file's states and moves over the fronts of the lists that it is lent.
ghost use Rattle.std.specs.Prelude.{◌≡◌, length, is_ok, IfOk, Decides};
ghost use Rattle.rulefile.specs.File.{room, overlaid, checked, counted, rows_of_states, rows_of_moves};
ghost use Rattle.rulefile.specs.Rule.{Readable, Recorded};

use crate::fault::Refusal;
use crate::outline::scan;
use crate::record::{Counts, StateRecord};
use crate::rows::{Moves, States, write_rows};
use codec::reader::Reader;
use rules::Move;

// How many state records a caller has to lend, whatever the file needs.
const STATE_RECORDS: usize = 32;

// How many move records a caller has to lend, whatever the file needs.
const MOVE_RECORDS: usize = 1024;

// Whether lists of these lengths hold the records of every good file.
pub(crate) fn has_room(states: usize, moves: usize) -> Result<(), Refusal>
    ensures { result ≡ room states moves }
{
    if states < STATE_RECORDS {
        return Err(Refusal::FewStateRecords);
    }
    if moves < MOVE_RECORDS {
        return Err(Refusal::FewMoveRecords);
    }
    Ok(())
}

// Checks the file, and writes its states and moves over the fronts of the lists. A refusal writes nothing.
pub fn check_rule(
    file: &[u8],
    states: &mut [StateRecord],
    moves: &mut [Move],
) -> Result<Counts, Refusal>
    ensures result { result ≡ counted (checked file.now (length states.old) (length moves.old)) }
    ensures exact { Decides (is_ok result) (Readable file.now (length states.old) (length moves.old)) }
    ensures recorded { IfOk result (λ n. Recorded file.now states.new moves.new n) }
    ensures states { states.new ≡ overlaid (rows_of_states (checked file.now (length states.old) (length moves.old))) states.old }
    ensures moves { moves.new ≡ overlaid (rows_of_moves (checked file.now (length states.old) (length moves.old))) moves.old }
{
    has_room(states.len(), moves.len())?;
    let outline = scan(file)?;
    let mut reader = Reader {
        bytes: file,
        at: outline.states_at,
    };
    write_rows(
        States::default(),
        &mut reader,
        &mut states[..outline.states as usize],
    )?;
    reader.at = outline.moves_at;
    write_rows(
        Moves::between(outline.states),
        &mut reader,
        &mut moves[..outline.moves as usize],
    )?;
    Ok(Counts {
        states: outline.states,
        moves: outline.moves,
    })
}
