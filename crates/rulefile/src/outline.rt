// The first pass over a rule file: the leftmost fault, or where its parts lie. It writes nothing.
ghost use Rattle.std.specs.Prelude.{◌≡◌};
ghost use Rattle.rulefile.specs.File.{file_of, outlined};

use crate::fault::FileFault;
use crate::record::LineRecord;
use crate::rows::{Lines, Moves, States, pass_rows, write_rows};
use codec::reader::Reader;

// Where a good file's parts lie.
#[derive(Clone, Copy, Default, PartialEq, Eq)]
pub struct Outline {
    pub lines: [LineRecord; 6],
    pub states: u32,
    pub states_at: usize,
    pub moves: u32,
    pub moves_at: usize,
}

// The leftmost fault of the file, or where its parts lie.
pub(crate) fn scan(file: &[u8]) -> Result<Outline, FileFault>
    ensures { result ≡ outlined (file_of file.now) }
{
    let mut reader = Reader { bytes: file, at: 0 };
    reader.read_ranged::<FileFault>(1, 1)?;
    let mut lines = [LineRecord::default(); 6];
    write_rows(Lines, &mut reader, &mut lines)?;
    let lines_end = reader.at;
    let states = reader.read_ranged::<FileFault>(1, 32)?;
    let states_at = reader.at;
    let scanned = pass_rows(States::default(), &mut reader, states)?;
    if !scanned.start {
        return Err(FileFault::NoStart { place: lines_end });
    }
    let moves = reader.read_ranged::<FileFault>(0, 1024)?;
    let moves_at = reader.at;
    pass_rows(Moves::between(states), &mut reader, moves)?;
    if reader.at < file.len() {
        return Err(FileFault::Trailing { place: reader.at });
    }
    Ok(Outline {
        lines,
        states,
        states_at,
        moves,
        moves_at,
    })
}
