// Rows of a rule file: its line cards, its state cards and its moves, each read one after the other.
ghost use Rattle.std.specs.Prelude.{◌≡◌, ℕ, ◌+◌, ◌-◌, ◌<◌, ◌≤◌, ◌||◌, List, length, Some, None, IfOk, IfErr, Result, Decides, fold};
ghost use Rattle.codec.specs.Reading.{Read, read_to};
ghost use Rattle.rules.specs.declared.Move.{Move};
ghost use Rattle.rulefile.specs.declared.fault.FileFault.{FileFault};
ghost use Rattle.rulefile.specs.declared.rows.Moves.{Moves};
ghost use Rattle.rulefile.specs.declared.rows.States.{States};
ghost use Rattle.rulefile.specs.Records.{StateRecord};
ghost use Rattle.rulefile.specs.File.{record_at, line_record_at, state_record_at, next_move_among, follows, row_from, read_by, giving};

use crate::card::{OnCard, read_move};
use crate::fault::FileFault;
use crate::record::{LineRecord, Name, Record, StateRecord};
use codec::reader::Reader;
use rules::{Line, Move, State};

// Checks that a byte stands at the reader's place; else the file is short.
fn check_more(reader: &Reader) -> Result<(), FileFault>
    ensures more { IfOk result (λ _. reader.now.at < length reader.now.bytes.now) }
    ensures none { IfErr result (λ e. (length reader.now.bytes.now ≤ reader.now.at) × (e ≡ FileFault.Short (length reader.now.bytes.now))) }
{
    if reader.bytes.len() <= reader.at {
        return Err(FileFault::Short {
            place: reader.bytes.len(),
        });
    }
    Ok(())
}

// Reads the record of a card. A name ends where its card does.
fn read_record<T: OnCard>(reader: &mut Reader) -> Result<Record<T>, FileFault>
    ensures value { read_to result reader.new.at ≡ record_at T.card_at reader.old.bytes.now reader.old.at }
    ensures kept { reader.new.bytes ≡ reader.old.bytes }
{
    check_more(reader)?;
    let card = T::read_card(reader)?;
    let len = card.name.len();
    let name = Name {
        at: reader.at - len,
        len,
    };
    Ok(Record {
        value: card.value,
        name,
    })
}

// Whether `next` may come after `last`: by from-state, then cell, then to-state.
fn follows_last(last: Option<Move>, next: Move) -> bool
    ensures { result ≡ follows last next }
{
    last.is_none_or(|last| last < next)
}

// A kind of entry that a file has in a row; how one is read may depend on those before it.
pub(crate) trait Rows: Copy {
    type Row: Copy;

    // what stands at a place of a file
    ghost row_at: { Self → List ℕ → ℕ → Result (Read Self.Row) FileFault };

    // what is kept of a row for those behind it
    ghost kept: { Self → Self.Row → Self };

    // Reads the next row.
    fn read_row(&mut self, reader: &mut Reader) -> Result<Self::Row, FileFault>
        ensures value { read_to result reader.new.at ≡ row_at self.old reader.old.bytes.now reader.old.at }
        ensures bytes { reader.new.bytes ≡ reader.old.bytes }
        ensures after { IfOk result (λ row. self.new ≡ kept self.old row) };

    // Whether two rows are the same. A method and no `==`: of a `PartialEq` that is any, it is not known that it is equality.
    fn is_same(a: Self::Row, b: Self::Row) -> bool
        ensures { Decides result (a ≡ b) };
}

// The records of lines.
#[derive(Clone, Copy)]
pub(crate) struct Lines;

impl Rows for Lines {
    type Row = LineRecord;

    ghost row_at = { λ s file place. line_record_at file place };

    ghost kept = { λ s line. s };

    fn read_row(&mut self, reader: &mut Reader) -> Result<LineRecord, FileFault> {
        read_record::<Line>(reader)
    }

    fn is_same(a: LineRecord, b: LineRecord) -> bool {
        a == b
    }
}

// The records of states, and whether a start state was among them.
#[derive(Clone, Copy, Default)]
pub(crate) struct States {
    pub(crate) start: bool,
}

impl Rows for States {
    type Row = StateRecord;

    ghost row_at = { λ s file place. state_record_at file place };

    ghost kept = { λ s state. record { start = s.start || state.value.start } };

    fn read_row(&mut self, reader: &mut Reader) -> Result<StateRecord, FileFault> {
        let state = read_record::<State>(reader)?;
        self.start = self.start || state.value.start;
        Ok(state)
    }

    fn is_same(a: StateRecord, b: StateRecord) -> bool {
        a == b
    }
}

// The moves between states up to the highest, and the last that was read.
#[derive(Clone, Copy)]
pub(crate) struct Moves {
    highest: u8,
    last: Option<Move>,
}

impl Moves {
    // The moves between this many states.
    pub(crate) fn between(states: u32) -> Moves
        requires { (0 < states) × (states ≤ 32) }
        ensures { result ≡ record { highest = states - 1; last = None } }
    {
        Moves {
            highest: (states - 1) as u8,
            last: None,
        }
    }
}

impl Rows for Moves {
    type Row = Move;

    ghost row_at = { λ s file place. next_move_among file s.highest s.last place };

    ghost kept = { λ s next. record s { last = Some next } };

    fn read_row(&mut self, reader: &mut Reader) -> Result<Move, FileFault> {
        let place = reader.at;
        check_more(reader)?;
        let next = read_move(reader, self.highest)?;
        if !follows_last(self.last, next) {
            return Err(FileFault::Order { place });
        }
        self.last = Some(next);
        Ok(next)
    }

    fn is_same(a: Move, b: Move) -> bool {
        a == b
    }
}

// Reads `count` rows, and gives what is kept of them.
pub(crate) fn pass_rows<R: Rows>(
    mut rows: R,
    reader: &mut Reader,
    count: u32,
) -> Result<R, FileFault>
    ensures value { read_to result reader.new.at ≡ read_by (fold R.kept rows) (row_from R.kept (λ s. R.row_at s reader.old.bytes.now) rows reader.old.at count) }
    ensures bytes { reader.new.bytes ≡ reader.old.bytes }
{
    for _i in 0..count {
        rows.read_row(reader)?;
    }
    Ok(rows)
}

// Reads as many rows as the list has places, and writes them into it.
pub(crate) fn write_rows<R: Rows>(
    mut rows: R,
    reader: &mut Reader,
    list: &mut [R::Row],
) -> Result<(), FileFault>
    ensures value { read_to (giving list.new result) reader.new.at ≡ row_from R.kept (λ s. R.row_at s reader.old.bytes.now) rows reader.old.at (length list.old) }
    ensures bytes { reader.new.bytes ≡ reader.old.bytes }
{
    for slot in list {
        *slot = rows.read_row(reader)?;
    }
    Ok(())
}

// Whether the list is what stands in a row in the file.
pub(crate) fn same_rows<R: Rows>(mut rows: R, mut reader: Reader, list: &[R::Row]) -> bool
    ensures { Decides result ((end : ℕ) × (row_from R.kept (λ s. R.row_at s reader.entry.bytes.now) rows reader.entry.at (length list.now) ≡ Ok (record { value = list.now; next = end }))) }
{
    for row in list {
        let Ok(read) = rows.read_row(&mut reader) else {
            return false;
        };
        if !R::is_same(*row, read) {
            return false;
        }
    }
    true
}
