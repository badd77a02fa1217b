// Cards: line cards, state cards and moves. A card's name is a part of the file.
ghost use Rattle.std.specs.Prelude.{◌≡◌, ℕ, ◌+◌, ◌<◌, ◌≤◌, List, length, IfOk, Result};
ghost use Rattle.codec.specs.declared.fault.CardFault.{CardFault};
ghost use Rattle.codec.specs.Reading.{Read, read_to};
ghost use Rattle.rulefile.specs.Records.{NamedValue};
ghost use Rattle.rulefile.specs.Card.{is_name_byte, name_end, name_at, name_of, named_of, state_of_flags, line_at, state_at, move_among};

use codec::fault::CardFault;
use codec::reader::Reader;
use rules::{Line, Move, State};

// A value with its name.
#[derive(Clone, Copy)]
pub struct Named<'a, T> {
    pub value: T,
    pub name: &'a [u8],
}

// A line with its name.
pub type LineCard<'a> = Named<'a, Line>;

// A state with its name.
pub type StateCard<'a> = Named<'a, State>;

// One entry of a rule file.
#[derive(Clone, Copy)]
pub enum Card<'a> {
    Line(LineCard<'a>),
    State(StateCard<'a>),
    Move(Move),
}

// Whether a name may have the byte.
fn is_name_byte(byte: u8) -> bool
    ensures { result ≡ is_name_byte byte }
{
    byte.is_ascii_graphic()
}

// The place behind the `count` name bytes that begin at `at`. The loop goes by places and not by bytes, since a byte that is missing is a fault as well as one that is wrong.
fn name_end(file: &[u8], at: usize, count: u32) -> Result<usize, CardFault>
    requires { at ≤ length file.now }
    ensures value { result ≡ name_end file.now at count }
    ensures within { IfOk result (λ q. (at ≤ q) × (q ≤ length file.now)) }
{
    let end = at + count as usize;
    for place in at..end {
        let Some(byte) = file.get(place) else {
            return Err(CardFault::Short { place: file.len() });
        };
        if !is_name_byte(*byte) {
            return Err(CardFault::NameByte { place });
        }
    }
    Ok(end)
}

// Reads a name: its length, and its bytes.
fn read_name<'a>(reader: &mut Reader<'a>) -> Result<&'a [u8], CardFault>
    ensures value { read_to (name_of result) reader.new.at ≡ name_at reader.old.bytes.now reader.old.at }
    ensures kept { reader.new.bytes ≡ reader.old.bytes }
    ensures within { IfOk result (λ n. (length n.now ≤ reader.new.at) × (reader.new.at ≤ length reader.old.bytes.now)) }
{
    let count = reader.read_field(0, 16)?;
    let start = reader.at;
    let end = name_end(reader.bytes, start, count)?;
    reader.at = end;
    Ok(&reader.bytes[start..end])
}

// The state that flags tell: 1 is a start state, 2 an accepting state, 3 both. A function and no `From`, as not every number is flags of a state.
fn state_of(flags: u32) -> State
    ensures { result ≡ state_of_flags flags }
{
    State {
        start: flags % 2 == 1,
        accepting: 2 <= flags,
    }
}

// A value that is read from a card with a name.
pub(crate) trait OnCard: Copy {
    // the card that begins at a place
    ghost card_at: { List ℕ → ℕ → Result (Read (NamedValue Self)) CardFault };

    // Reads the card that begins at the place.
    fn read_card<'a>(reader: &mut Reader<'a>) -> Result<Named<'a, Self>, CardFault>
        ensures value { read_to (named_of result) reader.new.at ≡ card_at reader.old.bytes.now reader.old.at }
        ensures kept { reader.new.bytes ≡ reader.old.bytes }
        ensures within { IfOk result (λ n. (length n.name.now ≤ reader.new.at) × (reader.new.at ≤ length reader.old.bytes.now)) };
}

impl OnCard for Line {
    ghost card_at = { line_at };

    fn read_card<'a>(reader: &mut Reader<'a>) -> Result<Named<'a, Line>, CardFault> {
        let cost = reader.read_field(1, 1000)? as u16;
        let chance = reader.read_field(0, 100)? as u8;
        let name = read_name(reader)?;
        Ok(Named {
            value: Line { cost, chance },
            name,
        })
    }
}

impl OnCard for State {
    ghost card_at = { state_at };

    fn read_card<'a>(reader: &mut Reader<'a>) -> Result<Named<'a, State>, CardFault> {
        let value = state_of(reader.read_field(0, 3)?);
        let name = read_name(reader)?;
        Ok(Named { value, name })
    }
}

// Reads a move between states up to `highest`.
pub(crate) fn read_move(reader: &mut Reader, highest: u8) -> Result<Move, CardFault>
    ensures value { read_to result reader.new.at ≡ move_among reader.old.bytes.now reader.old.at highest }
    ensures kept { reader.new.bytes ≡ reader.old.bytes }
{
    let from = reader.read_field(0, u32::from(highest))? as u8;
    let cell = reader.read_field(0, 728)? as u16;
    let to = reader.read_field(0, u32::from(highest))? as u8;
    Ok(Move { from, cell, to })
}
