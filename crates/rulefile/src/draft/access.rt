// What a draft tells: its lines, states and moves, with their names, card by card.
ghost use Rattle.std.specs.Prelude.{◌≡◌, length, map};
ghost use Rattle.std.specs.List.{slice_get};
ghost use Rattle.rulefile.specs.Records.{named_value};
ghost use Rattle.rulefile.specs.Rule.{name_in, named_in};
ghost use Rattle.rulefile.specs.Draft.{draft_rule, named_option, card_option, cards_of};

use crate::card::{Card, LineCard, Named, StateCard};
use crate::draft::Draft;
use crate::record::{Name, Record, StateRecord};
use rules::{Line, Move};

// The bytes of a name that lies in the file, as far as the file has them.
fn part<'a>(file: &'a [u8], name: Name) -> &'a [u8]
    ensures { result.now ≡ name_in file.now name }
{
    let rest = &file[name.at.min(file.len())..];
    &rest[..name.len.min(rest.len())]
}

// A value with its name, from its record.
fn named<'a, T: Copy>(file: &'a [u8], place: &Record<T>) -> Named<'a, T>
    ensures { named_value result ≡ named_in file.now place.now }
{
    let name = part(file, place.name);
    Named {
        value: place.value,
        name,
    }
}

impl<'a> Draft<'a> {
    // The bytes of a name of this draft's file.
    pub fn name(&self, name: Name) -> &'a [u8]
        ensures { result.now ≡ name_in self.now.file.now name }
    {
        part(self.file, name)
    }

    // The line with the number `i`, of 0 to 5.
    pub fn line(&self, i: usize) -> Option<LineCard<'a>>
        ensures { named_option result ≡ slice_get (draft_rule self.now).lines i }
    {
        self.lines.get(i).map(|line| named(self.file, line))
    }

    // The state with the number `i`, from 0.
    pub fn state(&self, i: usize) -> Option<StateCard<'a>>
        ensures { named_option result ≡ slice_get (draft_rule self.now).states i }
    {
        self.states.get(i).map(|state| named(self.file, state))
    }

    // The six lines, without their names.
    pub fn lines(&self) -> [Line; 6]
        ensures { result ≡ map (λ l. l.value) (draft_rule self.now).lines }
    {
        self.lines.map(|line| line.value)
    }

    // The records of the states, in their order.
    pub fn states(&self) -> &'a [StateRecord]
        ensures { result.now ≡ self.now.states.now }
    {
        self.states
    }

    // The moves, in their order.
    pub fn moves(&self) -> &'a [Move]
        ensures { result.now ≡ (draft_rule self.now).moves }
    {
        self.moves
    }

    // The card with the number `i`: the lines come first, then the states, then the moves.
    pub fn card(&self, i: usize) -> Option<Card<'a>>
        ensures { card_option result ≡ slice_get (cards_of (draft_rule self.now)) i }
    {
        let Some(past_lines) = i.checked_sub(self.lines.len()) else {
            return Some(Card::Line(self.line(i)?));
        };
        let Some(past_states) = past_lines.checked_sub(self.states.len()) else {
            return Some(Card::State(self.state(past_lines)?));
        };
        Some(Card::Move(*self.moves.get(past_states)?))
    }
}
