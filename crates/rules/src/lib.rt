// The records of a rule, and the calls and answers of a watch. The definitions in specs/ say what they mean, and `theorems` what follows from them.
#![tactic(auto)]

ghost use Rattle.std.specs.Prelude.{◌≡◌};
ghost use Rattle.rules.specs.watch.Verdicts.{word_of};
ghost use Rattle.rules.specs.watch.Calls.{number_of, index_of};

mod theorems;

pub use theorems::{
    endings_stand, fitting_stands, layouts_stand, promises_stand, pruning_stands, verdicts_stand,
};

mod display;

// One of the six lines: what a poll of it costs, 1 to 1,000 milliseconds, and its chance of being on, 0 to 100 hundredths. The default, of cost 0, is no
// line: it stands where none is read yet.
#[derive(Clone, Copy, Default, PartialEq, Eq)]
pub struct Line {
    pub cost: u16,
    pub chance: u8,
}

// Whether a run may begin in the state, and whether the state is accepting.
#[derive(Clone, Copy, Default, PartialEq, Eq)]
pub struct State {
    pub start: bool,
    pub accepting: bool,
}

// A move from a state to a state, on each event that the cell covers. States go by number, from 0. Moves are ordered by from-state, then cell, then
// to-state.
#[derive(Clone, Copy, Default, PartialEq, Eq, PartialOrd, Ord)]
pub struct Move {
    pub from: u8,
    pub cell: u16,
    pub to: u8,
}

// A node of a polling tree in a list of nodes: a fork on a line, with the places of its parts, or a leaf with a set of states, bit t for state t.
// Parts are places in the lent list and no boxes, since the product has no heap.
#[derive(Clone, Copy, PartialEq, Eq)]
pub enum Node {
    Fork { line: u8, on: u16, off: u16 },
    Leaf { set: u32 },
}

// What a watch shows, with the count of events at which it came to be so.
#[derive(Clone, Copy, PartialEq, Eq)]
pub enum Verdict {
    Open,
    BreachAt(u32),
    ClearSince(u32),
}

// What a watch keeps between calls: the set of states it holds, the count of events taken since it was last armed, and what it shows.
#[derive(Clone, Copy, PartialEq, Eq)]
pub struct Snapshot {
    pub held: u32,
    pub count: u32,
    pub verdict: Verdict,
}

// A verdict without its count.
#[derive(Clone, Copy, PartialEq, Eq)]
pub enum Word {
    Open,
    Breach,
    Clear,
}

// One call of a watch, as data: the whole promise speaks of lists of calls. A rehearsal tries a list of events.
#[derive(Clone, Copy)]
pub enum Call<'a> {
    Take,
    Look,
    Rehearse(&'a [u8]),
    Rearm,
}

// Why a call is refused.
#[derive(Clone, Copy, PartialEq, Eq)]
pub enum Refusal {
    // 41: a breach stands
    Breached,
    // 42: the source has no event waiting
    NothingWaits,
    // 43: the watch has taken 1,000,000,000 events
    Full,
    // 44: a number above 63 was met in a rehearsal, at this index
    NoEvent { at: usize },
}

// A take's answer: the verdict that the watch then shows, and the set of the lines polled, bit i for line i.
#[derive(Clone, Copy, PartialEq, Eq)]
pub struct Taken {
    pub verdict: Verdict,
    pub polled: u8,
}

// A look's answer: what the watch shows, and how many events it has taken since it was last armed.
#[derive(Clone, Copy, PartialEq, Eq)]
pub struct Shown {
    pub verdict: Verdict,
    pub count: u32,
}

// A rehearsal's answer: the word that it came to, and how many events were tried.
#[derive(Clone, Copy, PartialEq, Eq)]
pub struct Tried {
    pub word: Word,
    pub count: usize,
}

// What a call answers where it is not refused.
#[derive(Clone, Copy, PartialEq, Eq)]
pub enum Answer {
    Taken(Taken),
    Shown(Shown),
    Tried(Tried),
    Armed,
}

impl Verdict {
    // The verdict's word. A method and no `From`, since a verdict has a count as well, and its word is a part of it.
    pub fn word(self) -> Word
        ensures { result ≡ word_of self }
    {
        match self {
            Verdict::Open => Word::Open,
            Verdict::BreachAt(_) => Word::Breach,
            Verdict::ClearSince(_) => Word::Clear,
        }
    }
}

impl Refusal {
    // The number that the refusal is told by. A method and no `From`: `u8::from` would not say which number.
    pub fn number(self) -> u8
        ensures { result ≡ number_of self }
    {
        match self {
            Refusal::Breached => 41,
            Refusal::NothingWaits => 42,
            Refusal::Full => 43,
            Refusal::NoEvent { .. } => 44,
        }
    }

    // The index that is told with it, where there is one.
    pub fn index(self) -> Option<usize>
        ensures { result ≡ index_of self }
    {
        match self {
            Refusal::NoEvent { at } => Some(at),
            _ => None,
        }
    }
}
