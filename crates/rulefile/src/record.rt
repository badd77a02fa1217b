// The records that the check writes. A name stays in the file; a record says where it lies.
use rules::{Line, State};

// Where a name lies in the file. A place and a length and no slice: records stand in fixed memory that is lent and written over, and borrow nothing.
#[derive(Clone, Copy, Default, PartialEq, Eq)]
pub struct Name {
    pub at: usize,
    pub len: usize,
}

// A value, and where its name lies in the file.
#[derive(Clone, Copy, Default, PartialEq, Eq)]
pub struct Record<T> {
    pub value: T,
    pub name: Name,
}

// The record of a line card.
pub type LineRecord = Record<Line>;

// The record of a state card.
pub type StateRecord = Record<State>;

// How many records a good file fills.
#[derive(Clone, Copy, Default, PartialEq, Eq)]
pub struct Counts {
    pub states: u32,
    pub moves: u32,
}
