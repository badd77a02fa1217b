// The making of a draft from a file and the records that its check wrote. It is total: where something is off, it gives the empty draft.
ghost use Rattle.std.specs.Prelude.{◌≡◌, ◌≤◌, length, IfSome, MatchOption};
ghost use Rattle.rulefile.specs.File.{Contents, outline_of};
ghost use Rattle.rulefile.specs.Draft.{contents_of, draft_of, empty_contents, Agrees, OfFile, draft_rule, empty_rule, plain_line};

use crate::check::has_room;
use crate::draft::Draft;
use crate::outline::{Outline, scan};
use crate::record::{LineRecord, Name, StateRecord};
use crate::rows::{Moves, States, same_rows};
use codec::reader::Reader;
use rules::{Line, Move, State};

// The file of the empty draft: six nameless lines of cost 1 and chance 0, one nameless start state, no moves.
static EMPTY_FILE: [u8; 23] = [
    1, 1, 0, 0, 1, 0, 0, 1, 0, 0, 1, 0, 0, 1, 0, 0, 1, 0, 0, 1, 1, 0, 0,
];

// The one state of the empty draft: a start state without a name.
static EMPTY_STATES: [StateRecord; 1] = [StateRecord {
    value: State {
        start: true,
        accepting: false,
    },
    name: Name { at: 22, len: 0 },
}];

// The moves of the empty draft: none.
static EMPTY_MOVES: [Move; 0] = [];

// A nameless line of cost 1 and chance 0, whose name would stand at `at`.
fn plain_line(at: usize) -> LineRecord
    ensures { result ≡ plain_line at }
{
    LineRecord {
        value: Line { cost: 1, chance: 0 },
        name: Name { at, len: 0 },
    }
}

// The draft of one nameless start state and no moves.
fn empty_draft() -> Draft<'static>
    ensures contents { contents_of result ≡ empty_contents }
    ensures rule { draft_rule result ≡ empty_rule }
{
    Draft {
        file: &EMPTY_FILE,
        lines: [4, 7, 10, 13, 16, 19].map(plain_line),
        states: &EMPTY_STATES,
        moves: &EMPTY_MOVES,
    }
}

// The outline of the file, where it is good and the lists begin with its records.
fn agreed(file: &[u8], states: &[StateRecord], moves: &[Move]) -> Option<Outline>
    ensures room { IfSome result (λ o. (o.states ≤ length states.now) × (o.moves ≤ length moves.now)) }
    ensures found { MatchOption result ((c : Contents) → Agrees file.now states.now moves.now c → ⊥) (λ o. (c : Contents) × Agrees file.now states.now moves.now c × (o ≡ outline_of c)) }
{
    let Ok(()) = has_room(states.len(), moves.len()) else {
        return None;
    };
    let Ok(outline) = scan(file) else {
        return None;
    };
    let listed = Reader {
        bytes: file,
        at: outline.states_at,
    };
    if !same_rows(
        States::default(),
        listed,
        &states[..outline.states as usize],
    ) {
        return None;
    }
    let listed = Reader {
        bytes: file,
        at: outline.moves_at,
    };
    if !same_rows(
        Moves::between(outline.states),
        listed,
        &moves[..outline.moves as usize],
    ) {
        return None;
    }
    Some(outline)
}

// The draft of a good file whose records the lists begin with, as its check leaves them; else the empty draft.
pub fn make_draft<'a>(file: &'a [u8], states: &'a [StateRecord], moves: &'a [Move]) -> Draft<'a>
    ensures good { (c : Contents) → Agrees file.now states.now moves.now c → contents_of result ≡ draft_of file.now c }
    ensures rule { (c : Contents) → Agrees file.now states.now moves.now c → OfFile file.now (draft_rule result) }
    ensures refused { ((c : Contents) → Agrees file.now states.now moves.now c → ⊥) → contents_of result ≡ empty_contents }
{
    let Some(outline) = agreed(file, states, moves) else {
        return empty_draft();
    };
    let n = outline.states as usize;
    let m = outline.moves as usize;
    let lines = outline.lines;
    Draft {
        file,
        lines,
        states: &states[..n],
        moves: &moves[..m],
    }
}
