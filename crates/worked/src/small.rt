// Small rules: their live and safe states, release state and pruned sets.
use crate::drafts::with_draft;
use pruning::Pruning;
use rulefile::draft::Draft;
use std::test::Fail;

// Start 0, accepting 1; each state has a move on every event to a live one.
const BOTH_SAFE: [u8; 34] = [
    1, 1, 0, 0, 1, 0, 0, 1, 0, 0, 1, 0, 0, 1, 0, 0, 1, 0, 0, 2, 1, 0, 2, 0, 3, 0, 0, 0, 0, 1, 1, 1,
    0, 1,
];
// Start and accepting 0; state 1 leads back on odd events only.
const FIRST_SAFE: [u8; 34] = [
    1, 1, 0, 0, 1, 0, 0, 1, 0, 0, 1, 0, 0, 1, 0, 0, 1, 0, 0, 2, 3, 0, 0, 0, 3, 0, 0, 0, 0, 1, 1, 1,
    1, 0,
];
// No accepting state.
const ALL_DEAD: [u8; 44] = [
    1, 1, 0, 0, 1, 0, 0, 1, 0, 0, 1, 0, 0, 1, 0, 0, 1, 0, 0, 4, 1, 0, 0, 0, 0, 0, 0, 0, 5, 0, 0, 1,
    1, 0, 2, 2, 0, 1, 2, 0, 3, 3, 0, 3,
];
// Both states start and accept; state 0 moves on odd events, state 1 on even ones.
const NONE_SAFE: [u8; 37] = [
    1, 1, 0, 0, 1, 0, 0, 1, 0, 0, 1, 0, 0, 1, 0, 0, 1, 0, 0, 2, 3, 0, 3, 0, 4, 0, 1, 0, 0, 1, 1, 1,
    2, 0, 1, 2, 1,
];

// The drawn example.
const DRAWN: [u8; 52] = [
    1, 1, 0, 0, 1, 0, 0, 1, 0, 0, 1, 0, 0, 1, 0, 0, 1, 0, 0, 5, 1, 0, 2, 0, 2, 0, 0, 0, 0, 0, 7, 0,
    1, 1, 0, 1, 3, 0, 2, 2, 1, 0, 1, 2, 2, 2, 3, 0, 3, 4, 0, 1,
];

// The drawn example with one more move, which keeps state 0 safe.
const DRAWN_SAFE: [u8; 55] = [
    1, 1, 0, 0, 1, 0, 0, 1, 0, 0, 1, 0, 0, 1, 0, 0, 1, 0, 0, 5, 1, 0, 2, 0, 2, 0, 0, 0, 0, 0, 8, 0,
    1, 1, 0, 1, 3, 0, 2, 0, 0, 2, 2, 1, 0, 1, 2, 2, 2, 3, 0, 3, 4, 0, 1,
];

// What is told of a draft: its live and safe states, its release state, and the pruned sets of the states 0 and 1 at the events 0 and 1.
#[derive(Clone, Copy, Debug, PartialEq, Eq)]
struct Told {
    live: u32,
    safe: u32,
    release: Option<u8>,
    of_0: [u32; 2],
    of_1: [u32; 2],
}

impl Told {
    // What is told of this draft.
    fn of(draft: &Draft) -> Told {
        let pruning = Pruning::of(draft);
        let sets = pruning.sets(1);
        Told {
            live: pruning.live(),
            safe: pruning.safe(),
            release: pruning.release(),
            of_0: [pruning.set_at(0, 0), pruning.set_at(0, 1)],
            of_1: [sets[0], sets[1]],
        }
    }
}

#[test]
fn both_safe(rt: HostRuntime) -> Result<(), Fail> {
    let told = Told {
        live: 3,
        safe: 3,
        release: Some(0),
        of_0: [1, 1],
        of_1: [0, 0],
    };
    assert_eq!(rt; with_draft(&BOTH_SAFE, Told::of), told);
    Ok(())
}

#[test]
fn first_safe(rt: HostRuntime) -> Result<(), Fail> {
    let told = Told {
        live: 3,
        safe: 1,
        release: Some(0),
        of_0: [1, 1],
        of_1: [0, 1],
    };
    assert_eq!(rt; with_draft(&FIRST_SAFE, Told::of), told);
    Ok(())
}

#[test]
fn all_dead(rt: HostRuntime) -> Result<(), Fail> {
    let told = Told {
        live: 0,
        safe: 0,
        release: None,
        of_0: [0, 0],
        of_1: [0, 0],
    };
    assert_eq!(rt; with_draft(&ALL_DEAD, Told::of), told);
    Ok(())
}

#[test]
fn none_safe(rt: HostRuntime) -> Result<(), Fail> {
    let told = Told {
        live: 3,
        safe: 0,
        release: None,
        of_0: [0, 3],
        of_1: [3, 0],
    };
    assert_eq!(rt; with_draft(&NONE_SAFE, Told::of), told);
    Ok(())
}

#[test]
fn drawn(rt: HostRuntime) -> Result<(), Fail> {
    let told = Told {
        live: 23,
        safe: 18,
        release: Some(1),
        of_0: [4, 2],
        of_1: [2, 2],
    };
    assert_eq!(rt; with_draft(&DRAWN, Told::of), told);
    Ok(())
}

#[test]
fn drawn_safe(rt: HostRuntime) -> Result<(), Fail> {
    let told = Told {
        live: 23,
        safe: 19,
        release: Some(0),
        of_0: [1, 1],
        of_1: [0, 0],
    };
    assert_eq!(rt; with_draft(&DRAWN_SAFE, Told::of), told);
    Ok(())
}
