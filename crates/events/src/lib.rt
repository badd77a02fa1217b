// Sets of small numbers, and the events that a cell covers. The definitions in specs/ say what they mean.
#![tactic(auto)]

ghost use Rattle.std.specs.Prelude.{◌≡◌, ℕ, ◌<◌, ◌≤◌, false, ◌&&◌, nat_lt};
ghost use Rattle.events.specs.Cells.{covers, lowest};
ghost use Rattle.events.specs.Laws.{UnionMembers, SharedMembers, NoMembers, OneMember, EveryMember, MembersBelow, SameMembers, TestedMembers, UnionOverMembers};
ghost use Rattle.events.specs.Laws.{CoversTested, LowestCovered, FourCells};
ghost use Rattle.std.specs.Iterator.{YieldsFirst, item_count};
ghost use Rattle.events.specs.Sets.{has, members_of};

mod cells;
mod table;

pub use cells::Cell;

// How many bits a set has.
const WIDTH: u8 = 64;

// The set with no member.
const NO_EVENTS: u64 = 0;

// The events that a cell covers, as a set. A number that is no cell covers none.
pub fn events_of(cell: u16) -> u64
    ensures covered { (e : ℕ) → e < 64 → has result e ≡ (nat_lt cell 729 && covers cell e) }
{
    match Cell::new(cell) {
        Some(cell) => cell.events(),
        None => NO_EVENTS,
    }
}

// The lowest event that a cell covers, and 64 for a number that is no cell. A number and no `Option`, since the call answers every number; where a cell is
// at hand, `Cell::lowest_event` always has an event to tell.
pub fn lowest_event(cell: u16) -> u8
    ensures found { cell < 729 → result ≡ lowest cell }
    ensures none { 729 ≤ cell → result ≡ 64 }
{
    match Cell::new(cell) {
        Some(cell) => cell.lowest_event(),
        None => WIDTH,
    }
}

// Whether a number below 64 is a member of the set.
fn is_set(set: u64, member: u8) -> bool
    requires { member < 64 }
    ensures { result ≡ has set member }
{
    set >> member & 1 == 1
}

// Whether a number is a member of the set. None above 63 is.
pub fn contains(set: u64, member: u8) -> bool
    ensures { result ≡ has set member }
{
    member < WIDTH && is_set(set, member)
}

// The members of a set that are still to come, the lowest first.
#[derive(Drop)]
pub struct Members {
    rest: u64,
}

// The members of a set, in rising order.
pub fn members_of(set: u64) -> Members
    ensures { result.rest ≡ set }
{
    Members { rest: set }
}

impl Iterator for Members {
    type Item = u8;

    ghost next_gives = { YieldsFirst (λ s. members_of s.rest) };

    ghost remaining = { item_count (λ s. members_of s.rest) };

    // The lowest member that is still to come.
    fn next(&mut self) -> Option<u8> {
        if self.rest == 0 {
            return None;
        }
        let lowest = self.rest.trailing_zeros() as u8;
        self.rest &= self.rest - 1;
        Some(lowest)
    }
}

// The laws of sets and cells. The number that is answered means nothing.
pub fn laws_stand() -> u8
    ensures union { UnionMembers }
    ensures shared { SharedMembers }
    ensures none { NoMembers }
    ensures one { OneMember }
    ensures every { EveryMember }
    ensures below { MembersBelow }
    ensures same { SameMembers }
    ensures tested { TestedMembers }
    ensures over { UnionOverMembers }
    ensures covers { CoversTested }
    ensures lowest { LowestCovered }
    ensures cells { FourCells }
{
    0
}
