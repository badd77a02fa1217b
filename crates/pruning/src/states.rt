// Sets of states, bit q for the state q.
ghost use Rattle.std.specs.Prelude.{◌≡◌, ℕ, ◌^◌, ◌<◌, ◌≤◌, false, if◌then◌else◌, Some, None, MatchOption, nat_eq, slice_get};
ghost use Rattle.events.specs.Sets.{has};
ghost use Rattle.pruning.specs.Computed.{meets, lowest_member, settled};

use events::contains;
use rulefile::record::StateRecord;
use rules::State;

// How many states a set can hold.
pub(crate) const WIDTH: u8 = 32;

// Whether a state is a member of the set.
pub(crate) fn holds(set: u32, state: u8) -> bool
    ensures { result ≡ has set state }
{
    contains(u64::from(set), state)
}

// Whether two sets have a common member.
pub(crate) fn meet(a: u32, b: u32) -> bool
    ensures { result ≡ meets a b }
{
    a & b != 0
}

// The set of one state. A number above 31 is no state, and its set is empty.
pub fn only(state: u8) -> u32
    ensures one { state < 32 → result ≡ 2 ^ state }
    ensures none { 32 ≤ state → result ≡ 0 }
{
    if state < WIDTH { 1 << state } else { 0 }
}

// The states that pass a test.
pub(crate) fn states_where<F: Fn(u8) -> bool>(test: F) -> u32
    requires { (q : ℕ) → q < 32 → F.pre test q }
    ensures { (q : ℕ) → q < 32 → F.post test q (has result q) }
{
    let mut set = 0;
    for q in 0..WIDTH {
        if test(q) {
            set |= only(q);
        }
    }
    set
}

// The states whose records pass a test, bit q for the record at the place q. Records past the 32nd are left out.
pub(crate) fn states_with<F: Fn(State) -> bool>(records: &[StateRecord], test: F) -> u32
    requires { F.IsAlwaysCallable test }
    ensures { (q : ℕ) → q < 32 → MatchOption (slice_get records.now q) (has result q ≡ false) (λ r. F.post test r.value (has result q)) }
{
    states_where(
        |q|
            requires { F.IsAlwaysCallable test }
            ensures { MatchOption (slice_get records.entry.now q) (result ≡ false) (λ r. F.post test r.value result) }
        {
            records
                .get(q as usize)
                .is_some_and(|record| test(record.value))
        },
    )
}

// What a step makes of a set, round by round, until a round changes nothing, or for 32 rounds.
pub(crate) fn settle<F: Fn(u32) -> u32>(seed: u32, step: F) -> u32
    requires { F.IsAlwaysCallable step }
    ensures { (g : ℕ → ℕ) → ((set next : ℕ) → set < 2 ^ 32 → F.post step set next → next ≡ g set) → result ≡ settled g seed }
{
    let mut set = seed;
    for _round in 0..WIDTH {
        let next = step(set);
        if next == set {
            return set;
        }
        set = next;
    }
    set
}

// The lowest member of the set, if it has any.
pub(crate) fn first(set: u32) -> Option<u8>
    ensures { result ≡ (if nat_eq set 0 then None else Some (lowest_member set)) }
{
    (set != 0).then(|| set.trailing_zeros() as u8)
}
