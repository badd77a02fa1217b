// Measures: what a fork of a polling tree is priced at, from five numbers.
ghost use Rattle.std.specs.Prelude.{◌≡◌, ℕ, suc, ◌+◌, ◌-◌, ◌*◌, ◌^◌, ◌<◌, ◌≤◌, MatchOption};
ghost use Rattle.rules.specs.trees.Costs.{Price, Priced, bound, expected, worst};
ghost use Rattle.rules.proofs.trees.MeasureLaws.{expected_lawful, worst_lawful};

// The five numbers of a fork: what a poll of its line costs and its line's chance of being on, in hundredths; how many lines are not polled above
// the fork, its own among them; and the costs of its on part and its off part. No other numbers are priced.
#[derive(Clone, Copy)]
pub struct ForkNumbers {
    pub cost: u16,
    pub chance: u8,
    pub unpolled: u8,
    pub on: u64,
    pub off: u64,
    ghost cost_low: { 1 ≤ cost },
    ghost cost_high: { cost ≤ 1000 },
    ghost chance_high: { chance ≤ 100 },
    ghost some: { 1 ≤ unpolled },
    ghost few: { unpolled ≤ 6 },
    ghost on_high: { on ≤ bound (unpolled - 1) },
    ghost off_high: { off ≤ bound (unpolled - 1) },
}

// The powers of a hundred. A table and no `pow`, by which each would be multiplied out anew at every fork.
const HUNDREDS: [u64; 7] = [
    1,
    100,
    10_000,
    1_000_000,
    100_000_000,
    10_000_000_000,
    1_000_000_000_000,
];

// A hundred to the power of `n`.
fn hundred_to(n: u8) -> u64
    requires { n < 7 }
    ensures { result ≡ 100 ^ n }
{
    HUNDREDS[n as usize]
}

impl ForkNumbers {
    // The most that a part may cost, where `unpolled` lines are not polled above the fork: 1,000 × u × 100^u, with the u that are left to poll.
    fn most(unpolled: u8) -> u64
        requires { (1 ≤ unpolled) × (unpolled ≤ 6) }
        ensures { result ≡ bound (unpolled - 1) }
    {
        let left = unpolled - 1;
        1000 * u64::from(left) * hundred_to(left)
    }

    // The numbers, where they are within their ranges; other numbers make no fork.
    pub fn new(cost: u16, chance: u8, unpolled: u8, on: u64, off: u64) -> Option<ForkNumbers>
        ensures { MatchOption result (1 ≤ unpolled → Priced cost chance (unpolled - 1) on off → ⊥) (λ f. (f.cost ≡ cost) × (f.chance ≡ chance) × (f.unpolled ≡ unpolled) × (f.on ≡ on) × (f.off ≡ off)) }
    {
        if !(1..=1000).contains(&cost) || chance > 100 || !(1..=6).contains(&unpolled) {
            return None;
        }
        let most = Self::most(unpolled);
        if on > most || off > most {
            return None;
        }
        Some(ForkNumbers {
            cost,
            chance,
            unpolled,
            on,
            off,
        })
    }
}

// A measure prices forks.
pub trait Measure {
    // the price, from the line's cost and chance, the count of lines not polled above, and the costs of the on and the off part
    ghost price: { Self → Price };

    // The price of a fork.
    fn price(&self, fork: ForkNumbers) -> u64
        ensures { result ≡ price self.now fork.cost fork.chance fork.unpolled fork.on fork.off };

    // raising the cost of a part never lowers the price
    ghost rises: { (m : Self) (c p u on off on' off' : ℕ) → Priced c p u on' off' → on ≤ on' → off ≤ off' → price m c p (suc u) on off ≤ price m c p (suc u) on' off' };

    // the price is within the bound
    ghost bounded: { (m : Self) (c p u on off : ℕ) → Priced c p u on off → price m c p (suc u) on off ≤ bound (suc u) };
}

// The expected cost: the line's own, and each part's by its chance.
#[derive(Clone, Copy)]
pub struct Expected;

impl Measure for Expected {
    ghost price = { λ _. expected };

    ghost rises = { λ m. expected_lawful.rises };

    ghost bounded = { λ m. expected_lawful.bounded };

    fn price(&self, fork: ForkNumbers) -> u64 {
        let chance = fork.chance as u64;
        let own = fork.cost as u64 * hundred_to(fork.unpolled);
        own + chance * fork.on + (100 - chance) * fork.off
    }
}

// The worst cost: the line's own, and the dearer part's.
#[derive(Clone, Copy)]
pub struct Worst;

impl Measure for Worst {
    ghost price = { λ _. worst };

    ghost rises = { λ m. worst_lawful.rises };

    ghost bounded = { λ m. worst_lawful.bounded };

    fn price(&self, fork: ForkNumbers) -> u64 {
        fork.cost as u64 + fork.on.max(fork.off)
    }
}
