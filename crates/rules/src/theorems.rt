// The theorems that stand on the definitions alone, each on a function that only carries it. The number that such a function answers means nothing.
ghost use Rattle.rules.specs.Theorems.{EndingsReachLive, SafeKeepsEndings, NoEndingStays, PrunedDetermined, SelectedPruned, ServesImplements};
ghost use Rattle.rules.specs.Theorems.{BestFitted, FittedDetermined, MeasuresLawful, ExpectedIsMean, TreesSmall, LayoutStands, StandsDetermined};
ghost use Rattle.rules.specs.Theorems.{VerdictShown, HeldMeans, FittedSound, ClearPollsNothing, PromiseDetermined, PromiseKept};

// Endings are runs to live states, and safe states keep them.
pub fn endings_stand() -> u8
    ensures live { EndingsReachLive }
    ensures safe { SafeKeepsEndings }
    ensures none { NoEndingStays }
{
    0
}

// Pruned sets are what events select from the pruned moves.
pub fn pruning_stands() -> u8
    ensures determined { PrunedDetermined }
    ensures selected { SelectedPruned }
    ensures implements { ServesImplements }
{
    0
}

// The best trees are fitted, and the expected cost is the mean.
pub fn fitting_stands() -> u8
    ensures best { BestFitted }
    ensures determined { FittedDetermined }
    ensures lawful { MeasuresLawful }
    ensures mean { ExpectedIsMean }
{
    0
}

// Trees fit in their nodes, stand where they are laid out, and are determined by their nodes.
pub fn layouts_stand() -> u8
    ensures small { TreesSmall }
    ensures stands { LayoutStands }
    ensures determined { StandsDetermined }
{
    0
}

// The verdict read from the held sets is the one to be shown.
pub fn verdicts_stand() -> u8
    ensures shown { VerdictShown }
    ensures held { HeldMeans }
    ensures sound { FittedSound }
    ensures clear { ClearPollsNothing }
{
    0
}

// The whole promise has one outcome, and can be kept.
pub fn promises_stand() -> u8
    ensures determined { PromiseDetermined }
    ensures possible { PromiseKept }
{
    0
}
