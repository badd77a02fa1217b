// The worked cases, on one contract.
ghost use Rattle.worked.specs.Cases.{WorkedCases};

// Every worked case, from the definitions. The number that is answered means nothing.
pub fn cases_stand() -> u8
    ensures { WorkedCases }
{
    0
}
