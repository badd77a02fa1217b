// What is wrong with a rule file, and why its check refuses.
ghost use Rattle.std.specs.Prelude.{◌≡◌};
ghost use Rattle.rulefile.specs.declared.fault.FileFault.{FileFault};
ghost use Rattle.rulefile.specs.declared.fault.Refusal.{Refusal};
ghost use Rattle.rulefile.specs.Fault.{file_report, refusal_number, refusal_place};

use codec::fault::{CardFault, Layer, NumberFault, RangeFault, Report};

// A file that cannot be read. A fault of a card or of a number is carried whole.
#[derive(Clone, Copy)]
pub enum FileFault {
    // one of its cards cannot be read
    Card(CardFault),
    // its version or one of its counts cannot be read
    Number(NumberFault),
    // the bytes end where a card or a count should begin
    Short { place: usize },
    // the version or a count is outside its range
    Range { place: usize },
    // a move does not stand above the one before
    Order { place: usize },
    // bytes stand after the last move
    Trailing { place: usize },
    // no state is a start state
    NoStart { place: usize },
}

// Why the check refuses: the lists that it was lent are too short, or the file has a fault.
#[derive(Clone, Copy)]
pub enum Refusal {
    FewStateRecords,
    FewMoveRecords,
    File(FileFault),
}

// A number's fault, carried whole. A `From` of its own: what a derive writes has no contract, and callers of `?` are to know which fault they carry.
impl From<NumberFault> for FileFault {
    ghost from_gives = { λ x y. y ≡ FileFault.Number x };

    fn from(fault: NumberFault) -> FileFault {
        FileFault::Number(fault)
    }
}

// The version and the counts of a file have a range.
impl RangeFault for FileFault {
    ghost short = { λ place. FileFault.Short place };

    ghost carried = { λ fault. FileFault.Number fault };

    ghost outside = { λ place. FileFault.Range place };

    fn short(place: usize) -> Self {
        Self::Short { place }
    }

    fn outside(place: usize) -> Self {
        Self::Range { place }
    }

    ghost carries = { λ fault given is. is };
}

// A card's fault, carried whole.
impl From<CardFault> for FileFault {
    ghost from_gives = { λ x y. y ≡ FileFault.Card x };

    fn from(fault: CardFault) -> FileFault {
        FileFault::Card(fault)
    }
}

// A file's fault, as the reason of a refusal.
impl From<FileFault> for Refusal {
    ghost from_gives = { λ x y. y ≡ Refusal.File x };

    fn from(fault: FileFault) -> Refusal {
        Refusal::File(fault)
    }
}

impl FileFault {
    // The number, place and layer of the fault; those of the card's or number's fault where it carries one. A method and no `From`, since it tells of
    // the fault and does not turn it into another thing.
    pub fn report(self) -> Report
        ensures { result ≡ file_report self }
    {
        let (number, place) = match self {
            FileFault::Card(fault) => return fault.report(),
            FileFault::Number(fault) => return fault.report(),
            FileFault::Short { place } => (11, place),
            FileFault::Range { place } => (13, place),
            FileFault::Order { place } => (15, place),
            FileFault::Trailing { place } => (16, place),
            FileFault::NoStart { place } => (17, place),
        };
        Report {
            number,
            place,
            layer: Layer::File,
        }
    }
}

impl Refusal {
    // The refusal's number. A method and no `From`: `u8::from` would not say which number.
    pub fn number(self) -> u8
        ensures { result ≡ refusal_number self }
    {
        match self {
            Refusal::FewStateRecords => 21,
            Refusal::FewMoveRecords => 22,
            Refusal::File(fault) => fault.report().number,
        }
    }

    // The byte place that the refusal is about, where it has one.
    pub fn place(self) -> Option<usize>
        ensures { result ≡ refusal_place self }
    {
        match self {
            Refusal::FewStateRecords => None,
            Refusal::FewMoveRecords => None,
            Refusal::File(fault) => Some(fault.report().place),
        }
    }
}
