// What is wrong with bytes, by layer. A fault of a lower layer is carried whole inside the upper one.
ghost use Rattle.std.specs.Prelude.{◌≡◌, ℕ};
ghost use Rattle.codec.specs.declared.fault.CardFault.{CardFault};
ghost use Rattle.codec.specs.declared.fault.NumberFault.{NumberFault};
ghost use Rattle.codec.specs.Fault.{number_report, card_report};

// The layer in which a fault arises: inside a number, inside a card (or a pair of a log), or in the file around them.
#[derive(Clone, Copy, PartialEq, Eq)]
pub enum Layer {
    Number,
    Card,
    File,
}

// What a fault tells: its number, the byte place that it is about, and its layer. The number is what is told to people, and stands for no case here.
#[derive(Clone, Copy, PartialEq, Eq)]
pub struct Report {
    pub number: u8,
    pub place: usize,
    pub layer: Layer,
}

// A number that cannot be read.
#[derive(Clone, Copy)]
pub enum NumberFault {
    // the bytes end inside the number
    Short { place: usize },
    // the number takes more than three bytes, or more than it needs
    Form { place: usize },
}

// A card, or a pair of a log, that cannot be read.
#[derive(Clone, Copy)]
pub enum CardFault {
    // one of its numbers cannot be read
    Number(NumberFault),
    // the bytes end between two of its parts, or in its name
    Short { place: usize },
    // a value is outside its range
    Range { place: usize },
    // a byte of its name is not from 33 to 126
    NameByte { place: usize },
}

// A number's fault, carried whole. A `From` of its own: what a derive writes has no contract, and callers of `?` are to know which fault they carry.
impl From<NumberFault> for CardFault {
    ghost from_gives = { λ x y. y ≡ CardFault.Number x };

    fn from(fault: NumberFault) -> CardFault {
        CardFault::Number(fault)
    }
}

// A fault of a layer that has numbers with a range.
pub trait RangeFault: From<NumberFault> {
    // the fault of bytes that end before the number
    ghost short: { ℕ → Self };

    // the fault of a number that cannot be read
    ghost carried: { NumberFault → Self };

    // the fault of a number outside its range
    ghost outside: { ℕ → Self };

    // The bytes end where the number should begin.
    fn short(place: usize) -> Self
        ensures { result ≡ short place };

    // The number is outside its range.
    fn outside(place: usize) -> Self
        ensures { result ≡ outside place };

    // what `?` makes of a number's fault is the fault that carries it, as told above
    ghost carries: { (fault : NumberFault) (given : Self) → Self.from_gives fault given → given ≡ carried fault };
}

// The numbers of a card have a range.
impl RangeFault for CardFault {
    ghost short = { λ place. CardFault.Short place };

    ghost carried = { λ fault. CardFault.Number fault };

    ghost outside = { λ place. CardFault.Range place };

    fn short(place: usize) -> Self {
        Self::Short { place }
    }

    fn outside(place: usize) -> Self {
        Self::Range { place }
    }

    ghost carries = { λ fault given is. is };
}

impl NumberFault {
    // The number, place and layer of the fault. A method and no `From`, since it tells of the fault and does not turn it into another thing.
    pub fn report(self) -> Report
        ensures { result ≡ number_report self }
    {
        let (number, place) = match self {
            NumberFault::Short { place } => (11, place),
            NumberFault::Form { place } => (12, place),
        };
        Report {
            number,
            place,
            layer: Layer::Number,
        }
    }
}

impl CardFault {
    // The number, place and layer of the fault; those of the number fault where it carries one. A method and no `From`, as above.
    pub fn report(self) -> Report
        ensures { result ≡ card_report self }
    {
        let (number, place) = match self {
            CardFault::Number(fault) => return fault.report(),
            CardFault::Short { place } => (11, place),
            CardFault::Range { place } => (13, place),
            CardFault::NameByte { place } => (14, place),
        };
        Report {
            number,
            place,
            layer: Layer::Card,
        }
    }
}
