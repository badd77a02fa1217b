// Refusals as lines of text.
ghost use Rattle.std.specs.Prelude.{◌≡◌, Some};
ghost use Rattle.listing.specs.Text.{refused_text};
ghost use Rattle.codec.specs.Fault.{card_report};
ghost use Rattle.rulefile.specs.Fault.{refusal_number, refusal_place};

use codec::fault::CardFault;
use rulefile::fault::Refusal;
use std::fmt;

// What the program tells of a file that it refuses: a number, and the byte place that it is about, where there is one.
#[derive(Clone, Copy)]
pub(crate) struct Refused {
    pub(crate) number: u8,
    pub(crate) place: Option<usize>,
}

// The file is missing, cannot be read or is too long.
pub(crate) const UNREADABLE: Refused = Refused {
    number: 24,
    place: None,
};

impl From<Refusal> for Refused {
    ghost from_gives = { λ x y. (y.number ≡ refusal_number x) × (y.place ≡ refusal_place x) };

    fn from(refusal: Refusal) -> Refused {
        Refused {
            number: refusal.number(),
            place: refusal.place(),
        }
    }
}

impl From<CardFault> for Refused {
    ghost from_gives = { λ x y. (y.number ≡ (card_report x).number) × (y.place ≡ Some (card_report x).place) };

    fn from(fault: CardFault) -> Refused {
        let report = fault.report();
        Refused {
            number: report.number,
            place: Some(report.place),
        }
    }
}

impl fmt::Display for Refused {
    ghost output = { λ refused. Some (refused_text refused.number refused.place) };

    fn fmt<W: fmt::Write>(&self, f: &mut fmt::Formatter<W>) -> fmt::Result {
        let number = self.number;
        match self.place {
            None => write!(f, "refused {number}"),
            Some(place) => write!(f, "refused {number} at {place}"),
        }
    }
}
