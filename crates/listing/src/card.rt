// Cards as lines of text.
ghost use Rattle.std.specs.Prelude.{Some};
ghost use Rattle.rulefile.specs.Draft.{card_value};
ghost use Rattle.listing.specs.Text.{numbered_text};

use rulefile::card::Card;
use std::fmt;

// How many lines a rule has. Their cards come first, so a state's own number is so much less than its card's.
const LINES: usize = 6;

// A card with its number among the cards of its rule.
#[derive(Clone, Copy)]
pub(crate) struct NumberedCard<'a> {
    pub(crate) number: usize,
    pub(crate) card: Card<'a>,
}

// A line or a state by its own number, and a move without one.
impl fmt::Display for NumberedCard<'_> {
    ghost output = { λ card. Some (numbered_text card.number (card_value card.card)) };

    fn fmt<W: fmt::Write>(&self, f: &mut fmt::Formatter<W>) -> fmt::Result {
        match self.card {
            Card::Line(card) => write!(f, "line {} {card}", self.number),
            Card::State(card) => write!(f, "state {} {card}", self.number.saturating_sub(LINES)),
            Card::Move(step) => write!(f, "move {step}"),
        }
    }
}
