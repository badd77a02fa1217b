// The cards of a draft, in their order.
ghost use Rattle.std.specs.Prelude.{◌≡◌};
ghost use Rattle.std.specs.List.{enumerate_from};
ghost use Rattle.std.specs.Iterator.{YieldsFirstBy, item_count};
ghost use Rattle.rulefile.specs.Draft.{draft_rule, cards_of};
ghost use Rattle.listing.specs.Cards.{numbered_value, cards_left};

use crate::card::NumberedCard;
use rulefile::draft::Draft;

// The cards of a draft from a number on: lines, then states, then moves.
#[derive(Drop)]
pub(crate) struct Cards<'d, 'a> {
    draft: &'d Draft<'a>,
    next: usize,
}

impl<'d, 'a> Cards<'d, 'a> {
    // All cards of the draft.
    pub(crate) fn of(draft: &'d Draft<'a>) -> Cards<'d, 'a>
        ensures { cards_left result ≡ enumerate_from 0 (cards_of (draft_rule draft.now)) }
    {
        Cards { draft, next: 0 }
    }
}

impl<'a> Iterator for Cards<'_, 'a> {
    type Item = NumberedCard<'a>;

    ghost next_gives = { YieldsFirstBy numbered_value cards_left };

    ghost remaining = { item_count cards_left };

    #[tactic(auto, using(crate::proofs::Lines::numbered_more, crate::proofs::Lines::numbered_end))]
    fn next(&mut self) -> Option<NumberedCard<'a>> {
        let number = self.next;
        let card = self.draft.card(number)?;
        self.next += 1;
        Some(NumberedCard { number, card })
    }
}
