//! Laws of what is offered with times. The functions do nothing.
ghost use Rattle.strict_offers.specs.Laws.{OffersStayGood, RoundsAreOfGoodParts};

use strict_histories::{
    rewriting_adds_few, rewriting_goes_by_place, rewriting_is_well_formed, rewriting_keeps_counts,
};

/// What was offered keeps its bounds, with each fragment that is taken, and with each round.
pub fn offers_stay_good()
    ensures { OffersStayGood }
{}

/// The parts that a round is about keep the rules of parts.
pub fn rounds_are_of_good_parts()
    ensures { RoundsAreOfGoodParts }
{
    // Laws that the proof cites. They do nothing when they run.
    rewriting_adds_few();
    rewriting_goes_by_place();
    rewriting_is_well_formed();
    rewriting_keeps_counts();
}
