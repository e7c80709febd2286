//! Laws of the opening price: of the definitions alone.
ghost use Rattle.open_auction.specs.Laws.{NoPriceOpensMore, TiesFallByTheRules, CandidatesAreThePrices, PairsAddUp};

/// Does nothing: its clause says that no price at all, candidate or not, opens more than the opening price, and that none opens
/// anything where there is no opening price.
pub fn no_price_opens_more()
    ensures { NoPriceOpensMore }
{}

/// Does nothing: its clause says that the opening price is a candidate, and that no candidate is ahead of it by the rules.
pub fn ties_fall_by_the_rules()
    ensures { TiesFallByTheRules }
{}

/// Does nothing: its clause says that the candidates are the prices of the instrument's resting orders.
pub fn candidates_are_the_prices()
    ensures { CandidatesAreThePrices }
{}

/// Does nothing: its clause says that the lots of the pairs at a price add up to its volume, that no buy trades above its price
/// and no sell below, and that, where no two orders have one number, no order gives more than is open of it.
pub fn pairs_add_up()
    ensures { PairsAddUp }
{}
