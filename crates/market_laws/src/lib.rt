//! Laws of the market: what the rules imply for every history, whatever its messages are.
#![tactic(auto)]

mod laws;

pub use laws::{
    acts_are_right, cancels_are_never_refused, firms_are_equal, firms_balance, hidden_stays_hidden,
    markets_are_apart, messages_are_served_alike, minimums_are_all_or_nothing,
    no_order_is_left_crossed, no_stop_is_left_reached, nobody_is_traded_through,
    nobody_trades_outside_his_limit, out_means_out, shares_are_in_proportion,
    steps_keep_their_percent, the_first_in_line_trades_first, top_is_first_in_line, trades_are_fit,
};
