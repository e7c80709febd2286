//! Laws of the engine's definitions, for every right state and every history: of a match, of stops and of trading sessions, of the balance
//! of reports, of line numbers, and of what changes a level. The functions do nothing: the clause of each is its law.
#![tactic(auto)]

mod balances;
mod level_changes;
mod line_numbers;
mod matches;
mod sessions;

pub use balances::{histories_balance, totals_are_small};
pub use level_changes::levels_change_only_where_told;
pub use line_numbers::{histories_number_lines, lines_rise, no_line_comes_back};
pub use matches::{
    fifo_goes_on, level_matches_end, no_book_is_crossed, no_stop_is_left, nobody_inherits_top,
    shares_fit, stops_end, stops_go_on, sweeps_end, sweeps_go_on,
};
pub use sessions::firms_are_served_as_before;
