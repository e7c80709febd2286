//! Laws of the bytes that come and go: made streams are whole messages, reports say what the balance and the ledger speak of, lines that
//! are sent again are reports, and the level feed of a history folds to its levels. The functions change nothing: the clause of each is
//! its law.
#![tactic(auto)]

mod feeds;
mod made_streams;
mod names;
mod reports;
mod resends;

pub use feeds::{amendments_keep_the_feed, feeds_of_histories_fold_to_levels};
pub use made_streams::made_streams_are_messages;
pub use names::names_are_right;
pub use reports::{
    ledger_lines_tell_the_same, orders_refused_end_whole, products_have_names,
    reports_are_messages, reports_balance, reports_write_what_is_told,
};
pub use resends::resends_repeat_reports;
