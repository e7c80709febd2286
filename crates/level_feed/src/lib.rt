//! The displayed levels of a book as a text of snapshots and increments, and the table that reads such a text.
#![tactic(auto)]

mod compare;
mod fault;
mod feed;
mod laws;
mod level_rows;
mod levels;
mod line;
mod noted;
mod picking;
mod printing;
mod reading;
mod row;
mod rows;
mod settling;
mod table;

pub use fault::FeedFault;
pub use feed::LevelFeed;
pub use laws::{feeds_fold_to_levels, feeds_go_on, rows_are_sums};
pub use line::Line;
pub use noted::{MOST_NOTED, NotedLevels};
pub use reading::GREATEST_NUMBER;
pub use row::Row;
pub use table::{FeedTable, LONGEST_FEED_LINE};
