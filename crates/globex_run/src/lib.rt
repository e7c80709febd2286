//! A run: messages in, reports out, and each message kept in a journal before it is answered. The other commands stand beside it.
#![tactic(auto)]

mod amend;
mod answer;
mod checkpoint;
mod drill;
mod ending;
mod execute;
mod give_frames;
mod headline;
mod journal_use;
mod open;
mod opening_prices;
mod outcome;
mod printing;
mod product_text;
mod rebuild;
mod reopening;
mod resender;
mod run;
mod serve;
mod serve_record;
mod session;
mod taken;
mod unamended;

pub use headline::globex_for_run;
pub use journal_use::{opens_journal, writes_journal};
pub use outcome::Outcome;
pub use reopening::{CallOf, execute_behind_a_crash};
pub use run::globex;
