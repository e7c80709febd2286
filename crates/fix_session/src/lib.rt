//! Sessions of firms that connect again: what each session message is answered, and the report lines that are sent again.
#![tactic(auto)]

mod again;
mod answer;
mod asked;
mod laws;
mod line;
mod needs;
mod sessions;

pub use again::{AgainEmit, AgainForm, ReportRange};
pub use answer::{LogoutText, SessionAnswer, SessionBody, SessionLine, SessionRule};
pub use laws::{lines_again_are_lines, sessions_go_on};
pub use line::write_session;
pub use sessions::{FirmSession, Sessions};
