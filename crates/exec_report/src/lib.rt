//! Lines on their way out: events to report lines or to lines of some other form, lines into a buffer or a log, and the buffer to a
//! station.
#![tactic(auto)]

mod body;
mod byte_emit;
mod head_fields;
mod line;
mod line_emit;
mod line_form;
mod refusals;
mod report_buffer;
mod reported;
mod texts;
mod values;

pub use byte_emit::ByteEmit;
pub use line::write_line;
pub use line_emit::LineEmit;
pub use line_form::{LONGEST_PRINTED, LineForm, ReportForm};
pub use report_buffer::{BUFFER_ROOM, MOST_WAITING, ReportBuffer};
pub use texts::{SendFault, push_text, send_waiting};
pub use values::step_text;
