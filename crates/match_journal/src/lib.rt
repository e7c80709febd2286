//! The journal of the engine in a station's image: each record is on the disk before its gate is opened, and the gate before
//! the append is answered.
#![tactic(auto)]

mod access;
mod append;
mod class;
mod entry;
mod faults;
mod journal;
mod laws;
mod limits;
mod look;
mod measure;
mod parts;
mod read_text;
mod standing;
mod start;
mod text;
mod version;
mod walk;

pub use access::Access;
pub use entry::{Entry, EntryKind, HEAD};
pub use faults::{AppendFault, StartFault, StoreFault, WalkFault};
pub use journal::Journal;
pub use laws::{
    a_gate_has_one_answer, a_journal_has_one_last_text, a_kept_image_is_not_refused,
    an_image_has_one_answer, an_image_keeps_one_list, the_first_gate_is_written_alone,
};
pub use limits::{
    LEAST_LIMIT, MOST_IMAGE, MOST_LIMIT, MOST_OPENING, MOST_PAYLOAD, MOST_TEXT, MOST_UNFINISHED,
};
pub use version::Version;
