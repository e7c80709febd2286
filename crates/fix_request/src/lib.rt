//! Requests: each message that a client sends is read as exactly one, or refused by the first session rule that it breaks.
#![tactic(auto)]

mod blank;
mod digits;
mod fault;
mod fields;
mod forms;
mod header;
mod lists;
mod lookup;
mod message_type;
mod orders;
mod read;
mod refusal;
mod request;
mod session_changes;
mod slots;
mod tags;
mod texts;
mod values;

pub use fault::Fault;
pub use lookup::first_value;
pub use read::{read_request, read_request_into, read_sender};
pub use refusal::refuse_content;
pub use request::{
    CancelOrder, Named, NewOrder, Px, Refusal, ReplaceOrder, Request, Sender, SessionChange,
};
