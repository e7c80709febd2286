//! The memory of a command that reads each record of a journal.
use book_recovery::Scratch;
use exec_report::ReportBuffer;
use order_kinds::Core;
use plain_book::Book;

/// What a command needs that reads each record of a journal: all is new when it begins.
#[derive(Drop)]
pub struct Reader<B: Book> {
    /// Holds the payload and the messages of one record.
    pub scratch: Scratch,
    /// The messages are applied to it.
    pub core: Core<B>,
    /// Book images are read into it, and passed by.
    pub spare: Core<B>,
    /// What waits to be sent.
    pub reports: ReportBuffer,
}
