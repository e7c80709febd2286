//! The level feed as the work on the messages of each record.
ghost use Rattle.std.specs.Prelude.{◌≡◌, IfOk};
ghost use Rattle.feed_print.specs.FeedPlaces.{feed_start};

use crate::applying::apply_noting;
use crate::sent::{SentFeed, push_beginning};
use exec_report::{ReportBuffer, SendFault, send_waiting};
use fix_frame::Framer;
use fix_request::read_request;
use gx_station::Station;
use journal_print::RecordWork;
use level_feed::NotedLevels;
use order_kinds::Core;
use plain_book::Book;
use product_file::Product;
use std::alloc::{AllocError, Global};
use std::marker::Model;

/// Sends the level feed of the messages of a journal: first a snapshot of no level, then of each message the levels that it changed, and
/// after each thousandth message a snapshot. Contracts see whether the feed has begun, the number of its last block, and the rows last
/// sent.
#[derive(Drop)]
pub struct FeedWork {
    sent: SentFeed,
    /// The levels that the message may have changed.
    noted: NotedLevels,
}

impl Model for FeedWork {
    ghost use Rattle.feed_print.specs.FeedPlaces.{FeedPlace};

    ghost Value = { FeedPlace };

    ghost view = { λ w. w.sent };
}

impl FeedWork {
    /// A feed of which nothing is sent, with room for the rows of every product. An `Err` is want of memory.
    pub fn new(alloc: Global) -> Result<FeedWork, AllocError>
        ensures { IfOk result (λ work. work ≡ feed_start) }
    {
        Ok(FeedWork {
            sent: SentFeed::new(alloc)?,
            noted: NotedLevels::new(alloc)?,
        })
    }
}

impl RecordWork for FeedWork {
    ghost use Rattle.feed_print.specs.FeedWorks.{feed_work};

    ghost meanings = { feed_work };

    /// Applies the messages and tells of each, until a send fails.
    fn take<B: Book, S: Station>(
        &mut self,
        product: &Product,
        core: &mut Core<B>,
        framer: &Framer,
        buffer: &mut ReportBuffer,
        station: &mut S,
    ) -> Result<(), SendFault> {
        let mut told = Ok(());
        for number in 0..framer.given_count() {
            let request = read_request(framer.given(number), product);
            apply_noting(core, product, &request, &mut self.noted);
            told = self
                .sent
                .tell_next(told, &self.noted, core, product, buffer, station);
        }
        told?;
        send_waiting(buffer, station)
    }

    /// Begins the feed, if no message has.
    fn finish<S: Station>(
        &self,
        _live: u64,
        buffer: &mut ReportBuffer,
        station: &mut S,
    ) -> Result<(), SendFault> {
        push_beginning(self.sent.begun(), buffer, station)?;
        send_waiting(buffer, station)
    }
}
