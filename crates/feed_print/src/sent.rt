//! The feed as it is sent, message by message.
ghost use Rattle.std.specs.Prelude.{◌≡◌, [], true, if◌then◌else◌, IfOk, IsErr, OnOk, OnErr};
ghost use Rattle.exec_report.specs.Pushes.{Pushes};
ghost use Rattle.order_kinds.specs.Cores.{FitsProduct};
ghost use Rattle.level_feed.specs.Rows.{difference};
ghost use Rattle.level_feed.specs.Blocks.{last_number, increment, due_snapshot};
ghost use Rattle.level_feed.specs.FeedText.{text_of_blocks};
ghost use Rattle.level_feed.specs.Feeds.{levels_of_state};
ghost use Rattle.level_feed.specs.Noted.{AreNoted};
ghost use Rattle.feed_print.specs.FeedPlaces.{feed_start};
ghost use Rattle.feed_print.specs.FeedTexts.{opening_text, beginning, message_text, next_place};

use exec_report::{ReportBuffer, SendFault, push_text};
use gx_station::Station;
use level_feed::{LevelFeed, NotedLevels};
use order_kinds::Core;
use plain_book::Book;
use product_file::{MOST_ORDERS, Product};
use std::alloc::{AllocError, Global};
use std::marker::Model;

/// How many messages lie between two snapshots.
const SNAPSHOT_EVERY: u64 = 1_000;

/// How a feed begins: with a snapshot of no level.
const OPENING: &[u8] = b"S 0 0\n";

/// Puts out how a feed begins, if it has not begun.
pub(crate) fn push_beginning<S: Station>(
    begun: bool,
    buffer: &mut ReportBuffer,
    station: &mut S,
) -> Result<(), SendFault>
    ensures { Pushes S.meanings station.old station.new buffer.old buffer.new (if begun then [] else opening_text) result }
{
    if begun {
        return Ok(());
    }
    push_text(buffer, station, OPENING)
}

/// A feed on its way: whether it has begun, the number of its last block, and the rows last sent. There is room for the rows of every
/// product.
#[derive(Drop)]
pub(crate) struct SentFeed {
    feed: LevelFeed,
    begun: bool,
    /// The number of the last block.
    last: u64,
}

impl Model for SentFeed {
    ghost use Rattle.feed_print.specs.FeedPlaces.{FeedPlace};

    ghost Value = { FeedPlace };

    ghost use Rattle.std.specs.Prelude.{◌≡◌};
    ghost use Rattle.product_file.specs.declared.limits.TheConstants.{MOST_ORDERS};

    ghost view = { λ s. record { begun = s.begun; last = s.last; rows = s.feed.rows } };

    ghost invariant = { λ s. s.feed.capacity ≡ MOST_ORDERS };
}

impl SentFeed {
    /// A feed of which nothing is sent. An `Err` is want of memory.
    pub(crate) fn new(alloc: Global) -> Result<SentFeed, AllocError>
        ensures { IfOk result (λ sent. sent ≡ feed_start) }
    {
        Ok(SentFeed {
            feed: LevelFeed::new(alloc, MOST_ORDERS)?,
            begun: false,
            last: 0,
        })
    }

    /// Whether the feed has begun.
    pub(crate) fn begun(&self) -> bool
        ensures { result ≡ self.now.begun }
    {
        self.begun
    }

    /// Begins the feed, if it has not begun.
    fn begin<S: Station>(
        &mut self,
        buffer: &mut ReportBuffer,
        station: &mut S,
    ) -> Result<(), SendFault>
        ensures pushes { Pushes S.meanings station.old station.new buffer.old buffer.new (beginning self.old) result }
        ensures place { OnOk result (self.new ≡ record self.old { begun = true }) }
    {
        push_beginning(self.begun, buffer, station)?;
        self.begun = true;
        Ok(())
    }

    /// Puts out what a message has changed, by the core after it.
    fn push_changes<B: Book, S: Station>(
        &mut self,
        noted: &NotedLevels,
        core: &Core<B>,
        product: &Product,
        buffer: &mut ReportBuffer,
        station: &mut S,
    ) -> Result<(), SendFault>
        requires fits { FitsProduct product.now core.now }
        requires noted { AreNoted noted.now self.old.rows (levels_of_state core.now) }
        ensures pushes { Pushes S.meanings station.old station.new buffer.old buffer.new
            (text_of_blocks product.now.names.instruments (increment core.now.desk.messages self.old.last (difference self.old.rows (levels_of_state core.now)))) result }
        ensures place { OnOk result (self.new ≡ record self.old {
          last = last_number self.old.last (increment core.now.desk.messages self.old.last (difference self.old.rows (levels_of_state core.now)));
          rows = levels_of_state core.now;
        }) }
    {
        product.limits();
        let number = core.messages();
        if self.feed.push_step(
            noted,
            core.book(),
            product,
            number,
            self.last,
            buffer,
            station,
        )? {
            self.last = number;
        }
        Ok(())
    }

    /// Puts out the snapshot after a message, if one is due.
    fn push_due<S: Station>(
        &mut self,
        product: &Product,
        number: u64,
        buffer: &mut ReportBuffer,
        station: &mut S,
    ) -> Result<(), SendFault>
        ensures pushes { Pushes S.meanings station.old station.new buffer.old buffer.new (text_of_blocks product.now.names.instruments (due_snapshot number self.old.rows)) result }
        ensures place { OnOk result (self.new ≡ record self.old { last = last_number self.old.last (due_snapshot number self.old.rows) }) }
    {
        if number % SNAPSHOT_EVERY == 0 {
            self.feed.push_snapshot(product, number, buffer, station)?;
            self.last = number;
        }
        Ok(())
    }

    /// Tells of a message, by the core after it and the levels that it may have changed: the beginning of the feed, what the message has
    /// changed, and a snapshot if one is due.
    fn tell<B: Book, S: Station>(
        &mut self,
        noted: &NotedLevels,
        core: &Core<B>,
        product: &Product,
        buffer: &mut ReportBuffer,
        station: &mut S,
    ) -> Result<(), SendFault>
        requires fits { FitsProduct product.now core.now }
        requires noted { AreNoted noted.now self.old.rows (levels_of_state core.now) }
        ensures pushes { Pushes S.meanings station.old station.new buffer.old buffer.new (message_text product.now core.now.desk.messages (levels_of_state core.now) self.old) result }
        ensures place { OnOk result (self.new ≡ next_place core.now.desk.messages (levels_of_state core.now) self.old) }
    {
        self.begin(buffer, station)?;
        self.push_changes(noted, core, product, buffer, station)?;
        self.push_due(product, core.messages(), buffer, station)
    }

    /// Tells of a message, unless a send has failed before.
    pub(crate) fn tell_next<B: Book, S: Station>(
        &mut self,
        told: Result<(), SendFault>,
        noted: &NotedLevels,
        core: &Core<B>,
        product: &Product,
        buffer: &mut ReportBuffer,
        station: &mut S,
    ) -> Result<(), SendFault>
        requires fits { FitsProduct product.now core.now }
        requires noted { OnOk told (AreNoted noted.now self.old.rows (levels_of_state core.now)) }
        ensures failed { OnErr told (IsErr result × (station.new ≡ station.old)) }
        ensures pushes { OnOk told (Pushes S.meanings station.old station.new buffer.old buffer.new (message_text product.now core.now.desk.messages (levels_of_state core.now) self.old) result) }
        ensures place { OnOk told (OnOk result (self.new ≡ next_place core.now.desk.messages (levels_of_state core.now) self.old)) }
    {
        told?;
        self.tell(noted, core, product, buffer, station)
    }
}
