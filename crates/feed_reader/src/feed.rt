//! Reading a feed.
ghost use Rattle.std.specs.Prelude.{◌≡◌, ◌≤◌, List, ℕ, Some, length};
ghost use Rattle.gx_station.specs.declared.source.TheConstants.{LEAST_READ};
ghost use Rattle.level_feed.specs.Lines.{listing_of};
ghost use Rattle.level_feed.specs.Tables.{empty_table};
ghost use Rattle.feed_reader.specs.Feeds.{ReadsFeed, read_into};
ghost use Rattle.feed_reader.specs.WholeFeeds.{IsReadAs};

use crate::reading::Reading;
use crate::unread::Unread;
use gx_station::{Failed, LEAST_READ, Source};
use level_feed::FeedTable;
use product_file::Product;

/// How many bytes a feed has at most.
pub const MOST_FEED: u64 = 268_435_456;

/// Reads a feed to its end into a new table. It is Ok if the feed has a snapshot, ends after a whole block, and has no line with a fault.
/// A line ends with a line feed, and has at most 128 bytes with it. The reads may cut the bytes anywhere: the answer is that of the bytes
/// of the input, or of those before a read that failed.
///
/// A fault in a line that was read is answered before a read that fails after it, and before the end of the input. It ends since each
/// turn takes a byte, of at most `MOST_FEED`. `chunk` is what a read places its bytes in, and has at least `LEAST_READ`. No memory is
/// taken. After an `Err` nothing is said of the table.
pub fn read_feed<I: Source>(
    table: &mut FeedTable,
    product: &Product,
    chunk: &mut [u8],
    input: &mut I,
) -> Result<(), Unread>
    requires new { table.old ≡ record { capacity = product.now.max_orders; table = empty_table } }
    requires room { LEAST_READ ≤ length chunk.old }
    ensures reads { ReadsFeed I.meanings (listing_of product.now) input.old input.new table.new result }
    ensures whole { (all : List ℕ) → I.meanings.left input.old ≡ Some all → IsReadAs (listing_of product.now) all (read_into table.new result) }
{
    let mut reading = Reading::new();
    'reads: loop {
        let count = match input.read(chunk) {
            Ok(count) => count,
            Err(Failed) => return Err(Unread::ReadFault(reading.count())),
        };
        if count == 0 {
            break;
        }
        let room = (MOST_FEED - reading.count()) as usize;
        let most = count.min(room);
        if let Err(broken) = reading.take(table, product, &chunk[..most]) {
            return Err(Unread::Broken(broken.at, broken.fault));
        }
        if most < count {
            return Err(Unread::TooLong);
        }
    }
    if table.inside() {
        return Err(Unread::Cut(reading.block));
    }
    if !reading.kept.is_empty() {
        return Err(Unread::Cut(reading.at));
    }
    if table.number().is_none() {
        return Err(Unread::NoSnapshot);
    }
    Ok(())
}
