//! The levels that a level feed tells: the feed is read from the input, and the levels at its end are sent. The journal is not touched.
ghost use Rattle.std.specs.Prelude.{◌≡◌, ◌≤◌, [], length, IfOk, OnErr};
ghost use Rattle.gx_station.specs.declared.source.TheConstants.{LEAST_READ};
ghost use Rattle.level_feed.specs.Tables.{empty_table};
ghost use Rattle.globex_run.specs.Outside.{streams_at};
ghost use Rattle.globex_run.specs.Rebuilding.{fault_status, outcome_unread, outcome_rebuilt};
ghost use Rattle.globex_run.specs.Inner.Rebuilt.{RebuildsWithCause};
ghost use Rattle.globex_run.specs.Inner.Statuses.{status_number};

use crate::outcome::{Outcome, Status};
use crate::taken::Taken;
use exec_report::{ReportBuffer, SendFault};
use feed_reader::{MOST_FEED, Unread, read_feed};
use gx_station::{Source, Station};
use level_feed::{FeedFault, FeedTable};
use product_file::Product;
use std::alloc::{AllocError, Global};

/// How many bytes a read has room for.
const CHUNK: usize = 65_536;

/// The status of a line that is not taken.
fn status_of(fault: FeedFault) -> Status
    ensures { status_number result ≡ fault_status fault }
{
    match fault {
        FeedFault::Form => Status::FeedForm,
        FeedFault::Gap(_, _) => Status::FeedGap,
        FeedFault::Full => Status::FeedFull,
    }
}

/// The outcome if the feed was not read to a good end.
fn outcome_unread(why: Unread) -> Outcome
    ensures { result ≡ outcome_unread why }
{
    match why {
        Unread::ReadFault(at) => Status::ReadFault.outcome(at, 0),
        Unread::Broken(at, fault) => status_of(fault).outcome(at, 0),
        Unread::Cut(at) => Status::Truncated.outcome(at, 0),
        Unread::NoSnapshot => Status::NoSnapshot.outcome(0, 0),
        Unread::TooLong => Status::JournalFull.outcome(MOST_FEED, 0),
    }
}

/// The outcome of sending the levels after the block with this number.
fn outcome_rebuilt(number: u64, sent: Result<(), SendFault>) -> Outcome
    ensures { result ≡ outcome_rebuilt number sent }
{
    match sent {
        Ok(()) => Status::Ok.outcome(0, number),
        Err(SendFault) => Status::SendFault.outcome(0, 0),
    }
}

/// Reads the feed that the input is into a new table, and sends the levels at its end. The outcome counts the messages up to the last
/// block.
fn rebuild_into<I: Source, S: Station>(
    table: &mut FeedTable,
    product: &Product,
    chunk: &mut [u8],
    reports: &mut ReportBuffer,
    input: &mut I,
    station: &mut S,
) -> Outcome
    requires new { table.old ≡ record { capacity = product.now.max_orders; table = empty_table } }
    requires room { LEAST_READ ≤ length chunk.old }
    requires empty { reports.old ≡ [] }
    ensures { RebuildsWithCause S.meanings product.now
        (streams_at I.meanings S.meanings input.old station.old) (streams_at I.meanings S.meanings input.new station.new) result }
{
    if let Err(why) = read_feed(table, product, chunk, input) {
        return outcome_unread(why);
    }
    let number = table.number().unwrap_or(0);
    let sent = table.print_levels(product, reports, station);
    outcome_rebuilt(number, sent)
}

/// Takes the memory of a table, and rebuilds the levels of the feed that the input is. An `Err` is want of memory, and nothing was
/// touched then.
pub fn rebuild<I: Source, S: Station>(
    alloc: Global,
    taken: &Taken<'_>,
    input: &mut I,
    station: &mut S,
) -> Result<Outcome, AllocError>
    ensures rebuilds { IfOk result (RebuildsWithCause S.meanings taken.now.product.now
        (streams_at I.meanings S.meanings input.old station.old) (streams_at I.meanings S.meanings input.new station.new)) }
    ensures no_input { OnErr result (input.new ≡ input.old) }
    ensures no_station { OnErr result (station.new ≡ station.old) }
{
    let product = taken.product;
    let mut table = FeedTable::new(alloc, product.max_orders())?;
    let mut chunk = vec![in alloc; 0; CHUNK]?;
    let mut reports = ReportBuffer::new(alloc)?;
    Ok(rebuild_into(
        &mut table,
        product,
        chunk.as_mut_slice(),
        &mut reports,
        input,
        station,
    ))
}
