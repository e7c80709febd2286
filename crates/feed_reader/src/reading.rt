//! The lines of the bytes that are read, also those that two reads give.
ghost use Rattle.std.specs.Prelude.{◌≡◌, ◌+◌, ◌<◌, ◌≤◌, [], ◌∷◌, ◌++◌, IfErr, OnErr, OnOk, length};
ghost use Rattle.level_feed.specs.Lines.{listing_of};
ghost use Rattle.level_feed.specs.Tables.{text_taken, longest_line};
ghost use Rattle.level_feed.specs.Inner.{Took};
ghost use Rattle.level_feed.specs.declared.fault.FeedFault.TheVariants.{Form};
ghost use Rattle.feed_reader.specs.Inner.{HasNoEnd, IsFront, GoesOn, IsBrokenAt, end_of};
ghost use Rattle.feed_reader.specs.declared.feed.TheConstants.{MOST_FEED};

use crate::feed::MOST_FEED;
use crate::line::split_line;
use arrayvec::ArrayVec;
use level_feed::{FeedFault, FeedTable, LONGEST_FEED_LINE};
use product_file::Product;
use std::marker::Model;

/// The front of a line of which no line feed was read.
type Front = ArrayVec<u8, LONGEST_FEED_LINE>;

/// A line with a fault.
#[derive(Clone, Copy)]
pub(crate) struct BrokenLine {
    /// Its offset in the feed, in bytes.
    pub(crate) at: u64,
    pub(crate) fault: FeedFault,
}

/// How far a feed is read. Places are offsets in the feed, in bytes.
#[derive(Drop)]
pub(crate) struct Reading {
    /// Where the last block begins.
    pub(crate) block: u64,
    /// Where the line begins that is not whole.
    pub(crate) at: u64,
    /// What was read of that line.
    pub(crate) kept: Front,
}

impl Model for Reading {
    ghost use Rattle.feed_reader.specs.Inner.{Place};

    ghost Value = { Place };

    ghost view = { λ r. record { block = r.block; at = r.at; kept = r.kept.items } };
}

impl Reading {
    /// The front of a feed.
    pub(crate) fn new() -> Reading
        ensures { result ≡ record { block = 0; at = 0; kept = [] } }
    {
        Reading {
            block: 0,
            at: 0,
            kept: ArrayVec::new(),
        }
    }

    /// How many bytes were read.
    pub(crate) fn count(&self) -> u64
        requires { end_of self.now ≤ MOST_FEED }
        ensures { result ≡ end_of self.now }
    {
        self.at + self.kept.len() as u64
    }

    /// Takes all lines that end in these bytes, and keeps what comes after them. An `Err` is the first line with a fault.
    pub(crate) fn take(
        &mut self,
        table: &mut FeedTable,
        product: &Product,
        bytes: &[u8],
    ) -> Result<(), BrokenLine>
        requires capacity { table.old.capacity ≡ product.now.max_orders }
        requires front { IsFront self.old.kept }
        requires few { end_of self.old + length bytes.now ≤ MOST_FEED }
        ensures ok { OnOk result (GoesOn (listing_of product.now) table.old.table self.old bytes.now table.new.table self.new) }
        ensures err { IfErr result (IsBrokenAt (listing_of product.now) table.old.table self.old bytes.now) }
        ensures capacity { table.new.capacity ≡ table.old.capacity }
    {
        let mut rest = bytes;
        while let Some((line, behind)) = split_line(rest) {
            self.take_line(table, product, line)?;
            rest = behind;
        }
        self.keep(rest)
    }

    /// Takes the line that ends with these bytes and a line feed.
    #[inline]
    fn take_line(
        &mut self,
        table: &mut FeedTable,
        product: &Product,
        bytes: &[u8],
    ) -> Result<(), BrokenLine>
        requires capacity { table.old.capacity ≡ product.now.max_orders }
        requires front { IsFront self.old.kept }
        requires one_line { HasNoEnd bytes.now }
        requires few { end_of self.old + length bytes.now < MOST_FEED }
        ensures ok { OnOk result (GoesOn (listing_of product.now) table.old.table self.old (bytes.now ++ 10 ∷ []) table.new.table self.new) }
        ensures err { IfErr result (IsBrokenAt (listing_of product.now) table.old.table self.old (bytes.now ++ 10 ∷ [])) }
        ensures capacity { table.new.capacity ≡ table.old.capacity }
    {
        let begins_block = !table.inside();
        let size = self.kept.len() + bytes.len() + 1;
        if let Err(fault) = take_text(table, product, &mut self.kept, bytes) {
            return Err(BrokenLine { at: self.at, fault });
        }
        if begins_block {
            self.block = self.at;
        }
        self.at += size as u64;
        Ok(())
    }

    /// Keeps the front of a line. An `Err` says that it is too long.
    fn keep(&mut self, bytes: &[u8]) -> Result<(), BrokenLine>
        ensures ok { OnOk result (self.new ≡ record { block = self.old.block; at = self.old.at; kept = self.old.kept ++ bytes.now }) }
        ensures short { OnOk result (length (self.old.kept ++ bytes.now) ≤ longest_line) }
        ensures err { IfErr result (λ broken. broken ≡ record { at = self.old.at; fault = Form }) }
        ensures long { OnErr result (longest_line < length (self.old.kept ++ bytes.now)) }
    {
        match self.kept.try_extend_from_slice(bytes) {
            Ok(()) => Ok(()),
            Err(_) => Err(BrokenLine {
                at: self.at,
                fault: FeedFault::Form,
            }),
        }
    }
}

/// Hands a line to the table: what was kept of it, which is used up, and these bytes. A line that lies whole in the bytes is not
/// copied.
#[inline]
fn take_text(
    table: &mut FeedTable,
    product: &Product,
    kept: &mut Front,
    bytes: &[u8],
) -> Result<(), FeedFault>
    requires capacity { table.old.capacity ≡ product.now.max_orders }
    ensures took { Took result table.new.table (text_taken (listing_of product.now) table.old.table (kept.old.items ++ bytes.now)) }
    ensures kept { OnOk result (kept.new.items ≡ []) }
    ensures capacity { table.new.capacity ≡ table.old.capacity }
{
    if kept.is_empty() {
        return table.line(bytes, product);
    }
    if kept.try_extend_from_slice(bytes).is_err() {
        return Err(FeedFault::Form);
    }
    let taken = table.line(kept.as_slice(), product);
    kept.clear();
    taken
}
