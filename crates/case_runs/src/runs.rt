//! Commands over sources and a station in memory.
use crate::bytes::words_of;
use globex_run::{Outcome, globex};
use gx_station::{LEAST_READ, MemSource, MemStation, Source};
use std::alloc::{AllocError, Global};

/// The number of a call that there is not.
pub const NEVER: u64 = u64::MAX;

/// What is not as usual in a call.
#[derive(Clone, Copy)]
pub struct Conditions {
    /// How many bytes the first read of the input gives at most.
    pub first: usize,
    /// Whether each read gives one byte.
    pub is_bytewise: bool,
    /// The read of the product that fails, from 1 on.
    pub product_read: u64,
    /// The read of the input that fails.
    pub read: u64,
    /// The call of the station that fails.
    pub call: u64,
    /// For how many bytes of image, bytes that are sent, and calls the station has room.
    pub room: usize,
    pub sent: usize,
    pub calls: usize,
}

impl Conditions {
    /// All is as usual.
    pub fn usual() -> Conditions {
        Conditions {
            first: usize::MAX,
            is_bytewise: false,
            product_read: NEVER,
            read: NEVER,
            call: NEVER,
            room: 131_072,
            sent: 131_072,
            calls: 1_000,
        }
    }
}

/// What a command works over.
#[derive(Clone, Copy)]
pub struct Given<'a> {
    pub text: &'a [u8],
    pub words: &'a str,
    pub input: &'a [u8],
    pub image: &'a [u8],
}

/// A command that has ended.
#[derive(Drop)]
pub struct Ran {
    pub outcome: Outcome,
    pub station: MemStation,
    /// How many bytes the next read of the input gives.
    pub unread: usize,
}

/// A source that gives the first bytes in one read, and then as many as are asked for.
fn cut_source(
    alloc: Global,
    bytes: &[u8],
    first: usize,
    read: u64,
) -> Result<MemSource, AllocError> {
    let pieces = vec![in alloc; first.max(1)]?;
    let fail = vec![in alloc; read]?;
    MemSource::new(alloc, bytes.to_vec(alloc)?, pieces, fail)
}

/// A source that gives one byte a read.
fn bytewise_source(alloc: Global, bytes: &[u8], read: u64) -> Result<MemSource, AllocError> {
    let pieces = vec![in alloc; 1; bytes.len()]?;
    let fail = vec![in alloc; read]?;
    MemSource::new(alloc, bytes.to_vec(alloc)?, pieces, fail)
}

/// The source of an input.
fn source_of(alloc: Global, bytes: &[u8], under: Conditions) -> Result<MemSource, AllocError> {
    if under.is_bytewise {
        bytewise_source(alloc, bytes, under.read)
    } else {
        cut_source(alloc, bytes, under.first, under.read)
    }
}

/// A station over this image.
fn station_of(alloc: Global, image: &[u8], under: Conditions) -> Result<MemStation, AllocError> {
    let room = image.len().max(under.room);
    let fail = vec![in alloc; under.call]?;
    MemStation::new(
        alloc,
        image.to_vec(alloc)?,
        room,
        under.sent,
        under.calls,
        fail,
    )
}

/// How many bytes the next read gives.
fn unread_of(input: &mut MemSource) -> usize {
    let mut into = [0; LEAST_READ];
    input.read(&mut into).unwrap_or(0)
}

/// Executes a command.
fn execute(
    alloc: Global,
    words: &[String],
    product: &mut MemSource,
    input: &mut MemSource,
    station: &mut MemStation,
) -> Outcome {
    globex(alloc, words, product, input, station)
}

/// Executes a command over what is given.
pub fn run(alloc: Global, given: Given<'_>, under: Conditions) -> Result<Ran, AllocError> {
    let words = words_of(alloc, given.words)?;
    let mut product = cut_source(alloc, given.text, usize::MAX, under.product_read)?;
    let mut input = source_of(alloc, given.input, under)?;
    let mut station = station_of(alloc, given.image, under)?;
    let outcome = execute(
        alloc,
        words.as_slice(),
        &mut product,
        &mut input,
        &mut station,
    );
    let unread = unread_of(&mut input);
    Ok(Ran {
        outcome,
        station,
        unread,
    })
}
