//! A scan of the bytes held. It reads a frame that is at hand whole in one pass, and else goes by parts, from where it stopped.
//! That it scans few bytes twice is no claim of the proof.
ghost use Rattle.std.specs.Prelude.{◌≡◌, ◌+◌, ◌%◌, ◌^◌, ◌↔◌, ◌<◌, ◌≤◌, [], length, take, IsTrue};
ghost use Rattle.fix_frame.specs.Scans.{InBegin, InBody, InTrailer, IsAt, IsOpen, IsPart, IsScanOf, GivesFront};

use crate::place::{BEGIN, Place, after_begin, after_body, after_length, after_trailer};
use crate::whole::whole_frame;
use line_parts::{TRAILER_LENGTH, checksum};

/// What some bytes begin with.
pub enum Front {
    /// A frame of so many bytes.
    Frame(usize),
    /// No frame yet: they are the front of one.
    NeedsMore,
    /// No frame, however they go on.
    Broken,
}

/// How far the bytes held were scanned. It goes on where it stopped when more of them are there.
#[derive(Clone, Copy)]
pub struct Scan {
    /// How many bytes were scanned.
    count: usize,
    /// What they are.
    place: Place,
    /// The sum modulo 256 of those before the trailer.
    checksum: u8,
}

impl Scan {
    /// The scan of no bytes.
    #[inline]
    pub fn new() -> Scan
        ensures { (result.count ≡ 0) × IsAt [] result.place result.checksum }
    {
        Scan {
            count: 0,
            place: Place::Begin(0),
            checksum: 0,
        }
    }

    /// Scans the bytes that were not scanned yet, up to the end of a frame or the first byte that no frame has there,
    /// and answers what the bytes held begin with.
    pub fn go_on(&mut self, held: &[u8]) -> Front
        requires { IsScanOf self.old held.now }
        ensures scan { IsScanOf self.new held.now }
        ensures front { GivesFront held.now result }
    {
        // Most frames are at hand whole when the first of their bytes is looked at.
        if self.count == 0 {
            if let Some(length) = whole_frame(held) {
                self.count = length;
                self.place = Place::Whole;
                return Front::Frame(length);
            }
        }
        while self.count < held.len() && self.is_open() {
            self.advance(held);
        }
        match self.place {
            Place::Whole => Front::Frame(self.count),
            Place::Broken => Front::Broken,
            _ => Front::NeedsMore,
        }
    }

    /// Whether more bytes can change the place.
    #[inline]
    fn is_open(&self) -> bool
        ensures { IsTrue result ↔ IsOpen self.now.place }
    {
        !matches!(self.place, Place::Whole | Place::Broken)
    }

    /// Scans a byte of the body's length, or all the bytes that are there of the begin string, the body or the trailer.
    #[inline]
    fn advance(&mut self, held: &[u8])
        requires scan { IsScanOf self.old held.now }
        requires more { self.old.count < length held.now }
        requires open { IsOpen self.old.place }
        ensures scan { IsScanOf self.new held.now }
        ensures rises { self.old.count < self.new.count }
    {
        match self.place {
            Place::Begin(count) => self.pass_begin(held, count),
            Place::Length { digits, number } => {
                let byte = held[self.count];
                self.pass(1, byte, after_length(digits, number, byte));
            }
            Place::Body(left) => self.pass_body(held, left),
            Place::Trailer(count) => self.pass_trailer(held, count),
            Place::Whole | Place::Broken => unreachable!(),
        }
    }

    /// Counts bytes before the trailer, so many and of this sum.
    #[inline]
    fn pass(&mut self, count: usize, sum: u8, place: Place)
        requires { self.old.count + count < 2 ^ 63 }
        ensures count { self.new.count ≡ self.old.count + count }
        ensures place { self.new.place ≡ place }
        ensures checksum { self.new.checksum ≡ (self.old.checksum + sum) % 256 }
    {
        self.count += count;
        self.place = place;
        self.checksum = self.checksum.wrapping_add(sum);
    }

    /// Scans the bytes of the begin string that are there, after so many that were scanned.
    #[inline]
    fn pass_begin(&mut self, held: &[u8], count: usize)
        requires more { self.old.count < length held.now }
        requires begin { InBegin (take self.old.count held.now) count self.old.checksum }
        ensures scan { IsScanOf self.new held.now }
        ensures rises { self.old.count < self.new.count }
    {
        let part = next_part(held, self.count, BEGIN.len() - count);
        self.pass(part.len(), checksum(part), after_begin(count, part));
    }

    /// Scans the bytes of the body that are there, of which so many were left.
    #[inline]
    fn pass_body(&mut self, held: &[u8], left: usize)
        requires more { self.old.count < length held.now }
        requires body { InBody (take self.old.count held.now) left self.old.checksum }
        ensures scan { IsScanOf self.new held.now }
        ensures rises { self.old.count < self.new.count }
    {
        let part = next_part(held, self.count, left);
        self.pass(part.len(), checksum(part), after_body(left, part));
    }

    /// Scans the bytes of the trailer that are there, after so many that were scanned.
    #[inline]
    fn pass_trailer(&mut self, held: &[u8], count: usize)
        requires more { self.old.count < length held.now }
        requires trailer { InTrailer (take self.old.count held.now) count self.old.checksum }
        ensures scan { IsScanOf self.new held.now }
        ensures rises { self.old.count < self.new.count }
    {
        let part = next_part(held, self.count, TRAILER_LENGTH - count);
        self.count += part.len();
        self.place = after_trailer(count, self.checksum, part);
    }
}

/// Lends the bytes held from this place on, so many of them, or all where fewer are there.
#[inline]
fn next_part(held: &[u8], from: usize, most: usize) -> &[u8]
    requires { (from < length held.now) × (0 < most) }
    ensures part { IsPart held.now from result.now }
    ensures count { (0 < length result.now) × (length result.now ≤ most) }
{
    let rest = &held[from..];
    &rest[..most.min(rest.len())]
}
