//! Where the journal's image stands, and where reports go.
ghost use Rattle.std.specs.Prelude.{◌+◌, ◌≤◌, ◌^◌, length};
ghost use Rattle.gx_station.specs.Stations.{StationMeanings};
ghost use Rattle.gx_station.specs.Honest.{IsHonestNow, PassesOutputs};
ghost use Rattle.gx_station.specs.Quiet.{Sends};
ghost use Rattle.gx_station.specs.StoreCalls.{Measures, Reads, Writes, Syncs};

use thiserror::Error;

/// The one fault of the outside.
#[derive(Clone, Copy, Debug, Error, PartialEq, Eq)]
#[error("a call on the outside has failed")]
pub struct Failed;

/// A store of one image, and an output. Offsets and lengths are in bytes. The four calls on the image are `Failed` only where
/// the count of store faults rose, and a send only where the count of send faults rose; where one is Ok, no count changes.
/// A call on the image sends nothing, and a send leaves the image alone. No call but `write` changes what a read gives.
pub trait Station {
    ghost meanings: { StationMeanings Self };

    /// The length of the image. It is within reach from then on.
    fn length(&mut self) -> Result<u64, Failed>
        ensures measures { Measures meanings self.old self.new result };

    /// Fills all of `into` with the image's bytes from `at` on, which are within reach: below a length that was answered, or
    /// the end of a write that was Ok.
    fn read(&mut self, at: u64, into: &mut [u8]) -> Result<(), Failed>
        requires { at + length into.old ≤ meanings.reach self.old }
        ensures reads { Reads meanings self.old self.new at into.new result };

    /// Writes over what is there, and past the end, from a place within reach on. Until a sync, a crash may leave any bytes
    /// in the range. Where it is `Failed`, a read may give any bytes there too.
    fn write(&mut self, at: u64, bytes: &[u8]) -> Result<(), Failed>
        requires within { at ≤ meanings.reach self.old }
        requires small { at + length bytes.now ≤ 2 ^ 62 }
        ensures writes { Writes meanings self.old self.new at bytes.now result };

    /// After an Ok, a crash leaves just what a read gives.
    fn sync(&mut self) -> Result<(), Failed>
        ensures syncs { Syncs meanings self.old self.new result };

    /// Sends these bytes, or fails and has sent a part from their front.
    fn send(&mut self, bytes: &[u8]) -> Result<(), Failed>
        ensures sends { Sends meanings self.old self.new bytes.now result }
        ensures passes { PassesOutputs meanings self.old self.new };

    /// What holds of an honest station at each moment.
    ghost honest: { (s : Self) → meanings.is_honest s → IsHonestNow meanings s };
}
