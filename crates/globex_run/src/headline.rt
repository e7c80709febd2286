//! The headline, in the words of `run` alone.
ghost use Rattle.globex_run.specs.Calls.{call};
ghost use Rattle.globex_run.specs.OfRuns.{ExactlyTheReports, AnyOtherEnding, AtEveryMoment, BeforeAnySync, WithEveryMessage};

use crate::outcome::Outcome;
use crate::run::globex;
use gx_station::{Source, Station};
use std::alloc::Global;

/// Calls `globex`, and says of a `run`, sentence by sentence, what the clauses of `globex` say of each command that writes. It
/// follows from those clauses, and from nothing else.
pub fn globex_for_run<P: Source, I: Source, S: Station>(
    alloc: Global,
    words: &[String],
    product: &mut P,
    input: &mut I,
    station: &mut S,
) -> Outcome
    ensures exactly_the_reports { ExactlyTheReports (call P.meanings I.meanings S.meanings words.now product input station result) }
    ensures any_other_ending { AnyOtherEnding (call P.meanings I.meanings S.meanings words.now product input station result) }
    ensures at_every_moment { AtEveryMoment (call P.meanings I.meanings S.meanings words.now product input station result) }
    ensures before_the_first_sync { BeforeAnySync (call P.meanings I.meanings S.meanings words.now product input station result) }
    ensures with_every_message { WithEveryMessage (call P.meanings I.meanings S.meanings words.now product input station result) }
{
    globex(alloc, words, product, input, station)
}
