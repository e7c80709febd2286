//! The top call.
ghost use Rattle.std.specs.Prelude.{◌≡◌, ◌≢◌, ◌⊎◌, ℕ, List, Some, IsTrue};
ghost use Rattle.gx_station.specs.Counts.{Rose};
ghost use Rattle.gx_station.specs.Honest.{KeepsImage};
ghost use Rattle.journal_print.specs.Reading.{ReadsAndSends};
ghost use Rattle.command_words.specs.declared.command.Command.{Command};
ghost use Rattle.globex_run.specs.Words.{AsksFor, AsksForNone, IsWriting, OnlyReads, ReadsInput};
ghost use Rattle.globex_run.specs.Outcomes.{is_outcome};
ghost use Rattle.globex_run.specs.Refusals.{IsRefusal};
ghost use Rattle.globex_run.specs.Calls.{call};
ghost use Rattle.globex_run.specs.Promises.{DoesAll, EndsAsTold, LeavesAFront, LeavesTheEntry, KeepsWhatIsSent};
ghost use Rattle.globex_run.specs.Promises.{AddsMessagesAlone, AddsARecordPerRead, ReadsItOnce, IsFullForMessages, IsFullForImage, IsFullForAmendment, SendsNothing};
ghost use Rattle.globex_run.specs.Promises.{EndsWellWhereItCan, AnswersWords, AnswersProductText, LeavesWhatItRefuses};
ghost use Rattle.globex_run.specs.Promises.{TellsReadFaults, TellsStoreFaults, TellsSendFaults};
ghost use Rattle.globex_run.specs.Promises.{PrintsItsText, AnswersItsInput, ShowsItsOpenings, RebuildsItsLevels, RepeatsTheReports, Balances, BalancesAsRead, EndsWhereTold, LeavesAllAtNoMemory, RefusesWhatItMust, RefusesAmendments, OpensAgain, HasItsStatuses};
ghost use Rattle.globex_run.specs.OpeningPrices.{OpensAtBestPrices};
ghost use Rattle.globex_run.specs.Rebuilding.{FeedsFoldToLevels};
ghost use Rattle.globex_run.specs.Inner.Statuses.{outcome_without, outcome_of_words};

use crate::ending::Ending;
use crate::execute::execute;
use crate::outcome::{Outcome, Status};
use crate::product_text::{NoProduct, take_product};
use crate::taken::Taken;
use command_words::{WordsFault, read_command};
use gx_station::{Source, Station};
use open_auction::{
    candidates_are_the_prices, no_price_opens_more, pairs_add_up, ties_fall_by_the_rules,
};
use std::alloc::Global;
use stream_laws::{feeds_of_histories_fold_to_levels, reports_balance, resends_repeat_reports};

/// The outcome where the words give no command: nothing was touched.
fn outcome_of_words(fault: WordsFault) -> Outcome
    ensures { result ≡ outcome_of_words fault }
{
    match fault {
        WordsFault::NoMemory => Status::NoMemory.outcome(0, 0),
        WordsFault::Refused => Status::BadWords.outcome(0, 0),
    }
}

/// The outcome where no product was taken: no message was applied.
fn outcome_without(reason: NoProduct) -> Outcome
    ensures { result ≡ outcome_without reason }
{
    match reason {
        NoProduct::NoMemory => Status::NoMemory.outcome(0, 0),
        NoProduct::Unread => Ending::ReadFault(0).outcome(0),
        NoProduct::Refused(rule) => Status::Product.outcome(u64::from(rule), 0),
    }
}

/// Executes the command of the words: `run`, `drill`, `checkpoint`, `amend`, `session`, `opening`, `rebuild`, or one of those that only
/// print: `replay`, `book`, `fills`, `ledger`, `levels`, `steps`.
///
/// `run` takes the product, opens its journal and recovers the state of the messages kept there, and serves the input: all whole
/// messages at hand are kept in one record of the journal, then applied, and then their reports are sent. However the input is cut into reads, what is sent are exactly the reports of the first messages of the bytes taken, after
/// those that the journal kept, of as many as `messages` says: all of these, or at a send fault a part from their front. And at
/// every moment, inside a write or a send too, a crash leaves a journal that keeps the earlier messages and then a prefix of
/// those read, with every message of whose reports a byte was sent. `drill` serves messages that are made by rule in the same
/// way, but that it reports none of them and sends one line that sums them up, once all are kept. `checkpoint` adds one book image to
/// the journal, from which these commands and `book` begin then, and sends nothing. `amend` has the journal go on under the product handed
/// in, and sends nothing: it adds one record with the product's text, unless the journal has that text already. `session` answers the session
/// messages of firms, by what the journal keeps: it sends report lines again, and writes nothing. `opening` collects the orders of the input
/// on the book that the journal keeps, and sends at which price each instrument would open; it writes nothing. `rebuild` reads a level feed, as `levels` sends it, and sends the
/// levels at its end; it opens no journal. The others send what they print, and write nothing. `Outcome` lists the statuses.
///
/// The words are tried first: 2 comes exactly where they are no command. The product is tried next: 3 comes exactly where its text
/// breaks a rule. Memory is taken before the first call on the station and the first read of the input, and want of it is status 1. Only
/// `replay`, `fills`, `ledger`, `levels`, `session` and `amend` take more, for products that the journal keeps, once their texts were read and before anything
/// is sent or written. Then the journal is opened by its last text: 9, 10 and 11 come exactly where it is foreign, bad, or of another text.
/// `amend` takes a journal of another text, if the product may follow its own: 13 comes exactly where it may not.
pub fn globex<P: Source, I: Source, S: Station>(
    alloc: Global,
    words: &[String],
    product: &mut P,
    input: &mut I,
    station: &mut S,
) -> Outcome
    ensures outcome { IsTrue (is_outcome result) }

    // The words alone decide on 2: it comes exactly where they are no command, but for want of memory.
    ensures words { AnswersWords (call P.meanings I.meanings S.meanings words.now product input station result) }

    // The product's text alone decides on 3: it comes exactly if the text breaks a rule.
    ensures product { AnswersProductText (call P.meanings I.meanings S.meanings words.now product input station result) }

    // The headline, sentence by sentence, of `run` and of each other command that writes: status 0, any other ending, at every moment,
    // before the first sync, with every message.
    ensures does_all { DoesAll (call P.meanings I.meanings S.meanings words.now product input station result) }
    ensures ends_otherwise { EndsAsTold (call P.meanings I.meanings S.meanings words.now product input station result) }
    ensures at_every_moment { LeavesAFront (call P.meanings I.meanings S.meanings words.now product input station result) }
    ensures before_the_first_sync { LeavesTheEntry (call P.meanings I.meanings S.meanings words.now product input station result) }
    ensures with_every_message { KeepsWhatIsSent (call P.meanings I.meanings S.meanings words.now product input station result) }

    // Commands that write: which records are added, one for each read, how much is read, and when the journal is full.
    ensures adds_messages { AddsMessagesAlone (call P.meanings I.meanings S.meanings words.now product input station result) }
    ensures record_per_read { AddsARecordPerRead (call P.meanings I.meanings S.meanings words.now product input station result) }
    ensures few_bytes { ReadsItOnce (call P.meanings I.meanings S.meanings words.now product input station result) }
    ensures full { IsFullForMessages (call P.meanings I.meanings S.meanings words.now product input station result) }
    ensures image_full { IsFullForImage (call P.meanings I.meanings S.meanings words.now product input station result) }
    ensures amendment_full { IsFullForAmendment (call P.meanings I.meanings S.meanings words.now product input station result) }
    ensures sends_nothing { SendsNothing (call P.meanings I.meanings S.meanings words.now product input station result) }

    // Commands that print, answer or collect, and that they only read. The openings are at the best prices, whatever the orders are.
    ensures prints { PrintsItsText (call P.meanings I.meanings S.meanings words.now product input station result) }
    ensures answers { AnswersItsInput (call P.meanings I.meanings S.meanings words.now product input station result) }
    ensures openings { ShowsItsOpenings (call P.meanings I.meanings S.meanings words.now product input station result) }
    ensures best_openings { OpensAtBestPrices }
    // The levels of a feed, and that the fold of each history's feed is its levels.
    ensures rebuilds { RebuildsItsLevels (call P.meanings I.meanings S.meanings words.now product input station result) }
    ensures feeds_fold { FeedsFoldToLevels }
    ensures repeats { RepeatsTheReports (call P.meanings I.meanings S.meanings words.now product input station result) }
    ensures only_reads { (asked : Command) → AsksFor words.now asked → OnlyReads asked → ReadsAndSends S.meanings station.old station.new }

    // Every command: it ends well where it can, the reports of each history balance, as their bytes are read too, and why it ended.
    ensures all_done { EndsWellWhereItCan (call P.meanings I.meanings S.meanings words.now product input station result) }
    ensures balanced { Balances (call P.meanings I.meanings S.meanings words.now product input station result) }
    ensures reports_balanced { BalancesAsRead (call P.meanings I.meanings S.meanings words.now product input station result) }
    ensures did { EndsWhereTold (call P.meanings I.meanings S.meanings words.now product input station result) }
    ensures untouched_input { (asked : Command) → AsksFor words.now asked → (ReadsInput asked → ⊥) → input.new ≡ input.old }

    // Words that are no command, or a product that is refused, leave the input and the station untouched. So does want of memory, but that
    // commands which take products of the journal may have read it.
    ensures none { (result.status ≡ 1) ⊎ ((result.status ≡ 2) ⊎ (result.status ≡ 3)) → result.messages ≡ 0 }
    ensures no_memory { LeavesAllAtNoMemory (call P.meanings I.meanings S.meanings words.now product input station result) }
    ensures bad_words { result.status ≡ 2 → (product.new ≡ product.old) × (input.new ≡ input.old) × (station.new ≡ station.old) }
    ensures bad_product { result.status ≡ 3 → (input.new ≡ input.old) × (station.new ≡ station.old) }

    // 9, 10 and 11 come exactly where the image of entry is such, whatever the command. What is refused stays as it is, and commands
    // that write send nothing then. An image from which a run can start is refused by no command: so what a crash leaves can be opened
    // again.
    ensures refuses { RefusesWhatItMust (call P.meanings I.meanings S.meanings words.now product input station result) }
    ensures amendments { RefusesAmendments (call P.meanings I.meanings S.meanings words.now product input station result) }
    ensures opens_again { OpensAgain (call P.meanings I.meanings S.meanings words.now product input station result) }
    ensures refused { LeavesWhatItRefuses (call P.meanings I.meanings S.meanings words.now product input station result) }

    // Each command has its statuses.
    ensures statuses { HasItsStatuses (call P.meanings I.meanings S.meanings words.now product input station result) }

    // A fault of the outside is answered only where its count rose, and else no count does.
    ensures read_faults { TellsReadFaults (call P.meanings I.meanings S.meanings words.now product input station result) }
    ensures store_faults { TellsStoreFaults (call P.meanings I.meanings S.meanings words.now product input station result) }
    ensures send_faults { TellsSendFaults (call P.meanings I.meanings S.meanings words.now product input station result) }
{
    reports_balance();
    resends_repeat_reports();
    no_price_opens_more();
    ties_fall_by_the_rules();
    candidates_are_the_prices();
    pairs_add_up();
    feeds_of_histories_fold_to_levels();
    let command = match read_command(alloc, words) {
        Ok(command) => command,
        Err(fault) => return outcome_of_words(fault),
    };
    let taken = match take_product(alloc, product) {
        Ok(taken) => taken,
        Err(reason) => return outcome_without(reason),
    };
    let lent = Taken {
        product: &taken.product,
        text: &taken.text,
    };
    execute(alloc, command, &lent, input, station)
}
