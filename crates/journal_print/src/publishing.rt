//! What becomes of the messages of a record: they are noted and applied, and their events are printed and kept by some form. And what
//! such a form prints after all lines.
ghost use Rattle.std.specs.Prelude.{◌≡◌, ◌+◌, ◌≤◌, [], length, IsTrue, IsOk, OnOk, flat_map};
ghost use Rattle.gx_station.specs.Counts.{HasCause};
ghost use Rattle.gx_station.specs.Quiet.{Quiet, Sends};
ghost use Rattle.order_kinds.specs.declared.core_state.TheConstants.{MOST_MESSAGES};
ghost use Rattle.order_kinds.specs.Cores.{FitsProduct, AreNumbered};
ghost use Rattle.order_kinds.specs.State.{state_numbered};
ghost use Rattle.order_kinds.specs.Step.{state_after, events_from};
ghost use Rattle.exec_report.specs.Forms.{noted_all, behind};
ghost use Rattle.book_recovery.specs.Passed.{ArePassed};

use book_print::send_line;
use book_recovery::apply_given;
use exec_report::{LineEmit, LineForm, ReportBuffer, SendFault};
use fix_frame::Framer;
use gx_base::LONGEST_LINE;
use gx_station::Station;
use order_kinds::Core;
use plain_book::Book;
use product_file::Product;

/// Has a form keep what it keeps of the messages that a framer has given.
fn note_given<F: LineForm>(form: &mut F, product: &Product, framer: &Framer)
    ensures { form.new ≡ noted_all F.meanings form.old product.now framer.now.given }
{
    for number in 0..framer.given_count() {
        form.note(product, framer.given(number));
    }
}

/// Applies the messages of the frames that a framer has given since it was fed, in their order, and then sends the lines of all their
/// events, in some form. Session messages have none: if all are such, the station is not called. `SendFault` comes only
/// if the count of send faults rose; a part is sent then, and all messages are applied.
///
/// If the order numbers of the core differ, the state, what is sent and the form are those of the engine's events. Over any
/// other core that fits, the call only sends to the station, and counts the messages.
pub fn publish<F: LineForm, B: Book, S: Station>(
    form: &mut F,
    product: &Product,
    core: &mut Core<B>,
    framer: &Framer,
    buffer: &mut ReportBuffer,
    station: &mut S,
) -> Result<(), SendFault>
    requires few { core.old.desk.messages + length framer.now.given ≤ MOST_MESSAGES }
    requires fits { FitsProduct product.now core.old }
    requires empty { buffer.old ≡ [] }

    // Over any core that fits, nothing but sends happens to the station, and a fault comes with its count.
    ensures count { core.new.desk.messages ≡ core.old.desk.messages + length framer.now.given }
    ensures fits { FitsProduct product.now core.new }
    ensures quiet { Quiet S.meanings station.old station.new }
    ensures cause { HasCause (S.meanings.send_faults station.old) (S.meanings.send_faults station.new) result }
    ensures passed { ArePassed product.now framer.now.given → IsOk result × (station.new ≡ station.old) }
    ensures silent { IsTrue F.meanings.is_silent → IsOk result × (station.new ≡ station.old) }
    ensures empty { OnOk result (buffer.new ≡ []) }
    ensures text { F.meanings.text form.new ≡ F.meanings.text form.old }

    // Where order numbers differ, these are the steps of the engine, and its events are printed and kept.
    ensures numbered { AreNumbered core.old → AreNumbered core.new }
    ensures state { AreNumbered core.old → state_numbered core.new ≡ state_after product.now (state_numbered core.old) framer.now.given }
    ensures sends { AreNumbered core.old → Sends S.meanings station.old station.new
        (flat_map (F.meanings.text form.old product.now.names) (events_from product.now (state_numbered core.old) framer.now.given)) result }
    ensures behind { AreNumbered core.old → OnOk result (form.new
        ≡ behind F.meanings form.old product.now framer.now.given (events_from product.now (state_numbered core.old) framer.now.given)) }
{
    note_given(form, product, framer);
    let mut out = LineEmit::new(buffer, station, product.names(), form);
    apply_given(core, product, framer, &mut out);
    out.flush()
}

/// Sends what a form prints after the lines of all events, where `live` is what is open of all live orders; if it prints nothing
/// there, the station is not called. `SendFault` comes only if the count of send faults rose, and a part is sent then.
pub fn print_ending<F: LineForm, S: Station>(
    form: &F,
    live: u64,
    buffer: &mut ReportBuffer,
    station: &mut S,
) -> Result<(), SendFault>
    requires { buffer.old ≡ [] }
    ensures sends { Sends S.meanings station.old station.new (F.meanings.ending form.now live) result }
    ensures empty { OnOk result (buffer.new ≡ []) }
    ensures idle { F.meanings.ending form.now live ≡ [] → IsOk result × (station.new ≡ station.old) }
{
    let mut line = [0; LONGEST_LINE];
    let count = form.write_ending(live, &mut line);
    if count == 0 {
        return Ok(());
    }
    send_line(buffer, station, &line[..count])
}
