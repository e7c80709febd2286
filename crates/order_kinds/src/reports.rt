//! Report lines that are no execution reports.
ghost use Rattle.std.specs.Prelude.{◌≡◌, ◌<◌, ◌^◌, [], ◌∷◌, IfSome, Some, slice_index};
ghost use Rattle.gx_base.specs.Emits.{Emits};
ghost use Rattle.order_kinds.specs.Reports.{line_place, next_line_head, line_counted, change_refused};

use fix_request::Sender;
use gx_base::{ChangeFault, Desk, Emit, Event, Head, MOST_FIRMS, ShortId, Stamp};

/// Counts a line that is no execution report, and gives its head. `None` is the addressee `UNKNOWN`.
pub(crate) fn count_line(desk: &mut Desk, firm: Option<u8>, time: Stamp) -> Head
    requires firm { IfSome firm (λ number. number < MOST_FIRMS) }
    requires room { slice_index desk.old.lines (line_place firm) < 2 ^ 63 }
    ensures head { result ≡ next_line_head desk.old firm time }
    ensures desk { desk.new ≡ line_counted desk.old firm }
{
    let place = firm.map_or(MOST_FIRMS, usize::from);
    desk.lines[place] += 1;
    Head {
        firm,
        line: desk.lines[place],
        report: 0,
        time,
    }
}

/// A cancel or a replace that is refused: who sent it, and the ids that it names.
#[derive(Clone, Copy)]
pub(crate) struct RefusedChange<'a> {
    pub(crate) sender: &'a Sender,
    pub(crate) id: ShortId,
    pub(crate) old: ShortId,
    /// The number of the order that it was to change, and what is filled of it, 0 where there is no such order.
    pub(crate) number: u64,
    pub(crate) filled: u32,
    pub(crate) replace: bool,
}

impl RefusedChange<'_> {
    /// A cancel or a replace is refused. Only the line is counted.
    pub(crate) fn report<E: Emit>(&self, fault: ChangeFault, desk: &mut Desk, out: &mut E)
        requires firm { self.now.sender.now.firm < MOST_FIRMS }
        requires lines { slice_index desk.old.lines self.now.sender.now.firm < 2 ^ 63 }
        ensures desk { desk.new ≡ line_counted desk.old (Some self.now.sender.now.firm) }
        ensures emits { Emits E.meanings out.old out.new
            (change_refused self.now.sender.now self.now.id self.now.old self.now.number self.now.filled self.now.replace fault desk.old ∷ []) }
    {
        let head = count_line(desk, Some(self.sender.firm), self.sender.time);
        out.put(&Event::RefusedChange {
            head,
            id: self.id,
            old: self.old,
            number: self.number,
            filled: self.filled,
            replace: self.replace,
            fault,
        });
    }
}
