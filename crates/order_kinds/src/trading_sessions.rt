//! Trading sessions: the exchange opens and closes the market.
ghost use Rattle.std.specs.Prelude.{◌≡◌, ◌^◌, length};
ghost use Rattle.order_kinds.specs.TradingSessions.{session_step};
ghost use Rattle.order_kinds.specs.Inner.Taking.{Takes, CountsRose, IsCounted};

use crate::closing::close_market;
use crate::state::EngineState;
use fix_request::SessionChange;
use gx_base::{Emit, Trading};
use plain_book::Book;

/// Opens or closes the market as a message asks. At a close each live order that is not good till cancelled expires. A change to
/// the present session changes nothing.
pub(crate) fn change_session<B: Book, E: Emit>(
    state: &mut EngineState<B>,
    change: &SessionChange,
    out: &mut E,
)
    requires instruments { state.old.book.instruments ≡ length state.old.last }
    requires counted { IsCounted state.old.desk }
    ensures takes { Takes E.meanings (λ state naming. Unit {0}) (λ naming. session_step change.now) state.old state.new out.old out.new }
    ensures rose { CountsRose (2 ^ 38) state.old.desk state.new.desk }
{
    match (change.to, state.trading) {
        (Trading::Open, _) => state.trading = Trading::Open,
        (Trading::Closed, Trading::Open) => close_market(state, change.time, out),
        (Trading::Closed, Trading::Closed) => {}
    }
}
