//! Blank orders. A request is kept from one message to the next. If the next one asks for the same kind, each value is written into its field
//! as it is read: a whole order would be built in two other places first, and copied. Else the request is made a blank of that kind.
ghost use Rattle.std.specs.Prelude.{◌≡◌};
ghost use Rattle.fix_request.specs.Requests.{no_time};
ghost use Rattle.fix_request.specs.Inner.Kinds.{IsNew, IsCancel, IsReplace};

use crate::request::{CancelOrder, Named, NewOrder, Px, ReplaceOrder, Request, Sender};
use gx_base::{Kind, Life, ShortId, Side, Stamp};

/// Makes a request a new order, whose fields are then to be written. One that is a new order already is left as it is.
#[inline]
pub fn become_new(request: &mut Request)
    ensures { IsNew request.new }
{
    match request {
        Request::New(_) => {}
        _ => write_blank_new(request),
    }
}

/// Makes a request a cancel, whose fields are then to be written. One that is a cancel already is left as it is.
#[inline]
pub fn become_cancel(request: &mut Request)
    ensures { IsCancel request.new }
{
    match request {
        Request::Cancel(_) => {}
        _ => write_blank_cancel(request),
    }
}

/// Makes a request a replace, whose fields are then to be written. One that is a replace already is left as it is.
#[inline]
pub fn become_replace(request: &mut Request)
    ensures { IsReplace request.new }
{
    match request {
        Request::Replace(_) => {}
        _ => write_blank_replace(request),
    }
}

/// Writes a new order that says nothing.
#[cold]
#[inline(never)]
fn write_blank_new(request: &mut Request)
    ensures { IsNew request.new }
{
    *request = Request::New(NewOrder {
        sender: nobody(),
        id: ShortId::default(),
        symbol: ShortId::default(),
        named: Named::Unknown,
        side: Side::Buy,
        quantity: 0,
        kind: Kind::Market,
        price: Px::Absent,
        trigger: Px::Absent,
        life: Life::Day,
        min: 0,
        show: 0,
    });
}

/// Writes a cancel that says nothing.
#[cold]
#[inline(never)]
fn write_blank_cancel(request: &mut Request)
    ensures { IsCancel request.new }
{
    *request = Request::Cancel(CancelOrder {
        sender: nobody(),
        id: ShortId::default(),
        old: ShortId::default(),
    });
}

/// Writes a replace that says nothing.
#[cold]
#[inline(never)]
fn write_blank_replace(request: &mut Request)
    ensures { IsReplace request.new }
{
    *request = Request::Replace(ReplaceOrder {
        sender: nobody(),
        id: ShortId::default(),
        old: ShortId::default(),
        named: Named::Unknown,
        side: Side::Buy,
        quantity: 0,
        kind: Kind::Market,
        price: Px::Absent,
        trigger: Px::Absent,
    });
}

/// The sender that stands for none.
fn nobody() -> Sender
    ensures { result ≡ record { firm = 0; seq = 0; time = no_time } }
{
    Sender {
        firm: 0,
        seq: 0,
        time: Stamp::none(),
    }
}
