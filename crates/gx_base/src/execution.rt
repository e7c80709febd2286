//! Execution reports of orders that are lent.
ghost use Rattle.std.specs.Prelude.{◌≡◌};
ghost use Rattle.gx_base.specs.Executions.{order_after, event_with, event_of};

use crate::event::{Cause, Event, Head, StepName};
use crate::id::ShortId;
use crate::order::Order;
use crate::price::Price;

/// What an execution report tells of an order (150 in FIX 4.2, with what our own tags add). `Event` has the same kinds.
#[derive(Clone, Copy)]
pub enum ExecType<'a> {
    /// A new order is accepted.
    New,
    /// A stop became a limit order.
    Triggered,
    /// A trade, as `Event::Fill` tells it.
    Fill {
        lots: u32,
        price: Price,
        step: StepName,
        trade: u64,
    },
    /// What was open is cancelled, as `Event::Cancelled` tells it.
    Cancelled {
        gone: u32,
        by: Option<&'a ShortId>,
        cause: Cause,
    },
    /// The order ended when the market closed, as `Event::Expired` tells it.
    Expired {
        gone: u32,
    },
    /// A replace is accepted, as `Event::Replaced` tells it.
    Replaced {
        old: &'a ShortId,
        old_quantity: u32,
    },
}

/// An execution report of an order that is lent: an event without a copy of the order. The three quantities that a report changes
/// stand beside the order, which may be as it was before.
#[derive(Clone, Copy)]
pub struct Execution<'a> {
    pub head: &'a Head,
    pub order: &'a Order,
    /// What was traded of the order (14), with what is reported, in lots.
    pub filled: u32,
    /// What is open of it then (151), in lots.
    pub leaves: u32,
    /// What is shown of it then, in lots.
    pub shown: u32,
    pub exec_type: ExecType<'a>,
}

impl<'a> Execution<'a> {
    /// The report of an order that is as the report shows it.
    #[inline(always)]
    pub fn new(head: &'a Head, order: &'a Order, exec_type: ExecType<'a>) -> Execution<'a>
        ensures { event_of result ≡ event_with head.now order.now exec_type.entry }
    {
        Execution {
            head,
            order,
            filled: order.filled,
            leaves: order.leaves,
            shown: order.shown,
            exec_type,
        }
    }

    /// The report of an order that ends: nothing is open or shown of it any more.
    #[inline(always)]
    pub fn of_end(head: &'a Head, order: &'a Order, exec_type: ExecType<'a>) -> Execution<'a>
        ensures { event_of result ≡ event_with head.now (record order.now { leaves = 0; shown = 0 }) exec_type.entry }
    {
        Execution {
            head,
            order,
            filled: order.filled,
            leaves: 0,
            shown: 0,
            exec_type,
        }
    }

    /// The order as the report shows it.
    fn shown_order(&self) -> Order
        ensures { result ≡ order_after self.now }
    {
        let mut order = *self.order;
        order.filled = self.filled;
        order.leaves = self.leaves;
        order.shown = self.shown;
        order
    }

    /// The event that it stands for, with a copy of the order.
    pub fn event(&self) -> Event
        ensures { result ≡ event_of self.now }
    {
        let head = *self.head;
        let order = self.shown_order();
        match self.exec_type {
            ExecType::New => Event::Accepted { head, order },
            ExecType::Triggered => Event::Triggered { head, order },
            ExecType::Fill {
                lots,
                price,
                step,
                trade,
            } => Event::Fill {
                head,
                order,
                lots,
                price,
                step,
                trade,
            },
            ExecType::Cancelled { gone, by, cause } => Event::Cancelled {
                head,
                order,
                gone,
                by: by.copied(),
                cause,
            },
            ExecType::Expired { gone } => Event::Expired { head, order, gone },
            ExecType::Replaced { old, old_quantity } => Event::Replaced {
                head,
                order,
                old: *old,
                old_quantity,
            },
        }
    }
}
