//! Orders that are collected without matching.
ghost use Rattle.std.specs.Prelude.{◌≡◌, ◌+◌, ◌<◌};
ghost use Rattle.fix_request.specs.ValidRequests.{IsValidRequest};
ghost use Rattle.order_kinds.specs.State.{state_numbered};
ghost use Rattle.order_kinds.specs.Collecting.{collect_step};
ghost use Rattle.order_kinds.specs.Cores.{FitsProduct, AreNumbered};

use fix_request::Request;
use order_kinds::{Core, MOST_MESSAGES};
use plain_book::Book;
use product_file::Product;

/// Collects a request without matching, for an indicative opening price (our own rule). It counts as a message. A limit order
/// that may rest and has no minimum comes to rest under the next number, unless a rule of new orders refuses it, and is not TOP;
/// a cancel takes its order out where it is live; any other request does nothing. Nothing is reported. It takes no memory and
/// never fails.
pub fn collect<B: Book>(core: &mut Core<B>, product: &Product, request: &Request)
    requires few { core.old.desk.messages < MOST_MESSAGES }
    requires valid { IsValidRequest product.now request.now }
    requires fits { FitsProduct product.now core.old }
    ensures step { AreNumbered core.old → state_numbered core.new ≡ collect_step product.now request.now (state_numbered core.old) }
    ensures numbered { AreNumbered core.old → AreNumbered core.new }
    ensures count { core.new.desk.messages ≡ core.old.desk.messages + 1 }
    ensures fits { FitsProduct product.now core.new }
{
    core.collect(product, request);
}
