//! Applying the messages of the frames that a framer has given.
ghost use Rattle.std.specs.Prelude.{◌≡◌, ◌+◌, ◌≤◌, length};
ghost use Rattle.gx_base.specs.Emits.{Emits};
ghost use Rattle.order_kinds.specs.declared.core_state.TheConstants.{MOST_MESSAGES};
ghost use Rattle.order_kinds.specs.Cores.{FitsProduct, AreNumbered, PutsEvents};
ghost use Rattle.order_kinds.specs.State.{state_numbered};
ghost use Rattle.order_kinds.specs.Step.{state_after, events_from};
ghost use Rattle.book_recovery.specs.Passed.{ArePassed};

use fix_frame::Framer;
use fix_request::{Request, read_request_into};
use gx_base::Emit;
use order_kinds::Core;
use plain_book::Book;
use product_file::Product;

/// Applies the messages of the frames that a framer has given since it was fed, in their order, and puts their events: none
/// if all are session messages. All are applied, also if a put has failed. If the order numbers of the core differ,
/// these are the steps of the engine; over any other core that fits, each message counts and some events are put.
pub fn apply_given<B: Book, E: Emit>(
    core: &mut Core<B>,
    product: &Product,
    framer: &Framer,
    out: &mut E,
)
    requires few { core.old.desk.messages + length framer.now.given ≤ MOST_MESSAGES }
    requires fits { FitsProduct product.now core.old }
    ensures count { core.new.desk.messages ≡ core.old.desk.messages + length framer.now.given }
    ensures fits { FitsProduct product.now core.new }
    ensures puts { PutsEvents E.meanings out.old out.new }
    ensures silent { ArePassed product.now framer.now.given → out.new ≡ out.old }
    ensures numbered { AreNumbered core.old → AreNumbered core.new }
    ensures state { AreNumbered core.old → state_numbered core.new ≡ state_after product.now (state_numbered core.old) framer.now.given }
    ensures emits { AreNumbered core.old → Emits E.meanings out.old out.new (events_from product.now (state_numbered core.old) framer.now.given) }
{
    // Lent from message to message: a request is large.
    let mut request = Request::blank();
    for number in 0..framer.given_count() {
        read_request_into(framer.given(number), product, &mut request);
        core.apply(product, &request, out);
    }
}
