//! Applying a message, with the levels that it may have changed.
ghost use Rattle.std.specs.Prelude.{◌≡◌, ◌+◌, ◌<◌, true};
ghost use Rattle.book_order.specs.Levels.{Level};
ghost use Rattle.fix_request.specs.ValidRequests.{IsValidRequest};
ghost use Rattle.order_kinds.specs.declared.core_state.TheConstants.{MOST_MESSAGES};
ghost use Rattle.order_kinds.specs.Cores.{FitsProduct, AreNumbered};
ghost use Rattle.order_kinds.specs.State.{state_numbered};
ghost use Rattle.order_kinds.specs.Step.{with_message, request_step};
ghost use Rattle.engine_laws.specs.LevelsTold.{asks_at};
ghost use Rattle.level_feed.specs.Noted.{is_noted, AreNoted};
ghost use Rattle.level_feed.specs.Feeds.{levels_of_state};

use fix_request::Request;
use level_feed::NotedLevels;
use order_kinds::Core;
use plain_book::Book;
use product_file::Product;

/// Notes the level of the order that a replace is to change: its report names the level that the order has then.
fn note_asked<B: Book>(noted: &mut NotedLevels, core: &Core<B>, request: &Request)
    ensures { (k : Level) → asks_at k request.now core.now ≡ true → is_noted k noted.new ≡ true }
{
    let book = core.book();
    if let Request::Replace(asked) = request {
        if let Some(slot) = book.find(asked.sender.firm, &asked.old) {
            let order = book.order(slot);
            noted.note(order.instrument, order.side, order.price);
        }
    }
}

/// Applies a message, and makes `noted` the levels that it may have changed.
pub(crate) fn apply_noting<B: Book>(
    core: &mut Core<B>,
    product: &Product,
    request: &Request,
    noted: &mut NotedLevels,
)
    requires few { core.old.desk.messages < MOST_MESSAGES }
    requires valid { IsValidRequest product.now request.now }
    requires fits { FitsProduct product.now core.old }
    requires numbered { AreNumbered core.old }
    ensures noted { AreNoted noted.new (levels_of_state core.old) (levels_of_state core.new) }
    ensures state { state_numbered core.new ≡ (request_step product.now request.now (with_message (state_numbered core.old))).0 }
    ensures numbered { AreNumbered core.new }
    ensures count { core.new.desk.messages ≡ core.old.desk.messages + 1 }
    ensures fits { FitsProduct product.now core.new }
{
    core.book().rules();
    noted.clear();
    note_asked(noted, core, request);
    core.apply(product, request, noted);
    core.book().rules();
}
