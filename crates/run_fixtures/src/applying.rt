//! Messages that a test applies to a core itself.
ghost use Rattle.order_kinds.specs.Cores.{FitsProduct};

use fix_frame::{Framer, Next};
use fix_request::read_request;
use gx_base::Emit;
use order_kinds::{Core, MOST_MESSAGES};
use plain_book::Book;
use product_file::Product;

/// Applies the next `count` messages that the framer holds, and puts their events. Answers how many they are: fewer if the framer
/// holds fewer whole ones, or the core has taken `MOST_MESSAGES`.
pub fn apply_held<B: Book, E: Emit>(
    product: &Product,
    core: &mut Core<B>,
    framer: &mut Framer,
    count: usize,
    out: &mut E,
) -> usize
    requires fits { FitsProduct product.now core.old }
    ensures fits { FitsProduct product.now core.new }
{
    for applied in 0..count {
        let Next::Frame(start, end) = framer.next() else {
            return applied;
        };
        if core.messages() >= MOST_MESSAGES {
            return applied;
        }
        let request = read_request(framer.frame(start, end), product);
        core.apply(product, &request, out);
    }
    count
}
