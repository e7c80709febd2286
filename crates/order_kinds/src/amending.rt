//! What a product that follows another one does to the book: TOP ends on the instruments that have no TOP step any more.
ghost use Rattle.std.specs.Prelude.{◌≡◌, ◌<◌, length};
ghost use Rattle.order_kinds.specs.Inner.Amending.{tops_ended, tops_ended_by};

use gx_base::Side;
use plain_book::Book;
use product_file::Product;

/// TOP ends on both sides of each instrument that has no TOP step.
pub(crate) fn end_tops<B: Book>(book: &mut B, product: &Product)
    requires { (B.book book.old).instruments ≡ length product.now.names.instruments }
    ensures { B.book book.new ≡ tops_ended_by product.now (B.book book.old) }
{
    product.limits();
    book.rules();
    for instrument in 0..product.names().instrument_count() as u8 {
        let stays = product.rule(instrument).steps.top_rule().is_some();
        if !stays {
            end_top(book, instrument);
        }
    }
}

/// TOP ends on both sides of an instrument.
fn end_top<B: Book>(book: &mut B, instrument: u8)
    requires { instrument < (B.book book.old).instruments }
    ensures { B.book book.new ≡ tops_ended instrument (B.book book.old) }
{
    book.set_top(instrument, Side::Buy, None);
    book.set_top(instrument, Side::Sell, None);
}
