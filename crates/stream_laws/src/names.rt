//! What holds of the names of each product.
ghost use Rattle.std.specs.Prelude.{ℕ, List, IsTrue};
ghost use Rattle.std.specs.List.{All};
ghost use Rattle.gx_base.specs.Texts.{is_name};
ghost use Rattle.stream_laws.specs.Names.{AreNames, IsListed};

use gx_base::Names;
use product_file::Product;

/// What the law of made streams asks of a product's names holds of each product. Looks at each name, and does nothing else.
pub fn names_are_right(product: &Product)
    ensures { AreNames product.now.names }
{
    let names = product.names();
    let exchange = names.exchange();
    let _text = exchange.bytes();
    look_at_firms(names);
    look_at_instruments(names);
}

/// The firms have names.
fn look_at_firms(names: &Names)
    ensures { All (λ (firm : List ℕ). IsTrue (is_name firm)) names.now.firms }
{
    for number in 0..names.firm_count() {
        let firm = names.firm(number as u8);
        let _text = firm.bytes();
    }
}

/// The instruments have names, and few decimals.
fn look_at_instruments(names: &Names)
    ensures { All IsListed names.now.instruments }
{
    for number in 0..names.instrument_count() {
        let listed = names.listed(number as u8);
        let _text = listed.name.bytes();
    }
}
