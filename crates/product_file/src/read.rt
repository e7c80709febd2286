//! Reading a product file.
ghost use Rattle.std.specs.Prelude.{◌≡◌, ◌≢◌, ◌<◌, length, Ok, Err, Some, None, option_map, IfOk, IfErr, IsUtf8};
ghost use Rattle.toml.specs.View.{view};
ghost use Rattle.product_file.specs.declared.faults.ProductFault.TheVariants.{NoMemory, TooLong, Text};
ghost use Rattle.toml.specs.Data.{table};
ghost use Rattle.toml.specs.Parse.{parse_document};
ghost use Rattle.toml.specs.Errors.{IsBlank};
ghost use Rattle.product_file.specs.ProductTexts.{document_of, product_of, TakesMemory};

use crate::faults::{Key, ProductFault};
use crate::firms::firms_of;
use crate::instruments::instruments_of;
use crate::keys::{name_at, number_if};
use crate::limits::{
    LEAST_JOURNAL, LONGEST_TEXT, MOST_JOURNAL, MOST_ORDERS, USUAL_JOURNAL, USUAL_ORDERS,
};
use crate::product::Product;
use gx_base::Names;
use std::alloc::Global;
use toml::Value;

/// The product of a text (our own format), or its first fault in the order of the keys, and for each key of its rules:
/// `ProductFault` says when each comes. Only `NoMemory` depends on anything but the text. It is never answered for a text
/// of more than `LONGEST_TEXT` bytes, for one that is not UTF-8, or for one of white space and comments alone. Takes memory.
#[tactic(auto, unfolding(crate::specs::ProductTexts::product_of))]
pub fn read_product(alloc: Global, text: &[u8]) -> Result<Product, ProductFault>
    ensures read { IfOk result (λ product. product_of text.now ≡ Ok product) }
    ensures refused { IfErr result (λ fault. fault ≢ NoMemory → product_of text.now ≡ Err fault) }
    ensures too_long { LONGEST_TEXT < length text.now → result ≡ Err TooLong }
    ensures memory { result ≡ Err NoMemory → TakesMemory text.now }
{
    if text.len() > LONGEST_TEXT {
        return Err(ProductFault::TooLong);
    }
    let document = document_of(alloc, text)?;
    let exchange = name_at(&document, Key::Exchange)?;
    let firms = firms_of(alloc, &document)?;
    let max_orders = number_if(false, &document, Key::MaxOrders, 1, MOST_ORDERS)?;
    let journal_limit = number_if(
        false,
        &document,
        Key::JournalLimit,
        LEAST_JOURNAL,
        MOST_JOURNAL,
    )?;
    let instruments = instruments_of(&firms, &document)?;
    let names = Names::new(exchange, &firms, &instruments.listed);
    Ok(Product::new(
        names,
        max_orders.unwrap_or(USUAL_ORDERS),
        journal_limit.unwrap_or(USUAL_JOURNAL) as u64,
        instruments.rules,
    ))
}

/// The TOML document of a text, which is UTF-8.
#[tactic(auto, unfolding(crate::specs::ProductTexts::document_of))]
fn document_of(alloc: Global, text: &[u8]) -> Result<Value, ProductFault>
    ensures read { IfOk result (λ document. document_of text.now ≡ Some (view document)) }
    ensures refused { IfErr result (λ fault. fault ≢ NoMemory → (fault ≡ Text) × (document_of text.now ≡ None)) }
    ensures memory { IfErr result (λ fault. fault ≡ NoMemory → IsUtf8 text.now × ¬ IsBlank text.now) }
{
    match std::str::from_utf8(text) {
        Ok(text) => parsed(alloc, text),
        Err(_) => Err(ProductFault::Text),
    }
}

/// The TOML document of a UTF-8 text.
fn parsed(alloc: Global, text: &str) -> Result<Value, ProductFault>
    ensures read { IfOk result (λ document. option_map table (parse_document text.now) ≡ Some (view document)) }
    ensures refused { IfErr result (λ fault. fault ≢ NoMemory → (fault ≡ Text) × (parse_document text.now ≡ None)) }
    ensures memory { IfErr result (λ fault. fault ≡ NoMemory → ¬ IsBlank text.now) }
{
    match toml::table_from_str(alloc, text) {
        Ok(table) => Ok(Value::Table(table)),
        Err(error) if error.is_memory() => Err(ProductFault::NoMemory),
        Err(_) => Err(ProductFault::Text),
    }
}
