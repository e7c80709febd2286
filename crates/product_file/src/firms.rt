//! The firms of a product file.
ghost use Rattle.std.specs.Prelude.{◌≡◌, ◌≢◌, ◌≤◌, map, length, IsTrue, IfOk, IfErr, Ok, Err, Some, None, SomeIff};
ghost use Rattle.indexmap.specs.IndexSet.{IsEmpty, spare};
ghost use Rattle.toml.specs.View.{view};
ghost use Rattle.product_file.specs.declared.faults.ProductFault.TheVariants.{NoMemory};
ghost use Rattle.product_file.specs.Values.{text_in};
ghost use Rattle.product_file.specs.Ranges.{is_firm_name};
ghost use Rattle.product_file.specs.Inner.Keys.{map_ok};
ghost use Rattle.product_file.specs.Inner.FirmNames.{first_name_twice, firms_of, firm_names};

use crate::faults::{Key, ProductFault};
use crate::keys::{text_in, texts_at};
use arrayvec::ArrayVec;
use gx_base::{MOST_FIRMS, ShortId};
use indexmap::IndexSet;
use std::alloc::Global;
use toml::Value;

/// The firms that a document lists. Only `NoMemory` depends on anything but the document. Takes memory.
#[tactic(auto, unfolding(crate::specs::Inner::FirmNames::firms_of))]
pub(crate) fn firms_of(
    alloc: Global,
    document: &Value,
) -> Result<ArrayVec<ShortId, MOST_FIRMS>, ProductFault>
    ensures read { IfOk result (λ firms. firms_of (view document.now) ≡ Ok firms.items) }
    ensures refused { IfErr result (λ fault. fault ≢ NoMemory → firms_of (view document.now) ≡ Err fault) }
{
    let entries = texts_at(document, Key::Firms)?;
    let names = firm_names(entries)?;
    match first_name_twice(alloc, &names)? {
        Some(name) => Err(ProductFault::Twice(name)),
        None => Ok(names),
    }
}

/// The names of 1 to `MOST_FIRMS` firms, which these entries are.
fn firm_names(entries: &[Value]) -> Result<ArrayVec<ShortId, MOST_FIRMS>, ProductFault>
    ensures { map_ok (λ names. names.items) result ≡ firm_names (map view entries.now) }
{
    if entries.is_empty() || entries.len() > MOST_FIRMS {
        return Err(ProductFault::Range(Key::Firms));
    }
    let mut names = ArrayVec::new();
    for entry in entries {
        match firm_name(entry) {
            Some(name) => names.push(name),
            None => return Err(ProductFault::Range(Key::Firms)),
        }
    }
    Ok(names)
}

/// The name of a firm that an entry is. `None` where it is no name, and for `UNKNOWN`, which reports give to whom they do
/// not know.
fn firm_name(entry: &Value) -> Option<ShortId>
    ensures { SomeIff result (IsTrue (is_firm_name (text_in (view entry.now)))) (text_in (view entry.now)) }
{
    let text = text_in(entry);
    if text == "UNKNOWN" {
        return None;
    }
    ShortId::new(text.as_bytes())
}

/// The first of these names that an earlier one has. Takes memory for their numbers at once; `NoMemory` is its only fault.
fn first_name_twice(alloc: Global, names: &[ShortId]) -> Result<Option<ShortId>, ProductFault>
    ensures found { IfOk result (λ twice. twice ≡ first_name_twice names.now) }
    ensures refused { IfErr result (λ fault. fault ≡ NoMemory) }
{
    match IndexSet::with_capacity(alloc, names.len()) {
        Ok(numbers) => Ok(first_numbered(numbers, names)),
        Err(_) => Err(ProductFault::NoMemory),
    }
}

/// The first of these names that has a number when its turn comes. Numbers those before it in their order, for which there is
/// room.
fn first_numbered<'a>(mut numbers: IndexSet<&'a [u8]>, names: &'a [ShortId]) -> Option<ShortId>
    requires none { IsEmpty numbers }
    requires room { length names.now ≤ spare numbers }
    ensures { result ≡ first_name_twice names.now }
{
    for name in names {
        let is_new = numbers.insert(name.bytes()).unwrap();
        if !is_new {
            return Some(*name);
        }
    }
    None
}
