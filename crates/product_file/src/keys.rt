//! The values at the keys of a table: present where they are needed, of a kind, and within limits.
ghost use Rattle.std.specs.Prelude.{◌≡◌, ◌≤◌, false, map, option_map, ok_or, IfOk, IfSome};
ghost use Rattle.std.specs.List.{list_all};
ghost use Rattle.toml.specs.View.{view};
ghost use Rattle.toml.specs.Data.{get, as_array};
ghost use Rattle.product_file.specs.declared.faults.ProductFault.TheVariants.{Missing, Kind};
ghost use Rattle.product_file.specs.Keys.{word_of};
ghost use Rattle.product_file.specs.Values.{text_in, entries_of};
ghost use Rattle.product_file.specs.Rows.{is_text, is_table};
ghost use Rattle.product_file.specs.Inner.Keys.{map_ok, needed, needed_number, number_if, number_of, needed_name, text_of, array_of, array_if, where_passes};

use crate::faults::{Key, ProductFault};
use gx_base::ShortId;
use toml::Value;

/// The value at a key that is needed. `Missing` where it is absent.
fn value_at(table: &Value, key: Key) -> Result<&Value, ProductFault>
    ensures { map_ok (λ v. view v.now) result ≡ ok_or (get (word_of key) (view table.now)) (Missing key) }
{
    match table.get(key.word()) {
        Some(value) => Ok(value),
        None => Err(ProductFault::Missing(key)),
    }
}

/// The text at a key that is needed.
pub(crate) fn text_at(table: &Value, key: Key) -> Result<&str, ProductFault>
    ensures { map_ok (λ s. s.now) result ≡ needed key text_of (view table.now) }
{
    let value = value_at(table, key)?;
    match value.as_str() {
        Some(text) => Ok(text),
        None => Err(ProductFault::Kind(key)),
    }
}

/// The name at a key that is needed.
pub(crate) fn name_at(table: &Value, key: Key) -> Result<ShortId, ProductFault>
    ensures { result ≡ needed_name key (view table.now) }
{
    let text = text_at(table, key)?;
    match ShortId::new(text.as_bytes()) {
        Some(name) => Ok(name),
        None => Err(ProductFault::Range(key)),
    }
}

/// The number at a key that is needed.
pub(crate) fn number_at(table: &Value, key: Key, low: u32, high: u32) -> Result<u32, ProductFault>
    ensures value { result ≡ needed_number key low high (view table.now) }
    ensures within { IfOk result (λ n. (low ≤ n) × (n ≤ high)) }
{
    let value = value_at(table, key)?;
    number_of(value, key, low, high)
}

/// The number at a key that is needed at times.
pub(crate) fn number_if(
    is_needed: bool,
    table: &Value,
    key: Key,
    low: u32,
    high: u32,
) -> Result<Option<u32>, ProductFault>
    ensures value { result ≡ number_if is_needed key low high (view table.now) }
    ensures within { IfOk result (λ found. IfSome found (λ n. (low ≤ n) × (n ≤ high))) }
{
    match table.get(key.word()) {
        Some(value) => {
            let number = number_of(value, key, low, high)?;
            Ok(Some(number))
        }
        None if is_needed => Err(ProductFault::Missing(key)),
        None => Ok(None),
    }
}

/// The number that a value is: an integer from `low` to `high`.
#[tactic(auto, unfolding(crate::specs::Inner::Keys::number_of))]
fn number_of(value: &Value, key: Key, low: u32, high: u32) -> Result<u32, ProductFault>
    ensures value { result ≡ number_of key low high (view value.now) }
    ensures within { IfOk result (λ n. (low ≤ n) × (n ≤ high)) }
{
    match value.as_integer() {
        Some(z) if low as i64 <= z && z <= high as i64 => Ok(z as u32),
        Some(_) => Err(ProductFault::Range(key)),
        None => Err(ProductFault::Kind(key)),
    }
}

/// The entries of an array at a key that is needed, each of them a text.
pub(crate) fn texts_at(table: &Value, key: Key) -> Result<&[Value], ProductFault>
    ensures { map_ok (λ vs. map view vs.now) result ≡ needed key (array_of is_text) (view table.now) }
{
    let value = value_at(table, key)?;
    texts_of(value, key)
}

/// The entries of an array at a key that is needed, each of them a table.
pub(crate) fn tables_at(table: &Value, key: Key) -> Result<&[Value], ProductFault>
    ensures { map_ok (λ vs. map view vs.now) result ≡ needed key (array_of is_table) (view table.now) }
{
    let value = value_at(table, key)?;
    tables_of(value, key)
}

/// The entries of an array at a key that is needed at times, each of them a text. There are none where it is absent.
pub(crate) fn texts_if(is_needed: bool, table: &Value, key: Key) -> Result<&[Value], ProductFault>
    ensures { map_ok (λ vs. map view vs.now) result ≡ array_if is_needed is_text key (view table.now) }
{
    match table.get(key.word()) {
        Some(value) => texts_of(value, key),
        None if is_needed => Err(ProductFault::Missing(key)),
        None => Ok(&[]),
    }
}

/// The entries of an array at a key, each of them a table. There are none where it is absent.
pub(crate) fn tables_or_none(table: &Value, key: Key) -> Result<&[Value], ProductFault>
    ensures { map_ok (λ vs. map view vs.now) result ≡ array_if false is_table key (view table.now) }
{
    match table.get(key.word()) {
        Some(value) => tables_of(value, key),
        None => Ok(&[]),
    }
}

/// The entries of an array, each of them a text.
#[tactic(auto, unfolding(crate::specs::Inner::Keys::array_of))]
fn texts_of(value: &Value, key: Key) -> Result<&[Value], ProductFault>
    ensures { map_ok (λ vs. map view vs.now) result ≡ array_of is_text key (view value.now) }
{
    let entries = entries_of(value, key)?;
    of_kind(entries, are_texts(entries), key)
}

/// The entries of an array, each of them a table.
#[tactic(auto, unfolding(crate::specs::Inner::Keys::array_of))]
fn tables_of(value: &Value, key: Key) -> Result<&[Value], ProductFault>
    ensures { map_ok (λ vs. map view vs.now) result ≡ array_of is_table key (view value.now) }
{
    let entries = entries_of(value, key)?;
    of_kind(entries, are_tables(entries), key)
}

/// The entries, where they are of their kind.
fn of_kind(entries: &[Value], are: bool, key: Key) -> Result<&[Value], ProductFault>
    ensures { map_ok (λ vs. map view vs.now) result ≡ where_passes (λ vs. are) (Kind key) (map view entries.now) }
{
    if are {
        Ok(entries)
    } else {
        Err(ProductFault::Kind(key))
    }
}

/// Whether each entry is a text.
fn are_texts(entries: &[Value]) -> bool
    ensures { result ≡ list_all (λ v. is_text (view v)) entries.now }
{
    entries.iter().all(|entry| entry.is_str())
}

/// Whether each entry is a table.
fn are_tables(entries: &[Value]) -> bool
    ensures { result ≡ list_all (λ v. is_table (view v)) entries.now }
{
    entries.iter().all(|entry| entry.is_table())
}

/// The entries of an array.
fn entries_of(value: &Value, key: Key) -> Result<&[Value], ProductFault>
    ensures { map_ok (λ vs. map view vs.now) result ≡ ok_or (option_map entries_of (as_array (view value.now))) (Kind key) }
{
    match value.as_array() {
        Some(entries) => Ok(entries.as_slice()),
        None => Err(ProductFault::Kind(key)),
    }
}

/// The text that an entry is, and the empty text where it is none.
pub(crate) fn text_in(entry: &Value) -> &str
    ensures { result.now ≡ text_in (view entry.now) }
{
    match entry.as_str() {
        Some(text) => text,
        None => "",
    }
}
