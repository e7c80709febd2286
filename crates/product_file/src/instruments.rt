//! The instruments of a product file.
ghost use Rattle.std.specs.Prelude.{◌≡◌, ◌≤◌, length, map, bytes_eq, IfOk};
ghost use Rattle.std.specs.List.{list_any};
ghost use Rattle.gx_base.specs.declared.names.Listed.{Listed as ListedData};
ghost use Rattle.toml.specs.View.{view};
ghost use Rattle.product_file.specs.Inner.Keys.{map_ok};
ghost use Rattle.product_file.specs.Inner.Instruments.{new_name_of, listed_of, rule_of, instruments_of, tables_of, lists_of};

use crate::algorithms::{algorithm_of, parameters_of};
use crate::faults::{Key, ProductFault};
use crate::keys::{name_at, number_at, tables_at};
use crate::limits::{MOST_PROTECTION, MOST_TICK};
use crate::product::InstrumentRule;
use crate::step_lists::{letter_steps, step_names_of};
use arrayvec::ArrayVec;
use gx_base::{Listed, MOST_DECIMALS, MOST_FIRMS, MOST_INSTRUMENTS, ShortId};
use toml::Value;

/// Instruments as a list of names with decimals, and a list of their rules.
#[derive(Drop)]
pub(crate) struct Instruments {
    pub(crate) listed: ArrayVec<Listed, MOST_INSTRUMENTS>,
    pub(crate) rules: ArrayVec<InstrumentRule, MOST_INSTRUMENTS>,
}

/// The instruments that a document lists.
#[tactic(auto, unfolding(crate::specs::Inner::Instruments::instruments_of))]
pub(crate) fn instruments_of(
    firms: &[ShortId],
    document: &Value,
) -> Result<Instruments, ProductFault>
    requires { length firms.now ≤ MOST_FIRMS }
    ensures { map_ok lists_of result ≡ instruments_of firms.now (view document.now) }
{
    let tables = tables_of(document)?;
    let mut listed = ArrayVec::new();
    let mut rules = ArrayVec::new();
    for table in tables {
        let name = listed_of(&listed, table)?;
        let rule = rule_of(firms, table)?;
        listed.push(name);
        rules.push(rule);
    }
    Ok(Instruments { listed, rules })
}

/// The tables of the instruments, of which there are 1 to `MOST_INSTRUMENTS`.
#[tactic(auto, unfolding(crate::specs::Inner::Instruments::tables_of))]
fn tables_of(document: &Value) -> Result<&[Value], ProductFault>
    ensures value { map_ok (λ vs. map view vs.now) result ≡ tables_of (view document.now) }
    ensures few { IfOk result (λ vs. length vs.now ≤ MOST_INSTRUMENTS) }
{
    let tables = tables_at(document, Key::Instrument)?;
    if tables.is_empty() || tables.len() > MOST_INSTRUMENTS {
        return Err(ProductFault::Range(Key::Instrument));
    }
    Ok(tables)
}

/// The name of an instrument, which none of the earlier ones has, and its decimals.
#[tactic(auto, unfolding(crate::specs::Inner::Instruments::listed_of))]
fn listed_of(earlier: &[Listed], table: &Value) -> Result<Listed, ProductFault>
    ensures { result ≡ listed_of earlier.now (view table.now) }
{
    let name = new_name_of(earlier, table)?;
    let decimals = number_at(table, Key::Decimals, 0, MOST_DECIMALS as u32)?;
    Ok(Listed {
        name,
        decimals: decimals as u8,
    })
}

/// The name of an instrument, which none of the earlier ones has.
#[tactic(auto, unfolding(crate::specs::Inner::Instruments::new_name_of))]
fn new_name_of(earlier: &[Listed], table: &Value) -> Result<ShortId, ProductFault>
    ensures { result ≡ new_name_of earlier.now (view table.now) }
{
    let name = name_at(table, Key::Name)?;
    if has_name(earlier, &name) {
        return Err(ProductFault::Twice(name));
    }
    Ok(name)
}

/// Whether one of these instruments has this name.
fn has_name(earlier: &[Listed], name: &ShortId) -> bool
    ensures { result ≡ list_any (λ (l : ListedData). bytes_eq l.name name.now) earlier.now }
{
    earlier
        .iter()
        .any(|listed| listed.name.bytes() == name.bytes())
}

/// What an instrument's orders are held to: its tick, its protection, its algorithm, and last its list of steps.
#[tactic(auto, unfolding(crate::specs::Inner::Instruments::rule_of))]
fn rule_of(firms: &[ShortId], table: &Value) -> Result<InstrumentRule, ProductFault>
    requires { length firms.now ≤ MOST_FIRMS }
    ensures { result ≡ rule_of firms.now (view table.now) }
{
    let tick = number_at(table, Key::Tick, 1, MOST_TICK)?;
    let protection = number_at(table, Key::Protection, 0, MOST_PROTECTION)?;
    let letter = algorithm_of(table)?;
    let parameters = parameters_of(firms, letter, table)?;
    let names = step_names_of(letter, table)?;
    let steps = letter_steps(letter, &parameters, names)?;
    Ok(InstrumentRule {
        tick: tick as i64,
        protection,
        letter,
        steps,
    })
}
