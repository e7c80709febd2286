//! Reading a row as an order.
ghost use Rattle.std.specs.Prelude.{◌≡◌, ◌==◌, ◌&&◌, true, length, bytes_eq};
ghost use Rattle.gx_base.specs.Texts.{is_name};
ghost use Rattle.book_image.specs.Rows.{side_byte, order_kind_byte, life_byte, side_of_byte, kind_of_byte, life_of_byte, id_of_row, order_of_row, has_forms, padded, bytes_at};

use crate::format::ROW_BYTES;
use crate::numbers::{count_at, number_at, price_at};
use gx_base::{Kind, LONGEST_NAME, Life, Order, ShortId, Side};

/// Where the bytes of the id begin in a row.
const ID_AT: usize = 14;

/// The side that a byte is read as.
pub(crate) fn side_of_byte(byte: u8) -> Side
    ensures { result ≡ side_of_byte byte }
{
    if byte == 2 { Side::Sell } else { Side::Buy }
}

/// The order type that a byte is read as.
fn kind_of_byte(byte: u8) -> Kind
    ensures { result ≡ kind_of_byte byte }
{
    match byte {
        1 => Kind::Market,
        4 => Kind::StopLimit,
        _ => Kind::Limit,
    }
}

/// The time in force that a byte is read as.
fn life_of_byte(byte: u8) -> Life
    ensures { result ≡ life_of_byte byte }
{
    match byte {
        1 => Life::Gtc,
        3 => Life::Fak,
        4 => Life::Fok,
        _ => Life::Day,
    }
}

/// Whether this byte is that of a side.
fn is_side_byte(byte: u8) -> bool
    ensures { result ≡ (byte == side_byte (side_of_byte byte)) }
{
    byte == 1 || byte == 2
}

/// Whether this byte is that of an order type.
fn is_kind_byte(byte: u8) -> bool
    ensures { result ≡ (byte == order_kind_byte (kind_of_byte byte)) }
{
    byte == 1 || byte == 2 || byte == 4
}

/// Whether this byte is that of a time in force.
fn is_life_byte(byte: u8) -> bool
    ensures { result ≡ (byte == life_byte (life_of_byte byte)) }
{
    byte == 0 || byte == 1 || byte == 3 || byte == 4
}

/// Whether the id is a name, filled up with zeros.
fn has_padded_name(row: &[u8]) -> bool
    requires { length row.now ≡ ROW_BYTES }
    ensures { result ≡ (is_name (id_of_row row.now) && bytes_eq (bytes_at row.now ID_AT LONGEST_NAME) (padded (id_of_row row.now))) }
{
    let count = row[ID_AT - 1] as usize;
    if count > LONGEST_NAME || ShortId::new(&row[ID_AT..ID_AT + count]).is_none() {
        return false;
    }
    let mut padded = [0; LONGEST_NAME];
    padded[..count].copy_from_slice(&row[ID_AT..ID_AT + count]);
    row[ID_AT..ID_AT + LONGEST_NAME] == padded[..]
}

/// Whether the bytes of the side, the order type and the time in force are those of one, and the id is a name, filled up with zeros.
pub(crate) fn has_forms(row: &[u8]) -> bool
    requires { length row.now ≡ ROW_BYTES }
    ensures { result ≡ has_forms row.now }
{
    is_side_byte(row[10]) && is_kind_byte(row[11]) && is_life_byte(row[12]) && has_padded_name(row)
}

/// The id of a row that has one.
fn id_of_row(row: &[u8]) -> ShortId
    requires length { length row.now ≡ ROW_BYTES }
    requires name { is_name (id_of_row row.now) ≡ true }
    ensures { result ≡ id_of_row row.now }
{
    let count = row[ID_AT - 1] as usize;
    ShortId::new(&row[ID_AT..ID_AT + count]).unwrap_or_default()
}

/// The order that a row of the right forms is read as.
pub(crate) fn order_of_row(row: &[u8]) -> Order
    requires length { length row.now ≡ ROW_BYTES }
    requires forms { has_forms row.now ≡ true }
    ensures { result ≡ order_of_row row.now }
{
    Order {
        number: number_at(row, 0),
        firm: row[8],
        instrument: row[9],
        side: side_of_byte(row[10]),
        id: id_of_row(row),
        kind: kind_of_byte(row[11]),
        price: price_at(row, 38),
        trigger: price_at(row, 46),
        quantity: count_at(row, 54),
        filled: count_at(row, 58),
        leaves: count_at(row, 62),
        show: count_at(row, 66),
        shown: count_at(row, 70),
        min: count_at(row, 74),
        life: life_of_byte(row[12]),
        prorated: count_at(row, 78),
    }
}
