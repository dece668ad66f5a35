//! The words of a line: a kind, an id, a count, a price.

ghost use Rattle.std.specs.Prelude.{◌≡◌, ◌≤◌, IfOk, true};
ghost use Rattle.vac_model.specs.Amounts.{is_id, is_amount, is_optional_amount, is_unit_count};
ghost use Rattle.vac_lines.specs.LineTable.{at_place, at_stock, at_kind, at_id, at_amount, at_price, at_units, at_booking, at_number};

use crate::fault::LineFault;
use crate::names::is_name;
use crate::numbers::read_number;
use vac_model::Kind;
use vac_model::limits::{MOST_AMOUNT, MOST_ID, MOST_UNITS_AT_ONCE};

/// Largest number of digits of a number in a line, leading zeros included.
const MOST_DIGITS: usize = 10;

/// Reads the item that two words name.
pub(crate) fn place_at(kind: &[u8], id: &[u8]) -> Result<(Kind, u32), LineFault>
    ensures place { result ≡ at_place kind.now id.now }
    ensures in_range { IfOk result (λ place. is_id place.1 ≡ true) }
{
    let kind = kind_at(kind)?;
    Ok((kind, id_at(id)?))
}

/// Reads the customer and the item that three words name.
pub(crate) fn booking_at(
    customer: &[u8],
    kind: &[u8],
    id: &[u8],
) -> Result<(u32, Kind, u32), LineFault>
    ensures booking { result ≡ at_booking customer.now kind.now id.now }
    ensures customer_in_range { IfOk result (λ booking. is_id booking.0 ≡ true) }
    ensures item_in_range { IfOk result (λ booking. is_id booking.2 ≡ true) }
{
    let customer = id_at(customer)?;
    let (kind, id) = place_at(kind, id)?;
    Ok((customer, kind, id))
}

/// Reads the count, and the price or none, that two words write.
pub(crate) fn stock_at(num: &[u8], price: &[u8]) -> Result<(u32, Option<u32>), LineFault>
    ensures stock { result ≡ at_stock num.now price.now }
    ensures num_in_range { IfOk result (λ stock. is_amount stock.0 ≡ true) }
    ensures price_in_range { IfOk result (λ stock. is_optional_amount stock.1 ≡ true) }
{
    let num = amount_at(num)?;
    Ok((num, price_at(price)?))
}

/// Reads the kind of item that a word names.
fn kind_at(word: &[u8]) -> Result<Kind, LineFault>
    ensures { result ≡ at_kind word.now }
{
    if is_name(word, b"car") {
        Ok(Kind::Car)
    } else if is_name(word, b"flight") {
        Ok(Kind::Flight)
    } else if is_name(word, b"room") {
        Ok(Kind::Room)
    } else {
        Err(LineFault::BadKind)
    }
}

/// Reads the id that a word writes.
pub(crate) fn id_at(word: &[u8]) -> Result<u32, LineFault>
    ensures id { result ≡ at_id word.now }
    ensures in_range { IfOk result (λ id. is_id id ≡ true) }
{
    number_at(word, 1, MOST_ID)
}

/// Reads the count or price that a word writes.
pub(crate) fn amount_at(word: &[u8]) -> Result<u32, LineFault>
    ensures amount { result ≡ at_amount word.now }
    ensures in_range { IfOk result (λ amount. is_amount amount ≡ true) }
{
    number_at(word, 0, MOST_AMOUNT)
}

/// Reads the number of units to reserve that a word writes.
pub(crate) fn units_at(word: &[u8]) -> Result<u32, LineFault>
    ensures units { result ≡ at_units word.now }
    ensures in_range { IfOk result (λ num. is_unit_count num ≡ true) }
{
    number_at(word, 1, MOST_UNITS_AT_ONCE)
}

/// Reads the price that a word writes, or `None` for a dash.
fn price_at(word: &[u8]) -> Result<Option<u32>, LineFault>
    ensures price { result ≡ at_price word.now }
    ensures in_range { IfOk result (λ price. is_optional_amount price ≡ true) }
{
    if is_name(word, b"-") {
        return Ok(None);
    }
    Ok(Some(amount_at(word)?))
}

/// Reads the number that a word writes, if it is within the bounds.
fn number_at(word: &[u8], least: u32, most: u32) -> Result<u32, LineFault>
    ensures number { result ≡ at_number least most word.now }
    ensures in_range { IfOk result (λ number. (least ≤ number) × (number ≤ most)) }
{
    match read_number(word, MOST_DIGITS, u64::from(least), u64::from(most)) {
        Some(number) => Ok(number as u32),
        None => Err(LineFault::BadNumber),
    }
}
