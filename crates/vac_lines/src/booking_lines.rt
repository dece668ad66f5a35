//! Lines on one customer: `newcust`, `dropcust`, `bill`, `reserve` and `cancel`; and `audit`.

ghost use Rattle.std.specs.Prelude.{◌≡◌, IfOk, true};
ghost use Rattle.vac_model.specs.Ranges.{is_command};
ghost use Rattle.vac_lines.specs.Lines.{texts};
ghost use Rattle.vac_lines.specs.LineTable.{new_customer_line, drop_customer_line, bill_line, reserve_line, cancel_line, audit_line};

use crate::fault::LineFault;
use crate::item_lines::read_id;
use crate::words::{booking_at, units_at};
use vac_model::Command;

/// Reads `newcust ID` after its name.
pub(crate) fn read_new_customer(words: &[&[u8]]) -> Result<Command, LineFault>
    ensures command { result ≡ new_customer_line (texts words.now) }
    ensures in_range { IfOk result (λ command. is_command command ≡ true) }
{
    let id = read_id(words)?;
    Ok(Command::NewCustomer { id })
}

/// Reads `dropcust ID` after its name.
pub(crate) fn read_drop_customer(words: &[&[u8]]) -> Result<Command, LineFault>
    ensures command { result ≡ drop_customer_line (texts words.now) }
    ensures in_range { IfOk result (λ command. is_command command ≡ true) }
{
    let id = read_id(words)?;
    Ok(Command::DropCustomer { id })
}

/// Reads `bill ID` after its name.
pub(crate) fn read_bill(words: &[&[u8]]) -> Result<Command, LineFault>
    ensures command { result ≡ bill_line (texts words.now) }
    ensures in_range { IfOk result (λ command. is_command command ≡ true) }
{
    let id = read_id(words)?;
    Ok(Command::Bill { id })
}

/// Reads `reserve ID KIND ID`, for one unit, or `reserve ID KIND ID UNITS`, after its name.
pub(crate) fn read_reserve(words: &[&[u8]]) -> Result<Command, LineFault>
    ensures command { result ≡ reserve_line (texts words.now) }
    ensures in_range { IfOk result (λ command. is_command command ≡ true) }
{
    let (booking, num) = match words {
        [customer, kind, id] => (booking_at(customer, kind, id)?, 1),
        [customer, kind, id, units] => (booking_at(customer, kind, id)?, units_at(units)?),
        _ => return Err(LineFault::BadCount),
    };
    let (customer, kind, id) = booking;
    Ok(Command::Reserve {
        customer,
        kind,
        id,
        num,
    })
}

/// Reads `cancel ID KIND ID` after its name.
pub(crate) fn read_cancel(words: &[&[u8]]) -> Result<Command, LineFault>
    ensures command { result ≡ cancel_line (texts words.now) }
    ensures in_range { IfOk result (λ command. is_command command ≡ true) }
{
    let [customer, kind, id] = words else {
        return Err(LineFault::BadCount);
    };
    let (customer, kind, id) = booking_at(customer, kind, id)?;
    Ok(Command::Cancel { customer, kind, id })
}

/// Reads `audit` after its name.
pub(crate) fn read_audit(words: &[&[u8]]) -> Result<Command, LineFault>
    ensures command { result ≡ audit_line (texts words.now) }
    ensures in_range { IfOk result (λ command. is_command command ≡ true) }
{
    if !words.is_empty() {
        return Err(LineFault::BadCount);
    }
    Ok(Command::Audit)
}
