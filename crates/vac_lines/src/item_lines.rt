//! Lines on one item: `add`, `del`, `free` and `price`.

ghost use Rattle.std.specs.Prelude.{◌≡◌, IfOk, true};
ghost use Rattle.vac_model.specs.Amounts.{is_id};
ghost use Rattle.vac_model.specs.Ranges.{is_change, is_command};
ghost use Rattle.vac_lines.specs.Lines.{texts};
ghost use Rattle.vac_lines.specs.LineTable.{add_line, del_line, delete_line, free_line, price_line, place_alone, id_alone};
ghost use Rattle.std.specs.Prelude.{false, codes};
ghost use Rattle.std.specs.Str.{bytes_eq};

use crate::fault::LineFault;
use crate::names::is_name;
use crate::words::{amount_at, id_at, place_at, stock_at};
use vac_model::{Command, Kind};

/// Reads `add KIND ID NUM PRICE` after its name.
pub(crate) fn read_add(words: &[&[u8]]) -> Result<Command, LineFault>
    ensures command { result ≡ add_line (texts words.now) }
    ensures in_range { IfOk result (λ command. is_command command ≡ true) }
    ensures change { IfOk result (λ command. is_change command ≡ true) }
{
    let [kind, id, num, price] = words else {
        return Err(LineFault::BadCount);
    };
    let (kind, id) = place_at(kind, id)?;
    let (num, price) = stock_at(num, price)?;
    Ok(Command::Add {
        kind,
        id,
        num,
        price,
    })
}

/// Reads `del flight ID` or, for cars and rooms, `del KIND ID NUM`, after its name.
pub(crate) fn read_del(words: &[&[u8]]) -> Result<Command, LineFault>
    ensures command { result ≡ del_line (texts words.now) }
    ensures in_range { IfOk result (λ command. is_command command ≡ true) }
    ensures change { IfOk result (λ command. is_change command ≡ true) }
{
    let Some((kind, rest)) = words.split_first() else {
        return Err(LineFault::BadCount);
    };
    if is_name(kind, b"flight") {
        let id = read_id(rest)?;
        return Ok(Command::DropFlight { id });
    }
    read_delete(kind, rest)
}

/// Reads `del KIND ID NUM`, from its kind and the words after the kind.
fn read_delete(kind: &[u8], words: &[&[u8]]) -> Result<Command, LineFault>
    requires { bytes_eq kind.now (codes "flight") ≡ false }
    ensures command { result ≡ delete_line kind.now (texts words.now) }
    ensures in_range { IfOk result (λ command. is_command command ≡ true) }
    ensures change { IfOk result (λ command. is_change command ≡ true) }
{
    let [id, num] = words else {
        return Err(LineFault::BadCount);
    };
    let (kind, id) = place_at(kind, id)?;
    let num = amount_at(num)?;
    Ok(Command::Delete { kind, id, num })
}

/// Reads `free KIND ID` after its name.
pub(crate) fn read_free(words: &[&[u8]]) -> Result<Command, LineFault>
    ensures command { result ≡ free_line (texts words.now) }
    ensures in_range { IfOk result (λ command. is_command command ≡ true) }
{
    let (kind, id) = read_place(words)?;
    Ok(Command::Free { kind, id })
}

/// Reads `price KIND ID` after its name.
pub(crate) fn read_price(words: &[&[u8]]) -> Result<Command, LineFault>
    ensures command { result ≡ price_line (texts words.now) }
    ensures in_range { IfOk result (λ command. is_command command ≡ true) }
{
    let (kind, id) = read_place(words)?;
    Ok(Command::Price { kind, id })
}

/// Reads an item from the words `KIND ID`, if nothing follows.
fn read_place(words: &[&[u8]]) -> Result<(Kind, u32), LineFault>
    ensures place { result ≡ place_alone (texts words.now) }
    ensures in_range { IfOk result (λ place. is_id place.1 ≡ true) }
{
    let [kind, id] = words else {
        return Err(LineFault::BadCount);
    };
    place_at(kind, id)
}

/// Reads an id from the word `ID`, if nothing follows.
pub(crate) fn read_id(words: &[&[u8]]) -> Result<u32, LineFault>
    ensures id { result ≡ id_alone (texts words.now) }
    ensures in_range { IfOk result (λ id. is_id id ≡ true) }
{
    let [id] = words else {
        return Err(LineFault::BadCount);
    };
    id_at(id)
}
