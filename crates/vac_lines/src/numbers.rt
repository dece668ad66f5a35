//! Decimal numbers.

ghost use Rattle.std.specs.Prelude.{◌≡◌, ◌≤◌, ◌^◌, ◌&&◌, IfSome, Some, None, nat_lt, if◌then◌else◌};
ghost use Rattle.std.specs.List.{list_all};
ghost use Rattle.std.specs.Char.{is_ascii_digit};
ghost use Rattle.vac_lines.specs.Words as spec;
ghost use Rattle.vac_lines.specs.Words.{number_between, memory_word_of};

/// Largest number of digits of a memory word.
pub(crate) const MOST_WORD_DIGITS: usize = 20;

/// Returns the number that a word of 1 to `most_digits` decimal digits writes, if it is from
/// `least` to `most`. Leading zeros count as digits.
pub(crate) fn read_number(word: &[u8], most_digits: usize, least: u64, most: u64) -> Option<u64>
    ensures number { result ≡ number_between most_digits least most word.now }
    ensures in_range { IfSome result (λ number. (least ≤ number) × (number ≤ most)) }
{
    if word.is_empty() || word.len() > most_digits {
        return None;
    }
    let number = decimal_value(word)?;
    if number < least || number > most {
        return None;
    }
    Some(number)
}

/// Returns the number that decimal digits write, if it fits 64 bits.
fn decimal_value(digits: &[u8]) -> Option<u64>
    ensures { result ≡ (if list_all is_ascii_digit digits.now
        && nat_lt (spec.decimal_value digits.now) (2 ^ 64)
        then Some (spec.decimal_value digits.now) else None) }
{
    let mut number: u64 = 0;
    for digit in digits {
        if !digit.is_ascii_digit() {
            return None;
        }
        number = number
            .checked_mul(10)?
            .checked_add(u64::from(*digit - b'0'))?;
    }
    Some(number)
}

/// Returns the memory word that a line of 1 to 20 decimal digits writes, as `dump` writes it and
/// `check` reads it. Returns `None` for any other line.
pub fn read_memory_word(line: &[u8]) -> Option<u64>
    ensures { result ≡ memory_word_of line.now }
{
    read_number(line, MOST_WORD_DIGITS, 0, u64::MAX)
}
