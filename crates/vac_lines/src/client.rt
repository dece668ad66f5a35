//! The number of a client.

ghost use Rattle.std.specs.Prelude.{◌≡◌};
ghost use Rattle.vac_lines.specs.Client.{client_number};

use crate::numbers::read_memory_word;

/// Largest number of digits of a client's number. Leading zeros count.
const MOST_CLIENT_DIGITS: usize = 10;

/// Largest number of a client.
pub const MOST_CLIENT: u32 = u32::MAX;

/// Reads a word as the number of a client: 0 to 4,294,967,295, of 1 to 10 digits.
pub fn read_client(word: &[u8]) -> Option<u32>
    ensures { result ≡ client_number word.now }
{
    if word.len() > MOST_CLIENT_DIGITS {
        return None;
    }
    match read_memory_word(word) {
        Some(client) if client <= u64::from(MOST_CLIENT) => Some(client as u32),
        _ => None,
    }
}
