//! Bytes as quoted words.

ghost use Rattle.std.specs.Prelude.{◌≡◌, IfOk, IfSome, MatchOption, None, Some, flat_map};
ghost use Rattle.std.specs.List.{list_all};
ghost use Rattle.judge_text.specs.Quoting as spec;
ghost use Rattle.judge_text.specs.Quoting.{escaped, quoted, unescaped, unquoted};

use std::alloc::{AllocError, Global};
use std::fmt;
use std::fmt::{Display, Formatter};
use std::str::from_utf8;

/// Returns whether a byte stands for itself between quotes: printable, no space, no quote and no
/// percent sign.
fn is_plain(byte: u8) -> bool
    ensures { result ≡ spec.is_plain byte }
{
    32 < byte && byte < 127 && byte != b'"' && byte != b'%'
}

/// Returns the number that a hexadecimal digit writes.
fn hex_value(digit: u8) -> Option<u8>
    ensures value { result ≡ spec.hex_value digit }
{
    if 48 <= digit && digit <= 57 {
        Some(digit - 48)
    } else if 97 <= digit && digit <= 102 {
        Some(digit - 87)
    } else {
        None
    }
}

/// A byte as it stands between quotes.
#[derive(Clone, Copy)]
struct EscapedByte {
    byte: u8,
}

impl Display for EscapedByte {
    ghost output = { λ word. Some (escaped word.byte) };

    fn fmt<W: fmt::Write>(&self, f: &mut Formatter<W>) -> fmt::Result {
        let byte = self.byte;
        if is_plain(byte) {
            write!(f, "{}", char::from(byte))
        } else {
            write!(f, "%{byte:02x}")
        }
    }
}

/// Returns whether each byte stands for itself between quotes.
fn are_plain(bytes: &[u8]) -> bool
    ensures { result ≡ list_all spec.is_plain bytes.now }
{
    bytes.iter().all(|byte| is_plain(*byte))
}

/// Returns bytes as a text if each of them stands for itself between quotes.
#[tactic(auto, using(crate::proofs::Quotes::plain_whole))]
fn plain_text(bytes: &[u8]) -> Option<&str>
    ensures { IfSome result (λ text. text.now ≡ flat_map escaped bytes.now) }
{
    if are_plain(bytes) {
        from_utf8(bytes).ok()
    } else {
        None
    }
}

/// Bytes as a quoted word.
#[derive(Clone, Copy)]
pub struct Quoted<'a> {
    /// The bytes.
    pub bytes: &'a [u8],
}

impl Display for Quoted<'_> {
    ghost output = { λ word. Some (quoted word.bytes.now) };

    fn fmt<W: fmt::Write>(&self, f: &mut Formatter<W>) -> fmt::Result {
        // In one piece: each piece costs the formatter more than many bytes do.
        if let Some(text) = plain_text(self.bytes) {
            return write!(f, "\"{text}\"");
        }
        write!(f, "\"")?;
        for byte in self.bytes {
            write!(f, "{}", EscapedByte { byte: *byte })?;
        }
        write!(f, "\"")
    }
}

/// Returns the byte that two hexadecimal digits write.
fn hex_pair(high: u8, low: u8) -> Option<u8>
    ensures { MatchOption result (spec.IsNoPair high low) (λ byte. spec.IsPair high low byte) }
{
    let high = hex_value(high)?;
    let low = hex_value(low)?;
    Some(16 * high + low)
}

/// Reads the bytes that a text writes up to its closing quote, which ends it.
fn read_escaped(alloc: Global, text: &[u8]) -> Result<Option<Vec<u8>>, AllocError>
    ensures { IfOk result (λ read. unescaped text.now ≡ spec.bytes_of read) }
{
    let mut bytes = Vec::with_capacity(alloc, text.len())?;
    let mut at = 0;
    'bytes: while at < text.len() {
        let byte = text[at];
        if is_plain(byte) {
            bytes.push(byte)?;
            at += 1;
        } else if byte == b'%' && 3 <= text.len() - at {
            let Some(byte) = hex_pair(text[at + 1], text[at + 2]) else {
                return Ok(None);
            };
            bytes.push(byte)?;
            at += 3;
        } else {
            if byte == b'"' && at + 1 == text.len() {
                return Ok(Some(bytes));
            }
            return Ok(None);
        }
    }
    Ok(None)
}

/// Reads the bytes that a word writes in quotes, or `None` if it is no quoted word.
pub fn read_quoted(alloc: Global, word: &[u8]) -> Result<Option<Vec<u8>>, AllocError>
    ensures { IfOk result (λ read. unquoted word.now ≡ spec.bytes_of read) }
{
    match word.split_first() {
        Some((first, rest)) if *first == b'"' => read_escaped(alloc, rest),
        _ => Ok(None),
    }
}
