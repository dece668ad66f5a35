//! Printing: the text that a value's `Display` writes is appended to a buffer.

ghost use Rattle.std.specs.Prelude.{◌≡◌, ◌++◌, IfOk, IfSome, OnOk, OnErr};
ghost use Rattle.std.specs.Str.{bytes_eq};
ghost use Rattle.vac_model.specs.ReplyText.{reply_text};

use smallvec::SmallVec;
use std::alloc::AllocError;
use std::fmt::{Display, Write};
use std::{fmt, mem};
use vac_model::Reply;

/// Greatest length of a text that `print` formats on the stack. Most replies and tasks are shorter.
const SHORT_TEXT: usize = 128;

/// A buffer to whose end a text is written.
#[derive(Drop)]
struct Buffer {
    bytes: Vec<u8>,
}

impl fmt::Write for Buffer {
    ghost write_str_gives = { λ s part t. t.bytes.items ≡ s.bytes.items ++ part };

    #[inline]
    fn write_str(&mut self, part: &str) -> fmt::Result {
        match self.bytes.extend_from_slice(part.as_bytes()) {
            Ok(()) => Ok(()),
            Err(_) => Err(fmt::Error),
        }
    }
}

/// A text on the stack, if it is short.
#[derive(Drop)]
struct ShortText {
    bytes: SmallVec<u8, SHORT_TEXT>,
}

impl fmt::Write for ShortText {
    ghost write_str_gives = { λ s part t. t.bytes.items ≡ s.bytes.items ++ part };

    #[inline]
    fn write_str(&mut self, part: &str) -> fmt::Result {
        match self.bytes.extend_from_slice(part.as_bytes()) {
            Ok(()) => Ok(()),
            Err(_) => Err(fmt::Error),
        }
    }
}

/// Appends the text of a value. If memory is refused, the contents of the buffer are not known.
///
/// Not said: the text of a value whose type states no output.
pub fn append<T: Display + Drop>(value: T, out: &mut Vec<u8>) -> Result<(), AllocError>
    ensures { OnOk result
        (IfSome (T.output value) (λ text. out.new.items ≡ out.old.items ++ text)) }
{
    let alloc = *out.allocator();
    let mut buffer = Buffer {
        bytes: mem::replace(out, Vec::new(alloc)),
    };
    let written = buffer.write(value);
    *out = buffer.bytes;
    match written {
        Ok(()) => Ok(()),
        Err(_) => Err(AllocError),
    }
}

/// Appends the text of a value, or nothing if memory is refused. Room in `out` is reserved once. A
/// text of more than 128 bytes is formatted in memory of its own first.
///
/// Not said: the text of a value whose type states no output.
pub fn print<T: Display + Drop>(value: T, out: &mut Vec<u8>) -> Result<(), AllocError>
    ensures ok { OnOk result
        (IfSome (T.output value) (λ text. out.new.items ≡ out.old.items ++ text)) }
    ensures err { OnErr result (out.new.items ≡ out.old.items) }
{
    let mut text = ShortText {
        bytes: SmallVec::new(*out.allocator()),
    };
    match text.write(value) {
        Ok(()) => out.extend_from_slice(text.bytes.as_slice()),
        Err(_) => Err(AllocError),
    }
}

/// Returns whether a text is that of a reply. The text of the reply overwrites the buffer.
///
/// Not said: the contents of the buffer afterwards.
pub fn is_text_of(buffer: &mut Vec<u8>, reply: &Reply, text: &[u8]) -> Result<bool, AllocError>
    ensures { IfOk result (λ same. same ≡ bytes_eq text.now (reply_text reply.now)) }
{
    buffer.clear();
    append(reply, buffer)?;
    Ok(text == buffer.as_slice())
}
