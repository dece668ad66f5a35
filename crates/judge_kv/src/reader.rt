//! Reading values, so that equal words share a value.

ghost use Rattle.std.specs.Prelude.{◌≡◌, Some, IfOk};
ghost use Rattle.judge_text.specs.Quoting.{unquoted};
ghost use Rattle.judge_kv.specs.Shared.{value_in};

use crate::value::Value;
use judge_text::read_quoted;
use std::alloc::{AllocError, Global};
use std::collections::HashMap;
use std::marker::Model;
use std::rc::Rc;

/// Most values that are kept for later words.
const MOST_VALUES: usize = 4096;

/// Most bytes of a word whose value is kept.
const MOST_BYTES: usize = 32;

/// Returns the value that a quoted word writes, for sharing.
pub(crate) fn read_value(alloc: Global, word: &[u8]) -> Result<Option<Rc<Value>>, AllocError>
    ensures { IfOk result (λ read. unquoted word.now ≡ value_in read) }
{
    match read_quoted(alloc, word)? {
        Some(bytes) => Ok(Some(Rc::new(alloc, Value::from_bytes(bytes))?)),
        None => Ok(None),
    }
}

/// Returns a value that shares its place in memory with this one.
fn shared(value: &Rc<Value>) -> Result<Rc<Value>, AllocError>
    ensures { IfOk result (λ other. other.value ≡ value.now.value) }
{
    Ok(value.clone()?)
}

/// Values that words wrote. Each value that is found by a word is the value that the word writes;
/// which values are kept is not said.
#[derive(Drop)]
pub struct Reader {
    values: HashMap<Vec<u8>, Rc<Value>>,
}

impl Model for Reader {
    ghost use Rattle.std.specs.Prelude.{⊤};
    ghost use Rattle.judge_kv.specs.Reading.{AreRead};

    ghost Value = { ⊤ };

    ghost view = { λ r. tt };

    ghost invariant = { λ r. AreRead r.values };
}

impl Reader {
    /// Returns a reader without values.
    pub fn new(alloc: Global) -> Reader {
        Reader {
            values: HashMap::new(alloc),
        }
    }

    /// Keeps the value of a short word if few values are kept.
    fn keep(&mut self, alloc: Global, word: &[u8], value: &Rc<Value>) -> Result<(), AllocError>
        requires { unquoted word.now ≡ Some value.now.value }
    {
        if self.values.len() < MOST_VALUES && word.len() <= MOST_BYTES {
            let key = Vec::from_slice(alloc, word)?;
            let other = shared(value)?;
            self.values.insert(key, other)?;
        }
        Ok(())
    }

    /// Returns the value that a quoted word writes, which later words may share.
    pub(crate) fn read_value(
        &mut self,
        alloc: Global,
        word: &[u8],
    ) -> Result<Option<Rc<Value>>, AllocError>
        ensures { IfOk result (λ read. unquoted word.now ≡ value_in read) }
    {
        if let Some(value) = self.values.get(word) {
            let other = shared(value)?;
            return Ok(Some(other));
        }
        match read_value(alloc, word)? {
            Some(value) => {
                self.keep(alloc, word, &value)?;
                Ok(Some(value))
            }
            None => Ok(None),
        }
    }
}
