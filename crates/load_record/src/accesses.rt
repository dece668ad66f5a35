//! The accesses of a running attempt.

ghost use Rattle.std.specs.Prelude.{◌≡◌, [], true, IfOk};

use std::alloc::{AllocError, Global};
use tx_memory::Access;

/// The accesses of a running attempt, as far as there was room for them.
#[derive(Drop)]
pub(crate) struct Accesses {
    alloc: Global,
    items: Vec<Access>,
    /// True if there was room for each access, of this attempt and of earlier ones.
    is_whole: bool,
}

impl Accesses {
    ghost use Rattle.load_record.specs.Known.{known};
    ghost use Rattle.load_record.specs.Observed.{HasSeen};

    /// Returns an empty list of accesses.
    pub(crate) fn new(alloc: Global) -> Accesses
        ensures none { result.items.items ≡ [] }
        ensures whole { result.is_whole ≡ true }
    {
        Accesses {
            alloc,
            items: Vec::new(alloc),
            is_whole: true,
        }
    }

    /// Records one more access.
    ///
    /// Not said: when there is no room.
    pub(crate) fn see(&mut self, access: Access)
        ensures { HasSeen access (known self.old.is_whole self.old.items.items)
            (known self.new.is_whole self.new.items.items) }
    {
        if self.items.push(access).is_err() {
            self.is_whole = false;
        }
    }

    /// Forgets the accesses of the last attempt.
    pub(crate) fn clear(&mut self)
        ensures none { self.new.items.items ≡ [] }
        ensures whole { self.new.is_whole ≡ self.old.is_whole }
    {
        self.items.clear();
    }

    /// Returns a copy of the accesses.
    pub(crate) fn copied(&self) -> Result<Vec<Access>, AllocError>
        ensures { IfOk result (λ copy. copy.items ≡ self.now.items.items) }
    {
        let mut copy = Vec::with_capacity(self.alloc, self.items.len())?;
        copy.extend_from_slice(self.items.as_slice())?;
        Ok(copy)
    }

    /// Returns whether there was room for all accesses.
    pub(crate) fn is_whole(&self) -> bool
        ensures { result ≡ self.now.is_whole }
    {
        self.is_whole
    }
}
