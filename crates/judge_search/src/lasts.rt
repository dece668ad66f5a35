//! The last call of each client.

ghost use Rattle.std.specs.Prelude.{◌≡◌, OnOk};
ghost use Rattle.std.specs.FinMap as map;

use std::alloc::{AllocError, Global};
use std::collections::BTreeMap;
use std::marker::Model;

/// The place after that of the last call of each client, by the client's number.
#[derive(Drop)]
pub(crate) struct Lasts {
    entries: BTreeMap<u32, usize>,
}

impl Model for Lasts {
    ghost use Rattle.std.specs.Prelude.{ℕ};
    ghost use Rattle.std.specs.Ordering.{nat_cmp};
    ghost use Rattle.std.specs.FinMap as map;
    ghost use Rattle.std.specs.BTreeMap as tree;
    ghost use Rattle.std.specs.Coded.{coded_ℕ};

    ghost Value = { map.FinMap nat_cmp ℕ };

    ghost coded = { map.code coded_ℕ coded_ℕ };

    ghost view = { λ m. map.from_entries m.entries.entries };

    ghost invariant = { λ m. tree.IsOrdered nat_cmp m.entries };
}

impl Lasts {
    /// Returns a map without clients.
    pub(crate) fn new(alloc: Global) -> Self
        ensures { result ≡ map.empty }
    {
        Self {
            entries: BTreeMap::new(alloc),
        }
    }

    /// Returns the place after that of a client's last call.
    pub(crate) fn get(&self, client: u32) -> Option<usize>
        ensures { result ≡ map.get self.now client }
    {
        self.entries.get(&client).copied()
    }

    /// Notes the place after that of a client's call.
    pub(crate) fn insert(&mut self, client: u32, after: usize) -> Result<(), AllocError>
        ensures { OnOk result (self.new ≡ map.insert self.old client after) }
    {
        self.entries.insert(client, after)?;
        Ok(())
    }
}
