//! When the last span of each client ended.

ghost use Rattle.std.specs.Prelude.{◌≡◌, OnOk};
ghost use Rattle.std.specs.FinMap as map;

use std::alloc::{AllocError, Global};
use std::collections::BTreeMap;
use std::marker::Model;

/// The END of the last span of each client, by the client's number, or a time later than all where
/// it never ended.
#[derive(Drop)]
pub struct Ends {
    entries: BTreeMap<u32, u128>,
}

impl Model for Ends {
    ghost use Rattle.std.specs.Prelude.{ℕ};
    ghost use Rattle.std.specs.Ordering.{nat_cmp};
    ghost use Rattle.std.specs.FinMap as map;
    ghost use Rattle.std.specs.BTreeMap as tree;
    ghost use Rattle.std.specs.Coded.{coded_ℕ};

    ghost Value = { map.FinMap nat_cmp ℕ };

    ghost coded = { map.code coded_ℕ coded_ℕ };

    ghost view = { λ m. map.from_entries m.entries.entries };

    ghost invariant = { λ m. tree.IsOrdered nat_cmp m.entries };
}

impl Ends {
    /// No client.
    pub fn new(alloc: Global) -> Self
        ensures { result ≡ map.empty }
    {
        Self {
            entries: BTreeMap::new(alloc),
        }
    }

    /// Returns the number of clients.
    pub fn len(&self) -> u64
        ensures { result ≡ map.len self.now }
    {
        self.entries.len() as u64
    }

    /// The END of a client's last span.
    pub fn get(&self, client: u32) -> Option<u128>
        ensures { result ≡ map.get self.now client }
    {
        self.entries.get(&client).copied()
    }

    /// Puts the END of a client's span in place of that of the one before.
    pub fn insert(&mut self, client: u32, end: u128) -> Result<(), AllocError>
        ensures { OnOk result (self.new ≡ map.insert self.old client end) }
    {
        self.entries.insert(client, end)?;
        Ok(())
    }
}
