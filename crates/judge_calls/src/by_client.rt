//! Values by client, which contracts describe as a finite map.

ghost use Rattle.std.specs.Prelude.{◌≡◌, OnOk};
ghost use Rattle.std.specs.Option.{option_copied};
ghost use Rattle.std.specs.FinMap as map;

use std::alloc::{AllocError, Global};
use std::collections::BTreeMap;
use std::marker::Model;

/// A map from clients to values.
#[derive(Drop)]
pub(crate) struct ByClient<V> {
    entries: BTreeMap<u32, V>,
}

impl<V> Model for ByClient<V> {
    ghost use Rattle.std.specs.Ordering.{nat_cmp};
    ghost use Rattle.std.specs.FinMap as map;
    ghost use Rattle.std.specs.BTreeMap as tree;
    ghost use Rattle.std.specs.Coded.{coded_ℕ};

    ghost Value = { map.FinMap nat_cmp V };

    ghost coded = { map.code coded_ℕ V.code };

    ghost view = { λ m. map.from_entries m.entries.entries };

    ghost invariant = { λ m. tree.IsOrdered nat_cmp m.entries };
}

impl<V> ByClient<V> {
    pub(crate) fn new(alloc: Global) -> Self
        ensures { result ≡ map.empty }
    {
        Self {
            entries: BTreeMap::new(alloc),
        }
    }

    pub(crate) fn get(&self, client: u32) -> Option<&V>
        ensures { option_copied result ≡ map.get self.now client }
    {
        self.entries.get(&client)
    }

    pub(crate) fn remove(&mut self, client: u32) -> Option<V>
        ensures removed { self.new ≡ map.remove self.old client }
        ensures value { result ≡ map.get self.old client }
    {
        self.entries.remove(&client)
    }
}

impl<V: Drop> ByClient<V> {
    /// Sets the value of a client.
    pub(crate) fn insert(&mut self, client: u32, value: V) -> Result<(), AllocError>
        ensures { OnOk result (self.new ≡ map.insert self.old client value) }
    {
        self.entries.insert(client, value)?;
        Ok(())
    }
}
