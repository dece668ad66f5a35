//! The states in which objects begin.

ghost use Rattle.std.specs.Prelude.{◌≡◌, ℕ, List, IfOk, OnOk};
ghost use Rattle.judge_text.specs.Many.{changed};
ghost use Rattle.judge_text.specs.Starts.{start_of};

use judge_object::Object;
use std::alloc::{AllocError, Global};
use std::collections::BTreeMap;

/// The states in which objects begin: those of some objects by their names, and one for all other
/// objects.
#[derive(Drop)]
pub struct Starts<M> {
    own: BTreeMap<Vec<u8>, M>,
    others: M,
}

impl<M: Drop> Starts<M> {
    /// Returns the starts of objects that all begin in one state.
    pub fn new(alloc: Global, others: M) -> Starts<M>
        ensures { (name : List ℕ) → start_of result name ≡ others }
    {
        Starts {
            own: BTreeMap::new(alloc),
            others,
        }
    }

    /// Sets the state in which the object of a name begins.
    pub fn set(&mut self, name: Vec<u8>, state: M) -> Result<(), AllocError>
        ensures { OnOk result ((other : List ℕ) →
            start_of self.new other ≡ changed (start_of self.old) name.items state other) }
    {
        self.own.insert(name, state)?;
        Ok(())
    }
}

impl<M: Object> Starts<M> {
    /// Returns a copy of the state in which the object of a name begins.
    pub fn get(&self, name: &[u8]) -> Result<M, AllocError>
        ensures { IfOk result (λ state. state ≡ start_of self.now name.now) }
    {
        match self.own.get(name) {
            Some(state) => state.copy(),
            None => self.others.copy(),
        }
    }
}
