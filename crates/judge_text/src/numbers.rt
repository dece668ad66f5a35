//! Numbers of names.

ghost use Rattle.std.specs.Prelude.{◌≡◌, None, [], IfOk, OnOk};
ghost use Rattle.judge_text.specs.Numbers.{AreNumbered, HasNumber, KeepsNumbers, number_in};

use std::alloc::{AllocError, Global};
use std::collections::HashMap;

/// Different names, numbered from 0 on in the order in which they were added.
#[derive(Drop)]
pub(crate) struct Numbers {
    alloc: Global,
    places: HashMap<Vec<u8>, usize>,
    pub(crate) names: Vec<Vec<u8>>,
}

impl Numbers {
    /// Returns numbers of no names.
    pub(crate) fn new(alloc: Global) -> Numbers
        ensures formed { AreNumbered result }
        ensures none { result.names.items ≡ [] }
    {
        Numbers {
            alloc,
            places: HashMap::new(alloc),
            names: Vec::new(alloc),
        }
    }

    /// Gives the next number to a name that has none, and returns the number.
    fn add(&mut self, name: &[u8]) -> Result<usize, AllocError>
        requires formed { AreNumbered self.old }
        requires none { number_in self.old name.now ≡ None }
        ensures formed { OnOk result (AreNumbered self.new) }
        ensures kept { OnOk result (KeepsNumbers self.old self.new) }
        ensures number { IfOk result (λ number. HasNumber self.new name.now number) }
    {
        let number = self.names.len();
        let own = Vec::from_slice(self.alloc, name)?;
        let key = Vec::from_slice(self.alloc, name)?;
        self.names.push(own)?;
        self.places.insert(key, number)?;
        Ok(number)
    }

    /// Returns the number of a name, which is given the next one if it has none.
    pub(crate) fn number_of(&mut self, name: &[u8]) -> Result<usize, AllocError>
        requires formed { AreNumbered self.old }
        ensures formed { OnOk result (AreNumbered self.new) }
        ensures kept { OnOk result (KeepsNumbers self.old self.new) }
        ensures number { IfOk result (λ number. HasNumber self.new name.now number) }
    {
        if let Some(number) = self.places.get(name) {
            return Ok(*number);
        }
        self.add(name)
    }

    /// Returns the names in the order of their numbers, and frees the memory by which numbers are
    /// found.
    pub(crate) fn into_names(self) -> Vec<Vec<u8>>
        ensures { result ≡ self.names }
    {
        let Numbers {
            alloc: _,
            places,
            names,
        } = self;
        drop(places);
        names
    }
}
