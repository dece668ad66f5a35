//! Classes of names.

ghost use Rattle.std.specs.Prelude.{◌≡◌, ◌<◌, ◌≤◌, ℕ, List, None, IfOk, OnOk, length};
ghost use Rattle.judge_text.specs.Classes.{IsOneForEach, AreWellFormed, HasNoClass, AreJoined};
ghost use Rattle.judge_text.specs.Classes.{AreSameClasses, AreFlatTo, HasParent, HasPlace, KeepsPlaces};
ghost use Rattle.judge_text.specs.Classes.{place_in, name_at, parent_at, class_of};

use std::alloc::{AllocError, Global};
use std::collections::BTreeMap;

/// Classes of names. A name that was never joined with another is alone in its class.
#[derive(Drop)]
pub struct Classes {
    alloc: Global,
    places: BTreeMap<Vec<u8>, usize>,
    names: Vec<Vec<u8>>,
    parents: Vec<usize>,
}

impl Classes {
    /// Returns classes of one name each.
    pub fn new(alloc: Global) -> Classes
        ensures formed { AreWellFormed result }
        ensures none { HasNoClass result }
    {
        Classes {
            alloc,
            places: BTreeMap::new(alloc),
            names: Vec::new(alloc),
            parents: Vec::new(alloc),
        }
    }

    /// Gives a name that has no place the next one, and returns it.
    fn add(&mut self, name: &[u8]) -> Result<usize, AllocError>
        requires formed { AreWellFormed self.old }
        requires none { place_in self.old name.now ≡ None }
        ensures formed { OnOk result (AreWellFormed self.new) }
        ensures same { OnOk result (AreSameClasses self.old self.new) }
        ensures kept { OnOk result (KeepsPlaces self.old self.new) }
        ensures place { IfOk result (λ place. HasPlace self.new name.now place) }
    {
        let place = self.names.len();
        let own = Vec::from_slice(self.alloc, name)?;
        let key = Vec::from_slice(self.alloc, name)?;
        self.names.push(own)?;
        self.parents.push(place)?;
        self.places.insert(key, place)?;
        Ok(place)
    }

    /// Returns the place of a name, which is given one if it has none.
    fn place_of(&mut self, name: &[u8]) -> Result<usize, AllocError>
        requires formed { AreWellFormed self.old }
        ensures formed { OnOk result (AreWellFormed self.new) }
        ensures same { OnOk result (AreSameClasses self.old self.new) }
        ensures kept { OnOk result (KeepsPlaces self.old self.new) }
        ensures place { IfOk result (λ place. HasPlace self.new name.now place) }
    {
        if let Some(place) = self.places.get(name) {
            return Ok(*place);
        }
        self.add(name)
    }

    /// Returns the place above this one that is its own parent.
    fn root_of(&self, place: usize) -> usize
        requires formed { AreWellFormed self.now }
        requires within { place < length self.now.parents.items }
        ensures within { result < length self.now.parents.items }
        ensures root { parent_at self.now result ≡ result }
        ensures one { (g : List ℕ → List ℕ) → IsOneForEach g self.now →
            g (name_at self.now place) ≡ g (name_at self.now result) }
    {
        let mut at = place;
        let mut above = self.parent_of(at);
        'up: while above < at {
            at = above;
            above = self.parent_of(at);
        }
        at
    }

    /// Sets the parent of a place.
    fn set_parent(&mut self, place: usize, parent: usize)
        requires { place < length self.old.parents.items }
        ensures { HasParent self.old self.new place parent }
    {
        self.parents[place] = parent;
    }

    /// Lets the later one of two places that are their own parents have the earlier one as parent.
    fn link(&mut self, one: usize, other: usize)
        requires formed { AreWellFormed self.old }
        requires one_within { one < length self.old.parents.items }
        requires other_within { other < length self.old.parents.items }
        requires one_root { parent_at self.old one ≡ one }
        requires other_root { parent_at self.old other ≡ other }
        ensures formed { AreWellFormed self.new }
        ensures joined { AreJoined (name_at self.old one) (name_at self.old other)
            self.old self.new }
    {
        if one < other {
            self.set_parent(other, one);
        } else {
            self.set_parent(one, other);
        }
    }

    /// Joins the classes of two names.
    pub fn join(&mut self, name: &[u8], other: &[u8]) -> Result<(), AllocError>
        requires { AreWellFormed self.old }
        ensures formed { OnOk result (AreWellFormed self.new) }
        ensures joined { OnOk result (AreJoined name.now other.now self.old self.new) }
    {
        let place = self.place_of(name)?;
        let other_place = self.place_of(other)?;
        let root = self.root_of(place);
        let other_root = self.root_of(other_place);
        self.link(root, other_root);
        Ok(())
    }

    /// Lets the parent of each place name its class.
    pub(crate) fn flatten(&mut self)
        requires { AreWellFormed self.old }
        ensures formed { AreWellFormed self.new }
        ensures same { AreSameClasses self.old self.new }
        ensures flat { AreFlatTo (length self.new.parents.items) self.new }
    {
        let count = self.parents.len();
        'places: for place in 0..count {
            let parent = self.parent_of(place);
            let above = self.parent_of(parent);
            self.set_parent(place, above);
        }
    }

    /// Returns the parent of a place, or the place itself if there is no such place.
    fn parent_of(&self, place: usize) -> usize
        ensures { result ≡ parent_at self.now place }
    {
        match self.parents.get(place) {
            Some(parent) => *parent,
            None => place,
        }
    }

    /// Returns the name at a place, which is empty if there is no such place.
    fn name_of(&self, place: usize) -> &[u8]
        ensures { result.now ≡ name_at self.now place }
    {
        match self.names.get(place) {
            Some(name) => name.as_slice(),
            None => b"",
        }
    }

    /// Returns the name of the class of a name, if all parents name their classes.
    pub(crate) fn class_of<'a>(&'a self, name: &'a [u8]) -> &'a [u8]
        ensures { result.now ≡ class_of self.now name.now }
    {
        match self.places.get(name) {
            None => name,
            Some(place) => self.name_of(self.parent_of(*place)),
        }
    }
}
