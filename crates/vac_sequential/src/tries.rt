//! Finite maps of ids that share common parts: four-way tries by the digits of an id, the last
//! digit first. A change descends once. A node on the way to the id is changed in place if nothing
//! else refers to it, and is otherwise made anew from parts that it shares. All other nodes stay
//! as they are. No node with maps of digits is without an entry, so the shape of a map depends
//! only on its entries.

ghost use Rattle.std.specs.Prelude.{◌≡◌, ◌≢◌, ◌<◌, ◌^◌, ℕ, Option, None, Some, IfOk, MatchOption, sum_by};
ghost use Rattle.std.specs.Option.{option_copied};
ghost use Rattle.std.specs.FinMap as map;
ghost use Rattle.vac_sequential.specs.Tries.{map_in, map_at, value_in, map_of, child_of, swapped, changed_at, EntryAdds, Shows, TellsEmpty, TellsSame};

use std::alloc::{AllocError, Global};
use std::marker::Model;
use std::mem::replace;
use std::rc::Rc;

/// A value of a map.
pub(crate) trait Entry: Sized {
    ghost weight: { Self → ℕ };

    /// Returns a number that maps add up.
    fn weight(&self) -> u64
        ensures { result ≡ weight self.now };

    /// Returns whether two values are equal.
    fn is_same(&self, other: &Self) -> bool
        ensures { TellsSame self.now other.now result };

    /// Returns a hash, of which nothing is promised.
    fn hash(&self) -> u64;
}

/// A finite map of ids. Contracts see the map and its depth.
#[cycle(trie)]
#[derive(Drop)]
pub(crate) struct Trie<V> {
    node: Node<V>,
}

/// A node: no entry, or the value at 0 (if there is one) and the maps of the ids above 0.
#[cycle(trie)]
#[derive(Drop)]
enum Node<V> {
    Empty,
    Bare(Kids<V>),
    Full(Rc<V>, Kids<V>),
}

/// The maps of the ids above 0 by their digit: id `n` is at `(n - 1) / 4` in the map of the digit
/// `(n - 1) % 4`.
#[cycle(trie)]
#[derive(Drop)]
struct Kids<V> {
    zero: Rc<Trie<V>>,
    one: Rc<Trie<V>>,
    two: Rc<Trie<V>>,
    three: Rc<Trie<V>>,
}

impl<V> Model for Trie<V> {
    ghost use Rattle.std.specs.Prelude.{ℕ};
    ghost use Rattle.std.specs.Ordering.{nat_cmp};
    ghost use Rattle.std.specs.FinMap as map;
    ghost use Rattle.std.specs.Coded.{coded_ℕ, coded×};

    ghost Value = { map.FinMap nat_cmp V × ℕ };

    ghost coded = { coded× (map.code coded_ℕ V.code) coded_ℕ };

    ghost use Rattle.vac_sequential.specs.Tries.{seen, IsPruned};

    ghost view = { λ t. seen t.node };

    ghost invariant = { λ t. IsPruned t.node };

    ghost size = { λ d. d.1 };

    ghost use Rattle.vac_sequential.specs.TrieFalls.{depth_falls};

    ghost size_decreases = { λ a h. depth_falls a.node };
}

impl<V> Kids<V> {
    /// Returns the map of a digit.
    fn kid(&self, digit: u32) -> &Rc<Trie<V>>
        requires { digit < 4 }
        ensures { result.now ≡ child_of self.now digit }
    {
        match digit {
            0 => &self.zero,
            1 => &self.one,
            2 => &self.two,
            _ => &self.three,
        }
    }

    /// Exchanges the map of a digit with that of digit 0, so that the map to be changed is always
    /// at digit 0.
    fn swapped(self, digit: u32) -> Kids<V>
        requires { digit < 4 }
        ensures { result ≡ swapped self digit }
    {
        match digit {
            0 => self,
            1 => Kids {
                zero: self.one,
                one: self.zero,
                ..self
            },
            2 => Kids {
                zero: self.two,
                two: self.zero,
                ..self
            },
            _ => Kids {
                zero: self.three,
                three: self.zero,
                ..self
            },
        }
    }
}

impl<V> Trie<V> {
    /// Returns the parts of the map, or None if the map has no entry.
    fn shown(&self) -> Option<(Option<&Rc<V>>, &Kids<V>)>
        ensures { MatchOption result (self.now.0 ≡ map.empty)
            (λ s. Shows self.now (option_copied s.0) s.1.now) }
    {
        match &self.node {
            Node::Empty => None,
            Node::Bare(kids) => Some((None, kids)),
            Node::Full(value, kids) => Some((Some(value), kids)),
        }
    }

    /// Returns whether the map has no entry.
    fn is_empty(&self) -> bool
        ensures { TellsEmpty self.now.0 result }
    {
        match self.shown() {
            None => true,
            Some(_) => false,
        }
    }

    /// Returns the parts of a map that has an entry.
    fn into_parts(self) -> Parts<V>
        requires { self.0 ≢ map.empty }
        ensures { map_of result ≡ self.0 }
    {
        match self.node {
            Node::Empty => unreachable!(),
            Node::Bare(kids) => Parts { value: None, kids },
            Node::Full(value, kids) => Parts {
                value: Some(value),
                kids,
            },
        }
    }

    /// Returns a reference to the value of an id.
    pub(crate) fn find(&self, id: u32) -> Option<&Rc<V>>
        ensures { value_in (option_copied result) ≡ map.get self.now.0 id }
    {
        let mut trie = self;
        let mut rest = id;
        while rest != 0 {
            let Some((_, kids)) = trie.shown() else {
                return None;
            };
            trie = kids.kid((rest - 1) % 4);
            rest = (rest - 1) / 4;
        }
        let Some((value, _)) = trie.shown() else {
            return None;
        };
        value
    }
}

/// The parts of a map.
#[derive(Drop)]
pub(crate) struct Parts<V> {
    value: Option<Rc<V>>,
    kids: Kids<V>,
}

impl<V: Drop> Parts<V> {
    /// Returns whether the parts have no entry.
    fn is_empty(&self) -> bool
        ensures { TellsEmpty (map_of self.now) result }
    {
        if self.value.is_some() {
            return false;
        }
        if !self.kids.zero.is_empty() {
            return false;
        }
        if !self.kids.one.is_empty() {
            return false;
        }
        if !self.kids.two.is_empty() {
            return false;
        }
        self.kids.three.is_empty()
    }
}

/// Returns the parts of a map, shared with the map.
fn share<V: Drop>(link: &Rc<Trie<V>>) -> Result<Parts<V>, AllocError>
    ensures { IfOk result (λ p. map_of p ≡ map_in link.now) }
{
    let Some((value, kids)) = link.shown() else {
        return Ok(Parts {
            value: None,
            kids: Kids {
                zero: link.clone()?,
                one: link.clone()?,
                two: link.clone()?,
                three: link.clone()?,
            },
        });
    };
    let value = shared(value)?;
    Ok(Parts {
        value,
        kids: Kids {
            zero: kids.zero.clone()?,
            one: kids.one.clone()?,
            two: kids.two.clone()?,
            three: kids.three.clone()?,
        },
    })
}

/// Returns another reference to the same value.
fn shared<V: Drop>(value: Option<&Rc<V>>) -> Result<Option<Rc<V>>, AllocError>
    ensures { IfOk result (λ v. value_in v ≡ value_in (option_copied value.entry)) }
{
    match value {
        None => Ok(None),
        Some(value) => Ok(Some(value.clone()?)),
    }
}

/// Takes a map out of its reference, if nothing else refers to it.
///
/// Not said: what is left in the reference; which of the two cases applies.
fn take_own<V: Drop>(link: &mut Rc<Trie<V>>) -> Option<Trie<V>>
    ensures { MatchOption result (link.new.value ≡ link.old.value) (λ t. t ≡ link.old.value) }
{
    match Rc::get_mut(link) {
        Some(trie) => Some(replace(trie, Trie { node: Node::Empty })),
        None => None,
    }
}

/// An opened map: its parts, either its own together with the reference of its node if nothing
/// else refers to the node, or shared.
#[derive(Drop)]
struct Opened<V> {
    place: Option<Rc<Trie<V>>>,
    parts: Parts<V>,
}

/// Opens a map.
fn open<V: Drop>(link: Rc<Trie<V>>) -> Result<Opened<V>, AllocError>
    ensures { IfOk result (λ o. map_of o.parts ≡ map_in link) }
{
    let mut link = link;
    if !link.is_empty() {
        if let Some(trie) = take_own(&mut link) {
            return Ok(Opened {
                place: Some(link),
                parts: trie.into_parts(),
            });
        }
    }
    let parts = share(&link)?;
    Ok(Opened { place: None, parts })
}

/// Writes a value if nothing else refers to this place, and otherwise returns the value.
fn write<T: Drop>(place: &mut Rc<T>, value: T) -> Option<T>
    ensures { MatchOption result (place.new.value ≡ value) (λ back. back ≡ value) }
{
    match Rc::get_mut(place) {
        Some(old) => {
            *old = value;
            None
        }
        None => Some(value),
    }
}

/// Returns a reference with a value: the given reference if nothing else shares it, and otherwise
/// a new one.
fn placed<T: Drop>(alloc: Global, place: Option<Rc<T>>, value: T) -> Result<Rc<T>, AllocError>
    ensures { IfOk result (λ made. made.value ≡ value) }
{
    let Some(mut place) = place else {
        return Ok(Rc::new(alloc, value)?);
    };
    match write(&mut place, value) {
        None => Ok(place),
        Some(value) => Ok(Rc::new(alloc, value)?),
    }
}

/// Returns the map of the opened parts.
fn join<V: Drop>(alloc: Global, opened: Opened<V>) -> Result<Rc<Trie<V>>, AllocError>
    ensures { IfOk result (λ t. map_in t ≡ map_of opened.parts) }
{
    let Opened { place, parts } = opened;
    if parts.is_empty() {
        let kids = parts.kids;
        return Ok(kids.zero);
    }
    let Parts { value, kids } = parts;
    let node = match value {
        None => Node::Bare(kids),
        Some(value) => Node::Full(value, kids),
    };
    let made = placed(alloc, place, Trie { node })?;
    Ok(made)
}

/// The share of one id in the numbers of a map.
#[derive(Clone, Copy)]
pub(crate) struct Held {
    pub(crate) len: u64,
    pub(crate) weight: u64,
    hash: u64,
}

impl Held {
    /// Returns the hash of the entry of an id, or 0 if there is none.
    pub(crate) fn hash(self, id: u32) -> u64 {
        if self.len == 0 {
            return 0;
        }
        mixed(id as u64, self.hash)
    }
}

/// Returns the share of an optional value.
fn weigh<V: Entry>(value: &Option<Rc<V>>) -> Held
    ensures { EntryAdds V.weight (value_in value.now) result.len result.weight }
{
    match value {
        Some(value) => Held {
            len: 1,
            weight: value.weight(),
            hash: value.hash(),
        },
        None => Held {
            len: 0,
            weight: 0,
            hash: 0,
        },
    }
}

/// A change of the value of an id, which may be missing before and after.
pub(crate) trait Change<V>: Sized {
    ghost changed: { Self → Option V → Option V };

    fn change(self, alloc: Global, value: Option<Rc<V>>) -> Result<Option<Rc<V>>, AllocError>
        ensures { IfOk result (λ made. value_in made ≡ changed self (value_in value)) };
}

/// A change that inserts a value.
#[derive(Drop)]
pub(crate) struct Put<V> {
    pub(crate) value: V,
}

impl<V: Drop> Change<V> for Put<V> {
    ghost changed = { λ put _. Some put.value };

    fn change(self, alloc: Global, value: Option<Rc<V>>) -> Result<Option<Rc<V>>, AllocError>
        ensures { IfOk result (λ made. value_in made ≡ Some self.value) }
    {
        let Put { value: made } = self;
        let made = placed(alloc, value, made)?;
        Ok(Some(made))
    }
}

/// A change that removes the value.
#[derive(Drop)]
pub(crate) struct Cut {}

impl<V: Drop> Change<V> for Cut {
    ghost changed = { λ _ _. None };

    fn change(self, _alloc: Global, _value: Option<Rc<V>>) -> Result<Option<Rc<V>>, AllocError>
        ensures { IfOk result (λ made. value_in made ≡ None) }
    {
        Ok(None)
    }
}

/// A map after a change, with the shares of the id before and after.
#[derive(Drop)]
pub(crate) struct Changed<V> {
    pub(crate) link: Rc<Trie<V>>,
    pub(crate) before: Held,
    pub(crate) after: Held,
}

/// Returns the map after a change at an id.
pub(crate) fn change_in<V: Entry + Drop, C: Change<V> + Drop>(
    alloc: Global,
    link: Rc<Trie<V>>,
    id: u32,
    change: C,
) -> Result<Changed<V>, AllocError>
    ensures map { IfOk result
        (λ made. map_in made.link ≡ changed_at (C.changed change) (map_in link) id) }
    ensures before { IfOk result (λ made.
        EntryAdds V.weight (map.get (map_in link) id) made.before.len made.before.weight) }
    ensures after { IfOk result (λ made.
        EntryAdds V.weight (C.changed change (map.get (map_in link) id))
        made.after.len made.after.weight) }
{
    let Opened { place, parts } = open(link)?;
    let Parts { value: first, kids } = parts;
    if id == 0 {
        let before = weigh(&first);
        let value = change.change(alloc, first)?;
        let after = weigh(&value);
        let parts = Parts { value, kids };
        let link = join(alloc, Opened { place, parts })?;
        return Ok(Changed {
            link,
            before,
            after,
        });
    }
    let digit = (id - 1) % 4;
    let kids = kids.swapped(digit);
    let child = change_in(alloc, kids.zero, (id - 1) / 4, change)?;
    let Changed {
        link: zero,
        before,
        after,
    } = child;
    let kids = Kids { zero, ..kids };
    let parts = Parts {
        value: first,
        kids: kids.swapped(digit),
    };
    let link = join(alloc, Opened { place, parts })?;
    Ok(Changed {
        link,
        before,
        after,
    })
}

/// An amount that is added up over the values of a map.
pub(crate) trait Amount<V> {
    ghost amount: { V → ℕ };

    /// Returns the amount of a value.
    fn amount(value: &V) -> u64
        requires { amount value.now < 2 ^ 64 }
        ensures { result ≡ amount value.now };
}

/// Returns the sum over all values.
fn total_in<V, A: Amount<V>>(link: &Rc<Trie<V>>) -> u64
    requires { sum_by A.amount (map.values (map_in link.now)) < 2 ^ 64 }
    ensures { result ≡ sum_by A.amount (map.values (map_in link.now)) }
{
    let Some((value, kids)) = link.shown() else {
        return 0;
    };
    let first = match value {
        Some(value) => A::amount(value),
        None => 0,
    };
    let zero = total_in::<V, A>(&kids.zero);
    let one = total_in::<V, A>(&kids.one);
    let two = total_in::<V, A>(&kids.two);
    let three = total_in::<V, A>(&kids.three);
    first + (zero + (one + (two + three)))
}

/// Returns whether two values are equal or both missing.
fn is_same_value<V: Entry>(a: Option<&Rc<V>>, b: Option<&Rc<V>>) -> bool
    ensures { TellsSame (value_in (option_copied a.entry))
        (value_in (option_copied b.entry)) result }
{
    match (a, b) {
        (None, None) => true,
        (Some(x), Some(y)) => x.is_same(y),
        _ => false,
    }
}

/// Returns whether two maps are equal.
fn is_same_in<V: Entry>(a: &Rc<Trie<V>>, b: &Rc<Trie<V>>) -> bool
    ensures { TellsSame (map_in a.now) (map_in b.now) result }
{
    let Some((x, p)) = a.shown() else {
        return b.is_empty();
    };
    let Some((y, q)) = b.shown() else {
        return a.is_empty();
    };
    if !is_same_value(x, y) {
        return false;
    }
    if !is_same_in(&p.zero, &q.zero) {
        return false;
    }
    if !is_same_in(&p.one, &q.one) {
        return false;
    }
    if !is_same_in(&p.two, &q.two) {
        return false;
    }
    is_same_in(&p.three, &q.three)
}

/// Returns the map at a root, which is made if there is none.
pub(crate) fn rooted<V: Drop>(
    alloc: Global,
    root: Option<Rc<Trie<V>>>,
) -> Result<Rc<Trie<V>>, AllocError>
    ensures { IfOk result (λ t. map_in t ≡ map_at root) }
{
    match root {
        Some(link) => Ok(link),
        None => Ok(Rc::new(alloc, Trie { node: Node::Empty })?),
    }
}

/// Returns the sum over all values at a root.
pub(crate) fn total<V, A: Amount<V>>(root: &Option<Rc<Trie<V>>>) -> u64
    requires { sum_by A.amount (map.values (map_at root.now)) < 2 ^ 64 }
    ensures { result ≡ sum_by A.amount (map.values (map_at root.now)) }
{
    match root {
        Some(link) => total_in::<V, A>(link),
        None => 0,
    }
}

/// Returns whether the maps at two roots are equal.
pub(crate) fn is_same<V: Entry>(a: &Option<Rc<Trie<V>>>, b: &Option<Rc<Trie<V>>>) -> bool
    ensures { TellsSame (map_at a.now) (map_at b.now) result }
{
    match (a, b) {
        (Some(x), Some(y)) => is_same_in(x, y),
        (Some(x), None) => x.is_empty(),
        (None, Some(y)) => y.is_empty(),
        (None, None) => true,
    }
}

/// Returns a number made of two numbers, for hashes.
pub(crate) fn mixed(a: u64, b: u64) -> u64 {
    let sum = a.wrapping_mul(0x9e37_79b9_7f4a_7c15) ^ b;
    let low = sum ^ (sum >> 31);
    let high = low.wrapping_mul(0xbf58_476d_1ce4_e5b9);
    high ^ (high >> 29)
}
