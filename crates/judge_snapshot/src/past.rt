//! Version histories.

ghost use Rattle.std.specs.Prelude.{◌≡◌, ◌≤◌, ◌<◌, ◌||◌, ◌∷◌, true, get_or, IfOk, length, take, drop};
ghost use Rattle.std.specs.List.{list_any};
ghost use Rattle.judge_snapshot.specs.Snapshots.{state_of, strong_needs};
ghost use Rattle.judge_snapshot.specs.Possible.{past_of};
ghost use Rattle.judge_snapshot.specs.Trimmed.{trim};

use crate::version::Version;
use crate::write_sets::WriteSetObject;
use judge_object::Span;
use std::alloc::{AllocError, Global};
use std::marker::Model;
use std::rc::Rc;

/// A first state and the versions since, the newest first.
#[derive(Drop)]
pub(crate) struct Past<S, W> {
    first: Rc<S>,
    versions: Vec<Rc<Version<S, W>>>,
}

impl<S, W> Model for Past<S, W> {
    ghost use Rattle.std.specs.Prelude.{map};
    ghost use Rattle.judge_snapshot.specs.Possible as spec;

    ghost Value = { spec.Past S W };

    ghost view = { λ p. record {
      first = p.first.value;
      versions = map (λ v. v.value) p.versions.items;
    } };
}

/// Returns whether a snapshot must contain an earlier call, at the strong level.
fn strong_needs(earlier: &Span, call: &Span) -> bool
    ensures { result ≡ strong_needs earlier.now call.now }
{
    earlier.client == call.client || earlier.end < u128::from(call.begin)
}

impl<S: Drop, W: Drop> Past<S, W> {
    /// The version history before the first commit.
    pub(crate) fn new(alloc: Global, first: S) -> Result<Past<S, W>, AllocError>
        ensures { IfOk result (λ past. past ≡ past_of first) }
    {
        Ok(Past {
            first: Rc::new(alloc, first)?,
            versions: Vec::new(alloc),
        })
    }

    /// Returns the number of versions.
    pub(crate) fn len(&self) -> usize
        ensures { result ≡ length self.now.versions }
    {
        self.versions.len()
    }

    /// Returns the version at a position, the newest being the first.
    pub(crate) fn version(&self, place: usize) -> &Version<S, W>
        requires { place < length self.now.versions }
        ensures { result.now ≡ get_or self.now.versions place result.now }
    {
        &self.versions[place]
    }

    /// Returns the version at a position, which is shared.
    fn share(&self, place: usize) -> Result<Rc<Version<S, W>>, AllocError>
        requires { place < length self.now.versions }
        ensures { IfOk result (λ shared.
            shared.value ≡ get_or self.now.versions place shared.value) }
    {
        Ok(self.versions[place].clone()?)
    }

    /// Returns the first state, which is shared.
    fn share_first(&self) -> Result<Rc<S>, AllocError>
        ensures { IfOk result (λ shared. shared.value ≡ self.now.first) }
    {
        Ok(self.first.clone()?)
    }

    /// Returns the state before this many of the newest versions.
    pub(crate) fn state(&self, missed: usize) -> &S
        ensures { result.now ≡ state_of self.now.first (drop missed self.now.versions) }
    {
        if missed < self.versions.len() {
            self.version(missed).state()
        } else {
            &self.first
        }
    }

    /// Returns a copy.
    pub(crate) fn copy(&self, alloc: Global) -> Result<Past<S, W>, AllocError>
        ensures { IfOk result (λ copy. copy ≡ self.now) }
    {
        let mut versions = Vec::with_capacity(alloc, self.versions.len())?;
        'versions: for place in 0..self.len() {
            versions.push(self.share(place)?)?;
        }
        Ok(Past {
            first: self.first.clone()?,
            versions,
        })
    }

    /// Returns the version history with a version more.
    pub(crate) fn with(
        &self,
        alloc: Global,
        version: Version<S, W>,
    ) -> Result<Past<S, W>, AllocError>
        ensures { IfOk result (λ made. made ≡ record {
          first = self.now.first;
          versions = version ∷ self.now.versions;
        }) }
    {
        let Past {
            first,
            mut versions,
        } = self.copy(alloc)?;
        versions.insert(0, Rc::new(alloc, version)?)?;
        Ok(Past { first, versions })
    }

    /// Returns whether the snapshot of a call must contain one of the newest versions.
    pub(crate) fn is_needed(&self, missed: usize, call: &Span) -> bool
        requires { missed ≤ length self.now.versions }
        ensures { result ≡ list_any (λ v. strong_needs v.span call.now)
            (take missed self.now.versions) }
    {
        'versions: for place in 0..missed {
            if strong_needs(&self.version(place).span(), call) {
                return true;
            }
        }
        false
    }

    /// Returns the version history without the versions before a time, of which the newest becomes
    /// the first state.
    pub(crate) fn trimmed(&self, alloc: Global, horizon: u64) -> Result<Past<S, W>, AllocError>
        ensures { IfOk result (λ made. made ≡ trim horizon self.now) }
    {
        let mut versions = Vec::new(alloc);
        'versions: for place in 0..self.len() {
            let version = self.version(place);
            if version.span().end < u128::from(horizon) {
                let first = version.share_state()?;
                return Ok(Past { first, versions });
            }
            versions.push(self.share(place)?)?;
        }
        let oldest = self.share_first()?;
        Ok(Past {
            first: oldest,
            versions,
        })
    }
}

/// Returns true only if both versions are equal.
fn is_same_version<M: WriteSetObject + Drop>(
    version: &Version<M, M::Written>,
    other: &Version<M, M::Written>,
) -> bool
    ensures { result ≡ true → version.now ≡ other.now }
{
    version.span() == other.span()
        && M::is_same_written(version.written(), other.written())
        && version.state().is_same(other.state())
}

/// Returns true only if both version histories are equal.
pub(crate) fn is_same_past<M: WriteSetObject + Drop>(
    past: &Past<M, M::Written>,
    other: &Past<M, M::Written>,
) -> bool
    ensures { result ≡ true → past.now ≡ other.now }
{
    if past.len() != other.len() {
        return false;
    }
    'versions: for place in 0..past.len() {
        if !is_same_version(past.version(place), other.version(place)) {
            return false;
        }
    }
    past.first.is_same(&other.first)
}

/// Returns a hash of a version history.
pub(crate) fn hash_past<M: WriteSetObject + Drop>(past: &Past<M, M::Written>) -> u64 {
    let mut hash = past.first.hash();
    'versions: for place in 0..past.len() {
        let version = past.version(place);
        let client = u64::from(version.span().client);
        hash = (hash ^ version.state().hash() ^ client).wrapping_mul(0x9e37_79b9_7f4a_7c15);
    }
    hash
}
