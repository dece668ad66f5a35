//! The moments at which calls begin and end, in ascending order: the number of calls that run at a
//! moment is the number of BEGINs up to it, less the number of ENDs up to it.

ghost use Rattle.std.specs.Prelude.{◌≡◌, ℕ, ◌-◌, Bool, List, IfOk, map, if◌then◌else◌};
ghost use Rattle.std.specs.List.Sorted.{IsNonDecreasing};
ghost use Rattle.judge_object.specs.declared.span.Span.{Span};
ghost use Rattle.judge_coverage.specs.Moments.{lane_of, key_of, begin_key, end_key, number_up_to, AreMoments};

use judge_object::{NEVER, Span};
use std::alloc::{AllocError, Global};

/// Distance between two lanes, which is more than the number of moments.
const LANE: u128 = 1 << 65;

/// The moments of calls, as keys. If the calls are kept apart by client, each client has a lane of
/// its own, and all moments of a lane have greater keys than those of the lanes before. Otherwise
/// all calls have lane 0.
#[derive(Drop)]
pub(crate) struct Moments {
    /// The keys of the BEGINs, in ascending order.
    begins: Vec<u128>,
    /// The keys of the ENDs, in ascending order.
    ends: Vec<u128>,
}

/// Returns the lane of a call.
fn lane_of(apart: bool, call: &Span) -> u32
    ensures { result ≡ lane_of apart call.now }
{
    if apart { call.client } else { 0 }
}

/// Returns the key of a moment in a lane. All moments after the last reading of the clock count as
/// one.
fn key_of(lane: u32, moment: u128) -> u128
    ensures { result ≡ key_of lane moment }
{
    u128::from(lane) * LANE + moment.min(NEVER)
}

/// Returns the keys of the BEGINs of calls.
fn begin_keys(alloc: Global, apart: bool, calls: &[Span]) -> Result<Vec<u128>, AllocError>
    ensures { IfOk result (λ keys. keys.items ≡ map (begin_key apart) calls.now) }
{
    let mut keys = Vec::new(alloc);
    'calls: for place in 0..calls.len() {
        let call = calls[place];
        keys.push(key_of(lane_of(apart, &call), u128::from(call.begin)))?;
    }
    Ok(keys)
}

/// Returns the keys of the ENDs of calls. A call that ends before it begins ends as it begins.
fn end_keys(alloc: Global, apart: bool, calls: &[Span]) -> Result<Vec<u128>, AllocError>
    ensures { IfOk result (λ keys. keys.items ≡ map (end_key apart) calls.now) }
{
    let mut keys = Vec::new(alloc);
    'calls: for place in 0..calls.len() {
        let call = calls[place];
        let end = u128::from(call.begin).max(call.end);
        keys.push(key_of(lane_of(apart, &call), end))?;
    }
    Ok(keys)
}

/// Sorts keys.
fn sorted(mut keys: Vec<u128>) -> Result<Vec<u128>, AllocError>
    ensures ascending { IfOk result (λ sorted. IsNonDecreasing sorted.items) }
    ensures same { IfOk result (λ sorted. (key : ℕ) →
        number_up_to key sorted.items ≡ number_up_to key keys.items) }
{
    keys.sort()?;
    Ok(keys)
}

/// Number of keys on each side of an expected position among which a search looks first.
const REACH: usize = 8;

/// Returns the number of keys up to a key.
fn number_up_to(keys: &[u128], key: u128) -> usize
    requires { IsNonDecreasing keys.now }
    ensures { result ≡ number_up_to key keys.now }
{
    keys.partition_point(|other| *other <= key)
}

/// Returns the number of keys up to a key. Looks first among the keys near an expected number: if
/// some of them are up to the key, and others are not, the number is found there.
fn number_near(keys: &[u128], expected: usize, key: u128) -> usize
    requires { IsNonDecreasing keys.now }
    ensures { result ≡ number_up_to key keys.now }
{
    let start = expected.saturating_sub(REACH).min(keys.len());
    let end = expected.saturating_add(REACH).min(keys.len());
    let within = number_up_to(&keys[start..end], key);
    if within == 0 || within == end - start {
        return number_up_to(keys, key);
    }
    start + within
}

/// The numbers of BEGINs and of ENDs up to a moment. A search for those of another moment begins
/// there, since the calls of a log follow each other in time.
#[derive(Clone, Copy)]
pub(crate) struct Reached {
    begins: usize,
    ends: usize,
}

impl Reached {
    /// The numbers before all moments.
    pub(crate) const NONE: Reached = Reached { begins: 0, ends: 0 };
}

impl Moments {
    /// Sorts the moments of calls.
    pub(crate) fn of(alloc: Global, apart: bool, calls: &[Span]) -> Result<Moments, AllocError>
        ensures { IfOk result (λ moments. AreMoments apart calls.now moments) }
    {
        Ok(Moments {
            begins: sorted(begin_keys(alloc, apart, calls)?)?,
            ends: sorted(end_keys(alloc, apart, calls)?)?,
        })
    }

    /// Returns the number of calls of a lane that run at a moment. The numbers that were reached
    /// before only make the search faster.
    pub(crate) fn running(&self, lane: u32, moment: u64, reached: &mut Reached) -> u64
        requires begins { IsNonDecreasing self.now.begins.items }
        requires ends { IsNonDecreasing self.now.ends.items }
        ensures { result ≡ number_up_to (key_of lane moment) self.now.begins.items
            - number_up_to (key_of lane moment) self.now.ends.items }
    {
        let key = key_of(lane, u128::from(moment));
        reached.begins = number_near(self.begins.as_slice(), reached.begins, key);
        reached.ends = number_near(self.ends.as_slice(), reached.ends, key);
        reached.begins.saturating_sub(reached.ends) as u64
    }
}
