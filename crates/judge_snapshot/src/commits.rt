//! The derived object of commits.

ghost use Rattle.std.specs.Prelude.{◌≡◌, ◌∷◌, [], IfOk};
ghost use Rattle.judge_snapshot.specs.Possible.{past_of};
ghost use Rattle.judge_snapshot.specs.Trimmed.{trimmed};

use crate::commit::Commit;
use crate::committing::pasts_after;
use crate::outcome::Outcome;
use crate::past::{Past, hash_past, is_same_past};
use crate::write_sets::WriteSetObject;
use judge_object::Object;
use std::alloc::{AllocError, Global};
use std::marker::Model;

/// The version histories that are possible after some commits. Contracts see their list.
#[derive(Drop)]
pub struct Commits<S, W> {
    alloc: Global,
    pasts: Vec<Past<S, W>>,
}

impl<S, W> Model for Commits<S, W> {
    ghost use Rattle.std.specs.Prelude.{List};
    ghost use Rattle.judge_snapshot.specs.Possible as spec;

    ghost Value = { List (spec.Past S W) };

    ghost view = { λ c. c.pasts.items };
}

impl<S: Drop, W: Drop> Commits<S, W> {
    /// The version history before the first commit, alone.
    pub fn new(alloc: Global, first: S) -> Result<Commits<S, W>, AllocError>
        ensures { IfOk result (λ commits. commits ≡ past_of first ∷ []) }
    {
        let mut pasts = Vec::new(alloc);
        pasts.push(Past::new(alloc, first)?)?;
        Ok(Commits { alloc, pasts })
    }
}

impl<M: WriteSetObject + Drop> Object for Commits<M, M::Written> {
    type Op = Commit<M::Op>;

    type Reply = Outcome;

    ghost rules = { trimmed M.rules M.write_sets };

    fn copy(&self) -> Result<Commits<M, M::Written>, AllocError> {
        let mut pasts = Vec::with_capacity(self.alloc, self.pasts.len())?;
        'pasts: for place in 0..self.pasts.len() {
            pasts.push(self.pasts[place].copy(self.alloc)?)?;
        }
        Ok(Commits {
            alloc: self.alloc,
            pasts,
        })
    }

    fn made(self, op: &Commit<M::Op>) -> Result<(Commits<M, M::Written>, Outcome), AllocError> {
        let alloc = self.alloc;
        let pasts = pasts_after(alloc, self.pasts.as_slice(), op)?;
        if pasts.is_empty() {
            return Ok((self, Outcome::Refused));
        }
        Ok((Commits { alloc, pasts }, Outcome::Committed))
    }

    fn is_same(&self, other: &Commits<M, M::Written>) -> bool {
        if self.pasts.len() != other.pasts.len() {
            return false;
        }
        'pasts: for place in 0..self.pasts.len() {
            if !is_same_past(&self.pasts[place], &other.pasts[place]) {
                return false;
            }
        }
        true
    }

    fn hash(&self) -> u64 {
        let mut hash = 0u64;
        'pasts: for place in 0..self.pasts.len() {
            hash = (hash ^ hash_past(&self.pasts[place])).wrapping_mul(0x0000_0100_0000_01b3);
        }
        hash
    }

    fn print(reply: &Outcome, out: &mut Vec<u8>) -> Result<(), AllocError> {
        match reply {
            Outcome::Committed => out.extend_from_slice(b"ok"),
            Outcome::Refused => out.extend_from_slice(b"no"),
        }
    }
}
