//! The running state of a whole store.

ghost use Rattle.std.specs.Prelude.{◌≡◌, [], true, Some, IfOk, OnOk};
ghost use Rattle.judge_kv.specs.Shared.{value_in};
ghost use Rattle.judge_kv.specs.Rules.{is_held};
ghost use Rattle.judge_kv.specs.Stores as stores;
ghost use Rattle.judge_kv.specs.StoreRules as spec;
ghost use Rattle.judge_kv.specs.StoreRules.{whole, one_after};

use crate::answer::Answer;
use crate::cell::Cell;
use crate::clause::{Clause, Role};
use crate::command::Operation;
use crate::entries::{Entry, are_same, place_among, place_of, shared, take_out};
use crate::objects::store_objects;
use crate::request::{Request, RequestKind};
use crate::starting::StartValues;
use crate::value::Value;
use judge_object::{Line, Object};
use judge_text::{Named, Names};
use std::alloc::{AllocError, Global};
use std::marker::Model;
use std::rc::Rc;
use vac_lines::append;

/// The state of a whole store. Contracts see its keys with their values, in the order of the keys'
/// bytes.
#[derive(Drop)]
pub struct Store {
    alloc: Global,
    entries: Vec<Entry>,
}

impl Model for Store {
    ghost use Rattle.std.specs.Coded.{coded_ℕ, coded_list, coded×};
    ghost use Rattle.judge_kv.specs.Stores.{Pairs};

    ghost Value = { Pairs };

    ghost coded = { coded_list (coded× (coded_list coded_ℕ) (coded_list coded_ℕ)) };

    ghost view = { λ s. s.entries.items };
}

impl Store {
    /// A store without keys.
    pub fn new(alloc: Global) -> Store
        ensures { result ≡ [] }
    {
        Store {
            alloc,
            entries: Vec::new(alloc),
        }
    }

    /// Returns the state of a key.
    pub(crate) fn cell(&self, key: &[u8]) -> Result<Cell, AllocError>
        ensures { IfOk result (λ cell. cell ≡ stores.held_at key.now self.now) }
    {
        match place_of(self.entries.as_slice(), key) {
            None => Ok(Cell::new(self.alloc)),
            Some(place) => {
                let value = self.entries[place].value.clone()?;
                Ok(Cell::of(self.alloc, Some(value)))
            }
        }
    }

    /// Returns a key for an entry: that of the entry that the store has, if it has one.
    fn own_key(&self, key: &[u8]) -> Result<Rc<Value>, AllocError>
        ensures { IfOk result (λ own. own.value ≡ key.now) }
    {
        match place_of(self.entries.as_slice(), key) {
            Some(place) => Ok(self.entries[place].key.clone()?),
            None => Ok(Rc::new(self.alloc, Value::new(self.alloc, key)?)?),
        }
    }

    /// Sets what a key has: a value, or none.
    pub(crate) fn set(&mut self, key: &[u8], held: Option<Rc<Value>>) -> Result<(), AllocError>
        ensures { OnOk result (self.new ≡ stores.with_held key.now (value_in held) self.old) }
    {
        match held {
            None => {
                take_out(&mut self.entries, key);
                Ok(())
            }
            Some(value) => self.put(key, value),
        }
    }

    /// Sets the value of a key.
    fn put(&mut self, key: &[u8], value: Rc<Value>) -> Result<(), AllocError>
        ensures { OnOk result
            (self.new ≡ stores.with_held key.now (Some value.value) self.old) }
    {
        let own = self.own_key(key)?;
        take_out(&mut self.entries, key);
        let place = place_among(self.entries.as_slice(), key);
        self.entries.insert(place, Entry { key: own, value })?;
        Ok(())
    }

    /// Returns the state after an operation on one key, and the reply.
    fn after_one(mut self, op: &Operation) -> Result<(Store, Answer), AllocError>
        ensures { IfOk result (λ made. one_after self op.now ≡ (made.0, made.1)) }
    {
        let (cell, answer) = self.cell(op.key())?.made(op)?;
        self.set(op.key(), cell.into_held())?;
        Ok((self, answer))
    }

    /// Returns whether all clauses of a role hold.
    fn do_hold(&self, role: Role, clauses: &[Clause]) -> Result<bool, AllocError>
        ensures { IfOk result (λ hold. hold ≡ spec.all_hold self.now role clauses.now) }
    {
        'clauses: for place in 0..clauses.len() {
            if !self.does_hold(role, &clauses[place])? {
                return Ok(false);
            }
        }
        Ok(true)
    }

    /// Returns whether a clause holds, if it has this role.
    fn does_hold(&self, role: Role, clause: &Clause) -> Result<bool, AllocError>
        ensures { IfOk result (λ holds. holds ≡ spec.does_hold self.now role clause.now) }
    {
        if !clause.role().is(role) {
            return Ok(true);
        }
        Ok(self.cell(clause.key())?.is_held(clause.held()))
    }

    /// Makes the writes of a role, one after the other.
    fn write(&mut self, role: Role, clauses: &[Clause]) -> Result<(), AllocError>
        ensures { OnOk result (self.new ≡ spec.written self.old role clauses.now) }
    {
        'clauses: for place in 0..clauses.len() {
            self.write_one(role, &clauses[place])?;
        }
        Ok(())
    }

    /// Makes the write of a clause, if it has this role.
    fn write_one(&mut self, role: Role, clause: &Clause) -> Result<(), AllocError>
        ensures { OnOk result (self.new ≡ spec.written_by self.old role clause.now) }
    {
        if !clause.role().is(role) {
            return Ok(());
        }
        let held = match clause.held() {
            None => None,
            Some(value) => Some(value.clone()?),
        };
        self.set(clause.key(), held)
    }

    /// Returns the state after a transaction, and the reply.
    fn transacted(mut self, clauses: &[Clause]) -> Result<(Store, Answer), AllocError>
        ensures { IfOk result (λ made. spec.transacted self clauses.now ≡ (made.0, made.1)) }
    {
        let is_held = self.do_hold(Role::If, clauses)?;
        let is_read = self.do_hold(Role::Get, clauses)?;
        let branch = if is_held { Role::Then } else { Role::Else };
        self.write(branch, clauses)?;
        if is_read {
            Ok((self, Answer::truth(is_held)))
        } else {
            Ok((self, Answer::has(None)))
        }
    }
}

impl Object for Store {
    type Op = Request;

    type Reply = Answer;

    ghost rules = { whole };

    fn copy(&self) -> Result<Store, AllocError> {
        Ok(Store {
            alloc: self.alloc,
            entries: shared(self.alloc, self.entries.as_slice())?,
        })
    }

    fn made(self, op: &Request) -> Result<(Store, Answer), AllocError> {
        match op.kind() {
            RequestKind::One(op) => self.after_one(op),
            RequestKind::Transact(clauses) => self.transacted(clauses.as_slice()),
        }
    }

    fn is_same(&self, other: &Store) -> bool {
        are_same(self.entries.as_slice(), other.entries.as_slice())
    }

    fn hash(&self) -> u64 {
        let mut hash = 0u64;
        for entry in self.entries.as_slice() {
            hash = (hash ^ entry.hash()).wrapping_mul(0x0000_0100_0000_01b3);
        }
        hash
    }

    fn print(reply: &Answer, out: &mut Vec<u8>) -> Result<(), AllocError> {
        append(reply, out)
    }
}

impl StartValues for Store {
    ghost held = { λ pairs key. stores.held_at key pairs };

    fn has_value(&self, key: &[u8]) -> Result<bool, AllocError> {
        Ok(self.cell(key)?.has_value())
    }

    fn set_value(&mut self, alloc: Global, key: Vec<u8>, value: Vec<u8>) -> Result<(), AllocError> {
        let value = Value::from_bytes(value);
        let value = Some(Rc::new(alloc, value)?);
        self.set(key.as_slice(), value)?;
        Ok(())
    }
}

impl Named for Store {
    ghost use Rattle.judge_kv.specs.Classes.{name_of, AreStoreObjects};

    ghost name = { name_of };

    ghost naming = { AreStoreObjects };

    fn name(op: &Request) -> &[u8] {
        op.first_key()
    }

    fn names(alloc: Global, lines: &[Line<Request>]) -> Result<Names, AllocError> {
        store_objects(alloc, lines)
    }
}
