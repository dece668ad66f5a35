//! Operations and replies as words of a line.

ghost use Rattle.std.specs.Prelude.{◌≡◌, IfOk};
ghost use Rattle.std.specs.Str.{bytes_eq};
ghost use Rattle.vac_lines.specs.Lines.{texts};
ghost use Rattle.judge_kv.specs.Words.{words_operation};
ghost use Rattle.judge_kv.specs.StoreWords as spec;

use crate::answer::Answer;
use crate::cell::Cell;
use crate::clause::{Clause, Role};
use crate::reader::Reader;
use crate::request::Request;
use crate::store::Store;
use crate::words::read_held;
use judge_text::{TextObject, read_quoted};
use std::alloc::{AllocError, Global};

/// Returns whether a word is this name.
fn is_name(word: &[u8], name: &[u8]) -> bool
    ensures { result ≡ bytes_eq word.now name.now }
{
    word == name
}

/// Returns the role that a word writes.
fn read_role(word: &[u8]) -> Option<Role>
    ensures { result ≡ spec.role_word word.now }
{
    if is_name(word, b"if") {
        Some(Role::If)
    } else if is_name(word, b"get") {
        Some(Role::Get)
    } else if is_name(word, b"then") {
        Some(Role::Then)
    } else if is_name(word, b"else") {
        Some(Role::Else)
    } else {
        None
    }
}

/// Returns the clause that three words write.
fn read_clause(
    alloc: Global,
    role: &[u8],
    key: &[u8],
    held: &[u8],
) -> Result<Option<Clause>, AllocError>
    ensures { IfOk result (λ read. spec.clause_words role.now key.now held.now ≡ read) }
{
    let Some(role) = read_role(role) else {
        return Ok(None);
    };
    let Some(key) = read_quoted(alloc, key)? else {
        return Ok(None);
    };
    match read_held(alloc, held)? {
        Some(held) => Ok(Some(Clause::new(role, key, held))),
        None => Ok(None),
    }
}

/// Returns the clauses that words write.
fn read_clauses(alloc: Global, words: &[&[u8]]) -> Result<Option<Vec<Clause>>, AllocError>
    ensures { IfOk result (λ read. spec.clauses_words (texts words.now) ≡ spec.clauses_in read) }
{
    let mut clauses = Vec::new(alloc);
    let mut place = 0usize;
    'clauses: while 3 <= words.len() - place {
        match read_clause(alloc, words[place], words[place + 1], words[place + 2])? {
            Some(clause) => clauses.push(clause)?,
            None => return Ok(None),
        }
        place += 3;
    }
    if place == words.len() {
        Ok(Some(clauses))
    } else {
        Ok(None)
    }
}

/// Returns whether a name and the words behind it begin a transaction of clauses.
fn is_transaction(name: &[u8], rest: &[&[u8]]) -> bool
    ensures { result ≡ spec.is_transaction name.now (texts rest.now) }
{
    match rest {
        [] => false,
        [role, ..] => is_name(name, b"txn") && read_role(role).is_some(),
    }
}

/// Returns the transaction that words write.
fn read_transaction(alloc: Global, words: &[&[u8]]) -> Result<Option<Request>, AllocError>
    ensures { IfOk result (λ read.
        spec.transaction_of (spec.clauses_words (texts words.now)) ≡ read) }
{
    match read_clauses(alloc, words)? {
        Some(clauses) => Ok(Some(Request::transaction(clauses))),
        None => Ok(None),
    }
}

/// Returns the operation on one key that words write.
fn read_one(
    alloc: Global,
    reader: &mut Reader,
    words: &[&[u8]],
) -> Result<Option<Request>, AllocError>
    ensures { IfOk result (λ read. spec.one_of (words_operation (texts words.now)) ≡ read) }
{
    match Cell::read_operation(alloc, reader, words)? {
        Some(op) => Ok(Some(Request::one(op))),
        None => Ok(None),
    }
}

impl TextObject for Store {
    ghost use Rattle.judge_kv.specs.StoreWords.{whole_language};

    type Reader = Reader;

    ghost language = { whole_language };

    fn reader(alloc: Global) -> Reader {
        Reader::new(alloc)
    }

    fn read_operation(
        alloc: Global,
        reader: &mut Reader,
        words: &[&[u8]],
    ) -> Result<Option<Request>, AllocError> {
        match words {
            [] => Ok(None),
            [name, rest @ ..] => {
                if is_transaction(name, rest) {
                    read_transaction(alloc, rest)
                } else {
                    read_one(alloc, reader, words)
                }
            }
        }
    }

    fn read_reply(
        alloc: Global,
        reader: &mut Reader,
        word: &[u8],
    ) -> Result<Option<Answer>, AllocError> {
        Cell::read_reply(alloc, reader, word)
    }
}
