//! A key-value store as many objects, one for each key, and as one object: the rules of a key, of a
//! whole store, and of transactions that compare and write several keys; their running states, and
//! operations and replies as words.
#![tactic(auto)]

mod answer;
mod cell;
mod clause;
mod command;
mod entries;
mod laws;
mod objects;
mod reader;
mod request;
mod starting;
mod store;
mod store_words;
mod value;
mod words;

pub use answer::Answer;
pub use cell::Cell;
pub use clause::{Clause, Role};
pub use command::{Change, Command, Operation, Transaction};
pub use laws::{objects_make_the_store, verdicts_decide_the_store};
pub use reader::Reader;
pub use request::Request;
pub use starting::{FirstValues, StartFault, StartValues, read_first_values};
pub use store::Store;
pub use value::Value;
pub use words::read_held;
