//! The script language of the reservation system: reading lines of bytes as tasks, and printing.
//! `print` and `append` put the text that a value's `Display` writes into a buffer. Input from a
//! stream is cut into lines, which are passed to a sink, and output is gathered and written in
//! chunks.
//!
//! The definitions in `specs/` include the output of a whole script and the state that it leaves.
#![tactic(auto)]

mod booking_lines;
mod client;
mod cutting;
mod fault;
mod item_lines;
mod limits;
mod line;
mod lines;
mod lists;
mod names;
mod next;
mod numbers;
mod printing;
mod reading;
mod sending;
mod sink;
mod stream_fault;
mod task_text;
mod words;
mod writing;

pub use client::{MOST_CLIENT, read_client};
pub use cutting::cut_at;
pub use fault::LineFault;
pub use limits::{CHUNK_BYTES, MOST_READS};
pub use line::{LINE_BYTES, has_bad_byte, read_line};
pub use next::Next;
pub use numbers::read_memory_word;
pub use printing::{append, is_text_of, print};
pub use reading::{MOST_LINES, read_lines};
pub use sending::{send_all, send_chunk, send_rest};
pub use sink::Sink;
pub use stream_fault::StreamFault;
pub use task_text::{task_texts_are_read, task_texts_fit};
pub use writing::{NotWritten, write_all, write_and_flush};
