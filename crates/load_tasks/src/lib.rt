//! The drawn workload of a load: its settings, the sources of its words, the commands and tasks
//! that are read from the words, and their lines, each after the number of its client. No manager
//! is needed to draw or to write them.
//!
//! The tasks are like the tasks of the client of the program Vacation of the STAMP benchmarks (Cao
//! Minh, Chung, Kozyrakis, Olukotun, IISWC 2008).
#![tactic(auto)]

mod client_lines;
mod draws;
mod fault;
mod laws;
mod lines;
mod opening;
mod opening_lines;
mod settings;
mod tasks;
mod worklist;

pub use draws::{Draws, FixedDraws, PcgDraws};
pub use fault::TasksFault;
pub use laws::{drawn_lines_are_read, tasks_have_one_text};
pub use opening::draw_stock;
pub use opening_lines::OPENING;
pub use settings::{
    BLOCKS_OF_ITEM, MOST_CLIENTS, MOST_ITEMS, MOST_ROUNDS, MOST_TASKS, PERCENT, Settings,
    VERSION_LIMIT,
};
pub use tasks::{draw_task, turns_make_tasks};
pub use worklist::write_tasks;
