//! The parts that the command lines of all programs share: options as clap reads them, the values
//! that the words give, the text that a program shows instead of its work, the last line after a
//! fault, and the pace of progress lines.
#![tactic(auto)]

mod ending;
mod options;
mod pace;
mod showing;
mod values;

pub use ending::{DONE, REFUSED, refuse, write_done, write_fault, write_last, write_text};
pub use options::{
    Made, add_command, add_option, any_number_option, blocks_option, flag, number_option,
    valued_option,
};
pub use pace::{has_passed, pause};
pub use showing::show;
pub use values::{
    MOST_NUMBER, any_number_of, blocks_of, flag_of, is_given, named, number_of, values_of,
};
