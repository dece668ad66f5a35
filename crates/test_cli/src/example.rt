//! A small script, its output, and the words that it leaves.

pub(crate) const SCRIPT: &[u8] = b"add car 7 100 50\nfree car 7\nfly\nprice car 7";

pub(crate) const ANSWERS: &[u8] = b"true\n100\nfault bad-command\n50\n";

/// The words in the memory of a system of one block after the script.
pub(crate) const DUMP: &[u8] =
    b"0\n16\n0\n0\n0\n0\n0\n0\n0\n0\n0\n0\n0\n0\n0\n0\n7\n0\n0\n0\n0\n100\n100\n50\n";
