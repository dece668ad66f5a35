//! The entries of the bank's records.

/// The entry of a transaction of the bank: its operation and its answer, as in its record.
pub enum Entry {
    /// A transfer from one account to another; `moved` says whether there was enough.
    Transfer {
        from: u32,
        to: u32,
        amount: u64,
        moved: bool,
    },
    /// The sum of all balances.
    Sum {
        total: u64,
    },
}
