//! The anomalies of isolation, as worked examples over two registers, and the levels that they
//! separate. Each is the contract of a function that does nothing.

ghost use Rattle.judge_snapshot.specs.Examples.{WriteSkewIsIsolated, LostUpdateIsNotIsolated, LongForkIsNotIsolated};
ghost use Rattle.judge_snapshot.specs.Examples.{ReadSkewIsNotIsolated, DirtyReadIsNotIsolated, StaleReadIsNotStrong};
ghost use Rattle.judge_snapshot.specs.Examples.{UnseenWriteIsNotSession};
ghost use Rattle.judge_snapshot.specs.Separations.{OtherLevelsAreSeparated};

/// States that write skew is strong snapshot isolated and not serializable.
pub fn write_skew_is_isolated()
    ensures { WriteSkewIsIsolated }
{}

/// States that a lost update is not snapshot isolated.
pub fn a_lost_update_is_not_isolated()
    ensures { LostUpdateIsNotIsolated }
{}

/// States that a long fork is not snapshot isolated.
pub fn a_long_fork_is_not_isolated()
    ensures { LongForkIsNotIsolated }
{}

/// States that a read skew is not snapshot isolated.
pub fn a_read_skew_is_not_isolated()
    ensures { ReadSkewIsNotIsolated }
{}

/// States that a dirty read, of a transaction that rolled back, is not snapshot isolated.
pub fn a_dirty_read_is_not_isolated()
    ensures { DirtyReadIsNotIsolated }
{}

/// States that a stale read is sequentially consistent and not strong snapshot isolated.
pub fn a_stale_read_is_not_strong()
    ensures { StaleReadIsNotStrong }
{}

/// States that a history in which a client does not see its own write is serializable and not
/// strong session snapshot isolated.
pub fn an_unseen_write_is_not_session()
    ensures { UnseenWriteIsNotSession }
{}

/// States that a history of two registers separates two levels if the table of implications does
/// not say that the first level implies the second.
pub fn other_levels_are_separated()
    ensures { OtherLevelsAreSeparated }
{}
