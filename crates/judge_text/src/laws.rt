//! Laws on quoted words. Each is the contract of a function that does nothing.

ghost use Rattle.judge_text.specs.Quoting.{QuotesAreRead};

/// Bytes that are written as a quoted word are read back.
pub fn quotes_are_read()
    ensures { QuotesAreRead }
{}
