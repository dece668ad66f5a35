//! The names of lines, which are their first words.

ghost use Rattle.std.specs.Prelude.{◌≡◌};
ghost use Rattle.std.specs.Str.{bytes_eq};
ghost use Rattle.vac_lines.specs.Names as spec;

/// The name of a line, which is its first word.
#[derive(Clone, Copy)]
pub(crate) enum LineName {
    /// `add KIND ID NUM PRICE`
    Add,
    /// `del KIND ID NUM`, `del flight ID`
    Del,
    /// `newcust ID`
    NewCustomer,
    /// `dropcust ID`
    DropCustomer,
    /// `free KIND ID`
    Free,
    /// `price KIND ID`
    Price,
    /// `bill ID`
    Bill,
    /// `reserve ID KIND ID`, `reserve ID KIND ID NUM`
    Reserve,
    /// `cancel ID KIND ID`
    Cancel,
    /// `audit`
    Audit,
    /// `trip ID KIND ID ..`
    Trip,
    /// `leave ID`
    Leave,
    /// `update CHANGE ; CHANGE ..`
    Update,
}

/// Returns whether a word is this name.
pub(crate) fn is_name(word: &[u8], name: &[u8]) -> bool
    ensures { result ≡ bytes_eq word.now name.now }
{
    word == name
}

/// Returns the line that a first word names, if it names one.
pub(crate) fn line_name(word: &[u8]) -> Option<LineName>
    ensures { result ≡ spec.line_name word.now }
{
    if is_name(word, b"add") {
        Some(LineName::Add)
    } else if is_name(word, b"del") {
        Some(LineName::Del)
    } else if is_name(word, b"newcust") {
        Some(LineName::NewCustomer)
    } else if is_name(word, b"dropcust") {
        Some(LineName::DropCustomer)
    } else {
        later_name(word)
    }
}

/// Returns the line that a first word names, if it is none of the first four names.
fn later_name(word: &[u8]) -> Option<LineName>
    ensures { result ≡ spec.later_name word.now }
{
    if is_name(word, b"free") {
        Some(LineName::Free)
    } else if is_name(word, b"price") {
        Some(LineName::Price)
    } else if is_name(word, b"bill") {
        Some(LineName::Bill)
    } else if is_name(word, b"reserve") {
        Some(LineName::Reserve)
    } else {
        last_name(word)
    }
}

/// Returns the line that a first word names, if it is none of the first eight names.
fn last_name(word: &[u8]) -> Option<LineName>
    ensures { result ≡ spec.last_name word.now }
{
    if is_name(word, b"cancel") {
        Some(LineName::Cancel)
    } else if is_name(word, b"audit") {
        Some(LineName::Audit)
    } else if is_name(word, b"trip") {
        Some(LineName::Trip)
    } else if is_name(word, b"leave") {
        Some(LineName::Leave)
    } else if is_name(word, b"update") {
        Some(LineName::Update)
    } else {
        None
    }
}
