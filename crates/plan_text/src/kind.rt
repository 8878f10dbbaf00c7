//! The kinds of records.
ghost use Rattle.std.specs.Prelude.{◌≡◌};
ghost use Rattle.plan_text.specs.Kinds.{is_passed_over, kind_of};

/// What a record is about.
#[derive(Clone, Copy, Debug, PartialEq, Eq)]
pub enum Kind {
    Trip,
    /// What a plan's text says besides its trips.
    PassedOver,
}

// Whether the record says nothing of the trips.
fn is_passed_over(word: &[u8]) -> bool
    ensures { result ≡ is_passed_over word.now }
{
    word == b"status".as_slice()
        || word == b"cost".as_slice()
        || word == b"bound".as_slice()
        || word == b"nodes".as_slice()
        || word == b"note".as_slice()
}

/// The kind that a record's first field names.
pub fn kind_of(word: &[u8]) -> Option<Kind>
    ensures { result ≡ kind_of word.now }
{
    if word == b"trip".as_slice() {
        Some(Kind::Trip)
    } else if is_passed_over(word) {
        Some(Kind::PassedOver)
    } else {
        None
    }
}
