//! The kinds of records.
ghost use Rattle.std.specs.Prelude.{◌≡◌};
ghost use Rattle.scenario_reader.specs.Kinds.{kind_of};

/// What a record is about.
#[derive(Clone, Copy, Debug, PartialEq, Eq)]
pub enum Kind {
    Day,
    Airport,
    Sector,
    Flight,
    Leg,
    Connect,
    Table,
    Cost,
    Cap,
    Note,
}

/// The kind that a record's first field names.
pub fn kind_of(word: &[u8]) -> Option<Kind>
    ensures { result ≡ kind_of word.now }
{
    if word == b"leg".as_slice() {
        Some(Kind::Leg)
    } else if word == b"cap".as_slice() {
        Some(Kind::Cap)
    } else if word == b"note".as_slice() {
        Some(Kind::Note)
    } else if word == b"flight".as_slice() {
        Some(Kind::Flight)
    } else if word == b"connect".as_slice() {
        Some(Kind::Connect)
    } else if word == b"cost".as_slice() {
        Some(Kind::Cost)
    } else if word == b"table".as_slice() {
        Some(Kind::Table)
    } else if word == b"sector".as_slice() {
        Some(Kind::Sector)
    } else if word == b"airport".as_slice() {
        Some(Kind::Airport)
    } else if word == b"day".as_slice() {
        Some(Kind::Day)
    } else {
        None
    }
}
