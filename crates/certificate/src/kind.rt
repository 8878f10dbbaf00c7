//! The kinds of lines.
ghost use Rattle.std.specs.Prelude.{◌≡◌};
ghost use Rattle.certificate.specs.Kinds.{kind_of, node_kind, word_of};

/// The kind of a line, by the word in its first field.
#[derive(Clone, Copy, Debug, PartialEq, Eq)]
pub enum LineKind {
    Head,
    Cut,
    Split,
    Empty,
    Unit,
    Dual,
    Lag,
    Row,
    Plan,
    Trip,
    Bound,
    End,
}

// The kind of line of a tree that the word begins.
fn node_kind(word: &[u8]) -> Option<LineKind>
    ensures { result ≡ node_kind word.now }
{
    if word == b"split".as_slice() {
        Some(LineKind::Split)
    } else if word == b"empty".as_slice() {
        Some(LineKind::Empty)
    } else if word == b"unit".as_slice() {
        Some(LineKind::Unit)
    } else if word == b"dual".as_slice() {
        Some(LineKind::Dual)
    } else if word == b"lag".as_slice() {
        Some(LineKind::Lag)
    } else {
        None
    }
}

/// The kind of line that the word begins.
pub fn kind_of(word: &[u8]) -> Option<LineKind>
    ensures { result ≡ kind_of word.now }
{
    if word == b"y".as_slice() {
        Some(LineKind::Row)
    } else if word == b"trip".as_slice() {
        Some(LineKind::Trip)
    } else if word == b"cert".as_slice() {
        Some(LineKind::Head)
    } else if word == b"cut".as_slice() {
        Some(LineKind::Cut)
    } else if word == b"plan".as_slice() {
        Some(LineKind::Plan)
    } else if word == b"bound".as_slice() {
        Some(LineKind::Bound)
    } else if word == b"end".as_slice() {
        Some(LineKind::End)
    } else {
        node_kind(word)
    }
}
