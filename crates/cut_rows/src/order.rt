//! The order of cuts.
ghost use Rattle.std.specs.Prelude.{◌≡◌, ◌∷◌, []};
ghost use Rattle.cut_rows.specs.Order.{comes_before, numbers_of};

use crate::names::CutName;

/// Whether the one cut comes before the other: by kind, then by the numbers of their names from
/// left to right, a front first. It takes no memory.
pub fn is_before(a: &CutName, b: &CutName) -> bool
    ensures { result ≡ comes_before (numbers_of a.now) (numbers_of b.now) }
{
    match a {
        CutName::Heads {
            flight,
            node,
            time,
            heads,
        } => is_before_heads(*flight, *node, *time, heads.items(), b),
        CutName::Apart {
            flight,
            time,
            heads,
        } => is_before_apart(*flight, *time, heads.items(), b),
        CutName::Departed { flight, node, time } => is_before_departed(*flight, *node, *time, b),
    }
}

// Whether a cut of all heads of a node comes before the other cut.
fn is_before_heads(flight: u32, node: u16, time: u16, heads: &[u16], b: &CutName) -> bool
    ensures { result ≡ comes_before (0 ∷ flight ∷ node ∷ time ∷ heads.now) (numbers_of b.now) }
{
    match b {
        CutName::Heads {
            flight: other,
            node: at,
            time: by,
            heads: others,
        } => {
            flight < *other
                || (flight == *other && is_earlier(node, time, heads, *at, *by, others.items()))
        }
        _ => true,
    }
}

// Whether a node and a period with these nodes come before others.
fn is_earlier(node: u16, time: u16, heads: &[u16], at: u16, by: u16, others: &[u16]) -> bool
    ensures { result
        ≡ comes_before (node ∷ time ∷ heads.now) (at ∷ by ∷ others.now) }
{
    node < at || (node == at && is_sooner(time, heads, by, others))
}

// Whether a period with these nodes comes before another one.
fn is_sooner(time: u16, heads: &[u16], by: u16, others: &[u16]) -> bool
    ensures { result ≡ comes_before (time ∷ heads.now) (by ∷ others.now) }
{
    time < by || (time == by && nodes_before(heads, others))
}

// Whether a cut of nodes that are apart comes before the other cut.
fn is_before_apart(flight: u32, time: u16, heads: &[u16], b: &CutName) -> bool
    ensures { result ≡ comes_before (1 ∷ flight ∷ time ∷ heads.now) (numbers_of b.now) }
{
    match b {
        CutName::Heads { .. } => false,
        CutName::Apart {
            flight: other,
            time: by,
            heads: others,
        } => flight < *other || (flight == *other && is_sooner(time, heads, *by, others.items())),
        CutName::Departed { .. } => true,
    }
}

// Whether a cut of having departed in time comes before the other cut.
fn is_before_departed(flight: u32, node: u16, time: u16, b: &CutName) -> bool
    ensures { result ≡ comes_before (2 ∷ flight ∷ node ∷ time ∷ []) (numbers_of b.now) }
{
    match b {
        CutName::Departed {
            flight: other,
            node: at,
            time: by,
        } => { flight < *other || (flight == *other && is_earlier(node, time, &[], *at, *by, &[])) }
        _ => false,
    }
}

// Whether a list of nodes comes before another one.
fn nodes_before(xs: &[u16], ys: &[u16]) -> bool
    ensures { result ≡ comes_before xs.now ys.now }
{
    match ys.split_first() {
        None => false,
        Some((y, ys)) => match xs.split_first() {
            None => true,
            Some((x, xs)) => *x < *y || (*x == *y && nodes_before(xs, ys)),
        },
    }
}
