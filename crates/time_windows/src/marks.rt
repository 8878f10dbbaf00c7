//! How many choices nodes have, and those that must be entered and are closed.
ghost use Rattle.std.specs.Prelude.{◌≡◌, ◌↔◌, ◌<◌, ◌^◌, IsTrue, All, length};
ghost use Rattle.std.specs.List.{Any};
ghost use Rattle.time_windows.specs.Boxes.{IsClosedMust, options_of};
ghost use Rattle.time_windows.specs.Held.{access_at};
ghost use Rattle.time_windows.specs.Tight.{IsTightAnswer};

use crate::access::Access;
use crate::tightening::Tight;
use crate::windows::width_of;
use flow_types::MOST_NODES;

/// How many choices there are.
pub fn options_of(access: Access) -> u32
    ensures { result ≡ options_of access }
{
    width_of(access.window) + if access.must { 0 } else { 1 }
}

/// Whether each of them has one choice.
pub fn have_one_option(accesses: &[Access]) -> bool
    ensures { IsTrue result ↔ All (λ access. options_of access ≡ 1) accesses.now }
{
    accesses.iter().all(|access| options_of(*access) == 1)
}

/// Whether the node must be entered and is closed.
pub fn is_closed_must(access: Access) -> bool
    ensures { IsTrue result ↔ IsClosedMust access }
{
    access.must && access.window.is_none()
}

/// Whether a node that must be entered is closed.
pub fn has_closed_must(accesses: &[Access]) -> bool
    ensures { IsTrue result ↔ Any IsClosedMust accesses.now }
{
    accesses.iter().any(|access| is_closed_must(*access))
}

/// The first node that must be entered and is closed.
pub fn first_closed(accesses: &[Access]) -> Tight
    requires { length accesses.now < 2 ^ 32 }
    ensures { IsTightAnswer (access_at accesses.now) result }
{
    for index in 0..accesses.len() {
        if is_closed_must(accesses[index]) {
            return Tight::Empty((index / MOST_NODES) as u32, (index % MOST_NODES) as u16);
        }
    }
    Tight::Live
}
