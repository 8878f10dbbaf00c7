//! Windows, and what legs and connections leave of them.
ghost use Rattle.std.specs.Prelude.{◌≡◌};
ghost use Rattle.time_windows.specs.Boxes.{width_of};
ghost use Rattle.time_windows.specs.Splits.{after, until};
ghost use Rattle.time_windows.specs.Steps.{below_limit, entry_of, from_entry, limit_of};

use crate::access::Window;

/// Later than every period.
pub const NEVER: u32 = 4_294_967_295;

/// How many periods the window has.
pub fn width_of(window: Option<Window>) -> u32
    ensures { result ≡ width_of window }
{
    match window {
        None => 0,
        Some(window) => (u32::from(window.hi) + 1).saturating_sub(u32::from(window.lo)),
    }
}

/// The window up to the period.
pub fn until(window: Option<Window>, time: u16) -> Option<Window>
    ensures { result ≡ until window time }
{
    match window {
        None => None,
        Some(window) => Some(Window {
            lo: window.lo,
            hi: window.hi.min(time),
        }),
    }
}

/// The window after the period.
pub fn after(window: Option<Window>, time: u16) -> Option<Window>
    ensures { result ≡ after window time }
{
    match window {
        None => None,
        Some(window) => {
            if time < window.hi {
                Some(Window {
                    lo: window.lo.max(time + 1),
                    hi: window.hi,
                })
            } else {
                None
            }
        }
    }
}

/// The first period in which one can enter, so long after entering a node with this window.
pub fn entry_of(window: Option<Window>, least: u16) -> u32
    ensures { result ≡ entry_of window least }
{
    match window {
        None => NEVER,
        Some(before) => u32::from(before.lo) + u32::from(least),
    }
}

/// Before which period one has to enter, so long before entering a node with this window.
pub fn limit_of(window: Option<Window>, least: u16) -> u32
    ensures { result ≡ limit_of window least }
{
    match window {
        None => 0,
        Some(next) => (u32::from(next.hi) + 1).saturating_sub(u32::from(least)),
    }
}

/// The window from the entry on.
pub fn from_entry(window: Option<Window>, entry: u32) -> Option<Window>
    ensures { result ≡ from_entry window entry }
{
    match window {
        None => None,
        Some(window) => {
            if entry <= u32::from(window.hi) {
                Some(Window {
                    lo: window.lo.max(entry as u16),
                    hi: window.hi,
                })
            } else {
                None
            }
        }
    }
}

/// The window before the limit.
pub fn below_limit(window: Option<Window>, limit: u32) -> Option<Window>
    ensures { result ≡ below_limit window limit }
{
    match window {
        None => None,
        Some(window) => {
            if u32::from(window.lo) < limit {
                Some(Window {
                    lo: window.lo,
                    hi: u32::from(window.hi).min(limit - 1) as u16,
                })
            } else {
                None
            }
        }
    }
}
