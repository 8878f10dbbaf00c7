//! The digits of a number, in room of its own.
ghost use Rattle.std.specs.Prelude.{◌≡◌, ◌+◌, ◌%◌};

use std::marker::Model;

// As many digits as a number of 128 bits may have.
const ROOM: usize = 39;

/// The digits of a number. Contracts see them.
#[derive(Drop)]
pub struct Digits {
    room: [u8; ROOM],
    start: usize,
}

impl Model for Digits {
    ghost use Rattle.std.specs.Prelude.{ℕ, List, ◌<◌, drop, length};

    ghost Value = { List ℕ };

    ghost view = { λ d. drop d.start d.room };

    ghost invariant = { λ d. d.start < length d.room };
}

impl Digits {
    ghost use Rattle.std.specs.Prelude.{◌≡◌};
    ghost use Rattle.std.specs.Fmt.{decimal};

    /// The digits of the number.
    pub fn of(number: u128) -> Digits
        ensures { result ≡ decimal number }
    {
        let mut room = [0; ROOM];
        let mut start = ROOM - 1;
        let mut left = number;
        'digits: while left >= 10 {
            room[start] = digit(left);
            start -= 1;
            left /= 10;
        }
        room[start] = digit(left);
        Digits { room, start }
    }

    /// The bytes of the digits.
    pub fn bytes(&self) -> &[u8]
        ensures { result.now ≡ self.now }
    {
        &self.room[self.start..]
    }
}

// The last digit of a number.
fn digit(number: u128) -> u8
    ensures { result ≡ 48 + number % 10 }
{
    b'0' + (number % 10) as u8
}
