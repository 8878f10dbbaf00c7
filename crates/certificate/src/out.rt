//! Where the text of a certificate goes: into memory, or into a count of its bytes.
ghost use Rattle.std.specs.Prelude.{◌≡◌, ◌^◌, ◌-◌, List, length, min, ℕ};
ghost use Rattle.certificate.specs.Put.{Puts};

use flow_types::OutOfMemory;
use std::alloc::Global;
use std::convert::Infallible;

/// Takes a text piece by piece.
pub trait Out {
    /// Why a piece isn't taken.
    type Error: Drop;

    /// What it took are these bytes.
    ghost holds: { Self → List ℕ → Type 0 };

    /// Takes a piece more. After an error nothing is said of what it holds.
    fn put(&mut self, bytes: &[u8]) -> Result<(), Self::Error>
        ensures { Puts (holds self.old) (holds self.new) result bytes.now };
}

/// The text itself.
#[derive(Drop)]
pub struct Text {
    bytes: Vec<u8>,
}

/// A count of the text's bytes, up to the last number of 64 bits. It takes no memory.
#[derive(Drop)]
pub struct Count {
    bytes: u64,
}

impl Text {
    ghost use Rattle.std.specs.Prelude.{◌≡◌, []};

    pub fn new(alloc: Global) -> Text
        ensures { result.bytes.items ≡ [] }
    {
        Text {
            bytes: Vec::new(alloc),
        }
    }

    pub fn into_bytes(self) -> Vec<u8>
        ensures { result.items ≡ self.bytes.items }
    {
        self.bytes
    }
}

impl Count {
    ghost use Rattle.std.specs.Prelude.{◌≡◌};

    pub fn new() -> Count
        ensures { result.bytes ≡ 0 }
    {
        Count { bytes: 0 }
    }

    pub fn bytes(&self) -> u64
        ensures { result ≡ self.now.bytes }
    {
        self.bytes
    }
}

impl Out for Text {
    type Error = OutOfMemory;

    ghost holds = { λ out text. out.bytes.items ≡ text };

    fn put(&mut self, bytes: &[u8]) -> Result<(), OutOfMemory> {
        self.bytes.extend_from_slice(bytes)?;
        Ok(())
    }
}

impl Out for Count {
    type Error = Infallible;

    ghost holds = { λ out text. out.bytes ≡ min (length text) (2 ^ 64 - 1) };

    fn put(&mut self, bytes: &[u8]) -> Result<(), Infallible> {
        self.bytes = self.bytes.saturating_add(bytes.len() as u64);
        Ok(())
    }
}
