//! Digests of texts.
ghost use Rattle.std.specs.Prelude.{◌≡◌, Some, length};
ghost use Rattle.std.specs.List.{list_all};
ghost use Rattle.sha2.specs.Sha256.{sha256};
ghost use Rattle.certificate.specs.Digests.{digest_of_word, is_lower_digit};

use sha2::{Digest as Hasher, Sha256};
use std::marker::Model;

/// A digest by SHA-256 (FIPS 180-4). Contracts see its 32 bytes.
#[derive(Debug, Drop)]
pub struct Digest {
    bytes: [u8; 32],
}

impl Model for Digest {
    ghost use Rattle.std.specs.Prelude.{ℕ, List};

    ghost Value = { List ℕ };

    ghost view = { λ d. d.bytes };
}

impl Digest {
    ghost use Rattle.std.specs.Prelude.{◌≡◌, length};
    ghost use Rattle.hex.specs.Hex.{encode_lower};
    ghost use Rattle.sha2.specs.Sha256.{sha256};

    /// The digest of a text. It takes no memory, and time for each byte.
    pub fn of(text: &[u8]) -> Digest
        ensures { result ≡ sha256 text.now }
    {
        Digest {
            bytes: Sha256::digest(text),
        }
    }

    /// A second one.
    pub fn copy(&self) -> Digest
        ensures { result ≡ self.now }
    {
        Digest { bytes: self.bytes }
    }

    /// The digest's 64 digits, letters in lower case.
    pub fn digits(&self) -> [u8; 64]
        ensures { result ≡ encode_lower self.now }
    {
        let mut word = [0; 64];
        hex::encode_to_slice(&self.bytes, &mut word).unwrap();
        word
    }

    /// The digest's bytes.
    pub fn bytes(&self) -> &[u8]
        ensures bytes { result.now ≡ self.now }
        ensures size { length result.now ≡ 32 }
    {
        &self.bytes
    }
}

// Whether the byte is a digit of a word of one: a letter is in lower case.
fn is_lower_digit(byte: u8) -> bool
    ensures { result ≡ is_lower_digit byte }
{
    (b'0'..=b'9').contains(&byte) || (b'a'..=b'f').contains(&byte)
}

fn are_lower_digits(word: &[u8]) -> bool
    ensures { result ≡ list_all is_lower_digit word.now }
{
    word.iter().all(|byte| is_lower_digit(*byte))
}

/// The digest whose 64 digits these are, letters in lower case.
pub fn digest_of_word(word: &[u8]) -> Option<Digest>
    ensures { result ≡ digest_of_word word.now }
{
    if !are_lower_digits(word) {
        return None;
    }
    let mut bytes = [0; 32];
    match hex::decode_to_slice(word, &mut bytes) {
        Ok(()) => Some(Digest { bytes }),
        Err(_) => None,
    }
}
