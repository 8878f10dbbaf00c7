//! Bits of words.
ghost use Rattle.std.specs.Prelude.{◌≡◌, ◌≢◌, ◌<◌, ◌/◌, ◌%◌, ◌^◌, ◌==◌, ℕ, All, MatchOption, false, length, set, slice_index};
ghost use Rattle.std.specs.Int.{bit_at};
ghost use Rattle.number_set.specs.Numbers.{ArePut, IsBitPut, IsFirstBit, IsFirstIn, IsFirstWord, has_bit};

/// The word with the bit.
pub fn with_bit(word: u64, bit: u32) -> u64
    requires { bit < 64 }
    ensures here { bit_at result bit ≡ 1 }
    ensures others { (i : ℕ) → i < 64 → i ≢ bit → bit_at result i ≡ bit_at word i }
{
    word | (1 << bit)
}

/// The word without it.
pub fn without_bit(word: u64, bit: u32) -> u64
    requires { bit < 64 }
    ensures here { bit_at result bit ≡ 0 }
    ensures others { (i : ℕ) → i < 64 → i ≢ bit → bit_at result i ≡ bit_at word i }
{
    word & !(1 << bit)
}

/// The lowest bit of a word that has one.
pub fn lowest_bit(word: u64) -> u32
    requires { 0 < word }
    ensures within { result < 64 }
    ensures here { bit_at word result ≡ 1 }
    ensures lower { (i : ℕ) → i < result → bit_at word i ≡ 0 }
{
    word.trailing_zeros()
}

/// Where the first bit is in a list of words, nothing where there is none.
#[tactic(auto, using(crate::proofs::BitFacts::none_in, crate::proofs::BitFacts::first_in))]
pub fn first_bit(words: &[u64]) -> Option<usize>
    requires few { length words.now < 2 ^ 32 }
    ensures { MatchOption result ((k : ℕ) → has_bit words.now k ≡ false) (IsFirstBit words.now) }
{
    let at = first_some(words)?;
    Some(at * 64 + lowest_bit(words[at]) as usize)
}

/// Where the first word with a bit is, nothing where there is none.
pub fn first_some(words: &[u64]) -> Option<usize>
    ensures { MatchOption result (All (λ word. word ≡ 0) words.now) (IsFirstWord words.now) }
{
    words.iter().position(|word| *word != 0)
}

/// Changes the bit at the position in a list of words.
#[tactic(auto, using(crate::proofs::BitFacts::is_put))]
pub fn put_bit(words: &mut Vec<u64>, k: usize, now: bool)
    requires { k / 64 < length words.old.items }
    ensures { IsBitPut k now words.old.items words.new.items }
{
    let word = words[k / 64];
    words[k / 64] = word_with(word, (k % 64) as u32, now);
}

// The word with the bit, or without it.
fn word_with(word: u64, bit: u32, now: bool) -> u64
    requires { bit < 64 }
    ensures here { (bit_at result bit == 1) ≡ now }
    ensures others { (i : ℕ) → i < 64 → i ≢ bit → bit_at result i ≡ bit_at word i }
{
    if now {
        with_bit(word, bit)
    } else {
        without_bit(word, bit)
    }
}

/// Changes the bit of the number in the words, and in the summary that of its word, which tells
/// whether it isn't 0.
pub fn put(words: &mut Vec<u64>, summary: &mut Vec<u64>, number: u32, now: bool)
    requires words { number / 64 < length words.old.items }
    requires summary { number / 64 / 64 < length summary.old.items }
    ensures { ArePut number now words.old.items words.new.items summary.old.items
        summary.new.items }
{
    let word = number as usize / 64;
    put_bit(words, number as usize, now);
    put_bit(summary, word, words[word] != 0);
}

/// The least number of a word that has one.
#[tactic(auto, using(crate::proofs::BitFacts::number_in))]
pub fn first_in(words: &[u64], word: usize) -> u32
    requires few { word < 2 ^ 26 }
    requires within { word < length words.now }
    requires some { 0 < slice_index words.now word }
    ensures { IsFirstIn words.now word result }
{
    word as u32 * 64 + lowest_bit(words[word])
}
