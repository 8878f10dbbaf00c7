//! The options that limit a search, and the numbers that may stand behind words.
ghost use Rattle.std.specs.Prelude.{◌≡◌};
ghost use Rattle.command_words.specs.Words.{between, count_range, limit_of, range_of};

/// What an option limits.
#[derive(Clone, Copy)]
pub enum Limit {
    /// How many nodes a search may have.
    Nodes,
    /// How many pivots each of its runs may make.
    Pivots,
    /// How many entries the tableau of each run may have.
    Cells,
    /// How many rounds of prices each of its boxes may have.
    Rounds,
}

/// The least and the most number that may stand behind a word.
#[derive(Clone, Copy)]
pub struct Range {
    pub least: u64,
    pub most: u64,
}

/// What the option of this word limits, if it is one.
pub fn limit_of(option: &str) -> Option<Limit>
    ensures { result ≡ limit_of option.now }
{
    match option {
        "--nodes" => Some(Limit::Nodes),
        "--pivots" => Some(Limit::Pivots),
        "--cells" => Some(Limit::Cells),
        "--rounds" => Some(Limit::Rounds),
        _ => None,
    }
}

/// The numbers that may stand behind an option.
pub fn range_of(limit: Limit) -> Range
    ensures { result ≡ range_of limit }
{
    match limit {
        Limit::Nodes => between(1, 200_000),
        Limit::Pivots => between(0, 1_000_000),
        Limit::Cells => between(1_000, 16_000_000),
        Limit::Rounds => between(0, 1_000),
    }
}

/// The numbers that may stand behind `make` and `trial`.
pub fn count_range() -> Range
    ensures { result ≡ count_range }
{
    between(1, 2_000)
}

// A range.
fn between(least: u64, most: u64) -> Range
    ensures { result ≡ between least most }
{
    Range { least, most }
}
