//! What the texts that are written mean.
ghost use Rattle.std.specs.Prelude.{ℕ, ◌≡◌, ◌≤◌, ◌↔◌, List, Ok, length};
ghost use Rattle.flow_types.specs.declared.parts.Parts.{Parts};
ghost use Rattle.flow_types.specs.Limits.{most_text_bytes};
ghost use Rattle.flow_types.specs.Valid.{IsScenario};
ghost use Rattle.scenario_reader.specs.Reading.{scenario_of};
ghost use Rattle.scenario_maker.specs.Made.{made_parts, made_text};
ghost use Rattle.scenario_maker.specs.Order.{AreInOrder};
ghost use Rattle.scenario_maker.specs.Writing.{scenario_text};

/// The text of parts is read as exactly these parts where they are a valid scenario whose flights
/// have their legs in an order in which they can be read, and only there. That is so whatever the
/// length: one of more than 64 MiB isn't read by the program.
pub fn written_scenarios_are_read()
    ensures { (parts : Parts) → scenario_of (scenario_text parts) ≡ Ok parts
        ↔ (IsScenario parts × AreInOrder parts.flights) }
{}

/// The text of a made day is read as the day that the definition says.
pub fn made_texts_are_read()
    ensures { (n : ℕ) → n ≤ 2000 → scenario_of (made_text n) ≡ Ok (made_parts n) }
{}

/// The text of a made day is no longer than a text may be.
pub fn made_texts_are_short()
    ensures { (n : ℕ) → n ≤ 2000 → length (made_text n) ≤ most_text_bytes }
{}

/// What a text is read as can be written and read again: it is the same scenario.
pub fn texts_that_read_are_written_again()
    ensures { (bytes : List ℕ) (parts : Parts) → scenario_of bytes ≡ Ok parts
        → scenario_of (scenario_text parts) ≡ Ok parts }
{}
