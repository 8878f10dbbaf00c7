//! What is known of every text that is read without a fault.
ghost use Rattle.std.specs.Prelude.{ℕ, ◌≡◌, List, Ok};
ghost use Rattle.flow_types.specs.Valid.{IsScenario};
ghost use Rattle.flow_types.specs.declared.parts.Parts.{Parts};
ghost use Rattle.scenario_reader.specs.Reading.{scenario_of};

/// A text that is read without a fault is that of a valid scenario, by the definition alone.
pub fn texts_that_read_are_valid()
    ensures { (bytes : List ℕ) (parts : Parts) → scenario_of bytes ≡ Ok parts → IsScenario parts }
{}
