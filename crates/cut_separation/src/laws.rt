//! A law of the whole cuts.
ghost use Rattle.std.specs.Prelude.{◌≡◌, ◌↔◌, AllPairs, true};
ghost use Rattle.std.specs.List.{Any};
ghost use Rattle.flow_types.specs.declared.parts.Parts.{Parts};
ghost use Rattle.flow_types.specs.Valid.{IsScenario};
ghost use Rattle.cut_rows.specs.declared.names.CutName.{CutName};
ghost use Rattle.cut_rows.specs.Cuts.{is_cut};
ghost use Rattle.cut_rows.specs.Order.{IsBefore};
ghost use Rattle.cut_separation.specs.Whole.{IsWhole, whole_cuts};

/// Of a valid scenario a cut is in the list of whole cuts exactly where there is such a cut and it
/// is whole. The list is in order, so that none is there twice.
pub fn whole_cuts_are_in_order()
    ensures each { (parts : Parts) (cut : CutName) → IsScenario parts
        → Any (λ other. other ≡ cut) (whole_cuts parts)
        ↔ ((is_cut parts cut ≡ true) × IsWhole parts cut) }
    ensures order { (parts : Parts) → AllPairs IsBefore (whole_cuts parts) }
{}
