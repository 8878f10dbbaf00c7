//! What the texts that are printed mean.
ghost use Rattle.std.specs.Prelude.{ℕ, ◌≡◌, ◌<◌, ◌^◌, List, Ok, Option, Some, IfSome, option_map};
ghost use Rattle.flow_types.specs.declared.bound.Bound.{Bound};
ghost use Rattle.flow_types.specs.declared.parts.Parts.{Parts};
ghost use Rattle.flow_types.specs.declared.plan.Stop.{Stop};
ghost use Rattle.flow_types.specs.Costs.{plan_cost};
ghost use Rattle.flow_types.specs.Feasible.{IsFeasible};
ghost use Rattle.flow_types.specs.Valid.{IsScenario};
ghost use Rattle.plan_text.specs.Plans.{plan_of};
ghost use Rattle.delay_report.specs.Texts.{IsShort, IsShortBound, report_text};

/// The report of a plan is a text of that plan: for a valid scenario and a plan that keeps
/// every rule, it is read as this plan, whatever bound and number of nodes it claims.
pub fn reports_are_read_as_their_plans()
    ensures { (parts : Parts) (plan : List (List Stop)) (bound : Bound) (nodes : ℕ)
        → IsScenario parts → IsFeasible parts plan
        → plan_of parts (report_text parts (Some plan) bound nodes) ≡ Ok plan }
{}

/// Two reports with the same bytes, of plans of one scenario, tell the same cost, the same bound
/// and the same number of nodes.
pub fn reports_tell_their_claims()
    ensures cost { (parts : Parts) (plan other : Option (List (List Stop)))
        (bound other_bound : Bound) (nodes other_nodes : ℕ) → IsScenario parts
        → IfSome plan (IsFeasible parts) → IfSome other (IsFeasible parts)
        → report_text parts plan bound nodes ≡ report_text parts other other_bound other_nodes
        → IfSome (option_map (plan_cost parts.tables parts.flights) plan) IsShort
        → IfSome (option_map (plan_cost parts.tables parts.flights) other) IsShort
        → option_map (plan_cost parts.tables parts.flights) plan
        ≡ option_map (plan_cost parts.tables parts.flights) other }
    ensures bound { (parts : Parts) (plan other : Option (List (List Stop)))
        (bound other_bound : Bound) (nodes other_nodes : ℕ) → IsScenario parts
        → IfSome plan (IsFeasible parts) → IfSome other (IsFeasible parts)
        → report_text parts plan bound nodes ≡ report_text parts other other_bound other_nodes
        → IsShortBound bound → IsShortBound other_bound → bound ≡ other_bound }
    ensures nodes { (parts : Parts) (plan other : Option (List (List Stop)))
        (bound other_bound : Bound) (nodes other_nodes : ℕ) → IsScenario parts
        → IfSome plan (IsFeasible parts) → IfSome other (IsFeasible parts)
        → report_text parts plan bound nodes ≡ report_text parts other other_bound other_nodes
        → nodes < 2 ^ 64 → other_nodes < 2 ^ 64 → nodes ≡ other_nodes }
{}
