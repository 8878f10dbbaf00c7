//! Adding terms to the sums.
ghost use Rattle.std.specs.Prelude.{◌≡◌, ◌≤◌, ◌<◌, ◌+◌, ◌*◌, ◌^◌, All, length, pos, unsigned_abs, ◌*ℤ◌};
ghost use Rattle.cut_rows.specs.Relaxations.{parts_under};
ghost use Rattle.bytime_model.specs.Values.{form_value};
ghost use Rattle.bytime_model.specs.Columns.{IsThere};
ghost use Rattle.dual_sums.specs.Growing.{Grows, choice_under};
ghost use Rattle.dual_sums.specs.Sums.{mass};

use crate::sums::Sums;
use bytime_model::{Term, Var, landing_of};
use cut_rows::Relaxation;
use time_windows::Subproblem;

/// Adds so many times the variable.
#[tactic(auto, using(crate::proofs::GrowFacts::lands, cut_rows::proofs::RelaxationFacts::ready_under))]
pub fn add_variable(sums: &mut Sums, relaxation: Relaxation<'_>, variable: Var, more: i128)
    requires there { IsThere (parts_under relaxation).flights variable }
    requires positions { length sums.old.factors ≡ relaxation.table.now.columns.count }
    requires room { mass sums.old + unsigned_abs more < 2 ^ 126 }
    ensures { Grows (choice_under relaxation.entry)
        (λ value. more *ℤ pos (value variable)) (unsigned_abs more) sums.old sums.new }
{
    let Subproblem { s, boxes } = relaxation.problem;
    let columns = &relaxation.table.columns;
    sums.land(landing_of(columns, s, boxes, variable), more);
}

// So many times the factor.
fn times(count: u64, term: Term) -> i128
    requires count { count < 2 ^ 62 }
    requires small { unsigned_abs term.factor ≤ 1 }
    ensures product { result ≡ pos count *ℤ term.factor }
    ensures small { unsigned_abs result < 2 ^ 62 }
{
    i128::from(count) * i128::from(term.factor)
}

// Adds the term so many times.
fn add_term(sums: &mut Sums, relaxation: Relaxation<'_>, term: Term, count: u64)
    requires there { IsThere (parts_under relaxation).flights term.variable }
    requires positions { length sums.old.factors ≡ relaxation.table.now.columns.count }
    requires count { count < 2 ^ 62 }
    requires small { unsigned_abs term.factor ≤ 1 }
    requires room { mass sums.old + 2 ^ 62 < 2 ^ 126 }
    ensures { Grows (choice_under relaxation.entry)
        (λ value. pos count *ℤ (term.factor *ℤ pos (value term.variable))) (2 ^ 62) sums.old
        sums.new }
{
    let more = times(count, term);
    add_variable(sums, relaxation, term.variable, more);
}

/// Adds the terms so many times.
#[tactic(auto, using(crate::proofs::GrowFacts::terms_none, crate::proofs::GrowFacts::terms_all))]
pub fn add_terms(sums: &mut Sums, relaxation: Relaxation<'_>, terms: &[Term], count: u64)
    requires there { All (λ term. IsThere (parts_under relaxation).flights term.variable)
        terms.now }
    requires positions { length sums.old.factors ≡ relaxation.table.now.columns.count }
    requires count { count < 2 ^ 62 }
    requires small { All (λ term. unsigned_abs term.factor ≤ 1) terms.now }
    requires room { mass sums.old + length terms.now * 2 ^ 62 < 2 ^ 126 }
    ensures { Grows (choice_under relaxation.entry)
        (λ value. pos count *ℤ form_value value terms.now) (length terms.now * 2 ^ 62) sums.old
        sums.new }
{
    for term in terms {
        add_term(sums, relaxation, *term, count);
    }
}
