//! Pools of cuts.
ghost use Rattle.std.specs.Prelude.{◌≡◌, ◌<◌, ◌^◌, [], IfOk, length};
ghost use Rattle.cut_rows.specs.Pools.{cut_names};

use crate::names::CutName;
use crate::order::is_before;
use bytime_model::{RowName, RowNames};
use flow_types::{OutOfMemory, Sequence};
use std::alloc::Global;
use std::marker::Model;

/// A list of cuts.
pub type Cuts = Sequence<CutName>;

/// The cuts that a leaf may name, by their positions. They stand in their order, so none is there
/// twice. Contracts see it as the list.
#[derive(Debug, Drop)]
pub struct Pool {
    cuts: Cuts,
}

impl Model for Pool {
    ghost use Rattle.std.specs.Prelude.{AllPairs, List};
    ghost use Rattle.cut_rows.specs.declared.names.CutName.{CutName};
    ghost use Rattle.cut_rows.specs.Order.{IsBefore};

    ghost Value = { List CutName };

    ghost view = { λ p. p.cuts };

    ghost invariant = { λ p. AllPairs IsBefore p.cuts };
}

impl Pool {
    ghost use Rattle.std.specs.Prelude.{◌≡◌, ◌++◌, ◌∷◌, [], All, AllPairs, OnErr, OnOk, true};
    ghost use Rattle.cut_rows.specs.Order.{IsBefore, follows};

    /// No cuts. It takes no memory.
    #[tactic(auto, using(crate::proofs::PoolFacts::none_ascend))]
    pub fn empty(alloc: Global) -> Pool
        ensures { result ≡ [] }
    {
        Pool {
            cuts: Sequence::empty(alloc),
        }
    }

    /// The pool of these cuts, which are in their order. It takes no memory.
    pub fn in_order(cuts: Cuts) -> Pool
        requires { AllPairs IsBefore cuts }
        ensures { result ≡ cuts }
    {
        Pool { cuts }
    }

    /// Adds a cut, which comes after all that are there. It takes 40 bytes, or up to twice that,
    /// since the list grows. For want of memory the pool stays as it was.
    #[tactic(auto, using(crate::proofs::PoolFacts::one_more))]
    pub fn add(&mut self, cut: CutName) -> Result<(), OutOfMemory>
        requires { All (λ earlier. IsBefore earlier cut) self.old }
        ensures ok { OnOk result (self.new ≡ self.old ++ cut ∷ []) }
        ensures err { OnErr result (self.new ≡ self.old) }
    {
        self.cuts.add(cut)
    }

    /// Whether the cut comes after all that are there. It takes no memory.
    #[tactic(auto, using(crate::proofs::PoolFacts::all_before))]
    pub fn precedes(&self, cut: &CutName) -> bool
        ensures told { result ≡ follows self.now cut.now }
        ensures all { result ≡ true → All (λ earlier. IsBefore earlier cut.now) self.now }
    {
        match self.cuts.items().last() {
            None => true,
            Some(last) => is_before(last, cut),
        }
    }

    /// The cuts, first to last.
    pub fn items(&self) -> &[CutName]
        ensures items { result.now ≡ self.now }
        ensures order { AllPairs IsBefore self.now }
    {
        self.cuts.items()
    }
}

/// The names of the pool's rows: the positions of its cuts. It takes 12 bytes a cut, or up to twice
/// that, since the list grows.
#[tactic(auto, using(exact_sums::proofs::LoopFacts::numbers_none, exact_sums::proofs::LoopFacts::numbers_mapped))]
pub fn cut_names(alloc: Global, pool: &Pool) -> Result<RowNames, OutOfMemory>
    requires few { length pool.now < 2 ^ 32 }
    ensures { IfOk result (λ names. names ≡ cut_names pool.now) }
{
    let mut names = RowNames::empty(alloc);
    for index in 0..pool.items().len() {
        names.add(RowName::Cut {
            index: index as u32,
        })?;
    }
    Ok(names)
}
