//! What a certificate says.

use crate::digest::Digest;
use branch_tree::Tree;
use cut_rows::Pool;
use flow_types::{Bound, Plan};
use std::marker::Model;

/// What a certificate says of a day: the digest of the day's text, the pool of cuts, the tree by
/// which the bound was found, a plan, if one was found, and the bound. Contracts see these.
#[derive(Drop)]
pub struct Certificate<'a> {
    pub(crate) digest: Digest,
    pub(crate) pool: &'a Pool,
    pub(crate) tree: &'a Tree,
    pub(crate) plan: Option<&'a Plan>,
    pub(crate) bound: Bound,
}

impl<'a> Model for Certificate<'a> {
    ghost use Rattle.std.specs.Option.{option_copied};
    ghost use Rattle.certificate.specs.Texts.{Certified};

    ghost Value = { Certified };

    ghost view = { λ c. record {
      digest = c.digest;
      pool = c.pool.now;
      tree = c.tree.now;
      plan = option_copied c.plan;
      bound = c.bound;
    } };
}

impl<'a> Certificate<'a> {
    ghost use Rattle.std.specs.Prelude.{◌≡◌};
    ghost use Rattle.std.specs.Option.{option_copied};

    /// The certificate of these. It takes no memory.
    pub fn new(
        digest: Digest,
        pool: &'a Pool,
        tree: &'a Tree,
        plan: Option<&'a Plan>,
        bound: Bound,
    ) -> Self
        ensures { result ≡ record {
          digest = digest;
          pool = pool.now;
          tree = tree.now;
          plan = option_copied plan.entry;
          bound = bound;
        } }
    {
        Certificate {
            digest,
            pool,
            tree,
            plan,
            bound,
        }
    }
}
