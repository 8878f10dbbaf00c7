//! The certificate of a search's record, and what it is worth.
ghost use Rattle.std.specs.Prelude.{◌≡◌, ◌<◌, ◌≤◌, ◌^◌, ℕ, List, Ok, Option, Some, length};
ghost use Rattle.sha2.specs.Sha256.{sha256};
ghost use Rattle.flow_outside.specs.Held.{Held, bytes_told};
ghost use Rattle.flow_types.specs.declared.parts.Parts.{Parts};
ghost use Rattle.flow_types.specs.Valid.{IsScenario};
ghost use Rattle.time_windows.specs.Boxes.{Box, IsBoxOf};
ghost use Rattle.certificate.specs.Texts.{cert_text};
ghost use Rattle.certificate.specs.Writable.{IsWritable};
ghost use Rattle.cert_checker.specs.Accepted.{claim_of};
ghost use Rattle.cert_checker.specs.Checks.{IsChecked};
ghost use Rattle.cert_checker.specs.Verdicts.{IsVerdict, Verdict};
ghost use Rattle.flow_cli.specs.Own.{certified, most_bytes_of};
ghost use Rattle.tree_search.specs.declared.found.Budget.{Budget};
ghost use Rattle.tree_search.specs.declared.found.Found.{Found};
ghost use Rattle.tree_search.specs.Records.{IsSearchRecord};

use certificate::{Certificate, Digest};
use tree_search::Found;

/// The certificate of a search's record: its cuts, its tree, its last plan, if there is one, and
/// its bound. It borrows these, and takes no memory. The digest is that of the day's text.
pub fn certificate_of<'a>(digest: Digest, found: &'a Found) -> Certificate<'a>
    ensures certified { result ≡ certified digest found.now }
{
    let plan = found.plans.items().last();
    Certificate::new(digest, &found.pool, &found.tree, plan, found.bound)
}

/// The certificate of a search's record, on a root within the root box of the scenario and by at
/// most 2^32 - 1 nodes, has numbers within the limits of lines (`writable`), and no more bytes than
/// so many nodes may have (`short`). The verdict on its text is its claim (`accepted`), and there
/// is no other verdict on it (`alone`): so a check of files that tell that they hold it answers
/// the claim (`checked`).
pub fn own_certificates_are_accepted()
    ensures writable { (parts : Parts) (root : Box) (budget : Budget) (found : Found)
        (day : List ℕ) → IsScenario parts → IsBoxOf parts root → budget.nodes < 2 ^ 32
        → IsSearchRecord parts root budget found
        → IsWritable parts (certified (sha256 day) found) }
    ensures accepted { (parts : Parts) (root : Box) (budget : Budget) (found : Found)
        (day : List ℕ) → IsScenario parts → IsBoxOf parts root → budget.nodes < 2 ^ 32
        → IsSearchRecord parts root budget found
        → IsVerdict parts root (sha256 day) (cert_text parts (certified (sha256 day) found))
        (Ok (claim_of parts (certified (sha256 day) found))) }
    ensures short { (parts : Parts) (root : Box) (budget : Budget) (found : Found)
        (day : List ℕ) → IsScenario parts → IsBoxOf parts root → budget.nodes < 2 ^ 32
        → IsSearchRecord parts root budget found
        → length (cert_text parts (certified (sha256 day) found))
        ≤ most_bytes_of parts budget.nodes }
    ensures alone { (parts : Parts) (root : Box) (budget : Budget) (found : Found)
        (day : List ℕ) (verdict : Verdict) → IsScenario parts → IsBoxOf parts root
        → budget.nodes < 2 ^ 32 → IsSearchRecord parts root budget found
        → IsVerdict parts root (sha256 day) (cert_text parts (certified (sha256 day) found))
        verdict
        → verdict ≡ Ok (claim_of parts (certified (sha256 day) found)) }
    ensures checked { (parts : Parts) (root : Box) (budget : Budget) (found : Found)
        (day name : List ℕ) (held : Option Held) (verdict : Verdict) → IsScenario parts
        → IsBoxOf parts root → budget.nodes < 2 ^ 32 → IsSearchRecord parts root budget found
        → bytes_told held name ≡ Some (cert_text parts (certified (sha256 day) found))
        → IsChecked parts root (sha256 day) held name verdict
        → verdict ≡ Ok (claim_of parts (certified (sha256 day) found)) }
{}
