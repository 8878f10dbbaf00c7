//! What it means that a certificate is accepted, and which ones are.
ghost use Rattle.std.specs.Prelude.{◌≡◌, ℕ, List, Ok};
ghost use Rattle.flow_types.specs.declared.parts.Parts.{Parts};
ghost use Rattle.flow_types.specs.Valid.{IsScenario};
ghost use Rattle.time_windows.specs.Boxes.{Box, IsBoxOf};
ghost use Rattle.certificate.specs.Texts.{Certified, cert_text};
ghost use Rattle.certificate.specs.Writable.{IsWritable};
ghost use Rattle.cert_checker.specs.declared.claim.CertClaim.{CertClaim};
ghost use Rattle.cert_checker.specs.Accepted.{IsLawfulCertificate, claim_of};
ghost use Rattle.cert_checker.specs.Claims.{IsTrueClaim};
ghost use Rattle.cert_checker.specs.Verdicts.{IsVerdict, Verdict};

/// Where the verdict on a text is a claim, it holds, whoever wrote the text: no plan in the first
/// box that keeps every rule costs less than the bound, and where that is `NoPlan` there is none; a
/// plan that is claimed keeps every rule, is in the first box, and costs what is claimed.
pub fn accepted_claims_hold()
    ensures { (parts : Parts) (root : Box) (digest text : List ℕ) (claim : CertClaim)
        → IsScenario parts → IsBoxOf parts root → IsVerdict parts root digest text (Ok claim)
        → IsTrueClaim parts root claim }
{}

/// A text has one verdict at most: so what `check` answers, a claim or a fault, is the verdict on
/// the text.
pub fn verdicts_are_one()
    ensures { (parts : Parts) (root : Box) (digest text : List ℕ) (first second : Verdict)
        → IsScenario parts → IsVerdict parts root digest text first
        → IsVerdict parts root digest text second → first ≡ second }
{}

/// A certificate of a lawful tree is accepted: for a valid scenario, with cuts of it in order,
/// which the leaves may name, the tree's bound, no plan or one in the first box that keeps every
/// rule, and numbers within the limits of lines, the verdict on its text is its claim.
pub fn lawful_certificates_are_accepted()
    ensures { (parts : Parts) (root : Box) (cert : Certified) → IsScenario parts
        → IsBoxOf parts root → IsWritable parts cert → IsLawfulCertificate parts root cert
        → IsVerdict parts root cert.digest (cert_text parts cert) (Ok (claim_of parts cert)) }
{}
