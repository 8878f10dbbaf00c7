//! What the texts of certificates mean.
ghost use Rattle.std.specs.Prelude.{◌≡◌, ◌++◌, ◌∷◌, ℕ, List, Option, [], length};
ghost use Rattle.flow_outside.specs.Held.{Held};
ghost use Rattle.flow_types.specs.declared.parts.Parts.{Parts};
ghost use Rattle.flow_types.specs.Valid.{IsScenario};
ghost use Rattle.certificate.specs.declared.item.CertItem.{CertItem};
ghost use Rattle.certificate.specs.declared.stage.Stage.TheVariants as stages;
ghost use Rattle.certificate.specs.ItemLines.{cert_items};
ghost use Rattle.certificate.specs.Reading.{read_from, read_whole, with_item};
ghost use Rattle.certificate.specs.Readers.{IsItemRead, ReaderSeen};
ghost use Rattle.certificate.specs.Texts.{Certified, cert_text};
ghost use Rattle.certificate.specs.Writable.{IsWritable};

/// The text of a certificate is read as what it tells: for a valid scenario, a tree whose leaves'
/// rows ascend, and numbers and lists of nodes within the limits, its lines tell the digest, the
/// cuts of the pool, the nodes of the tree with their rows, the plan's cost and trips, the bound
/// and the count, and it has no fault.
pub fn texts_are_read()
    ensures { (parts : Parts) (cert : Certified) → IsScenario parts → IsWritable parts cert
        → read_from parts stages.Head (cert_text parts cert)
        ≡ read_whole (cert_items parts cert) }
{}

/// A certificate has one text, and no text of one begins that of another: for a valid scenario,
/// trees whose leaves' rows ascend, and numbers and lists of nodes within the limits.
pub fn texts_are_one()
    ensures { (parts : Parts) (first second : Certified) (more : List ℕ) → IsScenario parts
        → IsWritable parts first → IsWritable parts second
        → cert_text parts first ++ more ≡ cert_text parts second
        → (first ≡ second) × (more ≡ []) }
{}

/// What a reader answers is the first item of the text that was left, whatever follows the line
/// that was taken: so its answers, one after the other, are the items of the text.
pub fn answers_are_the_items()
    ensures { (parts : Parts) (held : Option Held) (old new : ReaderSeen) (item : CertItem)
        → (read : IsItemRead parts held old item new) → (more : List ℕ)
        → read_from parts old.stage (read.taken.line ++ 10 ∷ more)
        ≡ with_item item (read_from parts new.stage more) }
{}
