//! The command `plan` with `--cert`.
ghost use Rattle.std.specs.Prelude.{◌≡◌, ◌∷◌, [], IfOk};
ghost use Rattle.flow_outside.specs.Seen.{AreKept};
ghost use Rattle.flow_types.specs.Scenario.{parts_of};
ghost use Rattle.flow_cli.specs.Answers.{IfAnswered, IfEarly, OnNoMemory, work_status};
ghost use Rattle.flow_cli.specs.Certifying.{AreOthersKept, IsAfterStore, IsMade, IsOfCertified, IsOfText, IsTooLongDay};
ghost use Rattle.flow_cli.specs.Faults.{too_long_text};
ghost use Rattle.flow_cli.specs.Outside.{change, printed_by};
ghost use Rattle.flow_cli.specs.Reading.{IsQuiet};
ghost use Rattle.command_words.specs.Words.{IsNodeCount};

use crate::answer::{Answer, EarlyEnd};
use crate::faults::too_long_line;
use crate::own_certificate::certificate_of;
use crate::planning::{answer_of, search_day};
use crate::reading::signed_day_of;
use crate::status::Status;
use certificate::{Digest, MOST_CERT_BYTES, cert_length, cert_text};
use flow_outside::{Files, StoreFault};
use flow_types::{OutOfMemory, Scenario};
use std::alloc::Global;
use tree_search::{Budget, Found};

/// An answer, and the certificate that is to be stored before it is printed.
#[derive(Drop)]
pub struct Certified {
    pub answer: Answer,
    pub text: Vec<u8>,
}

/// The answer where the day of the first name is to be planned, by a search that may spend so much,
/// and a certificate of it to be stored under the second name.
pub fn certify_named<F: Files>(
    alloc: Global,
    files: &mut F,
    name: &str,
    budget: Budget,
    cert: &str,
) -> Result<Answer, EarlyEnd>
    requires nodes { IsNodeCount budget.nodes }
    ensures answered { IfAnswered result
        (IsOfCertified (change (F.seen files.old) (F.seen files.new)) name.now cert.now budget) }
    ensures quiet { IsQuiet (change (F.seen files.old) (F.seen files.new)) (work_status result) }
    ensures kept { AreOthersKept (F.seen files.old) (F.seen files.new) cert.now }
    ensures lost { OnNoMemory result (AreKept (F.seen files.old) (F.seen files.new)) }
{
    let day = signed_day_of(alloc, files, name)?;
    let certified = certified_day(alloc, &day.s, day.digest.copy(), budget)?;
    store(alloc, files, cert, certified)
}

// The answer to a day and the certificate of its record, or that this is too long.
fn certified_day(
    alloc: Global,
    s: &Scenario,
    digest: Digest,
    budget: Budget,
) -> Result<Certified, EarlyEnd>
    requires nodes { IsNodeCount budget.nodes }
    requires signed { IsOfText digest }
    ensures made { IfOk result (IsMade (parts_of s.now) digest budget) }
    ensures long { IfEarly result (IsTooLongDay (parts_of s.now) digest budget) }
{
    let found = search_day(alloc, s, budget)?;
    let certificate = certificate_of(digest, &found);
    let size = cert_length(s, &certificate);
    if size > MOST_CERT_BYTES {
        return Err(EarlyEnd::Answered(too_long(alloc, size, found)?));
    }
    let text = cert_text(alloc, s, &certificate)?;
    let answer = answer_of(alloc, s, found)?;
    Ok(Certified { answer, text })
}

// The answer where the certificate of a record has too many bytes.
fn too_long(alloc: Global, size: u64, found: Found) -> Result<Answer, OutOfMemory>
    ensures { IfOk result (λ answer. printed_by answer
        ≡ record { text = too_long_text size; status = Status.TooLong; records = found ∷ [] }) }
{
    let line = too_long_line(alloc, size)?;
    Answer::of_record(alloc, line, Status::TooLong, found)
}

// Stores the certificate, and gives the answer.
fn store<F: Files>(
    alloc: Global,
    files: &mut F,
    cert: &str,
    certified: Certified,
) -> Result<Answer, EarlyEnd>
    ensures stored { IfAnswered result (IsAfterStore
        (change (F.seen files.old) (F.seen files.new)) cert.now certified.text.items
        (printed_by certified.answer)) }
    ensures kept { AreOthersKept (F.seen files.old) (F.seen files.new) cert.now }
    ensures lost { OnNoMemory result (AreKept (F.seen files.old) (F.seen files.new)) }
    ensures faults { (F.seen files.new).faults ≡ (F.seen files.old).faults }
{
    match files.store(cert, &certified.text) {
        Ok(()) => Ok(certified.answer),
        Err(StoreFault::Failed) => Ok(Answer::fixed(alloc, b"fault,write\n", Status::WriteFault)),
        Err(StoreFault::OutOfMemory) => Err(EarlyEnd::OutOfMemory),
    }
}
