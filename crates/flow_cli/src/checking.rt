//! The commands `check` and `explain`.
ghost use Rattle.std.specs.Prelude.{◌≡◌, [], IfOk, IfSome};
ghost use Rattle.flow_outside.specs.Seen.{AreKept};
ghost use Rattle.flow_types.specs.Feasible.{IsFeasible};
ghost use Rattle.flow_types.specs.Scenario.{parts_of};
ghost use Rattle.time_windows.specs.Boxes.{root_box};
ghost use Rattle.cert_checker.specs.Claims.{IsTrueClaim};
ghost use Rattle.flow_cli.specs.Answers.{IfAnswered, work_status};
ghost use Rattle.flow_cli.specs.Checking.{IsOfCert, IsOfCheck, IsShown, claimed_by};
ghost use Rattle.flow_cli.specs.Outside.{change, printed_by};
ghost use Rattle.flow_cli.specs.Reading.{IsQuiet};

use crate::answer::{Answer, EarlyEnd};
use crate::faults::too_long_line;
use crate::reading::{read_fault, signed_day_of};
use crate::status::Status;
use cert_checker::{CertClaim, CheckFault, check};
use certificate::Digest;
use command_words::View;
use delay_report::{Claim, claim_report, explain_report, refused_line};
use flow_outside::Files;
use flow_types::{OutOfMemory, Scenario};
use std::alloc::Global;

/// The answer where the certificate of the second name is to be checked by the day of the first,
/// which is read first, and its claim shown: a refused certificate is answered with its first fault,
/// and so is a day that can't be read. It takes memory for the day, for what is checked, and for the
/// text.
pub fn check_named<F: Files>(
    alloc: Global,
    files: &mut F,
    name: &str,
    cert: &str,
    view: View,
) -> Result<Answer, EarlyEnd>
    ensures answered { IfAnswered result
        (IsOfCheck (change (F.seen files.old) (F.seen files.new)) name.now cert.now view) }
    ensures quiet { IsQuiet (change (F.seen files.old) (F.seen files.new)) (work_status result) }
    ensures kept { AreKept (F.seen files.old) (F.seen files.new) }
{
    let day = signed_day_of(alloc, files, name)?;
    check_of(alloc, &day.s, &day.digest, files, cert, view)
}

// The answer where the certificate of a name is to be checked by the day that was read.
fn check_of<F: Files>(
    alloc: Global,
    s: &Scenario,
    digest: &Digest,
    files: &mut F,
    name: &str,
    view: View,
) -> Result<Answer, EarlyEnd>
    ensures answered { IfAnswered result (IsOfCert (change (F.seen files.old) (F.seen files.new))
        (parts_of s.now) digest.now name.now view) }
    ensures quiet { IsQuiet (change (F.seen files.old) (F.seen files.new)) (work_status result) }
    ensures kept { AreKept (F.seen files.old) (F.seen files.new) }
{
    match check(alloc, s, digest, files, name) {
        Ok(claim) => Ok(claimed(alloc, s, &claim, view)?),
        Err(CheckFault::Refused(fault)) => Ok(Answer::of(
            alloc,
            refused_line(alloc, s, &fault)?,
            Status::BadCertificate,
        )),
        Err(CheckFault::Read) => Ok(read_fault(alloc)),
        Err(CheckFault::TooLong(size)) => Ok(Answer::of(
            alloc,
            too_long_line(alloc, size)?,
            Status::TooLong,
        )),
        Err(CheckFault::OutOfMemory) => Err(EarlyEnd::OutOfMemory),
    }
}

// The answer that shows a claim.
fn claimed(
    alloc: Global,
    s: &Scenario,
    claim: &CertClaim,
    view: View,
) -> Result<Answer, OutOfMemory>
    requires holds { IsTrueClaim (parts_of s.now) (root_box (parts_of s.now)) claim.now }
    ensures shown { IfOk result
        (λ answer. IsShown (parts_of s.now) view (claimed_by claim.now) (printed_by answer).text) }
    ensures ends { IfOk result (λ answer. (printed_by answer).status ≡ Status.Done) }
    ensures no_record { IfOk result (λ answer. (printed_by answer).records ≡ []) }
{
    let told = Claim::of(s, claim.plan.as_ref(), claim.bound, claim.nodes);
    Ok(Answer::of(alloc, shown(alloc, s, &told, view)?, Status::Done))
}

// The text that shows a claim.
fn shown(alloc: Global, s: &Scenario, claim: &Claim<'_>, view: View) -> Result<Vec<u8>, OutOfMemory>
    requires { IfSome claim.now.plan (IsFeasible (parts_of s.now)) }
    ensures { IfOk result (λ text. IsShown (parts_of s.now) view claim.now text.items) }
{
    match view {
        View::Claim => claim_report(alloc, claim),
        View::Delays => explain_report(alloc, s, claim),
    }
}
