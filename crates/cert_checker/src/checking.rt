//! The check of a certificate.
ghost use Rattle.std.specs.Prelude.{◌≡◌, ◌<◌, Err, IfOk, Ok, length};
ghost use Rattle.flow_outside.specs.Counts.{Rose};
ghost use Rattle.flow_outside.specs.Held.{HasName, IfTold};
ghost use Rattle.flow_outside.specs.Seen.{AreKept};
ghost use Rattle.flow_types.specs.Scenario.{parts_of};
ghost use Rattle.time_windows.specs.Boxes.{root_box};
ghost use Rattle.time_windows.specs.Held.{IsMadeFor, box_of};
ghost use Rattle.certificate.specs.Limits.{most_cert_bytes};
ghost use Rattle.cert_checker.specs.Checks.{AreRoomsFor, HasCome, IfRefused, IfTooLong, IsChecked, IsStanding, IsStarted, OnReadFault, UnlessReadFault, WhereFound, check_fault, load_fault, refusal_fault};
ghost use Rattle.cert_checker.specs.Claims.{IsTrueClaim};
ghost use Rattle.cert_checker.specs.Fronts.{front_of};
ghost use Rattle.cert_checker.specs.Verdicts.{claim_at};
ghost use Rattle.cert_checker.specs.declared.fault.CheckFault.TheVariants as check;

use crate::claim::CertClaim;
use crate::fault::{CertCause, CertFault, CheckFault, StepError, StepFault, bad_kind};
use crate::given::Given;
use crate::progress::{Progress, Told};
use crate::rooms::{Rooms, rooms_for};
use crate::standing::Standing;
use crate::steps::step;
use branch_tree::Walk;
use certificate::{CertReader, CertRefusal, Digest, TextFault};
use flow_outside::{Files, LoadFault};
use flow_types::{OutOfMemory, Scenario};
use std::alloc::Global;
use time_windows::Boxes;

impl From<LoadFault> for CheckFault {
    ghost from_gives = { λ fault e. e ≡ load_fault fault };

    fn from(fault: LoadFault) -> Self {
        match fault {
            LoadFault::Read => CheckFault::Read,
            LoadFault::TooLong(size) => CheckFault::TooLong(size),
            LoadFault::OutOfMemory => CheckFault::OutOfMemory,
        }
    }
}

impl From<OutOfMemory> for CheckFault {
    ghost from_gives = { λ _ e. e ≡ check.OutOfMemory };

    fn from(_: OutOfMemory) -> Self {
        CheckFault::OutOfMemory
    }
}

impl From<CertRefusal> for CheckFault {
    ghost from_gives = { λ refusal e. e ≡ refusal_fault refusal };

    fn from(refusal: CertRefusal) -> Self {
        match refusal {
            CertRefusal::Text(TextFault { line, field, cause }) => {
                let cause = CertCause::Text(cause);
                CheckFault::Refused(CertFault { line, field, cause })
            }
            CertRefusal::Read => CheckFault::Read,
            CertRefusal::OutOfMemory => CheckFault::OutOfMemory,
        }
    }
}

// The fault of a step, told of the line of this number.
fn in_line(line: u32, error: StepError) -> CheckFault
    ensures { result ≡ check_fault line error }
{
    match error {
        StepError::OutOfMemory => CheckFault::OutOfMemory,
        StepError::Fault(StepFault { field, cause }) => {
            CheckFault::Refused(CertFault { line, field, cause })
        }
    }
}

// Where a check begins: at the tight first box, with nothing told yet.
fn start(alloc: Global, s: &Scenario, root: &Boxes) -> Result<Standing, OutOfMemory>
    requires { IsMadeFor (parts_of s.now) root.now }
    ensures { IfOk result (IsStarted (parts_of s.now) (box_of root.now)) }
{
    let mut first = root.copy(alloc)?;
    let _ = first.tighten(s);
    Ok(Standing {
        walk: Some(Walk::new(alloc, first)?),
        leaf: None,
        progress: Progress::begun(alloc),
    })
}

// What was claimed, where all of it was told.
fn claim_of(now: Standing) -> Result<CertClaim, StepFault>
    ensures { result ≡ claim_at (front_of now.walk now.leaf).present now.progress }
{
    let Standing { walk, progress, .. } = now;
    let Progress {
        pool: _,
        bound,
        nodes,
        told,
    } = progress;
    if walk.is_some() {
        return Err(bad_kind());
    }
    match told {
        Told::NoPlan => Ok(CertClaim {
            plan: None,
            cost: None,
            bound,
            nodes,
        }),
        Told::Whole { cost, plan } => Ok(CertClaim {
            plan: Some(plan),
            cost: Some(cost),
            bound,
            nodes,
        }),
        Told::Nothing | Told::Trips { .. } => Err(bad_kind()),
    }
}

// Takes the steps of the items that are left, to the end of the text.
fn read_on<F: Files>(
    files: &mut F,
    given: Given,
    reader: &mut CertReader,
    rooms: &mut Rooms,
    begun: Standing,
) -> Result<CertClaim, CheckFault>
    requires rooms { AreRoomsFor (parts_of given.s.now) rooms.old }
    requires standing { IsStanding (parts_of given.s.now) begun }
    requires nodes { begun.progress.nodes < reader.old.number }
    requires come { HasCome (parts_of given.s.now) (box_of given.root.now) given.digest.now
        (F.seen files.old).held reader.old.pieces.name reader.old begun }
    ensures ok { IfOk result (λ claim. IsChecked (parts_of given.entry.s.now)
        (box_of given.entry.root.now) given.entry.digest.now (F.seen files.old).held
        reader.old.pieces.name (Ok claim)) }
    ensures refused { IfRefused result (λ fault. IsChecked (parts_of given.entry.s.now)
        (box_of given.entry.root.now) given.entry.digest.now (F.seen files.old).held
        reader.old.pieces.name (Err fault)) }
    ensures short { IfTooLong result (λ size. ⊥) }
    ensures read { OnReadFault result (HasName (F.seen files.old).held reader.old.pieces.name
        → Rose (F.seen files.old).faults (F.seen files.new).faults) }
    ensures unfailed { UnlessReadFault result
        ((F.seen files.new).faults ≡ (F.seen files.old).faults) }
    ensures kept { AreKept (F.seen files.old) (F.seen files.new) }
{
    let mut now = begun;
    loop {
        let line = reader.line();
        let Some(item) = reader.next(files, given.s, &rooms.leaves.table().routes)? else {
            return match claim_of(now) {
                Ok(claim) => Ok(claim),
                Err(fault) => Err(in_line(line, StepError::Fault(fault))),
            };
        };
        if let Err(error) = step(rooms, given, &mut now, item) {
            return Err(in_line(line, error));
        }
    }
}

/// Checks the certificate that the name holds, of the plans in the first box, which lies within the
/// root box of the scenario. Where it is accepted its claim holds, whoever wrote it: no plan in the
/// first box that keeps every rule costs less than the bound; and a plan that is claimed keeps
/// every rule, costs the claimed cost, and is in the first box.
///
/// `Refused` has the first fault of the text. It and the claim are the verdict on a text of at most
/// 1 GiB, which is what the name holds, where the files tell that. `Read` comes only where the
/// files' count of faults rose in this call or stands at its last value, or the files tell that
/// they don't have the name; `TooLong` where the name holds more than 1 GiB, and says how many
/// bytes. After any other answer than `Read` the count stays. It takes memory for the room of
/// leaves (`LeafWork`), loads, the first box and the changes on the path down from it, a piece and
/// a line of the text, the rows of a leaf, the plan, and the cuts, which alone grow with the text.
pub fn check_from<F: Files>(
    alloc: Global,
    s: &Scenario,
    root: &Boxes,
    digest: &Digest,
    files: &mut F,
    name: &str,
) -> Result<CertClaim, CheckFault>
    requires { IsMadeFor (parts_of s.now) root.now }
    ensures ok { IfOk result (λ claim. IsChecked (parts_of s.now) (box_of root.now) digest.now
        (F.seen files.old).held name.now (Ok claim)) }
    ensures refused { IfRefused result (λ fault. IsChecked (parts_of s.now) (box_of root.now)
        digest.now (F.seen files.old).held name.now (Err fault)) }
    ensures holds { IfOk result (IsTrueClaim (parts_of s.now) (box_of root.now)) }
    ensures present { WhereFound result (HasName (F.seen files.old).held name.now) }
    ensures above { IfTooLong result (λ size. most_cert_bytes < size) }
    ensures size { IfTooLong result (λ size.
        IfTold (F.seen files.old).held name.now (λ bytes. size ≡ length bytes)) }
    ensures read { OnReadFault result (HasName (F.seen files.old).held name.now
        → Rose (F.seen files.old).faults (F.seen files.new).faults) }
    ensures unfailed { UnlessReadFault result
        ((F.seen files.new).faults ≡ (F.seen files.old).faults) }
    ensures kept { AreKept (F.seen files.old) (F.seen files.new) }
{
    let mut reader = CertReader::new(alloc, files, name)?;
    let mut rooms = rooms_for(alloc, s)?;
    let begun = start(alloc, s, root)?;
    let given = Given { s, root, digest };
    read_on(files, given, &mut reader, &mut rooms, begun)
}

/// Checks the certificate that the name holds, of all plans: the first box is the root box, in
/// which each plan is that keeps every rule (`time_windows::trips_are_in_the_root_box`). Its
/// answers are those of `check_from`; besides, it takes the memory of a root box.
pub fn check<F: Files>(
    alloc: Global,
    s: &Scenario,
    digest: &Digest,
    files: &mut F,
    name: &str,
) -> Result<CertClaim, CheckFault>
    ensures ok { IfOk result (λ claim. IsChecked (parts_of s.now) (root_box (parts_of s.now))
        digest.now (F.seen files.old).held name.now (Ok claim)) }
    ensures refused { IfRefused result (λ fault. IsChecked (parts_of s.now)
        (root_box (parts_of s.now)) digest.now (F.seen files.old).held name.now (Err fault)) }
    ensures holds { IfOk result (IsTrueClaim (parts_of s.now) (root_box (parts_of s.now))) }
    ensures present { WhereFound result (HasName (F.seen files.old).held name.now) }
    ensures above { IfTooLong result (λ size. most_cert_bytes < size) }
    ensures size { IfTooLong result (λ size.
        IfTold (F.seen files.old).held name.now (λ bytes. size ≡ length bytes)) }
    ensures read { OnReadFault result (HasName (F.seen files.old).held name.now
        → Rose (F.seen files.old).faults (F.seen files.new).faults) }
    ensures unfailed { UnlessReadFault result
        ((F.seen files.new).faults ≡ (F.seen files.old).faults) }
    ensures kept { AreKept (F.seen files.old) (F.seen files.new) }
{
    let root = Boxes::root(alloc, s)?;
    check_from(alloc, s, &root, digest, files, name)
}
