//! The lines of cuts.
ghost use Rattle.std.specs.Prelude.{◌≡◌, OnOk};
ghost use Rattle.flow_types.specs.Scenario.{parts_of};
ghost use Rattle.cert_checker.specs.Checks.{AreRoomsFor, TellsNow};
ghost use Rattle.cert_checker.specs.declared.fault.CertCause.TheVariants as cause;
ghost use Rattle.cert_checker.specs.declared.fault.StepError.TheVariants as error;
ghost use Rattle.cert_checker.specs.Steps.{cut_told, fault_in};

use crate::fault::{CertCause, StepError, in_field};
use crate::progress::Progress;
use crate::rooms::Rooms;
use certificate::TextCause;
use cut_rows::{CutName, is_cut};
use flow_types::Scenario;

// A fault of a cut, told of its field: the second one of its line.
fn cut_fault(found: TextCause) -> StepError
    ensures { result ≡ error.Fault (fault_in 2 (cause.Text found)) }
{
    StepError::Fault(in_field(2, CertCause::Text(found)))
}

/// A cut, which has to come after those before it, and to be one of the scenario. A reader refuses
/// other cuts; but a step is defined for every item, so it asks too.
pub fn cut_line(
    rooms: &Rooms,
    s: &Scenario,
    progress: &mut Progress,
    cut: CutName,
) -> Result<(), StepError>
    requires rooms { AreRoomsFor (parts_of s.now) rooms.now }
    ensures told { TellsNow result progress.new (cut_told (parts_of s.now) progress.old cut) }
    ensures nodes { OnOk result (progress.new.nodes ≡ progress.old.nodes) }
{
    if !progress.pool.precedes(&cut) {
        return Err(cut_fault(TextCause::Order));
    }
    if !is_cut(s, &rooms.leaves.table().routes, &cut) {
        return Err(cut_fault(TextCause::BadCut));
    }
    progress.pool.add(cut)?;
    Ok(())
}
