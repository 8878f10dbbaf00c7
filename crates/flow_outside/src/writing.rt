//! A whole text, written to an output.
ghost use Rattle.std.specs.Prelude.{◌≡◌, ◌≤◌, OnOk, OnErr};
ghost use Rattle.flow_outside.specs.Counts.{Rose};
ghost use Rattle.flow_outside.specs.Written.{appended, AppendsPart};

use crate::Sink;
use thiserror::Error;

/// A text was not written to its end.
#[derive(Clone, Copy, Debug, PartialEq, Eq, Error)]
#[error("the text could not be written")]
pub struct WriteFault;

/// Appends all the bytes. `WriteFault` comes only where the output's count of faults rose, or
/// stands at its last value; a part from the front of the bytes was then appended, and not all of
/// them. After `Ok` the count stays. It takes no memory.
#[tactic(auto, using(crate::proofs::Pieces::front_more))]
pub fn put_all<S: Sink>(sink: &mut S, bytes: &[u8]) -> Result<(), WriteFault>
    ensures all { OnOk result
        ((S.seen sink.new).written ≡ appended (S.seen sink.old).written bytes.now) }
    ensures part { OnErr result
        (AppendsPart (S.seen sink.old).written (S.seen sink.new).written bytes.now) }
    ensures unfailed { OnOk result ((S.seen sink.new).faults ≡ (S.seen sink.old).faults) }
    ensures failed { OnErr result (Rose (S.seen sink.old).faults (S.seen sink.new).faults) }
    ensures counts { (S.seen sink.old).faults ≤ (S.seen sink.new).faults }
{
    let mut put = 0;
    while put < bytes.len() {
        let Ok(count) = sink.write(&bytes[put..]) else {
            return Err(WriteFault);
        };
        put += count;
    }
    Ok(())
}
