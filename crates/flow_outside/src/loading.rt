//! A whole text, read from files.
ghost use Rattle.std.specs.Prelude.{◌≡◌, ◌<◌, ◌≤◌, ◌↔◌, length, take, IfOk, OnOk, OnErr, vec_len};
ghost use Rattle.flow_outside.specs.Counts.{Rose};
ghost use Rattle.flow_outside.specs.Held.{IfTold, HasName};
ghost use Rattle.flow_outside.specs.Loads.{OnRead, UnlessRead, IsTooLong, IfTooLong};
ghost use Rattle.flow_outside.specs.Seen.{AreKept};

use crate::{Failed, Files};
use std::alloc::Global;
use thiserror::Error;

/// Why a text was not loaded.
#[derive(Clone, Copy, Debug, PartialEq, Eq, Error)]
pub enum LoadFault {
    /// The size was not answered, or a read failed.
    #[error("the text could not be read")]
    Read,
    /// The text is longer than the limit. It has so many bytes.
    #[error("the text is too long: {0} bytes")]
    TooLong(u64),
    /// There was no memory to hold the text.
    #[error("out of memory")]
    OutOfMemory,
}

/// Loads all that the name holds, of at most `limit` bytes.
///
/// `Read` comes only where the files' count of faults rose in this call or stands at its last
/// value, or the files tell that they don't have the name, and always in the last case. `TooLong`
/// comes where the name holds more bytes than the limit, and says how many. After any other answer
/// than `Read` the count stays. What the files hold stays as it was. It takes memory for as many
/// bytes as the name holds, and none where they are too many.
pub fn load<F: Files>(
    alloc: Global,
    files: &mut F,
    name: &str,
    limit: u64,
) -> Result<Vec<u8>, LoadFault>
    ensures text { IfOk result (λ text.
        IfTold (F.seen files.old).held name.now (λ bytes. text.items ≡ bytes)) }
    ensures within { IfOk result (λ text. vec_len text ≤ limit) }

    ensures too_long { UnlessRead result
        (IfTold (F.seen files.old).held name.now
        (λ bytes. IsTooLong result ↔ (limit < length bytes))) }
    ensures size { IfTooLong result (λ n.
        IfTold (F.seen files.old).held name.now (λ bytes. n ≡ length bytes)) }
    ensures above { IfTooLong result (λ n. limit < n) }

    // A name that the files tell they don't have is answered by `Read`.
    ensures present { UnlessRead result (HasName (F.seen files.old).held name.now) }
    ensures read { OnRead result
        (HasName (F.seen files.old).held name.now
        → Rose (F.seen files.old).faults (F.seen files.new).faults) }
    ensures unfailed { UnlessRead result ((F.seen files.new).faults ≡ (F.seen files.old).faults) }

    ensures kept { AreKept (F.seen files.old) (F.seen files.new) }
{
    let Ok(size) = files.size(name) else {
        return Err(LoadFault::Read);
    };
    if size > limit {
        return Err(LoadFault::TooLong(size));
    }
    let Ok(mut text) = vec![in alloc; 0; size as usize] else {
        return Err(LoadFault::OutOfMemory);
    };
    let Ok(taken) = fill(files, name, &mut text) else {
        return Err(LoadFault::Read);
    };
    text.truncate(taken);
    Ok(text)
}

/// Reads into the buffer from its front, until it is full or a read gives nothing. Answers how
/// many bytes were read.
fn fill<F: Files>(files: &mut F, name: &str, buffer: &mut [u8]) -> Result<usize, Failed>
    ensures within { IfOk result (λ n. n ≤ length buffer.old) }
    ensures text { IfOk result (λ n. IfTold (F.seen files.old).held name.now
        (λ bytes. length bytes ≡ length buffer.old → take n buffer.new ≡ bytes)) }
    ensures unfailed { OnOk result ((F.seen files.new).faults ≡ (F.seen files.old).faults) }
    ensures failed { OnErr result
        (HasName (F.seen files.old).held name.now
        → Rose (F.seen files.old).faults (F.seen files.new).faults) }
    ensures kept { AreKept (F.seen files.old) (F.seen files.new) }
{
    let mut taken = 0;
    while taken < buffer.len() {
        let count = files.read_at(name, taken as u64, &mut buffer[taken..])?;
        if count == 0 {
            break;
        }
        taken += count;
    }
    Ok(taken)
}
