//! A text that is read in pieces.
ghost use Rattle.std.specs.Prelude.{◌≡◌, ◌≤◌, ◌<◌, IfOk, OnErr, OnOk, length, min};
ghost use Rattle.flow_outside.specs.Counts.{Rose};
ghost use Rattle.flow_outside.specs.Held.{HasName, IfTold};
ghost use Rattle.flow_outside.specs.Seen.{AreKept};
ghost use Rattle.certificate.specs.Readers.{IsPieceOf};

use crate::limits::MOST_PIECE_BYTES;
use flow_outside::{Failed, Files, LoadFault};
use std::alloc::Global;
use std::marker::Model;

/// A text of files, read in pieces of at most 64 KiB, each byte once. Of the text it keeps one
/// piece.
pub struct Pieces {
    name: String,
    // So many bytes the text has, and so many of them were read.
    size: u64,
    offset: u64,
    piece: Vec<u8>,
    // The bytes of the piece from `start` to `end` aren't taken yet.
    start: usize,
    end: usize,
}

impl Drop for Pieces {
    fn drop(self) {
        let Pieces {
            name: _,
            size: _,
            offset: _,
            piece: _,
            start: _,
            end: _,
        } = self;
    }
}

impl Model for Pieces {
    ghost use Rattle.std.specs.Prelude.{slice_range, string_bytes};
    ghost use Rattle.certificate.specs.Readers.{ArePieces, PiecesSeen};

    ghost Value = { PiecesSeen };

    ghost view = { λ p. record {
      name = string_bytes p.name;
      size = p.size;
      offset = p.offset;
      ahead = slice_range p.piece.items p.start p.end;
    } };

    ghost invariant = { λ p. ArePieces p.piece.items p.start p.end p.offset p.size };
}

impl Pieces {
    ghost use Rattle.std.specs.Prelude.{◌≡◌, ◌<◌, ◌≤◌, ◌++◌, IfOk, Ok, OnErr, OnOk, [], drop, false, length, take, true};
    ghost use Rattle.flow_outside.specs.Counts.{Rose};
    ghost use Rattle.flow_outside.specs.Held.{HasName, IfTold};
    ghost use Rattle.flow_outside.specs.Loads.{IfTooLong, IsTooLong, OnRead, UnlessRead};
    ghost use Rattle.flow_outside.specs.Seen.{AreKept};
    ghost use Rattle.certificate.specs.Readers.{AreBounded, AreTaken, IsAtEnd};

    /// The text of a name, of at most `limit` bytes, of which nothing is read yet. It takes memory
    /// for the name and a piece.
    pub fn new<F: Files>(
        alloc: Global,
        files: &mut F,
        name: &str,
        limit: u64,
    ) -> Result<Pieces, LoadFault>
        ensures name { IfOk result (λ pieces. pieces.name ≡ name.now) }
        ensures begin { IfOk result (λ pieces. (pieces.offset ≡ 0) × (pieces.ahead ≡ [])) }
        ensures within { IfOk result (λ pieces. pieces.size ≤ limit) }
        ensures size { IfOk result (λ pieces. IfTold (F.seen files.old).held name.now
            (λ bytes. length bytes ≡ pieces.size)) }
        ensures above { IfTooLong result (λ n. limit < n) }
        ensures told { IfTooLong result (λ n.
            IfTold (F.seen files.old).held name.now (λ bytes. n ≡ length bytes)) }
        ensures present { UnlessRead result (HasName (F.seen files.old).held name.now) }
        ensures read { OnRead result
            (HasName (F.seen files.old).held name.now
            → Rose (F.seen files.old).faults (F.seen files.new).faults) }
        ensures unfailed { UnlessRead result
            ((F.seen files.new).faults ≡ (F.seen files.old).faults) }
        ensures kept { AreKept (F.seen files.old) (F.seen files.new) }
    {
        let Ok(size) = files.size(name) else {
            return Err(LoadFault::Read);
        };
        if size > limit {
            return Err(LoadFault::TooLong(size));
        }
        let Ok(name) = String::from_str(alloc, name) else {
            return Err(LoadFault::OutOfMemory);
        };
        let Ok(piece) = vec![in alloc; 0; MOST_PIECE_BYTES] else {
            return Err(LoadFault::OutOfMemory);
        };
        Ok(Pieces {
            name,
            size,
            offset: 0,
            piece,
            start: 0,
            end: 0,
        })
    }

    /// Whether nothing is left.
    pub fn is_at_end(&self) -> bool
        ensures at_end { result ≡ true → IsAtEnd self.now }
        ensures else_not { result ≡ false → IsAtEnd self.now → ⊥ }
    {
        self.start == self.end && self.offset == self.size
    }

    /// What was read and isn't taken yet.
    pub fn ahead(&self) -> &[u8]
        ensures { result.now ≡ self.now.ahead }
    {
        &self.piece[self.start..self.end]
    }

    /// Takes so many of the bytes that are ahead.
    pub fn take(&mut self, count: usize)
        requires { count ≤ length self.old.ahead }
        ensures ahead { self.new.ahead ≡ drop count self.old.ahead }
        ensures name { self.new.name ≡ self.old.name }
        ensures size { self.new.size ≡ self.old.size }
        ensures offset { self.new.offset ≡ self.old.offset }
    {
        self.start += count;
    }

    /// Reads the next piece, after all of the one before was taken. Tells whether there was one.
    pub fn more<F: Files>(&mut self, files: &mut F) -> Result<bool, Failed>
        requires { self.old.ahead ≡ [] }
        ensures taken { OnOk result (AreTaken (F.seen files.old).held self.old self.new []) }
        ensures size { result ≡ Ok true → self.new.size ≡ self.old.size }
        ensures bounded { OnOk result (AreBounded self.old self.new) }
        ensures end { result ≡ Ok false → IsAtEnd self.new }
        ensures some { result ≡ Ok true → 0 < length self.new.ahead }
        ensures failed { OnErr result (HasName (F.seen files.old).held self.old.name
            → Rose (F.seen files.old).faults (F.seen files.new).faults) }
        ensures unfailed { OnOk result ((F.seen files.new).faults ≡ (F.seen files.old).faults) }
        ensures kept { AreKept (F.seen files.old) (F.seen files.new) }
    {
        let left = self.size - self.offset;
        if left == 0 {
            return Ok(false);
        }
        let read = read_piece(files, &self.name, self.offset, &mut self.piece)?;
        let count = up_to(read, left);
        self.start = 0;
        self.end = count;
        self.offset += count as u64;
        self.size = size_after(self.size, self.offset, count);
        Ok(count > 0)
    }
}

// The lesser of two counts.
fn up_to(count: usize, most: u64) -> usize
    ensures { result ≡ min count most }
{
    if (count as u64) < most {
        count
    } else {
        most as usize
    }
}

// How large a text is whose next piece has so many bytes: as large as it was, or no larger than
// what was read of it, where it has got shorter since.
fn size_after(size: u64, offset: u64, count: usize) -> u64
    ensures some { 0 < count → result ≡ size }
    ensures none { count ≡ 0 → result ≡ offset }
{
    if count == 0 { offset } else { size }
}

// Reads bytes from an offset on, and puts them in front of the piece. Tells how many.
fn read_piece<F: Files>(
    files: &mut F,
    name: &str,
    offset: u64,
    piece: &mut Vec<u8>,
) -> Result<usize, Failed>
    ensures size { length piece.new.items ≡ length piece.old.items }
    ensures within { IfOk result (λ count. count ≤ length piece.old.items) }
    ensures part { IfOk result (λ count. IfTold (F.seen files.old).held name.now
        (λ bytes. IsPieceOf bytes offset (length piece.old.items) count piece.new.items)) }
    ensures failed { OnErr result (HasName (F.seen files.old).held name.now
        → Rose (F.seen files.old).faults (F.seen files.new).faults) }
    ensures unfailed { OnOk result ((F.seen files.new).faults ≡ (F.seen files.old).faults) }
    ensures kept { AreKept (F.seen files.old) (F.seen files.new) }
{
    files.read_at(name, offset, piece)
}
