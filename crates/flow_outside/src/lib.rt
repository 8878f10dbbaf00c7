//! The outside of the program: files and an output as traits, in memory and real.
//!
//! A caller is generic over [`Files`] and [`Sink`]. It reads a whole text by [`load`], writes one
//! by [`put_all`], and stores one by [`Files::store`]:
//!
//!     // Copies the text of a name to the output, and says whether all of it is there.
//!     fn copy<F: Files, S: Sink>(alloc: Global, files: &mut F, out: &mut S, name: &str) -> bool {
//!         match load(alloc, files, name, 1_000_000) {
//!             Ok(text) => put_all(out, &text).is_ok(),
//!             Err(_) => false,
//!         }
//!     }
//!
//!     copy(alloc, &mut HostFiles::new(&rt), &mut HostSink::new(&rt), "day.csv")
//!
//! Tests hand in [`MemoryFiles`] and [`MemorySink`], which tell what they hold and fail at the
//! calls that were named; a program hands in [`HostFiles`] and [`HostSink`].
//!
//! Nobody can rule a fault of a device out, so each object counts its faults. A call answers a
//! fault only where the object's count rose in that call or the name to read isn't there, and
//! leaves the count as it was after any other answer: a body can neither blame the device by itself
//! nor hide a fault. A count is 64 bits wide and stops at its last value, where a fault needs no
//! rise.
//!
//! What is proved, by these clauses:
//!
//! - `load`: where the files tell what they hold, an answer is exactly what the name holds
//!   (`text`), and `TooLong` comes exactly above the limit, with the length (`too_long`, `size`).
//!   Told or not, a text is within the limit (`within`). `Read` comes only where the count rose or
//!   the files tell that they don't have the name (`read`), and always for such a name (`present`);
//!   after any other answer the count is as before (`unfailed`).
//! - `put_all`: all bytes were appended, and the count is as before (`all`, `unfailed`), or a part
//!   of them, and the count rose (`part`, `failed`).
//! - The objects in memory: what each call answers and leaves (`answer`, `count`, `part`, `after`).
//! - The system's files and output: each call raises its count by one at a fault, and else no count
//!   changes (`after`). What they read and write is trusted.
//!
//! No clause says what a call takes in memory. `load` takes the text's length, once; `MemoryFiles`
//! a copy of each text, `MemorySink` its room; `put_all`, `HostFiles` and `HostSink` none.
#![tactic(auto)]

mod files;
mod host;
mod kept_open;
mod loading;
mod memory_files;
mod memory_sink;
mod schedule;
mod sink;
mod writing;

pub use files::{Failed, Files, StoreFault};
pub use host::{HostFiles, HostSink};
pub use loading::{LoadFault, load};
pub use memory_files::MemoryFiles;
pub use memory_sink::MemorySink;
pub use sink::Sink;
pub use writing::{WriteFault, put_all};
