//! Certificates: the text that tells how a bound was found, written and read.
//!
//! A text is lines of fields that are divided by commas, each line ended by one line feed and at
//! most 4,096 bytes long without it:
//!
//!     cert,1,<digest of the day's text, 64 digits>
//!     cut,v1,<flight>,<node>,<period>,<head>,..         a cut of heads, 1 to 31
//!     cut,v2,<flight>,<period>,<node>,..                of nodes that are apart, 2 to 32
//!     cut,v3,<flight>,<node>,<period>                   of having departed
//!     split,<flight>,<node>,<period>,<cutoff or none>   a split, then its early and its late side
//!     empty                                             or a leaf: Empty
//!     unit                                              Unit
//!     dual,<weight>,<count>                             Dual, and so many rows
//!     lag,<weight>,<count>                              Lag, and so many rows
//!     y,<row>,<its numbers>,<multiplier>                each above the one before
//!     plan,<cost or none>                               the plan, and a line for each trip
//!     trip,<flight>,<place>,<period>,..
//!     bound,<number or none>
//!     end,<nodes of the tree>
//!
//! The rows are `mono`, `top`, `dep`, `arr`, `sector`, `occupy`, `enter`, `leave`, `connect` and
//! `cut`, with the numbers of their names (`specs/Rows`). That of a cut is its position in the
//! pool, which is the list of the `cut` lines. Numbers are written in one way each, and are within
//! the limits of `specs/Limits`; a trip has at most 32 stops.
//!
//! Only the text is judged here: that rows and cuts ascend, and that the cuts are the scenario's;
//! whether the digest, the cost, the count and the bound are right is not asked, nor whether the
//! rows are there. What cuts are, and their order, is said in `cut_rows`; what a tree, a leaf and a
//! bound are, in `branch_tree` and `dual_leaf`.
//!
//! A caller writes one, after asking how long it will be:
//!
//!     let digest = Digest::of(text_of_the_day);
//!     let plan = found.plans.items().last();
//!     let certificate = Certificate::new(digest, &found.pool, &found.tree, plan, found.bound);
//!     let length = cert_length(&s, &certificate);
//!     if length > MOST_CERT_BYTES {
//!         return Err(TooLong(length));
//!     }
//!     files.store("day.cert", &cert_text(alloc, &s, &certificate)?)?;
//!
//! and reads one line by line, from files, without keeping it:
//!
//!     let mut reader = CertReader::new(alloc, &mut files, "day.cert")?;
//!     loop {
//!         match reader.next(&mut files, &s, &routes) {
//!             Ok(Some(item)) => println!("{item:?}"),
//!             Ok(None) => break,
//!             Err(refusal) => return Err(refusal),
//!         }
//!     }
//!
//! The definitions stand in `specs/`. `Lines` and `Texts` say what is written. `Numbers`, `Fields`,
//! `Rows`, `Cuts` and `Items` say what a line tells or which field is wrong, field by field, so
//! that the fault that is told is the line's first; `Kinds` has the words of lines, `Digests` those
//! of digests, `Stages` is the grammar, and `Reading` puts a text's lines together. `Readers` says
//! what contracts see of a reader. `ItemLines` has the items of a certificate, and `Ranges` and
//! `Writable` say what it takes for it to be read back; `Found` and `Put` serve the proofs.
//!
//! Proved: `cert_text` writes the text of the definition, byte by byte, and `cert_length` tells its
//! length. `CertReader::next` takes the lines of the text one after the other, and answers what
//! each tells by the definition (`item`), that the text has ended after its last line (`end`), or
//! the first fault (`refused`). Where the files tell what the name holds, and it is as long as when
//! the reader was made, these are the lines of that, and else those of some text that begins with
//! what was read: the answers, one after the other, are the items of the text
//! (`answers_are_the_items`). No more is read than there was (`within`, `bounded`). A refusal is
//! kept and answered again (`keeps`, `again`), and so is the end (`ended`); a read fails only where
//! the files' count of faults rose or stands at its last value, or the name isn't there (`failed`,
//! `unfailed`). By the definition of reading, what is written of cuts of the scenario in
//! order, of a tree with ascending rows, and of numbers within the limits, is read back whole
//! (`texts_are_read`); so a certificate has one text, and no text of one begins that of another
//! (`texts_are_one`).
//!
//! Memory: a text is made in blocks that grow by doubling. A reader takes a piece of 64 KiB and a
//! line of at most 4,097 bytes, in a block that grows by doubling, a trip its stops, and a cut its
//! nodes, which the reader keeps too up to the next one; nothing grows with the text. Time: each
//! byte of a text is read once.
#![tactic(auto)]

mod certificate;
mod cut_names;
mod digest;
mod digits;
mod fault;
mod fields;
mod item;
mod items;
mod kind;
mod laws;
mod limits;
mod line;
mod lines;
mod numbers;
mod out;
mod pieces;
mod reader;
mod row_names;
mod stage;
mod text;

pub use certificate::Certificate;
pub use digest::Digest;
pub use fault::{CertRefusal, TextCause, TextFault};
pub use item::CertItem;
pub use laws::{answers_are_the_items, texts_are_one, texts_are_read};
pub use limits::MOST_CERT_BYTES;
pub use reader::CertReader;
pub use stage::Stage;
pub use text::{cert_length, cert_text};
