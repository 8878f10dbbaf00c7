//! Tests of files and outputs, and of whole runs over them, for what no clause and no answer of the
//! built program shows: a device that fails in mid-stream and what stands written then, what the
//! system's files do, and that calls succeed with ample memory.
//!
//! They stand above `flow_outside` and `flow_cli`, so that neither is proved again with them:
//!
//!     let mut files = MemoryFiles::new(alloc);
//!     files.add("day.csv", TWO_FLIGHTS)?;
//!     files.fail(2)?;
//!     let mut out = MemorySink::new(alloc, 1_000, 16)?;
//!     let ran = run(alloc, &words, &mut files, &mut out);
//!     assert_eq!(rt; ran.status, Status::ReadFault);
//!     assert_eq!(rt; out.bytes(), b"fault,read\n");
#![tactic(auto)]

#[cfg(test)]
mod outside;
#[cfg(test)]
mod runs;
