//! Runs of which a call on the files or on the output fails, and the same runs where none does.
use flow_cli::{Status, run};
use flow_outside::{MemoryFiles, MemorySink};
use std::alloc::Global;
use std::test::Fail;
use worked_days::{ON_TIME, TWO_FLIGHTS};

// One may leave in a period: the second flight waits, and no plan costs less.
const REPORT: &[u8] = b"status,optimal
cost,1
bound,1
nodes,1
trip,F1,ORIG,0,S,0,DEST,2
trip,F2,ORIG,1,S,1,DEST,3
";

// The same plan where the run of the relaxation may make no pivot, there is no round of prices, and
// no box may be split.
const OPEN: &[u8] = b"status,open
cost,1
bound,0
nodes,1
trip,F1,ORIG,0,S,0,DEST,2
trip,F2,ORIG,1,S,1,DEST,3
";

const VERDICT: &[u8] = b"broken,departures,ORIG,0,2,1\n";

const FAULT: &[u8] = b"fault,read\n";

// Words that are separated by spaces.
fn words_of(alloc: Global, line: &str) -> Result<Vec<String>, Fail> {
    let mut words = Vec::new(alloc);
    for word in line.split(' ') {
        words.push(String::from_str(alloc, word)?)?;
    }
    Ok(words)
}

#[test]
fn a_call_that_fails_is_answered(rt: HostRuntime) -> Result<(), Fail> {
    let alloc = rt.alloc();
    // The words, the call on the files and the one on the output that fail (0 for none), what
    // stands written, and the status. Each text is asked for its size once and read once, and 16
    // bytes are written in a call. A record is handed back where the whole report of a day is
    // written.
    let rows = [
        ("plan day.csv", 0, 0, REPORT, Status::Done),
        ("plan day.csv", 1, 0, FAULT, Status::ReadFault),
        ("plan day.csv", 2, 0, FAULT, Status::ReadFault),
        ("plan day.csv", 3, 0, REPORT, Status::Done),
        ("plan day.csv", 0, 1, b"".as_slice(), Status::WriteFault),
        ("plan day.csv", 0, 3, &REPORT[..32], Status::WriteFault),
        (
            "plan --nodes 1 day.csv --pivots 0 --rounds 0",
            0,
            0,
            OPEN,
            Status::OpenGap,
        ),
        ("judge day.csv plan.csv", 0, 0, VERDICT, Status::Broken),
        ("judge day.csv plan.csv", 2, 0, FAULT, Status::ReadFault),
        ("judge day.csv plan.csv", 3, 0, FAULT, Status::ReadFault),
        ("judge day.csv plan.csv", 4, 0, FAULT, Status::ReadFault),
        (
            "judge day.csv plan.csv",
            0,
            2,
            &VERDICT[..16],
            Status::WriteFault,
        ),
        ("judge day.csv none.csv", 0, 0, FAULT, Status::ReadFault),
    ];
    for (line, read, write, written, status) in rows {
        let mut files = MemoryFiles::new(alloc);
        files.add("day.csv", TWO_FLIGHTS)?;
        files.add("plan.csv", ON_TIME)?;
        files.fail(read)?;
        let mut out = MemorySink::new(alloc, 1_000, 16)?;
        out.fail(write)?;
        let ran = run(alloc, &words_of(alloc, line)?, &mut files, &mut out);
        if ran.status == Status::OutOfMemory {
            assert!(rt; out.bytes().is_empty());
            return Err(Fail::from("no memory"));
        }
        let is_planned = matches!(ran.status, Status::Done | Status::OpenGap);
        assert_eq!(rt; ran.status, status, "{line}, {read}, {write}");
        assert_eq!(rt; out.bytes(), written, "{line}, {read}, {write}");
        assert_eq!(rt;
            ran.records.items().len(),
            usize::from(is_planned),
            "{line}"
        );
    }
    Ok(())
}

const CLAIM: &[u8] = b"status,optimal
cost,1
bound,1
nodes,1
";

const UNSTORED: &[u8] = b"fault,write\n";

// Runs over one set of files: a certificate is stored, and what is stored is accepted.
#[test]
fn a_certificate_is_stored_and_accepted(rt: HostRuntime) -> Result<(), Fail> {
    let alloc = rt.alloc();
    let mut files = MemoryFiles::new(alloc);
    files.add("day.csv", TWO_FLIGHTS)?;
    // the first store, since calls are counted over all runs
    files.fail(3)?;
    let rows = [
        ("plan day.csv --cert day.cert", UNSTORED, Status::WriteFault),
        ("check day.csv day.cert", FAULT, Status::ReadFault),
        ("plan day.csv --cert day.cert", REPORT, Status::Done),
        ("check day.csv day.cert", CLAIM, Status::Done),
        ("plan --cert day.csv day.csv", REPORT, Status::Done),
        (
            "check day.csv day.cert",
            b"refused,1,1,NoDay\n".as_slice(),
            Status::BadScenario,
        ),
    ];
    for (line, written, status) in rows {
        let mut out = MemorySink::new(alloc, 1_000, 1_000)?;
        let ran = run(alloc, &words_of(alloc, line)?, &mut files, &mut out);
        assert_eq!(rt; ran.status, status, "{line}");
        assert_eq!(rt; out.bytes(), written, "{line}");
    }
    Ok(())
}

// A fault is told as soon as it is met: so a read behind it isn't made.
#[test]
fn a_certificate_is_read_in_pieces(rt: HostRuntime) -> Result<(), Fail> {
    let alloc = rt.alloc();
    let mut cert = Vec::from_slice(alloc, b"x,1\n")?;
    cert.resize(70_000, b'0')?;
    for (call, written, status) in [
        (4, FAULT, Status::ReadFault),
        (
            5,
            b"refused,1,1,BadKind\n".as_slice(),
            Status::BadCertificate,
        ),
    ] {
        let mut files = MemoryFiles::new(alloc);
        files.add("day.csv", TWO_FLIGHTS)?;
        files.add("day.cert", &cert)?;
        files.fail(call)?;
        let mut out = MemorySink::new(alloc, 1_000, 1_000)?;
        let words = words_of(alloc, "check day.csv day.cert")?;
        let ran = run(alloc, &words, &mut files, &mut out);
        assert_eq!(rt; ran.status, status, "{call}");
        assert_eq!(rt; out.bytes(), written, "{call}");
    }
    Ok(())
}

// What the second flight costs by tables: the greedy plan lets it wait, for 3, and the least one
// lets the first flight wait, for 1.
const TABLES: &[u8] = b"table,TT,0,5,10,15,20,25
table,CC,0,2,4,6,8
cost,F2,TT,CC
";

#[test]
fn a_plan_is_found_that_the_greedy_one_is_not(rt: HostRuntime) -> Result<(), Fail> {
    let alloc = rt.alloc();
    let mut day = Vec::from_slice(alloc, TWO_FLIGHTS)?;
    day.extend_from_slice(TABLES)?;
    let mut files = MemoryFiles::new(alloc);
    files.add("day.csv", &day)?;
    let mut out = MemorySink::new(alloc, 1_000, 1_000)?;
    let ran = run(
        alloc,
        &words_of(alloc, "plan day.csv")?,
        &mut files,
        &mut out,
    );
    assert_eq!(rt; ran.status, Status::Done);
    assert!(rt;
        out.bytes()
            .starts_with(b"status,optimal\ncost,1\nbound,1\nnodes,")
    );
    assert!(rt; out.bytes().ends_with(b"\ntrip,F1,ORIG,1,S,1,DEST,3\ntrip,F2,ORIG,0,S,0,DEST,2\n"));
    // first the greedy plan, and at last the cheaper one
    for found in ran.records.items() {
        assert!(rt; found.plans.items().len() >= 2);
    }
    Ok(())
}
