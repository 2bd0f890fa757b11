use super::{ALONE, BAD_WORDS, Call, FEDERATE, LOGS};
use crate::status::Status;
use std::test::Fail;

#[test]
fn faults_of_files(rt: HostRuntime) -> Result<(), Fail> {
    let files = [
        ("run.json", ALONE.as_bytes()),
        ("a.json", FEDERATE.as_bytes()),
    ];
    let table = [
        (2, 1, "run.json"),
        (2, 2, "a.json"),
        (1, 0, "a.json"),
        (0, 0, "run.json"),
    ];
    let alloc = rt.alloc();
    for (held, read, path) in table {
        let call = Call {
            failing_reads: &[read],
            ..Call::new("sim run.json", &files[..held])
        };
        let err = format!(in alloc; "helics_run: cannot read {path}\n")?;
        call.expect(&rt, alloc, Status::FileFault, "", err.as_str())?;
    }
    Ok(())
}

// Standard output fails at a call, or has no more room; standard error fails too, or doesn't.
#[test]
fn faults_of_sinks(rt: HostRuntime) -> Result<(), Fail> {
    let files = [
        ("run.json", ALONE.as_bytes()),
        ("a.json", FEDERATE.as_bytes()),
    ];
    let cannot_write = "helics_run: cannot write\n";
    let table = [
        (1, 1000, 0, Status::SinkFault, "", cannot_write),
        (1, 1000, 1, Status::SinkFault, "", ""),
        (0, 0, 0, Status::SinkFault, "", cannot_write),
        (0, 12, 0, Status::SinkFault, "federate 0 A", cannot_write),
        (0, 76, 0, Status::Done, LOGS, ""),
    ];
    for (write, room, err_write, status, out, err) in table {
        let call = Call {
            room,
            failing_outs: &[write],
            failing_errs: &[err_write],
            ..Call::new("sim run.json", &files)
        };
        call.expect(&rt, rt.alloc(), status, out, err)?;
    }
    Ok(())
}

// A line that standard error doesn't take: of bad words, of a failed read and of a refusal.
#[test]
fn lines_that_are_not_taken(rt: HostRuntime) -> Result<(), Fail> {
    let none = [("run.json", br#"{"federates":[]}"#.as_slice())];
    for (words, held) in [("load 7", 0), ("sim run.json", 0), ("sim run.json", 1)] {
        let call = Call {
            failing_errs: &[1],
            ..Call::new(words, &none[..held])
        };
        call.expect(&rt, rt.alloc(), Status::SinkFault, "", "")?;
    }
    Call::new("", &[]).expect(&rt, rt.alloc(), Status::BadWords, "", BAD_WORDS)?;
    Ok(())
}
