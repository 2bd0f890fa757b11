use crate::*;
use std::alloc::{AllocError, Global};
use std::io::Write;
use std::test::Fail;
use std::{env, fs, io, process};

// What a read of any files answers.
fn told<F: Files>(files: &mut F, alloc: Global, path: &str) -> Result<Vec<u8>, FileRefusal> {
    files.read(alloc, path)
}

fn sevens(alloc: Global, len: usize) -> Result<Vec<u8>, AllocError> {
    vec![in alloc; 7; len]
}

#[test]
fn files_in_memory(rt: HostRuntime) -> Result<(), Fail> {
    let alloc = rt.alloc();
    let full = sevens(alloc, 16_777_216)?;
    let long = sevens(alloc, 16_777_217)?;
    let held = [
        ("a", b"one".as_slice()),
        ("a", b"two".as_slice()),
        ("", b"".as_slice()),
        ("full", full.as_slice()),
        ("long", long.as_slice()),
    ];
    let mut files = MemFiles::new(alloc, &held, &[3, 6])?;
    let table = [
        ("a", Ok(b"one".as_slice())),
        ("c", Err(FileRefusal::Failed)),
        ("a", Err(FileRefusal::Failed)),
        ("", Ok(b"".as_slice())),
        ("long", Err(FileRefusal::TooLarge)),
        ("long", Err(FileRefusal::Failed)),
        ("full", Ok(full.as_slice())),
    ];
    for (path, want) in table {
        match (told(&mut files, alloc, path), want) {
            (Ok(bytes), Ok(want)) => assert!(rt; bytes.as_slice() == want, "{path}"),
            (Err(refusal), Err(want)) => assert_eq!(rt; refusal, want, "{path}"),
            _ => panic!(rt; "{path}"),
        }
    }
    assert_eq!(rt; (files.calls(), files.faults()), (7, 3));
    assert_eq!(rt; files.failed_path(), "long");
    Ok(())
}

#[test]
fn sink_in_memory(rt: HostRuntime) -> Result<(), Fail> {
    let mut sink = MemSink::new(rt.alloc(), 5, &[2])?;
    let table = [
        ("ab", Ok(2), "ab"),
        ("c", Err(Failed), "ab"),
        ("", Ok(0), "ab"),
        ("cdef", Ok(3), "abcde"),
        ("f", Err(Failed), "abcde"),
        ("", Ok(0), "abcde"),
    ];
    for (text, want, written) in table {
        assert_eq!(rt; sink.write(text.as_bytes()), want, "{text}");
        assert_eq!(rt; sink.bytes(), written.as_bytes(), "{text}");
    }
    assert_eq!(rt; (sink.calls(), sink.faults(), sink.room()), (6, 2, 0));

    let mut sink = MemSink::new(rt.alloc(), 5, &[])?;
    assert_eq!(rt; write_all(&mut sink, b"abc"), Ok(()));
    assert_eq!(rt; write_all(&mut sink, b"def"), Err(Failed));
    assert_eq!(rt; (sink.bytes(), sink.faults()), (b"abcde".as_slice(), 1));
    Ok(())
}

#[test]
fn files_of_the_system(rt: HostRuntime) -> Result<(), Fail> {
    let alloc = rt.alloc();
    let temporary = env::temp_dir(&rt)?;
    let folder = temporary.as_path().as_str();
    let process = process::id(rt.process());
    let path = format!(in alloc; "{folder}/hel_outside-{process}")?;
    let missing = format!(in alloc; "{path}-missing")?;
    fs::write(&rt, path.as_str(), b"some bytes".as_slice())?;

    let mut files = RealFiles::new(alloc, rt);
    let bytes = files.read(alloc, &path);
    fs::remove_file(&rt, path.as_str())?;
    assert!(rt; bytes.is_ok_and(|b| b.as_slice() == b"some bytes".as_slice()));
    assert_eq!(rt; (files.faults(), files.failed_path()), (0, ""));
    let table = [
        (
            missing.as_str(),
            Some(FileRefusal::Failed),
            1,
            missing.as_str(),
        ),
        ("/dev/null", None, 1, missing.as_str()),
        (
            "/dev/zero",
            Some(FileRefusal::TooLarge),
            1,
            missing.as_str(),
        ),
        (folder, Some(FileRefusal::Failed), 2, folder),
    ];
    for (path, want, faults, failed_path) in table {
        assert_eq!(rt; files.read(alloc, path).err(), want, "{path}");
        assert_eq!(rt;
            (files.faults(), files.failed_path()),
            (faults, failed_path),
            "{path}"
        );
    }
    Ok(())
}

// A stream that takes as many bytes as the next of its numbers says, and fails after the last.
#[derive(Drop)]
struct Takes(Vec<usize>);

impl Write for Takes {
    fn write(&mut self, bytes: &[u8]) -> io::Result<usize> {
        match self.0.pop() {
            Some(taken) => Ok(taken.min(bytes.len())),
            None => Err(io::Error::from(io::ErrorKind::BrokenPipe)),
        }
    }

    fn flush(&mut self) -> io::Result<()> {
        Ok(())
    }
}

#[test]
fn streams_of_the_process(rt: HostRuntime) -> Result<(), Fail> {
    let takes = vec![in rt.alloc(); 0, 0, 9, 2]?;
    let mut sink = StdSink::new(Takes(takes));
    let table = [
        ("abc", Ok(2), 0),
        ("abc", Ok(3), 0),
        ("abc", Err(Failed), 1),
        ("", Ok(0), 1),
        ("abc", Err(Failed), 2),
    ];
    for (text, want, faults) in table {
        assert_eq!(rt; sink.write(text.as_bytes()), want);
        assert_eq!(rt; sink.faults(), faults);
    }
    let mut out = StdSink::new(rt.stdout());
    let mut err = StdSink::new(rt.stderr());
    assert_eq!(rt; write_all(&mut out, b"out\n"), Ok(()));
    assert_eq!(rt; write_all(&mut err, b"err\n"), Ok(()));
    assert_eq!(rt; (out.faults(), err.faults()), (0, 0));
    Ok(())
}
