//! Happy calls of each public function, and the adapters over readers and writers that fail.
use ipg_outside::{
    DiskFiles, FileFault, Files, MemFiles, MemSink, Sink, SinkFault, StdSink, SureFiles, SureSink,
};
use std::{fs, io};

fn answer(read: &Result<Vec<u8>, FileFault>) -> (&str, &[u8]) {
    match read {
        Ok(bytes) => ("whole", bytes.as_slice()),
        Err(FileFault::TooLarge(front)) => ("too large", front.as_slice()),
        Err(FileFault::Failed) => ("failed", b""),
        Err(FileFault::Memory) => ("memory", b""),
    }
}

#[test]
fn reads_files_in_memory(rt: HostRuntime) -> anyhow::Result<()> {
    let alloc = rt.alloc();
    let mut files = MemFiles::new(alloc, &[3])?;
    files.add("g", b"old")?;
    files.add("g", b"abc")?;
    for (name, limit, want) in [
        ("g", 3, ("whole", b"abc" as &[u8])),
        ("g", 1, ("too large", b"ab")),
        ("h", 3, ("failed", b"")),
        ("g", 3, ("failed", b"")),
        ("g", 3, ("whole", b"abc")),
    ] {
        let read = files.read_all(alloc, name, limit);
        assert_eq!(rt; answer(&read), want, "{name} up to {limit}");
    }
    Ok(())
}

#[test]
fn reads_files_without_fail(rt: HostRuntime) -> anyhow::Result<()> {
    let alloc = rt.alloc();
    let mut files = SureFiles::new(alloc);
    files.add("g", b"old")?;
    files.add("g", b"abc")?;
    for (name, limit, want) in [
        ("g", 3, ("whole", b"abc" as &[u8])),
        ("g", 1, ("too large", b"ab")),
        ("h", 0, ("whole", b"")),
        ("g", 3, ("whole", b"abc")),
    ] {
        let read = files.read_all(alloc, name, limit);
        assert_eq!(rt; answer(&read), want, "{name} up to {limit}");
    }
    Ok(())
}

#[test]
fn writes_without_fail(rt: HostRuntime) -> anyhow::Result<()> {
    let mut sink = SureSink::new();
    assert_eq!(rt; sink.write(b"ab"), Ok(()));
    assert_eq!(rt; sink.write(b""), Ok(()));
    assert_eq!(rt; sink.flush(), Ok(()));
    Ok(())
}

#[test]
fn writes_to_memory_up_to_its_room(rt: HostRuntime) -> anyhow::Result<()> {
    let mut sink = MemSink::new(rt.alloc(), 5, &[1])?;
    for (piece, want) in [
        (b"ab" as &[u8], Ok(())),
        (b"c", Err(SinkFault::Failed)),
        (b"de", Ok(())),
        (b"f", Err(SinkFault::Failed)),
    ] {
        assert_eq!(rt; sink.write(piece), want);
    }
    assert_eq!(rt; sink.flush(), Ok(()));
    assert_eq!(rt; sink.bytes(), b"abcde".as_slice());
    Ok(())
}

/// Takes at most `step` bytes a write, and fails once `left` writes have come.
#[derive(Drop)]
struct Narrow {
    step: usize,
    left: usize,
    taken: Vec<u8>,
}

impl io::Write for &mut Narrow {
    fn write(&mut self, buf: &[u8]) -> io::Result<usize> {
        if self.left == 0 {
            return Err(io::ErrorKind::BrokenPipe.into());
        }
        self.left -= 1;
        let count = self.step.min(buf.len());
        self.taken.extend_from_slice(&buf[..count])?;
        Ok(count)
    }

    fn flush(&mut self) -> io::Result<()> {
        Ok(())
    }
}

#[test]
fn gathers_and_hands_on(rt: HostRuntime) -> anyhow::Result<()> {
    let alloc = rt.alloc();
    for (step, left, flushed, written) in [
        (3, 9, Ok(()), b"abcdef" as &[u8]),
        (4, 1, Err(SinkFault::Failed), b"abcd"),
        (0, 9, Err(SinkFault::Failed), b""),
    ] {
        let mut narrow = Narrow {
            step,
            left,
            taken: Vec::new(alloc),
        };
        {
            let mut sink = StdSink::new(&mut narrow);
            assert_eq!(rt; sink.write(b"abc"), Ok(()));
            assert_eq!(rt; sink.write(b"def"), Ok(()));
            assert_eq!(rt; sink.flush(), flushed);
        }
        assert_eq!(rt; narrow.taken.as_slice(), written);
    }
    Ok(())
}

#[test]
fn reads_real_files(rt: HostRuntime) -> anyhow::Result<()> {
    let alloc = rt.alloc();
    let name = "ipg_outside_test_file";
    let long = vec![in alloc; 7u8; 70_000]?;
    fs::write(&rt, name, &long)?;
    let mut files = DiskFiles::new(&rt);
    let whole = files.read_all(alloc, name, 70_000);
    assert_eq!(rt; answer(&whole), ("whole", long.as_slice()));
    let cut = files.read_all(alloc, name, 69_999);
    assert_eq!(rt; answer(&cut), ("too large", long.as_slice()));
    let short = files.read_all(alloc, name, 2);
    assert_eq!(rt; answer(&short), ("too large", b"\x07\x07\x07" as &[u8]));
    fs::remove_file(&rt, name)?;
    let absent = files.read_all(alloc, name, 2);
    assert_eq!(rt; answer(&absent), ("failed", b"" as &[u8]));
    let folder = files.read_all(alloc, ".", 2);
    assert_eq!(rt; answer(&folder), ("failed", b"" as &[u8]));
    Ok(())
}
