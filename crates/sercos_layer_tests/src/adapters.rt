// The adapters over std's readers and writers, over fakes that interrupt, fail and take nothing.
use sercos_io::{ReadFailed, Sink, Source, StdSink, StdSource, WriteFailed};
use std::io;
use std::io::{ErrorKind, Read, Write};

// A reader whose first calls are interrupted; then it returns one byte, and then it fails.
#[derive(Drop)]
struct Stuttering {
    interrupted: u32,
    given: bool,
}

impl Read for Stuttering {
    fn read(&mut self, buf: &mut [u8]) -> io::Result<usize> {
        if self.interrupted > 0 {
            self.interrupted -= 1;
            return Err(io::Error::from(ErrorKind::Interrupted));
        }
        if self.given || buf.is_empty() {
            return Err(io::Error::from(ErrorKind::BrokenPipe));
        }
        self.given = true;
        buf[0] = b'a';
        Ok(1)
    }
}

// A reader that fails at its first call; each later call returns its own number as a byte.
#[derive(Drop)]
struct FailsFirst {
    calls: u8,
}

impl Read for FailsFirst {
    fn read(&mut self, buf: &mut [u8]) -> io::Result<usize> {
        self.calls = self.calls.saturating_add(1);
        if self.calls == 1 || buf.is_empty() {
            return Err(io::Error::from(ErrorKind::BrokenPipe));
        }
        buf[0] = self.calls;
        Ok(1)
    }
}

// A writer that counts its calls. The first `interrupted` calls are interrupted, the next `failing` fail, and each later one
// takes `takes` bytes.
#[derive(Drop)]
struct Recovering {
    interrupted: u32,
    failing: u32,
    takes: usize,
    calls: u32,
}

impl Recovering {
    fn new(interrupted: u32, failing: u32, takes: usize) -> Recovering {
        Recovering {
            interrupted,
            failing,
            takes,
            calls: 0,
        }
    }
}

impl Write for Recovering {
    fn write(&mut self, buf: &[u8]) -> io::Result<usize> {
        self.calls = self.calls.saturating_add(1);
        if self.interrupted > 0 {
            self.interrupted -= 1;
            return Err(io::Error::from(ErrorKind::Interrupted));
        }
        if self.failing > 0 {
            self.failing -= 1;
            return Err(io::Error::from(ErrorKind::BrokenPipe));
        }
        Ok(self.takes.min(buf.len()))
    }

    fn flush(&mut self) -> io::Result<()> {
        Ok(())
    }
}

#[test]
fn interrupted_reads(rt: HostRuntime) {
    // How often the first call is interrupted, and whether it then returns the byte.
    for (interrupted, gives) in [(0, true), (999, true), (1000, false)] {
        let mut source = StdSource::new(Stuttering {
            interrupted,
            given: false,
        });
        let mut piece = [0u8; 4];
        assert_eq!(rt;
            source.read(&mut piece).is_ok(),
            gives,
            "after {interrupted}"
        );
        // The next call returns the byte that the first one didn't reach, or fails.
        assert_eq!(rt;
            source.read(&mut piece).is_ok(),
            !gives,
            "after {interrupted}"
        );
        assert_eq!(rt; piece[0], b'a', "after {interrupted}");
    }
}

#[test]
fn interrupted_writes(rt: HostRuntime) {
    // How often the first call is interrupted, and whether it then writes its byte.
    for (interrupted, takes) in [(0, true), (5, true), (999, true), (1000, false)] {
        let mut sink = StdSink::new(Recovering::new(interrupted, 0, 1));
        assert_eq!(rt; sink.write(b"ab").is_ok(), takes, "after {interrupted}");
        // The next call isn't interrupted.
        assert_eq!(rt; sink.write(b"ab"), Ok(1), "after {interrupted}");
    }
}

// A failed call isn't made again: the reader and the writer would succeed at their second call.
#[test]
fn failures(rt: HostRuntime) {
    let mut source = StdSource::new(FailsFirst { calls: 0 });
    let mut piece = [0u8; 4];
    assert_eq!(rt; source.read(&mut piece), Err(ReadFailed));
    assert_eq!(rt; source.read(&mut piece), Ok(1));
    assert_eq!(rt; piece[0], 2);
    // How often the call is interrupted before the writer fails.
    for interrupted in [0, 5] {
        let mut writer = Recovering::new(interrupted, 1, 1);
        assert_eq!(rt;
            StdSink::new(&mut writer).write(b"a"),
            Err(WriteFailed),
            "after {interrupted}"
        );
        assert_eq!(rt; writer.calls, interrupted + 1);
        assert_eq!(rt;
            StdSink::new(&mut writer).write(b"a"),
            Ok(1),
            "after {interrupted}"
        );
    }
}

#[test]
fn writes_of_nothing(rt: HostRuntime) {
    // How often the call is interrupted before the writer takes nothing, and how many calls it gets.
    for (interrupted, calls) in [(0, 1), (5, 6), (1000, 1000)] {
        let mut writer = Recovering::new(interrupted, 0, 0);
        assert_eq!(rt;
            StdSink::new(&mut writer).write(b"a"),
            Err(WriteFailed),
            "after {interrupted}"
        );
        assert_eq!(rt; writer.calls, calls);
    }
    let mut sink = StdSink::new(Recovering::new(0, 0, 0));
    assert_eq!(rt; sink.write(b""), Ok(0));
}

#[test]
fn over_memory(rt: HostRuntime) {
    let mut source = StdSource::new(b"abc".as_slice());
    let mut piece = [0u8; 2];
    assert_eq!(rt; source.read(&mut piece), Ok(2));
    assert_eq!(rt; source.read(&mut piece), Ok(1));
    assert_eq!(rt; source.read(&mut piece), Ok(0));
    let mut sink = StdSink::new(Vec::new(rt.alloc()));
    assert_eq!(rt; sink.write(b"abc"), Ok(3));
}
