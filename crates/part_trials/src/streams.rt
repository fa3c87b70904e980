//! Sources and sinks over std's readers and writers, and what they make of a call that fails or is
//! interrupted.
use hac_outside::{Failed, Sink, Source, StdSink, StdSource, write_all};
use std::io::{self, BufWriter, ErrorKind, Read, Write};
use std::test::Fail;

#[test]
fn source_over_a_reader(rt: HostRuntime) {
    let text: &[u8] = b"abcd";
    let mut source = StdSource::new(text);
    let mut into = [0; 3];
    assert_eq!(rt; source.read(&mut into), Ok(3));
    assert_eq!(rt; into, *b"abc");
    assert_eq!(rt; source.read(&mut into), Ok(1));
    assert_eq!(rt; into, *b"dbc");
}

#[test]
fn sink_over_a_writer(rt: HostRuntime) -> Result<(), Fail> {
    let held = BufWriter::new(rt.alloc(), Vec::new(rt.alloc()))?;
    let mut sink = StdSink::new(held);
    assert_eq!(rt; write_all(&mut sink, &[b'x'; 2000]), Ok(()));
    assert_eq!(rt; sink.inner.get_ref().len(), 0);
    assert_eq!(rt; sink.flush(), Ok(()));
    assert_eq!(rt; sink.inner.get_ref().len(), 2000);
    Ok(())
}

/// The first call of it is interrupted, the second fails, and those behind it succeed.
#[derive(Drop)]
struct Stumbling {
    calls: u64,
}

impl Stumbling {
    fn call(&mut self) -> io::Result<()> {
        self.calls = self.calls.saturating_add(1);
        match self.calls {
            1 => Err(io::Error::from(ErrorKind::Interrupted)),
            2 => Err(io::Error::from(ErrorKind::Other)),
            _ => Ok(()),
        }
    }
}

impl Read for Stumbling {
    fn read(&mut self, _into: &mut [u8]) -> io::Result<usize> {
        self.call()?;
        Ok(0)
    }
}

impl Write for Stumbling {
    fn write(&mut self, bytes: &[u8]) -> io::Result<usize> {
        self.call()?;
        Ok(bytes.len())
    }

    fn flush(&mut self) -> io::Result<()> {
        self.call()
    }
}

// An interrupted call is tried again, and one that failed isn't: it is reported at once.
#[test]
fn failures_are_told_at_once(rt: HostRuntime) {
    let mut source = StdSource::new(Stumbling { calls: 0 });
    assert_eq!(rt; source.read(&mut [0; 3]), Err(Failed));
    assert_eq!(rt; source.inner.calls, 2);
    let mut sink = StdSink::new(Stumbling { calls: 0 });
    assert_eq!(rt; sink.write(b"ab"), Err(Failed));
    assert_eq!(rt; sink.inner.calls, 2);
    let mut sink = StdSink::new(Stumbling { calls: 0 });
    assert_eq!(rt; sink.flush(), Err(Failed));
    assert_eq!(rt; sink.inner.calls, 2);
}
