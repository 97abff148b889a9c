// Expected values: by hand, of five bytes and of single calls.
use acas_io::{
    Failed, InError, MemSink, MemSource, Sink, Source, StdSink, StdSource, SureSink, SureSource,
    read_all, write_all,
};
use std::alloc::{AllocError, Global};
use std::io;
use std::io::{ErrorKind, Read, Write};

fn source(alloc: Global, fails: &[u64]) -> Result<MemSource, AllocError> {
    let bytes = b"bytes".to_vec(alloc)?;
    Ok(MemSource::new(bytes, 2, fails.to_vec(alloc)?))
}

// Whether this is what was read.
fn is_read(read: Result<Vec<u8>, InError>, want: Result<&[u8], InError>) -> bool {
    match read {
        Ok(bytes) => want == Ok(bytes.as_slice()),
        Err(error) => want == Err(error),
    }
}

// Whether this is read of five bytes up to a limit, and so many faults are counted. A read gives two bytes, and these
// reads fail.
fn reads(
    alloc: Global,
    fails: &[u64],
    limit: usize,
    want: Result<&[u8], InError>,
    faults: u64,
) -> Result<bool, AllocError> {
    let mut source = source(alloc, fails)?;
    Ok(is_read(read_all(alloc, &mut source, limit), want) && source.faults() == faults)
}

// Whether a source that never fails gives all of its bytes.
fn reads_surely(alloc: Global, bytes: &[u8]) -> Result<bool, AllocError> {
    let mut source = SureSource::new(bytes.to_vec(alloc)?);
    Ok(is_read(read_all(alloc, &mut source, bytes.len()), Ok(bytes)))
}

#[test]
fn reads_up_to_the_limit(rt: HostRuntime) -> Result<(), AllocError> {
    let alloc = rt.alloc();
    assert!(rt; reads(alloc, &[], 5, Ok(b"bytes"), 0)?);
    assert!(rt; reads(alloc, &[], 4, Err(InError::TooLong), 0)?);
    assert!(rt; reads(alloc, &[2], 5, Err(InError::ReadFault), 1)?);
    assert!(rt; reads_surely(alloc, b"bytes")?);
    Ok(())
}

// An input of 8,192 bytes is one read. One more shows its end.
#[test]
fn reads_much_at_once(rt: HostRuntime) -> Result<(), AllocError> {
    let bytes = vec![in rt.alloc(); 0; 8_192]?;
    let mut source = MemSource::new(bytes, 8_192, [3].to_vec(rt.alloc())?);
    assert!(rt; read_all(rt.alloc(), &mut source, 8_192).is_ok());
    Ok(())
}

// Whether two pieces are written whole to a sink with room for one. It takes two bytes at a time, and fails when it is
// full.
fn writes_one(alloc: Global, piece: &[u8], other: &[u8]) -> Result<bool, AllocError> {
    let room = Vec::with_capacity(alloc, piece.len())?;
    let mut sink = MemSink::new(room, 2, [4].to_vec(alloc)?);
    let written = write_all(&mut sink, piece).is_ok() && write_all(&mut sink, b"").is_ok();
    let more = write_all(&mut sink, other);
    Ok(written && more.is_err() && sink.bytes() == piece && sink.faults() == 1)
}

// Whether a sink that never fails keeps what it has room for.
fn keeps(alloc: Global, piece: &[u8], want: &[u8]) -> Result<bool, AllocError> {
    let mut sink = SureSink::new(Vec::with_capacity(alloc, want.len())?);
    Ok(write_all(&mut sink, piece).is_ok() && sink.bytes() == want)
}

#[test]
fn writes_whole_pieces(rt: HostRuntime) -> Result<(), AllocError> {
    assert!(rt; writes_one(rt.alloc(), b"bytes", b"more")?);
    assert!(rt; keeps(rt.alloc(), b"bytes", b"byt")?);
    Ok(())
}

// A reader that gives at most so many bytes at a time. The read of this number, from 1, fails.
#[derive(Drop)]
struct Input {
    most: usize,
    failing: u64,
    reads: u64,
}

impl Read for Input {
    fn read(&mut self, buf: &mut [u8]) -> io::Result<usize> {
        self.reads = self.reads.saturating_add(1);
        if self.reads == self.failing {
            return Err(ErrorKind::Other.into());
        }
        Ok(buf.len().min(self.most))
    }
}

// A writer that takes at most so many bytes at a time, and notes whether bytes are left unflushed. The write and the
// flush of these numbers, from 1, fail.
#[derive(Drop)]
struct Output {
    most: usize,
    failing_write: u64,
    failing_flush: u64,
    writes: u64,
    flushes: u64,
    unflushed: bool,
}

impl Write for Output {
    fn write(&mut self, buf: &[u8]) -> io::Result<usize> {
        self.writes = self.writes.saturating_add(1);
        if self.writes == self.failing_write {
            return Err(ErrorKind::Other.into());
        }
        self.unflushed = true;
        Ok(buf.len().min(self.most))
    }

    fn flush(&mut self) -> io::Result<()> {
        self.flushes = self.flushes.saturating_add(1);
        if self.flushes == self.failing_flush {
            return Err(ErrorKind::Other.into());
        }
        self.unflushed = false;
        Ok(())
    }
}

// How many bytes a reader gives at most, which of its reads fails, what two reads give, and how many faults they count.
type Twice = (
    usize,
    u64,
    Result<usize, Failed>,
    Result<usize, Failed>,
    u64,
);

const TWICE: &[Twice] = &[
    (8192, 0, Ok(8192), Ok(8192), 0),
    (1, 2, Ok(1), Err(Failed), 1),
    (1, 1, Err(Failed), Ok(1), 1),
];

fn reads_twice(buf: &mut [u8], row: &Twice) -> bool {
    let (most, failing, first, second, faults) = *row;
    let mut input = Input {
        most,
        failing,
        reads: 0,
    };
    let mut source = StdSource::new(&mut input);
    source.read(buf) == first
        && source.read(buf) == second
        && source.faults() == faults
        && input.reads == 2
}

// Each read asks the reader once, also after a short read, after one that failed, and into a large buffer.
#[test]
fn reads_the_reader_once(rt: HostRuntime) {
    let mut buf = [0; 8192];
    for place in 0..TWICE.len() {
        assert!(rt; reads_twice(&mut buf, &TWICE[place]));
    }
}

// A read that failed is not tried again.
#[test]
fn reads_no_more_after_a_fault(rt: HostRuntime) {
    let mut input = Input {
        most: 1,
        failing: 2,
        reads: 0,
    };
    let mut source = StdSource::new(&mut input);
    assert!(rt; read_all(rt.alloc(), &mut source, 5) == Err(InError::ReadFault));
    assert_eq!(rt; input.reads, 2);
}

// How many bytes a writer takes at most, which of its writes and flushes fail, what a write gives, and how many faults
// and flushes it counts.
type Once = (usize, u64, u64, Result<usize, Failed>, u64, u64);

const ONCE: &[Once] = &[
    (8192, 0, 0, Ok(8192), 0, 1),
    (2, 0, 0, Ok(2), 0, 1),
    (0, 0, 0, Err(Failed), 1, 0),
    (2, 1, 0, Err(Failed), 1, 0),
    (2, 0, 1, Err(Failed), 1, 1),
];

fn writes_once(piece: &[u8], row: &Once) -> bool {
    let (most, failing_write, failing_flush, want, faults, flushes) = *row;
    let mut output = Output {
        most,
        failing_write,
        failing_flush,
        writes: 0,
        flushes: 0,
        unflushed: false,
    };
    let mut sink = StdSink::new(&mut output);
    sink.write(piece) == want
        && sink.faults() == faults
        && output.writes == 1
        && output.flushes == flushes
        && (want.is_err() || !output.unflushed)
}

// Each write asks the writer once, and flushes what it took. That holds of a large piece, too. After an error it
// doesn't ask again.
#[test]
fn writes_and_flushes_once(rt: HostRuntime) {
    for place in 0..ONCE.len() {
        assert!(rt; writes_once(&[0; 8192], &ONCE[place]));
    }
}
