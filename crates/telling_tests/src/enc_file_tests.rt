// Expected values: by hand from "Canonical text" in docs/FORMATS.md. A write of an encounter's text fails.
use acas_io::{MemSink, Sink};
use enc_file::{read, write};
use std::alloc::{AllocError, Global};
use std::test::Fail;

const FORMAT_2: &[u8] =
    b"encounter,2\nrun,31,-500\ngains,1024,0,1,2\ncraft,400A01,RA,0,-20,35000\ncraft,0B0002,XPDR,91200,-20,35000\ncraft,FFFFFE,TA,-1000000,-20,35000\nclimb,400A01,-1000\nclimb,FFFFFE,36000\nleg,0B0002,600,-2000,0,10000\nmiss,FFFFFE,400A01,7,9\nplan,400A01,FFFFFE,0,00,60,C1\nfate,400A01,FFFFFE,1\nfate,400A01,FFFFFE,12,60,C1,0,00,5,0A\nend\n";

// A sink with room for the text, which takes pieces of 16 bytes.
fn sink(alloc: Global, fails: &[u64]) -> Result<MemSink, AllocError> {
    let fails = fails.to_vec(alloc)?;
    Ok(MemSink::new(Vec::with_capacity(alloc, 1_000)?, 16, fails))
}

// Whether a sink has these bytes, and so many writes failed.
fn has(sink: &MemSink, fails: u64, want: &[u8]) -> bool {
    sink.bytes() == want && sink.faults() == fails
}

// Whether this front of an encounter's text is written, where the third write of 16 bytes fails.
fn is_front_written(alloc: Global, text: &[u8], want: &[u8]) -> Result<bool, Fail> {
    if text.len() > 1_000 {
        return Err("too long".into());
    }
    let encounter = read(alloc, text)?;
    let mut sink = sink(alloc, &[3])?;
    let written = write(&encounter, &mut sink).is_ok();
    Ok(!written && has(&sink, 1, want))
}

#[test]
fn a_failed_write_leaves_a_front(rt: HostRuntime) -> Result<(), Fail> {
    assert!(rt; is_front_written(rt.alloc(), FORMAT_2, &FORMAT_2[..32])?);
    Ok(())
}
