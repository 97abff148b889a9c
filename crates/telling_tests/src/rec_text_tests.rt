// A recording whose first write fails.
use acas_io::{MemSink, Sink};
use air_journal::AirState;
use rec_text::write;
use std::alloc::{AllocError, Global};
use std::test::Fail;

const ENCOUNTER: &[u8] =
    b"encounter,1\nrun,2,-500\ngains,683,256,512,128\ncraft,400A01,TA,0,0,35000\ncraft,400B02,XPDR,91200,0,35300\nend\n";

fn sink(alloc: Global, fails: &[u64]) -> Result<MemSink, AllocError> {
    let room = Vec::with_capacity(alloc, 1_000)?;
    Ok(MemSink::new(room, 1_000, fails.to_vec(alloc)?))
}

// The empty journal of the encounter that a text says.
fn state_of(alloc: Global, text: &[u8]) -> Result<AirState, Fail> {
    if text.len() > 1_000 {
        return Err("too long".into());
    }
    match enc_file::read(alloc, text) {
        Ok(encounter) => Ok(AirState::new(alloc, &encounter)?),
        Err(_) => Err("refused".into()),
    }
}

// Whether nothing of a recording is written where the first write fails.
fn is_unwritten(alloc: Global, state: &AirState) -> Result<bool, Fail> {
    let mut sink = sink(alloc, &[1])?;
    let written = write(state, &mut sink);
    Ok(written.is_err() && sink.bytes().is_empty() && sink.faults() == 1)
}

// The same of the empty journal of the encounter that a text says.
fn is_unrecorded(alloc: Global, text: &[u8]) -> Result<bool, Fail> {
    let state = state_of(alloc, text)?;
    is_unwritten(alloc, &state)
}

#[test]
fn writes_nothing_where_the_first_write_fails(rt: HostRuntime) -> Result<(), Fail> {
    assert!(rt; is_unrecorded(rt.alloc(), ENCOUNTER)?);
    Ok(())
}
