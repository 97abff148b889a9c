// Expected value: by hand from "What is told of a wrong recording" in docs/FORMATS.md, before the program ran. No word
// of the program tells it: `explain` reads no bytes as an encounter.
use rec_audit::{Explained, explain};
use std::alloc::Global;
use std::test::Fail;

const TOLD: &[u8] = b"line 1: this line has to be \"recording,1\", and is missing\n";

fn are_no_bytes_told(alloc: Global) -> Result<bool, Fail> {
    let bytes = Vec::<u8>::new(alloc);
    match explain(alloc, bytes.as_slice())? {
        Explained::Legal(_) => Ok(false),
        Explained::Wrong(_, _, told) => Ok(told.bytes() == TOLD),
    }
}

#[test]
fn no_bytes_are_told(rt: HostRuntime) -> Result<(), Fail> {
    assert!(rt; are_no_bytes_told(rt.alloc())?);
    Ok(())
}
