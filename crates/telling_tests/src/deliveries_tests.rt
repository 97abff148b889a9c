// Expected values: by hand from "What became of the messages" in docs/FORMATS.md and from the tables of messages in the
// cases of crates/case_tests/data.
use crate::serial_runs::{LEVEL, LOST, encounter_of, met};
use acas_base::Fate;
use air_journal::AirState;
use deliveries::{Deliveries, Mishap, Row, missed};
use std::alloc::Global;
use std::test::Fail;
use test_encounters::miss;

// What the value says of the messages of examples/lost-messages.enc.
fn says_rows(deliveries: &Deliveries) -> bool {
    if deliveries.state().enc().crafts().len() < 2 {
        return false;
    }
    let numbers = deliveries.numbers(Mishap::Lost, 0, 1);
    let back = deliveries.numbers(Mishap::Lost, 1, 0);
    let rows = numbers.row_at(1) == Some(Row { first: 1, last: 3 })
        && numbers.row_at(2).is_none()
        && numbers.is_marked(3)
        && !numbers.is_marked(4)
        && !back.has_marks();
    if deliveries.sent(0, 1) != 6 {
        return false;
    }
    rows && numbers.len() == 6
        && back.len() == 6
        && deliveries.befalls(Mishap::Lost, 0, 1, 2)
        && deliveries.counts().of(Mishap::Lost) == 3
        && deliveries.counts().sent == 12
}

fn says_rows_of(alloc: Global, state: AirState) -> Result<bool, Fail> {
    let deliveries = Deliveries::new(alloc, state)?;
    Ok(says_rows(&deliveries))
}

const FIRST_THREE: &[Fate] = &[LOST, Fate { number: 2, ..LOST }, Fate { number: 3, ..LOST }];

// The cycles of a miss that the run cuts.
fn misses_to_the_end(alloc: Global) -> Result<bool, Fail> {
    let enc = encounter_of(alloc, &LEVEL, &[miss(1, 0, 30, 40)], FIRST_THREE)?;
    let cycles = missed(&enc, 1, 0);
    Ok(
        cycles.len() == 31
            && cycles.row_at(30)
                == Some(Row {
                    first: 30,
                    last: 31,
                }),
    )
}

#[test]
fn tells_rows(rt: HostRuntime) -> Result<(), Fail> {
    let alloc = rt.alloc();
    let state = met(alloc, &LEVEL, &[miss(1, 0, 30, 40)], FIRST_THREE)?;
    assert!(rt; says_rows_of(alloc, state)?);
    assert!(rt; misses_to_the_end(alloc)?);
    Ok(())
}
