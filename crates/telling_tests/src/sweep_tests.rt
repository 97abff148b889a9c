// Expected values: by hand, since the job says at which number it wants memory.
use std::alloc::AllocError;
use std::test::Fail;
use sweep::{Counts, Job, run};

// Counts a number itself, and its last digit; it wants memory at one number.
#[derive(Drop)]
struct Digits {
    wanting: u32,
}

impl Job for Digits {
    ghost use Rattle.std.specs.Prelude.{◌≡◌};

    type Given = Counts;

    ghost means = { λ job number counts. counts.commits ≡ number };

    fn one(&self, number: u32) -> Result<Counts, AllocError> {
        if number == self.wanting {
            return Err(AllocError);
        }
        Ok(Counts {
            commits: number,
            sends: number % 10,
            takes: 0,
            lines: 1,
        })
    }
}

#[test]
fn gives_none_where_one_job_wants_memory(rt: HostRuntime) {
    let job = Digits { wanting: 2_000 };
    assert!(rt; run(&rt, rt.alloc(), 0, 4_096, &job).is_err());
    assert!(rt; run(&rt, rt.alloc(), 2_001, 1_000, &job).is_ok());
}
