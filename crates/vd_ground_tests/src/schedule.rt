//! Schedules by example: the turns, the limit, and the first malformed line.

use std::alloc::{AllocError, Global};
use vd_machine::Turn;
use vd_schedule::{ScheduleFault, parse_schedule};

/// What is wanted of a schedule: so many turns, or the fault.
#[derive(Clone, Copy, Debug, PartialEq, Eq)]
enum Wanted {
    Turns(usize),
    TooMany,
    Bad(usize),
}

const SCHEDULES: &[(&[u8], Wanted)] = &[
    (b"", Wanted::Turns(0)),
    (b"0 1 6\n1 1 6\n2 1 6\n0 1 7\n", Wanted::Turns(25)),
    (b"4294967295 0 1\n", Wanted::Turns(1)),
    (b"0 1 999\n", Wanted::Turns(999)),
    (b"0 1 1000001\n", Wanted::TooMany),
    (b"0 1 4294967295\nx\n", Wanted::TooMany),
    (b"0 1 999999\n0 0 2\n0 1", Wanted::TooMany),
    (b"0 1 1000000\nx\n", Wanted::Bad(2)),
    (b"x\n0 1 4294967295\n", Wanted::Bad(1)),
    (b"0 2 1\n", Wanted::Bad(1)),
    (b"0 1 1\n0 1 0\n", Wanted::Bad(2)),
    (b"0 1 1\n0 1 1", Wanted::Bad(2)),
    (b"0 1 1\n\n", Wanted::Bad(2)),
    (b"00 1 1\n", Wanted::Bad(1)),
    (b"0 01 1\n", Wanted::Bad(1)),
    (b"0 1 01\n", Wanted::Bad(1)),
    (b"+1 1 1\n", Wanted::Bad(1)),
    (b"0 1 +1\n", Wanted::Bad(1)),
    (b"0  1 1\n", Wanted::Bad(1)),
    (b"0 1 1 \n", Wanted::Bad(1)),
    (b" 0 1 1\n", Wanted::Bad(1)),
    (b"0 1 1\r\n", Wanted::Bad(1)),
    (b"4294967296 1 1\n", Wanted::Bad(1)),
    (b"0 1 4294967296\n", Wanted::Bad(1)),
];

fn answer(alloc: Global, bytes: &[u8]) -> Result<Wanted, AllocError> {
    match parse_schedule(alloc, bytes) {
        Ok(turns) => Ok(Wanted::Turns(turns.len())),
        Err(ScheduleFault::TooMany) => Ok(Wanted::TooMany),
        Err(ScheduleFault::Bad(line)) => Ok(Wanted::Bad(line)),
        Err(ScheduleFault::Memory(fault)) => Err(fault),
    }
}

#[test]
fn schedules_are_read(rt: HostRuntime) -> Result<(), AllocError> {
    for (number, (bytes, want)) in SCHEDULES.iter().enumerate() {
        let answered = answer(rt.alloc(), bytes)?;
        assert_eq!(rt; answered, *want, "schedule {number}");
    }
    Ok(())
}

#[test]
fn turns_keep_their_order(rt: HostRuntime) -> Result<(), AllocError> {
    let Ok(turns) = parse_schedule(rt.alloc(), b"3 0 2\n1 1 1\n") else {
        return Err(AllocError);
    };
    let wait = Turn {
        thread: 3,
        pick: false,
    };
    let go = Turn {
        thread: 1,
        pick: true,
    };
    assert!(rt; turns.as_slice() == [wait, wait, go].as_slice());
    Ok(())
}
