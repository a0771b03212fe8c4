// The two checks over the planned drive, and what they are worth.
use crate::blocks::{UNSIGNED_TWO, drive, number, opened};
use sercos_block::numbers::{INVALID_FOR_PHASE_2, PHASE_3_CHECK, PHASE_4_CHECK};
use sercos_block::{DriveSetup, Store};
use sercos_command::{Commands, check127, check128, is_command};
use sercos_idn::Idn;
use std::alloc::{AllocError, Global};
use std::test::Fail;

// The drive's store with the times of its plan, but for T1. None where a write is refused.
fn planned(alloc: Global, setup: &DriveSetup, t1: u16) -> Result<Option<Store>, AllocError> {
    // The lists S-0-0016 and S-0-0024 have one identifier number.
    let numbers: [(u16, u16); 11] = [
        (1, 250),
        (2, 250),
        (6, t1),
        (7, 230),
        (8, 98),
        (9, 1),
        (10, 8),
        (15, 7),
        (16, 51),
        (24, 47),
        (89, 47),
    ];
    let Some(mut store) = opened(alloc, setup)? else {
        return Ok(None);
    };
    for (raw, number) in numbers {
        if store.put(Idn { raw }, &number.to_le_bytes(), 2).is_err() {
            return Ok(None);
        }
    }
    Ok(Some(store))
}

// The drive can't send before 10 microseconds. At 4 Mbit/s an AT with one value of four bytes, 121 bits at most, that begins at
// 10 ends at bit time 161. The drive's 6 microseconds after it end at 185, and T2 is 188: one microsecond later is too late.
#[test]
fn unfit_for_phase_3(rt: HostRuntime) -> Result<(), Fail> {
    let setup = drive(rt.alloc())?;
    let rows: [(u16, &'static [Idn]); 3] = [
        (10, &[]),
        (9, &[Idn { raw: 6 }]),
        (11, &[Idn { raw: 89 }]),
    ];
    for (t1, unfit) in rows {
        let store = planned(rt.alloc(), &setup, t1)?.expect(&rt, "the writes are taken");
        assert_eq!(rt; check127(4, &store).as_slice(), unfit, "{t1}");
    }
    Ok(())
}

// P-0-0010 is at most 100.
#[test]
fn unfit_for_phase_4(rt: HostRuntime) -> Result<(), Fail> {
    let rows: [(u8, &'static [Idn]); 2] = [(50, &[]), (200, &[Idn { raw: 0x800a }])];
    for (value, unfit) in rows {
        let mut setup = drive(rt.alloc())?;
        let block = number(0x800a, UNSIGNED_TWO, Some(10), Some(100), &[value, 0]);
        setup.blocks.push(block.expect(&rt, "a block"))?;
        let store = planned(rt.alloc(), &setup, 10)?.expect(&rt, "the writes are taken");
        assert_eq!(rt; check128(&store).as_slice(), unfit, "{value}");
    }
    Ok(())
}

// The check for phase 3, set in cycle 100 by a drive whose commands run for five cycles.
#[test]
fn passed(rt: HostRuntime) -> Result<(), Fail> {
    let setup = drive(rt.alloc())?;
    // T1, the data status at the end, whether the check is passed, and what is unfit.
    let rows: [(u16, u16, bool, &'static [u8]); 2] = [(10, 3, true, &[]), (9, 15, false, &[6, 0])];
    for (t1, status, passed, unfit) in rows {
        let mut store = planned(rt.alloc(), &setup, t1)?.expect(&rt, "the writes are taken");
        let mut commands = Commands::new(4, 5);
        assert!(rt; is_command(&store, PHASE_3_CHECK));
        commands.write(PHASE_3_CHECK, 3, 100, &mut store);
        assert_eq!(rt; store.data(INVALID_FOR_PHASE_2), unfit, "{t1}");
        assert_eq!(rt; commands.status(PHASE_3_CHECK, 104), 7, "{t1}");
        assert_eq!(rt; commands.status(PHASE_3_CHECK, 105), status, "{t1}");
        assert!(rt; !commands.passed127(104), "{t1}");
        assert_eq!(rt; commands.passed127(105), passed, "{t1}");
        assert!(rt; is_command(&store, PHASE_3_CHECK));
        commands.write(PHASE_3_CHECK, 0, 106, &mut store);
        assert_eq!(rt; commands.status(PHASE_3_CHECK, 106), 0, "{t1}");
        assert_eq!(rt; commands.passed127(106), passed, "{t1}");
        commands.written(107);
        assert!(rt; !commands.passed127(107), "{t1}");
    }
    Ok(())
}

// The check for phase 4 counts as passed until phase 0.
#[test]
fn passed_for_phase_4(rt: HostRuntime) -> Result<(), Fail> {
    let setup = drive(rt.alloc())?;
    let mut store = planned(rt.alloc(), &setup, 10)?.expect(&rt, "the writes are taken");
    let mut commands = Commands::new(4, 0);
    assert!(rt; is_command(&store, PHASE_4_CHECK));
    commands.write(PHASE_4_CHECK, 3, 100, &mut store);
    assert!(rt; commands.change(100));
    assert!(rt; commands.passed128(100));
    commands.reset();
    assert!(rt; !commands.change(101));
    assert!(rt; !commands.passed128(101));
    Ok(())
}
