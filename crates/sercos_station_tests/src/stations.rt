// The stations by their calls: a drive and a master that hand each other contents without bits, and the drives of a ring.
ghost use Rattle.std.specs.Prelude.{◌≡◌, ◌+◌, ◌<◌, ◌≤◌, ◌^◌};
ghost use Rattle.sercos_ring.specs.Kept.{AfterCycle, cycles_made, drives_in};

use arrayvec::ArrayVec;
use sercos_bits::Content;
use sercos_block::check_blocks;
use sercos_config::{Document, read_ring};
use sercos_drive::Drive;
use sercos_idn::Idn;
use sercos_master::AnyMaster;
use sercos_ring::Ring;
use sercos_script::{BitLink, Scripted};
use sercos_trace::{Events, Fall};
use std::alloc::{AllocError, Global};
use std::process::Abort;
use std::test::Fail;

// A ring of one drive. Its AT has the feedback value S-0-0051, which grows by 10 in each cycle, and its data record the command
// value S-0-0047.
const ONE_DRIVE: &str = r#"[ring]
rate = 4
cycle = 250
gap = 5
cycles = 300

[[drive]]
address = 1
t1min = 10
tatmt = 6
t4min = 20
tatat = 5
tmtsy = 10
tmtsg = 20
at = ["S-0-0051"]
mdt = ["S-0-0047"]

[[drive.block]]
idn = "S-0-0047"
attribute = 0x00220001

[[drive.block]]
idn = "S-0-0051"
attribute = 0x00220001
data = 64500
step = 10
"#;

fn no_events() -> Events {
    Events {
        outcomes: ArrayVec::new(),
        plan: None,
        stop: None,
        fall: None,
    }
}

// Both ends of the ring of one drive, before their first cycle.
fn opened(alloc: Global) -> Result<Option<(Drive, AnyMaster)>, AllocError> {
    let Ok(document) = read_ring(alloc, ONE_DRIVE.as_bytes()) else {
        return Ok(None);
    };
    let Some(setup) = document.setup.drives.first() else {
        return Ok(None);
    };
    if setup.blocks.len() > 36 {
        return Ok(None);
    }
    match check_blocks(setup) {
        Ok(()) => {
            let drive = Drive::open(alloc, setup, document.setup.rate)?;
            let master = AnyMaster::open(alloc, &document.setup, Vec::new(alloc))?;
            Ok(Some((drive, master)))
        }
        Err(_) => Ok(None),
    }
}

// The first half of a cycle: the MST, which returns to the master, and arrives at the drive unless that is deaf.
fn begin(cycle: u32, drive: &mut Drive, master: &mut AnyMaster, is_deaf: bool) {
    let mut mst = Content::new();
    master.mst(&mut mst);
    if is_deaf {
        drive.hear_mst(cycle, None);
    } else {
        drive.hear_mst(cycle, Some(mst.as_slice()));
    }
    master.hear_mst(Some(mst.as_slice()));
}

// The second half: the AT, unless it is withheld, and the MDT. The events are those of this cycle.
fn end(
    drive: &mut Drive,
    mut master: AnyMaster,
    is_withheld: bool,
    events: &mut Events,
) -> AnyMaster {
    let mut at = Content::new();
    if drive.at(&mut at).is_some() && !is_withheld {
        master.hear_at(at.as_slice());
    }
    let mut mdt = Content::new();
    match master.mdt(&mut mdt) {
        Some(_) => drive.hear_mdt(Some(mdt.as_slice())),
        None => drive.hear_mdt(None),
    }
    events.clear();
    master.end_cycle(events)
}

// The phase that is commanded in a cycle of an undisturbed start-up. The last answer of phase 2 arrives in cycle 94.
fn phase_of(cycle: u32) -> u8 {
    match cycle {
        0..=9 => 0,
        10..=11 => 1,
        12..=94 => 2,
        95..=99 => 3,
        _ => 4,
    }
}

// A run of both ends, of which telegrams are withheld.
#[derive(Clone, Copy)]
struct Story {
    cycles: u32,
    // from which cycle on and up to which one the AT is withheld
    withheld: (u32, u32),
    // the same for the MST that the drive would get
    deaf: (u32, u32),
    // the cycle of the fall, and its cause
    fallen: u32,
    cause: Option<Fall>,
}

const NEVER: (u32, u32) = (1000, 0);

// An undisturbed start-up; each AT from cycle 13 on withheld; and the ATs of 120 and 121, after which the drive is deaf to the MSTs of
// 122 and 123. At the second of these it goes to phase 0, before its MDT.
const STORIES: [Story; 3] = [
    Story {
        cycles: 110,
        withheld: NEVER,
        deaf: NEVER,
        fallen: 1000,
        cause: None,
    },
    Story {
        cycles: 78,
        withheld: (13, 1000),
        deaf: NEVER,
        fallen: 76,
        cause: Some(Fall::StepLimit(1)),
    },
    Story {
        cycles: 124,
        withheld: (120, 121),
        deaf: (122, 123),
        fallen: 121,
        cause: Some(Fall::AtLost(1)),
    },
];

fn is_within(cycle: u32, cycles: (u32, u32)) -> bool {
    cycles.0 <= cycle && cycle <= cycles.1
}

// In each cycle the phase that is commanded and that of the drive before the MDT, whether the plan is reported, and the fall.
fn check(rt: &impl Abort, alloc: Global, story: &Story) -> Result<(), Fail> {
    let (mut drive, mut master) = opened(alloc)?.expect(rt, "a drive and a master");
    let mut events = no_events();
    for cycle in 0..story.cycles {
        let phase = if story.fallen < cycle {
            0
        } else {
            phase_of(cycle)
        };
        // deaf to a first MST, the drive stays in its phase
        let stays = if cycle == story.deaf.0 { 4 } else { phase };
        let fall = if cycle == story.fallen {
            story.cause
        } else {
            None
        };
        begin(cycle, &mut drive, &mut master, is_within(cycle, story.deaf));
        let phases = (master.command(), drive.phase());
        master = end(
            &mut drive,
            master,
            is_within(cycle, story.withheld),
            &mut events,
        );
        let told = (phases, events.plan.is_some(), events.fall);
        assert_eq!(rt;
            told,
            ((phase, stays), cycle == 42 && story.fallen != 76, fall),
            "in cycle {cycle}"
        );
    }
    Ok(())
}

#[test]
fn stories(rt: HostRuntime) -> Result<(), Fail> {
    for story in &STORIES {
        check(&rt, rt.alloc(), story)?;
    }
    Ok(())
}

// The drive at the end of phase 2, its check passed.
fn checked(alloc: Global) -> Result<Option<Drive>, AllocError> {
    let Some((mut drive, mut master)) = opened(alloc)? else {
        return Ok(None);
    };
    let mut events = no_events();
    for cycle in 0..95u32 {
        begin(cycle, &mut drive, &mut master, false);
        master = end(&mut drive, master, false, &mut events);
    }
    Ok(Some(drive))
}

// Hands a drive the MST of a phase and an MDT, and compares the content of its AT.
fn step(rt: &impl Abort, drive: &mut Drive, cycle: u32, phase: u8, wanted: &[u8], mdt: &[u8]) {
    drive.hear_mst(cycle, Some(&[255, phase]));
    let mut at = Content::new();
    let _start = drive.at(&mut at);
    assert_eq!(rt; at.as_slice(), wanted, "in cycle {cycle}");
    drive.hear_mdt(Some(mdt));
}

// The drive gets the open of S-0-0024 and the first word of a new list. After the MST of phase 3 the next word is in an MDT to all
// drives: the list is protected there, and stays. S-0-0051 is 64500 + 970 in cycle 97.
#[test]
fn list_written_across_phases(rt: HostRuntime) -> Result<(), Fail> {
    let mut drive = checked(rt.alloc())?.expect(&rt, "a drive");
    step(&rt, &mut drive, 95, 2, &[], &[1, 15, 0, 24, 0]);
    step(&rt, &mut drive, 96, 2, &[1, 1, 0, 0, 0], &[1, 58, 0, 2, 0]);
    let word = [255, 59, 0, 0, 0, 0, 0, 0, 0];
    step(
        &rt,
        &mut drive,
        97,
        3,
        &[1, 0, 0, 0, 0, 190, 255, 0, 0],
        &word,
    );
    step(
        &rt,
        &mut drive,
        98,
        3,
        &[1, 5, 0, 5, 0x70, 200, 255, 0, 0],
        &word,
    );
    assert_eq!(rt; drive.phase(), 3);
    assert_eq!(rt; drive.store().data(Idn { raw: 24 }), [47, 0].as_slice());
    Ok(())
}

// A write of S-0-0047 whose answer is lost in cycle 105.
const LOST_ANSWER: &str = r#"
[[request]]
drive = 1
kind = "write"
idn = "S-0-0047"
data = "01000000"

[[fault]]
kind = "lose"
cycle = 105
telegram = "at"
from = 1
link = 1
"#;

// Goes on by a cycle.
fn go_on<L: BitLink>(ring: &mut Ring<L>)
    requires made { cycles_made ring.old < 2 ^ 31 }
    ensures after { AfterCycle L.carry L.restart ring.old ring.new }
{
    let _record = ring.cycle();
}

// Goes on by a number of cycles.
fn run<L: BitLink>(ring: &mut Ring<L>, cycles: u32)
    requires made { cycles_made ring.old + cycles ≤ 2 ^ 31 }
    ensures count { cycles_made ring.new ≤ cycles_made ring.old + cycles }
    ensures drives { drives_in ring.new ≡ drives_in ring.old }
{
    for _k in 0..cycles {
        go_on(ring);
    }
}

// The request begins in cycle 100. The drive makes its write once, though its answer is lost and it gets the step again.
#[test]
fn write_counted_once(rt: HostRuntime) -> Result<(), Fail> {
    let text = format!(in rt.alloc(); "{ONE_DRIVE}{LOST_ANSWER}")?;
    let Ok(document) = read_ring(rt.alloc(), text.as_str().as_bytes()) else {
        assert!(rt; false);
        return Ok(());
    };
    let Document {
        setup,
        jobs,
        faults,
    } = document;
    assert!(rt; !setup.drives.is_empty());
    let mut ring = Ring::open(rt.alloc(), &setup, jobs, Scripted::new(faults, 1))?;
    run(&mut ring, 100);
    let before = ring.drive(0).writes();
    run(&mut ring, 200);
    assert_eq!(rt; ring.drive(0).writes().checked_sub(before), Some(1));
    assert_eq!(rt;
        ring.drive(0).store().data(Idn { raw: 47 }),
        [1, 0, 0, 0].as_slice()
    );
    Ok(())
}
