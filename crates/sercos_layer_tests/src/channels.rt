// The two ends of a service channel, with no ring between them.
ghost use Rattle.std.specs.Prelude.{◌<◌};
ghost use Rattle.sercos_step.specs.Steps.{IsRequest};

use crate::blocks::{SIGNED_FOUR, drive, letters, number};
use crate::station::Station;
use sercos_bits::Bytes;
use sercos_block::DriveSetup;
use sercos_idn::Idn;
use sercos_service_master::MasterChannel;
use sercos_step::{Outcome, Request};
use std::alloc::{AllocError, Global};
use std::test::Fail;

// Both ends. Lost are the ATs, and the MDTs, of the cycles with this remainder when they are divided by two.
#[derive(Drop)]
struct Channel {
    master: MasterChannel,
    drive: Station,
    lost_at: Option<u32>,
    lost_mdt: Option<u32>,
    writes: u32,
}

impl Channel {
    // The ends at their reset, if the drive's blocks are valid.
    fn open(alloc: Global, setup: &DriveSetup) -> Result<Option<Channel>, AllocError> {
        match Station::open(alloc, setup)? {
            None => Ok(None),
            Some(drive) => Ok(Some(Channel {
                master: MasterChannel::new(),
                drive,
                lost_at: None,
                lost_mdt: None,
                writes: 0,
            })),
        }
    }

    // The first half of a cycle: the drive's AT.
    fn answer(&mut self, cycle: u32) -> Option<Outcome> {
        if self.lost_at == Some(cycle % 2) {
            return None;
        }
        let (status, info) = self.drive.say(cycle);
        self.master.hear(&status, info)
    }

    // The second half: the master's MDT, in phase 4.
    fn ask(&mut self, cycle: u32) {
        let (control, info) = self.master.send();
        if self.lost_mdt != Some(cycle % 2) && self.drive.take(cycle, &control, info, 4) {
            self.writes = self.writes.saturating_add(1);
        }
        self.master.end_cycle();
    }

    // Begins a request in a cycle, and carries it on in the next 200 cycles. When and how it ended, if it did.
    fn carry(&mut self, request: Request, begin: u32) -> Option<(u32, Outcome)>
        requires request { IsRequest request }
        requires early { begin < 1000 }
    {
        let earlier = self.answer(begin);
        if earlier.is_some() || !self.master.idle() {
            return None;
        }
        self.master.begin(request);
        self.ask(begin);
        for cycle in begin + 1..begin + 200 {
            if let Some(outcome) = self.answer(cycle) {
                return Some((cycle, outcome));
            }
            self.ask(cycle);
        }
        None
    }
}

// An end with these bytes.
fn complete(cycle: u32, bytes: &[u8]) -> Option<(u32, Outcome)> {
    let mut read = Bytes::new();
    for byte in bytes {
        read.push(*byte).ok()?;
    }
    Some((cycle, Outcome::Complete(read)))
}

fn read(raw: u16) -> Request
    ensures { IsRequest result }
{
    Request::Read {
        idn: Idn { raw },
        element: 7,
    }
}

// A number that grows by 10 in each cycle is read whole, as it is in the cycle in which its selection, the fourth of five
// steps, is accepted.
#[test]
fn growing_number(rt: HostRuntime) -> Result<(), Fail> {
    // The lost ATs and MDTs, the busy time, when the read is complete, and its bytes.
    let rows: [(Option<u32>, Option<u32>, u8, u32, [u8; 4]); 6] = [
        // The steps are accepted in 100, 101, 102, 103 and 104; 64500 + 1030 is 65530.
        (None, None, 0, 105, [250, 255, 0, 0]),
        // 100, 102, 104, 106, 108; 65560.
        (Some(1), None, 0, 110, [24, 0, 1, 0]),
        // 100, 101, 103, 105, 107; 65550.
        (Some(0), None, 0, 109, [14, 0, 1, 0]),
        // 100, 102, 104, 106, 108; 65560.
        (None, Some(1), 0, 109, [24, 0, 1, 0]),
        // 101, 103, 105, 107, 109; 65570.
        (None, Some(0), 0, 110, [34, 0, 1, 0]),
        // 100, 103, 106, 109, 112; 65590.
        (None, None, 2, 115, [54, 0, 1, 0]),
    ];
    for (lost_at, lost_mdt, busy, end, bytes) in rows {
        let mut setup = drive(rt.alloc())?;
        setup.busy = busy;
        let mut channel = Channel::open(rt.alloc(), &setup)?.expect(&rt, "the blocks can stand");
        channel.lost_at = lost_at;
        channel.lost_mdt = lost_mdt;
        assert_eq!(rt;
            channel.carry(read(51), 100),
            complete(end, &bytes),
            "{lost_at:?} {lost_mdt:?} {busy}"
        );
    }
    Ok(())
}

// What is written is written once, and read back. Lost are no ATs, or those of the odd cycles.
#[test]
fn written_number(rt: HostRuntime) -> Result<(), Fail> {
    let setup = drive(rt.alloc())?;
    // The lost ATs, when the write is complete, and when the read.
    for (lost_at, wrote, end) in [(None, 105, 110), (Some(1), 110, 120)] {
        let mut channel = Channel::open(rt.alloc(), &setup)?.expect(&rt, "the blocks can stand");
        channel.lost_at = lost_at;
        let mut bytes = Bytes::new();
        bytes.assign(&[1, 0, 0, 0]);
        let write = Request::Write {
            idn: Idn { raw: 47 },
            element: 7,
            bytes,
        };
        assert_eq!(rt; channel.carry(write, 100), complete(wrote, &[]));
        assert_eq!(rt; channel.drive.data(47), [1u8, 0, 0, 0].as_slice());
        assert_eq!(rt;
            channel.carry(read(47), wrote),
            complete(end, &[1, 0, 0, 0])
        );
        assert_eq!(rt; channel.writes, 1);
    }
    Ok(())
}

// A name of 60 letters has two lengths and 30 words: with the opening 33 steps of two cycles each.
#[test]
fn name(rt: HostRuntime) -> Result<(), Fail> {
    let name = letters(60).expect(&rt, "a name");
    let mut setup = drive(rt.alloc())?;
    let mut block = number(60, SIGNED_FOUR, None, None, &[0; 4]).expect(&rt, "a block");
    block.name = letters(60);
    setup.blocks.push(block)?;
    let mut channel = Channel::open(rt.alloc(), &setup)?.expect(&rt, "the blocks can stand");
    channel.lost_at = Some(1);
    let request = Request::Read {
        idn: Idn { raw: 60 },
        element: 2,
    };
    assert_eq!(rt; channel.carry(request, 100), complete(166, name.as_slice()));
    Ok(())
}

// A procedure command that runs for three cycles is set in cycle 101. Its data status is read in 102, 103 and 104, where it
// has ended, and it is cancelled in 105.
#[test]
fn command(rt: HostRuntime) -> Result<(), Fail> {
    let mut setup = drive(rt.alloc())?;
    setup.command = 3;
    setup.blocks.push(number(32788, 0x0009_0001, None, None, &[0, 0]).expect(&rt, "a block"))?;
    let mut channel = Channel::open(rt.alloc(), &setup)?.expect(&rt, "the blocks can stand");
    let request = Request::Command {
        idn: Idn { raw: 32788 },
    };
    assert_eq!(rt; channel.carry(request, 100), complete(106, &[3, 0]));
    assert_eq!(rt; channel.writes, 2);
    Ok(())
}

// A step without an answer: its cycles are counted up to 64, and a reset breaks the request.
#[test]
fn broken(rt: HostRuntime) {
    let mut master = MasterChannel::new();
    assert_eq!(rt; master.reset(), None);
    master.begin(read(51));
    assert_eq!(rt; master.cycles_open(), 0);
    for count in 1..71u8 {
        let _record = master.send();
        master.end_cycle();
        assert_eq!(rt; master.cycles_open(), count.min(64));
    }
    assert_eq!(rt; master.reset(), Some(Outcome::Broken));
    assert!(rt; master.idle());
    assert_eq!(rt; master.reset(), None);
}
