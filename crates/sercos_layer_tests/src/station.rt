// A drive as its service channel sees it: the channel, the data blocks and the procedure commands.
ghost use Rattle.std.specs.Prelude.{◌≡◌, ◌≤◌, true};
ghost use Rattle.sercos_command.specs.Kept.{are_commands_of};

use crate::blocks::opened;
use sercos_block::{DriveSetup, Store};
use sercos_command::Commands;
use sercos_idn::Idn;
use sercos_service_drive::DriveChannel;
use sercos_step::Step;
use sercos_telegram::{Control, Status};
use std::alloc::{AllocError, Global};

// A drive in a ring of 4 Mbit/s, and the handshake bit of the last step that was handed to it.
#[derive(Drop)]
pub struct Station {
    channel: DriveChannel,
    store: Store,
    commands: Commands,
    mhs: bool,
    ghost set: { are_commands_of store commands ≡ true },
}

impl Station {
    // A drive at its opening, if its blocks are valid.
    pub fn open(alloc: Global, setup: &DriveSetup) -> Result<Option<Station>, AllocError> {
        match opened(alloc, setup)? {
            None => Ok(None),
            Some(store) => Ok(Some(Station {
                channel: DriveChannel::new(setup.busy),
                store,
                commands: Commands::new(4, setup.command),
                mhs: false,
            })),
        }
    }

    // Processes a record, and returns whether it wrote.
    pub fn take(&mut self, cycle: u32, control: &Control, info: u16, phase: u8) -> bool
        requires { (2 ≤ phase) × (phase ≤ 4) }
    {
        self.channel.take(
            cycle,
            control,
            info,
            phase,
            &mut self.store,
            &mut self.commands,
        )
    }

    // Processes a step with the last handshake bit, and returns whether it wrote.
    pub fn repeat(&mut self, cycle: u32, phase: u8, step: Step) -> bool
        requires { (2 ≤ phase) × (phase ≤ 4) }
    {
        let control = Control {
            mhs: self.mhs,
            write: step.write,
            last: step.last,
            element: step.element.min(7),
            cyclic: 0,
        };
        self.take(cycle, &control, step.word, phase)
    }

    // Processes a step with the handshake bit changed, and returns whether it wrote.
    pub fn step(&mut self, cycle: u32, phase: u8, step: Step) -> bool
        requires { (2 ≤ phase) × (phase ≤ 4) }
    {
        self.mhs = !self.mhs;
        self.repeat(cycle, phase, step)
    }

    // Phase 0.
    pub fn reset(&mut self) {
        self.channel.reset();
        self.commands.reset();
        self.mhs = false;
    }

    // What the AT of a cycle shows.
    pub fn say(&self, cycle: u32) -> (Status, u16) {
        self.channel.say(cycle, &self.commands)
    }

    // The operation data of a block.
    pub fn data(&self, raw: u16) -> &[u8] {
        self.store.data(Idn { raw })
    }
}
