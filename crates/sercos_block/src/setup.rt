// What a drive and a ring are set up with.
use crate::block::Block;
use arrayvec::ArrayVec;
use sercos_idn::Idn;
use sercos_timing::Times;
use std::marker::Model;

/// The setup of a drive. Contracts see the record of its fields, each vector as the list of its items.
#[derive(Drop)]
pub struct DriveSetup {
    /// The address, 1 to 254.
    pub address: u8,
    /// The address of the slave that the drive belongs to, 1 to 254.
    pub slave: u8,
    /// The number of cycles for which the drive is busy with a step of the service channel, 0 to 20.
    pub busy: u8,
    /// The number of cycles for which a procedure command runs, 0 to 200.
    pub command: u16,
    /// The times that the drive declares, in microseconds.
    pub times: Times,
    /// The shortest cycle time that the drive accepts, in microseconds.
    pub cycle_min: u16,
    /// The longest cycle time that the drive accepts, in microseconds.
    pub cycle_max: u16,
    /// The identifier numbers of the feedback values that its AT carries.
    pub at: ArrayVec<Idn, 16>,
    /// The identifier numbers of the command values that its data record in the MDT carries.
    pub mdt: ArrayVec<Idn, 16>,
    /// Its data blocks beside the built-in ones.
    pub blocks: Vec<Block>,
}

impl Model for DriveSetup {
    ghost use Rattle.sercos_block.specs.Views.{DriveView};

    ghost Value = { DriveView };

    ghost view = { λ d. record {
      address = d.address;
      slave = d.slave;
      busy = d.busy;
      command = d.command;
      times = d.times;
      cycle_min = d.cycle_min;
      cycle_max = d.cycle_max;
      at = d.at.items;
      mdt = d.mdt.items;
      blocks = d.blocks.items;
    } };
}

/// The setup of a ring. Contracts see the record of its fields, each vector as the list of its items.
#[derive(Drop)]
pub struct RingSetup {
    /// The rate, in bits per microsecond: 2, 4, 8 or 16.
    pub rate: u8,
    /// The cycle time, in microseconds.
    pub cycle: u16,
    /// The control unit cycle time, in microseconds.
    pub control: u16,
    /// The gap between telegrams, in microseconds.
    pub gap: u16,
    /// The number of cycles that the ring runs, 1 to 50,000.
    pub cycles: u32,
    /// The order of the ATs in the cycle, as indices into `drives`.
    pub order: ArrayVec<u8, 64>,
    /// The drives, in the order of the ring.
    pub drives: Vec<DriveSetup>,
}

impl Model for RingSetup {
    ghost use Rattle.sercos_block.specs.Views.{RingView};

    ghost Value = { RingView };

    ghost view = { λ r. record {
      rate = r.rate;
      cycle = r.cycle;
      control = r.control;
      gap = r.gap;
      cycles = r.cycles;
      order = r.order.items;
      drives = r.drives.items;
    } };
}
