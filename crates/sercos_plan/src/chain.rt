// Chains that prove that no plan fits.
ghost use Rattle.std.specs.Prelude.{◌≡◌, ◌≤◌, length};

use arrayvec::ArrayVec;
use std::marker::Model;

/// One step of a chain: an inequality, and the bit time that it requires of a time of the plan (this profile).
#[derive(Clone, Copy, Debug, Default, PartialEq, Eq)]
pub struct Link {
    /// The number of the inequality, 1 to 7.
    pub rule: u8,
    /// The address of the drive that the inequality concerns.
    pub drive: u8,
    /// The least bit time, after the MST's end, that a time of the plan can have, rounded up to a whole microsecond: T1 of the drive in 1
    /// to 4, T2 in 5 and 6, and T3 in 7.
    pub at: u32,
}

/// A proof that no plan fits (this profile): links from an inequality 1 or 2 to a bound that they break. To the bound 10 there are no
/// links. Contracts see the record of the fields, the links as a list.
#[derive(Debug, PartialEq, Eq, Drop)]
pub struct Chain {
    /// The links, each of which follows from the one before it.
    pub links: ArrayVec<Link, 66>,
    /// The number of the inequality that is broken: 8, 9 or 10.
    pub rule: u8,
    /// The address of the drive that this inequality concerns; 0 in 9 if the gap is used in place of a drive's TMTSY.
    pub drive: u8,
    /// What the inequality requires, in bit times.
    pub sum: u32,
    /// The bound that the sum exceeds, in bit times.
    pub bound: u32,
}

impl Model for Chain {
    ghost use Rattle.sercos_plan.specs.Views.{ChainView};

    ghost Value = { ChainView };

    ghost view = { λ c. record {
      links = c.links.items;
      rule = c.rule;
      drive = c.drive;
      sum = c.sum;
      bound = c.bound;
    } };

    ghost inverse = { λ v. record {
      links = record { items = v.links };
      rule = v.rule;
      drive = v.drive;
      sum = v.sum;
      bound = v.bound;
    } };
}

impl Chain {
    /// Returns the links in their order, at most 66.
    pub fn links(&self) -> &[Link]
        ensures value { result.now ≡ self.now.links }
        ensures limit { length result.now ≤ 66 }
    {
        self.links.as_slice()
    }

    /// Returns the number of the inequality that is broken: 8, 9 or 10 in a chain that proves something.
    pub fn rule(&self) -> u8
        ensures { result ≡ self.now.rule }
    {
        self.rule
    }

    /// Returns the address of the drive that the broken inequality concerns; 0 in 9 if the gap is used in place of a drive's TMTSY.
    pub fn drive(&self) -> u8
        ensures { result ≡ self.now.drive }
    {
        self.drive
    }

    /// Returns what the broken inequality requires, in bit times.
    pub fn sum(&self) -> u32
        ensures { result ≡ self.now.sum }
    {
        self.sum
    }

    /// Returns the bound of the broken inequality, in bit times. In a chain that proves something, the sum exceeds it.
    pub fn bound(&self) -> u32
        ensures { result ≡ self.now.bound }
    {
        self.bound
    }
}
