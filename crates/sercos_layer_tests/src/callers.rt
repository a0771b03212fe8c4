//! Callers of the layers, as a program of one's own has them.
ghost use Rattle.std.specs.Prelude.{◌≡◌, true, OnErr, IfSome};
ghost use Rattle.sercos_model.specs.Frames.{IsFrame};
ghost use Rattle.sercos_plan.specs.Least.{IsLeast};

use sercos_bits::{BitBuf, Content};
use sercos_drive::Drive;
use sercos_hdlc::unframe;
use sercos_plan::plan;
use sercos_timing::{Plan, Wishes, valid};

/// Returns the least plan. `None` if the input isn't valid, or no plan fits.
pub fn least_plan(wishes: &Wishes) -> Option<Plan>
    ensures { IfSome result (IsLeast wishes.now) }
{
    if valid(wishes) {
        plan(wishes).ok()
    } else {
        None
    }
}

/// Replaces the content by that of the frame that the bits are. Returns whether they are one.
pub fn receive(bits: &BitBuf, content: &mut Content) -> bool
    ensures { result ≡ true → IsFrame content.new bits.now }
{
    unframe(bits, content).is_ok()
}

/// Passes the MST of a cycle to a drive, and writes its AT. Returns when the AT starts, in microseconds after the MST.
pub fn answer(drive: &mut Drive, cycle: u32, mst: &BitBuf, at: &mut Content) -> Option<u16> {
    let mut content = Content::new();
    let got = receive(mst, &mut content);
    drive.hear_mst(cycle, if got { Some(content.as_slice()) } else { None });
    drive.at(at)
}
