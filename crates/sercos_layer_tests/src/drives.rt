// A drive by itself, handed contents as they would arrive.
use crate::blocks::drive;
use sercos_bits::Content;
use sercos_block::{DriveSetup, check_blocks};
use sercos_drive::Drive;
use sercos_idn::Idn;
use std::alloc::{AllocError, Global};
use std::test::Fail;

// A drive in phase 0 in a ring of 4 Mbit/s, if its blocks are valid.
fn opened(alloc: Global, setup: &DriveSetup) -> Result<Option<Drive>, AllocError> {
    if setup.blocks.len() > 36 {
        return Ok(None);
    }
    match check_blocks(setup) {
        Ok(()) => Ok(Some(Drive::open(alloc, setup, 4)?)),
        Err(_) => Ok(None),
    }
}

// In phase 1 the drive is addressed; in phase 2 it writes 10 to S-0-0006, the starting time of its AT. A restart puts it into
// phase 0, where it sends nothing, and keeps what was written.
#[test]
fn writes_and_restarts(rt: HostRuntime) -> Result<(), Fail> {
    // The phase of the MST, the AT that is wanted, and the MDT.
    let cycles: [(u8, Option<[u8; 5]>, Option<[u8; 5]>); 8] = [
        (0, None, None),
        (1, None, Some([1, 0, 0, 0, 0])),
        (1, Some([1, 0, 0, 0, 0]), None),
        // the opening, the two words of the attribute, and the data
        (2, None, Some([1, 15, 0, 6, 0])),
        (2, Some([1, 1, 0, 0, 0]), Some([1, 24, 0, 0, 0])),
        (2, Some([1, 0, 0, 1, 0]), Some([1, 29, 0, 0, 0])),
        (2, Some([1, 1, 0, 17, 96]), Some([1, 62, 0, 10, 0])),
        (2, Some([1, 0, 0, 0, 0]), None),
    ];
    let setup = drive(rt.alloc())?;
    let mut drive = opened(rt.alloc(), &setup)?.expect(&rt, "the blocks can stand");
    let mut at = Content::new();
    for cycle in 0..cycles.len() {
        let (phase, wanted, mdt) = cycles[cycle];
        drive.hear_mst(cycle as u32, Some(&[255, phase]));
        assert_eq!(rt; drive.phase(), phase, "in cycle {cycle}");
        match wanted {
            None => assert_eq!(rt; drive.at(&mut at), None, "in cycle {cycle}"),
            Some(content) => {
                assert_eq!(rt; drive.at(&mut at), Some(300), "in cycle {cycle}");
                assert_eq!(rt; at.as_slice(), content.as_slice(), "in cycle {cycle}");
            }
        }
        match mdt {
            None => drive.hear_mdt(None),
            Some(content) => drive.hear_mdt(Some(&content)),
        }
    }
    drive.restart();
    assert_eq!(rt; drive.phase(), 0);
    drive.hear_mst(8, Some(&[255, 2]));
    assert_eq!(rt; drive.at(&mut at), None);
    assert_eq!(rt; drive.writes(), 1);
    assert_eq!(rt; drive.store().data(Idn { raw: 6 }), [10, 0].as_slice());
    Ok(())
}
