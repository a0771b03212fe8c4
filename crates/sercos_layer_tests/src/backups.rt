// The requests of a backup.
ghost use Rattle.std.specs.Prelude.{◌≡◌, IfOk, length};

use sercos_backup::{DataJobs, data_jobs, write_saved};
use sercos_bits::Bytes;
use sercos_idn::Idn;
use sercos_io::MemorySink;
use std::alloc::{AllocError, Global};
use std::test::Fail;

// Lists of this number of drives with 512 blocks each, all of which have the number 0x2f2f.
fn lists(alloc: Global, count: u8) -> Result<Vec<(u8, Bytes)>, AllocError>
    ensures { IfOk result (λ lists. length lists.items ≡ count) }
{
    let mut lists = Vec::new(alloc);
    for place in 0..count {
        let mut bytes = Bytes::new();
        bytes.assign(&[0x2f; 1024]);
        lists.push((place + 1, bytes))?;
    }
    Ok(lists)
}

// Eight lists of 512 blocks can be read in one run; nine can't, and are counted.
#[test]
fn nine_long_lists(rt: HostRuntime) -> Result<(), Fail> {
    let eight = lists(rt.alloc(), 8)?;
    let jobs = data_jobs(rt.alloc(), eight.as_slice()).expect(&rt, "eight lists are few enough");
    assert_eq!(rt; jobs.len(), 4096);
    let nine = lists(rt.alloc(), 9)?;
    assert_eq!(rt;
        data_jobs(rt.alloc(), nine.as_slice()).err(),
        Some(DataJobs::TooMany(4608))
    );
    Ok(())
}

// The five lines of a block, also without bytes.
#[test]
fn saved_lines(rt: HostRuntime) -> Result<(), Fail> {
    let mut sink = MemorySink::new(
        Vec::with_capacity(rt.alloc(), 4096)?,
        4096,
        Vec::new(rt.alloc()),
    );
    let _ = write_saved(1, Idn { raw: 47 }, &[7, 0, 0, 0], &mut sink);
    let _ = write_saved(12, Idn { raw: 0x8010 }, &[], &mut sink);
    let wanted =
        "[[request]]\ndrive = 1\nkind = \"write\"\nidn = \"S-0-0047\"\ndata = \"07000000\"\n[[request]]\ndrive = 12\nkind = \"write\"\nidn = \"P-0-0016\"\ndata = \"\"\n";
    assert_eq!(rt; sink.as_slice(), wanted.as_bytes());
    Ok(())
}
