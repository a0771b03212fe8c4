// Plans by their calls: the chain that proves that no plan fits, and the lengths of frames.
use arrayvec::ArrayVec;
use sercos_plan::{Chain, Link, check_chain, plan};
use sercos_timing::{Times, Wish, Wishes, valid, wire};
use std::test::Fail;

// A drive with eight bytes in its AT and in its data record.
fn wish(address: u8, t1min: u16) -> Wish {
    Wish {
        address,
        slave: address,
        times: Times {
            t1min,
            tatmt: 6,
            t4min: 20,
            tatat: 5,
            tmtsy: 10,
            tmtsg: 20,
        },
        at_len: 8,
        record_len: 8,
    }
}

// Two drives in too short a cycle.
fn wishes() -> Wishes {
    let mut order = ArrayVec::new();
    order.push(0);
    order.push(1);
    let mut drives = ArrayVec::new();
    drives.push(wish(1, 10));
    drives.push(wish(2, 12));
    Wishes {
        rate: 4,
        cycle: 125,
        control: 125,
        gap: 5,
        order,
        drives,
    }
}

// A chain of so many of the links that prove that no plan fits in a cycle of 125 microseconds.
fn chain(links: &[Link], sum: u32, bound: u32) -> Option<Chain> {
    Some(Chain {
        links: ArrayVec::try_from(links).ok()?,
        rule: 9,
        drive: 1,
        sum,
        bound,
    })
}

#[test]
fn chains(rt: HostRuntime) -> Result<(), Fail> {
    let wishes = wishes();
    let links = [
        Link {
            rule: 1,
            drive: 1,
            at: 40,
        },
        Link {
            rule: 3,
            drive: 2,
            at: 184,
        },
        Link {
            rule: 6,
            drive: 2,
            at: 332,
        },
    ];
    if !valid(&wishes) {
        assert!(rt; false);
        return Ok(());
    }
    let wanted = chain(&links, 570, 446).expect(&rt, "a chain");
    assert_eq!(rt; plan(&wishes).err(), Some(wanted));
    let rows = [
        (chain(&links, 570, 446), true),
        (chain(&links, 569, 446), false),
        (chain(&links, 570, 447), false),
        (chain(&[links[0], links[2]], 570, 446), false),
    ];
    for (row, right) in rows {
        let row = row.expect(&rt, "a chain");
        assert_eq!(rt; check_chain(&wishes, &row), right);
    }
    Ok(())
}

#[test]
fn wires(rt: HostRuntime) {
    for (bytes, bits) in [
        (2, 54),
        (5, 83),
        (9, 121),
        (13, 160),
        (17, 198),
        (37, 390),
        (2048, 19696),
    ] {
        assert_eq!(rt; wire(bytes), bits);
    }
}
