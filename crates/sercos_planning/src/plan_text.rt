// The texts of plans and of chains, appended to the text of a reply. Each error is `AllocError`. After an error `out` is unspecified.
ghost use Rattle.std.specs.Prelude.{◌≡◌, ◌++◌, ◌<◌, OnOk, decimal, length};
ghost use Rattle.sercos_planning.specs.Clauses.{flat_map, plan_line, slot_line, slot_lines, plan_text, link_line, end_line, chain_text, line_feed, two_numbers};

use sercos_answer::{push_number, push_text, push_two_numbers};
use sercos_plan::{Chain, Link};
use sercos_timing::{Plan, Wishes};
use std::alloc::AllocError;

/// Appends a number after its name, and a line feed.
pub fn push_last(name: &str, number: u64, out: &mut Vec<u8>) -> Result<(), AllocError>
    ensures { OnOk result (out.new.items ≡ out.old.items ++ (name.now ++ decimal number ++ line_feed)) }
{
    push_text(name, out)?;
    push_number(number, out)?;
    push_text("\n", out)
}

// Appends two numbers, each after its name, and a line feed.
fn push_last_two(
    first: &str,
    a: u64,
    second: &str,
    b: u64,
    out: &mut Vec<u8>,
) -> Result<(), AllocError>
    ensures { OnOk result (out.new.items
        ≡ out.old.items ++ (two_numbers first.now a second.now b ++ line_feed)) }
{
    push_two_numbers(first, a, second, b, out)?;
    push_text("\n", out)
}

// Appends the line of the drive at a place of the ring: its address, its T1 in microseconds, and the position of its data record in the
// MDT, in bytes, 1 being that of the first byte after the address. The place is one of the ring, and the plan has a T1 and a position for
// it.
#[tactic(auto, unfolding(crate::specs::Planning::slot_line))]
fn push_slot(
    wishes: &Wishes,
    plan: &Plan,
    place: usize,
    out: &mut Vec<u8>,
) -> Result<(), AllocError>
    requires drive { place < length wishes.now.drives }
    requires start { place < length plan.now.t1 }
    requires position { place < length plan.now.position }
    ensures { OnOk result (out.new.items ≡ out.old.items ++ slot_line wishes.now plan.now place) }
{
    let address = wishes.wish(place).address;
    push_two_numbers(
        "slot ",
        u64::from(address),
        " t1 ",
        u64::from(plan.t1()[place]),
        out,
    )?;
    push_last(" position ", u64::from(plan.position()[place]), out)
}

// Appends these lines of all drives, in the order of the ring. The plan has a T1 and a position for each of them.
#[tactic(auto, unfolding(crate::specs::Planning::slot_lines))]
fn push_slots(wishes: &Wishes, plan: &Plan, out: &mut Vec<u8>) -> Result<(), AllocError>
    requires starts { length plan.now.t1 ≡ length wishes.now.drives }
    requires positions { length plan.now.position ≡ length wishes.now.drives }
    ensures { OnOk result (out.new.items
        ≡ out.old.items ++ slot_lines wishes.now plan.now (length wishes.now.drives)) }
{
    for place in 0..wishes.drives().len() {
        push_slot(wishes, plan, place, out)?;
    }
    Ok(())
}

/// Appends the lines of a plan: its times T2, T3 and T4, in microseconds, with the length of the MDT in bytes after its address, and the
/// time slot of each drive in the order of the ring. The plan has a T1 and a position for each of them.
#[tactic(auto, unfolding(crate::specs::Planning::plan_text, crate::specs::Planning::plan_line))]
pub fn push_plan(wishes: &Wishes, plan: &Plan, out: &mut Vec<u8>) -> Result<(), AllocError>
    requires starts { length plan.now.t1 ≡ length wishes.now.drives }
    requires positions { length plan.now.position ≡ length wishes.now.drives }
    ensures { OnOk result (out.new.items ≡ out.old.items ++ plan_text wishes.now plan.now) }
{
    push_two_numbers(
        "plan t2 ",
        u64::from(plan.t2()),
        " t3 ",
        u64::from(plan.t3()),
        out,
    )?;
    push_last_two(
        " t4 ",
        u64::from(plan.t4()),
        " mdt ",
        u64::from(plan.mdt_len()),
        out,
    )?;
    push_slots(wishes, plan, out)
}

// Appends the lines of a chain's links, in their order: the inequality of each, the address of its drive, and the bit time after the MST's
// end that it requires.
#[tactic(auto, unfolding(crate::specs::Planning::link_line))]
fn push_links(links: &[Link], out: &mut Vec<u8>) -> Result<(), AllocError>
    ensures { OnOk result (out.new.items ≡ out.old.items ++ flat_map link_line links.now) }
{
    for link in links {
        let rule = u64::from(link.rule);
        push_two_numbers("rule ", rule, " drive ", u64::from(link.drive), out)?;
        push_last(" at ", u64::from(link.at), out)?;
    }
    Ok(())
}

/// Appends the line `no plan`, and the lines of the chain that proves it. The last one is the inequality that is broken: the address of
/// its drive or 0, what it requires, and what there is room for, both in bit times.
#[tactic(auto, unfolding(crate::specs::Planning::chain_text, crate::specs::Planning::end_line))]
pub fn push_chain(chain: &Chain, out: &mut Vec<u8>) -> Result<(), AllocError>
    ensures { OnOk result (out.new.items ≡ out.old.items ++ chain_text chain.now) }
{
    push_text("no plan\n", out)?;
    push_links(chain.links(), out)?;
    push_two_numbers(
        "rule ",
        u64::from(chain.rule()),
        " drive ",
        u64::from(chain.drive()),
        out,
    )?;
    push_last_two(
        " sum ",
        u64::from(chain.sum()),
        " bound ",
        u64::from(chain.bound()),
        out,
    )
}
