// Laws on stores and rings: which blocks a store has and in which order, and what holds for every valid ring.
ghost use Rattle.std.specs.Prelude.{◌≡◌, ℕ, ◌^◌, ◌<◌, ◌≤◌, ◌++◌, List, [], length, Some, None, true};
ghost use Rattle.sercos_block.specs.Clauses.{list_all, IsPermutation, AreBytes, Block, built_in, blocks_fault, find_block, store_of, is_typed, IsStore, is_ring, IsRing, DriveView, RingView};

/// States that the store of a drive at its opening has the drive's built-in blocks and its own, each once. If its own are at most 36, keep
/// the rules of [`check_blocks`](crate::check_blocks) and are typed (their numbers are in the ranges of their types), and its shortest and
/// its longest cycle time are below 2^16 microseconds, the store keeps the invariant `IsStore`: it has at most 57 blocks, they ascend by
/// identifier number, so that no two have the same, and each is typed and sound: it keeps these rules for all but its identifier number,
/// except that a list may end within an item, and a procedure command may be set. In every such store conversion factors are words, and
/// operation data are bytes. The function does nothing.
pub fn store_law()
    ensures blocks { (d : DriveView) → IsPermutation (built_in d ++ d.blocks) (store_of d) }
    ensures store { (d : DriveView) → blocks_fault [] d.blocks ≡ None → length d.blocks ≤ 36 → list_all is_typed d.blocks ≡ true →
        d.cycle_min < 2 ^ 16 → d.cycle_max < 2 ^ 16 → IsStore (store_of d) }
    ensures types { (blocks : List Block) (raw : ℕ) (b : Block) → IsStore blocks → find_block raw blocks ≡ Some b →
        (b.attribute.factor < 2 ^ 16) × AreBytes b.value }
{}

/// States that a valid ring ([`RingSetup::valid`](crate::RingSetup::valid)) has 1 to 64 drives with distinct addresses from 1 to 254, and
/// that the times that these declare are within the limits of this profile. Its order lists each drive once. Its rate, cycle time, control
/// unit cycle time and gap are those that the planner accepts. The function does nothing.
pub fn ring_law()
    ensures { (r : RingView) → is_ring r ≡ true → IsRing r }
{}
