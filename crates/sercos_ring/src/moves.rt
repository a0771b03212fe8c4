// The moves of the drives: which are in another phase than before.
ghost use Rattle.std.specs.Prelude.{◌≡◌, ℕ, ◌+◌, ◌≤◌, ◌<◌, ◌++◌, List, length};
ghost use Rattle.sercos_ring.specs.Clauses.{DriveView, DriveCall, phase_at, move_of, moves_below, AllStand, phases_below, addresses_below};

use arrayvec::ArrayVec;
use sercos_drive::Drive;
use sercos_trace::Move;

/// Returns the phases of the drives, at most 64, in ring order.
pub(crate) fn phases_of(drives: &[Drive]) -> ArrayVec<u8, 64>
    requires { length drives.now ≤ 64 }
    ensures count { length result.items ≡ length drives.now }
    ensures phases { (d : ℕ → DriveView) (rate : ℕ) (h : ℕ → List DriveCall) → AllStand drives.now d rate h → result.items ≡ phases_below (length drives.now) d rate h }
{
    let mut phases = ArrayVec::new();
    for k in 0..drives.len() {
        phases.push(drives[k].phase());
    }
    phases
}

// Appends a move of the drive with the address `drive`, from the phase `before` to `after`, if these differ; otherwise the list is
// unchanged. There must be fewer than 128 moves.
fn push_move(moves: &mut ArrayVec<Move, 128>, late: bool, drive: u8, before: u8, after: u8)
    requires { length moves.old.items < 128 }
    ensures value { moves.new.items ≡ moves.old.items ++ move_of late drive before after }
    ensures len { length moves.new.items ≤ length moves.old.items + 1 }
{
    if before != after {
        moves.push(Move {
            drive,
            phase: after,
            late,
        });
    }
}

// Returns the phase of the drive at an index in ring order. The index must be that of a drive.
fn phase_of(drives: &[Drive], k: usize) -> u8
    requires { k < length drives.now }
    ensures { (d : ℕ → DriveView) (rate : ℕ) (h : ℕ → List DriveCall) → AllStand drives.now d rate h → result ≡ phase_at (d k) rate (h k) }
{
    drives[k].phase()
}

/// Appends the moves of the drives whose phase isn't the one in `before`, in ring order: at most one per drive. `addresses` and `before`
/// must have exactly one entry for each drive. The list must have room for one more per drive, of 128. `late` is whether the moves are
/// after the MDT's time in the cycle.
pub(crate) fn push_moves(
    moves: &mut ArrayVec<Move, 128>,
    late: bool,
    addresses: &[u8],
    before: &[u8],
    drives: &[Drive],
)
    requires addresses { length addresses.now ≡ length drives.now }
    requires before { length before.now ≡ length drives.now }
    requires room { length moves.old.items + length drives.now ≤ 128 }
    ensures moves { (d : ℕ → DriveView) (rate : ℕ) (g h : ℕ → List DriveCall) → AllStand drives.now d rate h → before.now ≡ phases_below (length drives.now) d rate g →
        addresses.now ≡ addresses_below (length drives.now) d → moves.new.items ≡ moves.old.items ++ moves_below late (length drives.now) d rate g h }
    ensures len { length moves.new.items ≤ length moves.old.items + length drives.now }
{
    for k in 0..drives.len() {
        push_move(moves, late, addresses[k], before[k], phase_of(drives, k));
    }
}
