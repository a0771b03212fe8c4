// A law on the calls of a drive.
ghost use Rattle.sercos_drive.specs.Clauses.{Handed, HandedThose, StandsBelow5};

use sercos_service_drive::writes_law;

/// States what holds over all calls of a drive. Each processed record was passed to the service channel with the cycle, the phase, the data
/// blocks and the procedure commands that the definitions have for that moment, in a phase from 2 to 4. Except for their operation data,
/// the blocks of each record since the drive was last in phase 0 are those of the drive, so that the laws on the channel apply. The phase
/// is never above 4. The function does nothing.
pub fn drive_law()
    ensures handed { Handed }
    ensures those { HandedThose }
    ensures phases { StandsBelow5 }
{
    writes_law();
}
