// What is reported of a complete read.
ghost use Rattle.sercos_law_trace.specs.Clauses.{ReadsAreExact};

use sercos_law_run::headline_law;

/// A law over every run, without undetected damage, of a ring that may be opened with its requests: the bytes reported of a complete read
/// of operation data are those of the block in the drive's store in the one cycle in which the drive accepted the selection of that read's
/// own transfer.
pub fn told_law()
    ensures reads { ReadsAreExact }
{
    headline_law();
}
