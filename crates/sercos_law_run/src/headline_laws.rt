// The headline, as a law over every run of a ring.
ghost use Rattle.sercos_law_run.specs.Clauses.{Headline, OnceAlways};

/// A law over every run of a ring that may be opened with its requests, over every link and with every restart. In each cycle up to the
/// first undetected damage, an arrival that isn't what was sent and passes the check sequence anyway: if phase 3 or 4 is commanded, all
/// telegrams lie apart and keep the times that every drive declares, and what each drive in phase 3 or 4 holds agrees with the MDT. A
/// telegram has as many bits as its frame. No drive is in a higher phase than the later one commanded in this cycle or the one before. Each
/// transfer is exact, as in `exact_law` of `sercos_law_channel`, and the requests to a drive are reported once and in order: the numbers of
/// the requests that end in a cycle ascend in its record, and none of them ended in an earlier cycle. If 2 to 4 is commanded, both ends of
/// the service channel of each drive that is in phase 2 to 4 at the end of the cycle are in step. The master stops with `NoFit` only if no
/// plan fits the ring's requirements, and never with `BadConfig` or `Check127`.
pub fn headline_law()
    ensures { Headline }
{}

/// A law over every run of a valid ring, whatever arrives: the numbers of the requests that end in a cycle ascend in its record, and none
/// of them ended in an earlier cycle.
pub fn once_law()
    ensures { OnceAlways }
{}
