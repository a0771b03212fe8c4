// Laws on a typed ring.
ghost use Rattle.sercos_law_run.specs.Clauses.{UnflippedOnlyCuts, BothAreHarmless, CutsAreHarmless, QuietIsHarmless, HarmlessIsClear, KeepsAlways, KeepsWithin, SpelledNext};

/// A law over all runs of a valid ring that is typed at opening:
/// - At the end of each cycle the data blocks of each drive are a store, whatever arrives at it, and each record that it processed has an
///   element of three bits and a word of sixteen.
/// - So it is after the MST's place of each cycle.
/// - If the jobs of the master are typed too, then in each cycle MST, ATs and MDT are contents that their frames return, and what the
///   master and the drives send fits into their records.
pub fn typed_law()
    ensures always { KeepsAlways }
    ensures within { KeepsWithin }
    ensures spelled { SpelledNext }
{}

/// A law on harmless links. A link is harmless if what arrives of a frame is this frame, nothing, or bits that are not a frame. It is
/// harmless after cuts if what arrives of the beginning of a frame, or of a whole one, is these bits, nothing, or bits that are not a
/// frame:
/// - In a run of a valid ring that is typed at opening, with typed jobs, no arrival is undetected if its link is harmless, whichever
///   stations restart.
/// - A script without a flip only cuts frames and loses them.
/// - A link that changes nothing is harmless after cuts.
/// - A link that only cuts is harmless, alone and after cuts.
/// - Two links are harmless together if the first one only cuts, and the second one is harmless after cuts.
pub fn harmless_law()
    ensures clear { HarmlessIsClear }
    ensures script { UnflippedOnlyCuts }
    ensures quiet { QuietIsHarmless }
    ensures cuts { CutsAreHarmless }
    ensures both { BothAreHarmless }
{
    typed_law();
}
