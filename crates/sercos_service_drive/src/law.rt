// Laws on the writes that a drive accepts.
ghost use Rattle.std.specs.Prelude.{◌≡◌, List, ◌∷◌, Option, None, IfSome};
ghost use Rattle.sercos_service_drive.specs.Clauses.{Block, find_block, put_fault, CommandHistory, Processed, log_of, Write, AreAlike, AreThose, with_added, writes_of, blocks_with, added_on};

/// States three laws. A drive's writes grow by what a record adds. A write changes nothing of the blocks but their operation data. If the
/// blocks of a record are, except for their operation data, those of each record before it, the write that it adds was allowed: the store
/// that it found has no error against the bytes in the phase of this record. The function does nothing.
pub fn writes_law()
    ensures grows { (t : Processed) (h : List Processed) → writes_of (log_of (t ∷ h)) ≡ with_added (added_on t h) (writes_of (log_of h)) }
    ensures alike { (w : Option Write) (c : CommandHistory) (blocks : List Block) → AreAlike (blocks_with w c blocks) blocks }
    ensures allowed { (t : Processed) (h : List Processed) → AreThose t.blocks h → IfSome (added_on t h) (λ w. put_fault (find_block w.raw t.blocks) t.phase w.bytes ≡ None) }
{}
