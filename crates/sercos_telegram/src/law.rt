// A law on the records of an MDT.
ghost use Rattle.std.specs.Prelude.{◌≡◌, ℕ, ◌+◌, ◌-◌, ◌<◌, ◌++◌, List, length, slice_index};
ghost use Rattle.sercos_telegram.specs.Clauses.{all_drives, record_bytes, SpellsRecord, Control};

/// States where a record is in an MDT that begins with the address of all drives: its position is the number of bytes before it, at least
/// 1, and its length is 4 bytes more than its values, regardless of the records that follow. So it is read back from there, with the length
/// of the MDT being one byte less than the content.
pub fn joint_law()
    ensures { (control : Control) (info : ℕ) (before values after : List ℕ) →
        0 < length before → slice_index before 0 ≡ all_drives →
        let content = before ++ record_bytes control info values ++ after in
        SpellsRecord (length content - 1) (length before) (4 + length values) control info values content }
{}
