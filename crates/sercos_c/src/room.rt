//! Contents that are written to the front of a room.
ghost use Rattle.sercos_c.specs.Clauses.{IsPut};

use crate::status::{DONE, WRITE_FAULT};

/// Writes a content to the front of `out`, and the number of its bytes to `written`, and returns `DONE`. The bytes of `out` after it stay
/// as they were. Returns `WRITE_FAULT` if there is too little room; then `out` stays as it was, and `written` is 0.
pub(crate) fn put(content: &[u8], out: &mut [u8], written: &mut usize) -> u8
    ensures { IsPut content.now out.old out.new written.new result }
{
    let count = content.len();
    if count > out.len() {
        *written = 0;
        return WRITE_FAULT;
    }
    out[..count].copy_from_slice(content);
    *written = count;
    DONE
}
