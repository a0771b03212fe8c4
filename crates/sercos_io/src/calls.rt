//! What the sources and sinks in memory share: numbered calls, and a copy of the next bytes.
ghost use Rattle.std.specs.Prelude.{◌≡◌, ◌↔◌, ◌++◌, min, length, take, drop, Contains, IsTrue};
ghost use Rattle.sercos_io.specs.Clauses.{raised};

/// Returns the count plus 1, but at most 2^64 - 1.
pub(crate) fn one_more(count: u64) -> u64
    ensures { result ≡ raised count }
{
    count.saturating_add(1)
}

/// Returns whether the number of a call is listed as one that fails.
pub(crate) fn is_listed(failing: &[u32], number: u64) -> bool
    ensures { IsTrue result ↔ Contains failing.now number }
{
    failing.iter().any(|listed| u64::from(*listed) == number)
}

/// Copies bytes from the front of `from` to the front of `into`, at most `most` of them, and returns how many. The other bytes of `into`
/// are unchanged.
pub(crate) fn copy_front(from: &[u8], most: usize, into: &mut [u8]) -> usize
    ensures count { result ≡ min most (min (length into.old) (length from.now)) }
    ensures copied { into.new ≡ take result from.now ++ drop result into.old }
{
    let count = most.min(into.len().min(from.len()));
    into[..count].copy_from_slice(&from[..count]);
    count
}
