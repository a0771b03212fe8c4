// The length of a frame on the ring.
ghost use Rattle.std.specs.Prelude.{◌≡◌, ◌≤◌};
ghost use Rattle.sercos_timing.specs.Clauses.{wire_bits};

/// Returns the most bits of a frame of `bytes` bytes of content, at most 2048: the 16 bits of its two flags, the bits of its content and
/// check sequence, and an inserted zero for each five of the latter (ISO/IEC 3309).
pub fn wire(bytes: u32) -> u32
    requires { bytes ≤ 2048 }
    ensures { result ≡ wire_bits bytes }
{
    16 + 8 * (bytes + 2) + (8 * (bytes + 2)) / 5
}
