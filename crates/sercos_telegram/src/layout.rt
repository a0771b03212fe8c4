// The kinds of telegrams, and why a content is not a telegram of a layout.
ghost use Rattle.std.specs.Prelude.{◌≡◌, ◌<◌, length, slice_index, OnOk};
ghost use Rattle.sercos_telegram.specs.Clauses.{result_err, head_fault};

/// The kinds of telegrams (IEC 61491:1995): the master's synchronisation telegram, the drives' telegrams, and the master's data telegram.
#[derive(Clone, Copy, Debug, PartialEq, Eq)]
pub enum Kind {
    /// MST: the phase that the master commands.
    Mst,
    /// AT: what a drive sends.
    At,
    /// MDT: what the master sends to one drive, or to all.
    Mdt,
}

/// Why a content is not a telegram of a layout. If several causes apply, the first of these is the error.
#[derive(Clone, Copy, Debug, PartialEq, Eq)]
pub enum Layout {
    /// The content has a wrong length. The values are the number of bytes found, and the one expected.
    Length(usize, usize),
    /// The content has a wrong address. The values are the address byte found, and the one expected.
    Address(usize, usize),
    /// A byte has a value that is not allowed. The value here is the byte's index: 1, for an MST whose byte after the address is above 4.
    BadField(usize),
}

// Returns `Ok` iff a content has the expected length, in bytes, and the expected address. The length isn't 0. The error is `Length` if the
// length is wrong, otherwise `Address`.
#[tactic(auto, unfolding(crate::specs::Faults::head_fault))]
pub fn test_head(wanted: usize, address: u8, content: &[u8]) -> Result<(), Layout>
    requires { 0 < wanted }
    ensures fault { result_err result ≡ head_fault wanted address content.now }
    ensures length { OnOk result (length content.now ≡ wanted) }
    ensures address { OnOk result (slice_index content.now 0 ≡ address) }
{
    if content.len() != wanted {
        return Err(Layout::Length(content.len(), wanted));
    }
    if content[0] != address {
        return Err(Layout::Address(usize::from(content[0]), usize::from(address)));
    }
    Ok(())
}
