// The first cycle in which a check counts as passed; `None` if it doesn't.
ghost use Rattle.std.specs.Prelude.{◌≡◌, ◌==◌, ◌&&◌, if◌then◌else◌};
ghost use Rattle.sercos_command.specs.Clauses.{is_from, from_setting, from_cancel};

use sercos_idn::Idn;

// Returns whether a check that counts as passed from cycle `first` on does so in a cycle; false for `None`.
pub(crate) fn is_from(first: Option<u64>, cycle: u32) -> bool
    ensures { result ≡ is_from first cycle }
{
    match first {
        None => false,
        Some(first) => first <= u64::from(cycle),
    }
}

// Returns the first cycle in which a check counts as passed, after it was set so that it ends well in cycle `end`: `end`, or `first`, the
// one before the setting, if it is earlier. The result is never `None`.
fn from_setting(end: u64, first: Option<u64>) -> Option<u64>
    ensures { result ≡ from_setting end first }
{
    match first {
        None => Some(end),
        Some(first) => Some(first.min(end)),
    }
}

// Returns the first cycle of `check` after command `idn` was cancelled in a cycle. `first` is that before the cancel. If the command is the
// check and `first` is after the cycle, the result is `None`; otherwise it is `first`.
pub(crate) fn after_cancel(first: Option<u64>, check: Idn, idn: Idn, cycle: u32) -> Option<u64>
    ensures { result ≡ (if idn.raw == check.raw then from_cancel cycle first else first) }
{
    if idn == check {
        first.filter(|first| *first <= u64::from(cycle))
    } else {
        first
    }
}

// Returns the first cycle of `check` after command `idn` was set. The command ends in cycle `end`, and `well` is whether it ends well.
// `first` is the first cycle before the setting. If the command is another one than the check or ends with an error, the result is `first`,
// otherwise that of `from_setting`.
pub(crate) fn after_setting(
    first: Option<u64>,
    check: Idn,
    idn: Idn,
    end: u64,
    well: bool,
) -> Option<u64>
    ensures { result ≡ (if (idn.raw == check.raw) && well then from_setting end first else first) }
{
    if idn == check && well {
        from_setting(end, first)
    } else {
        first
    }
}
