// How a program ends.
ghost use Rattle.std.specs.Prelude.{◌≡◌, ◌≢◌};
ghost use Rattle.std.specs.Process.{exit_status};
ghost use Rattle.sercos_io.specs.Status.{status_code};

use sercos_io::Status;
use std::process::ExitCode;

/// Returns the status of a command whose output, left in a buffer, couldn't be written: `WriteFault` for `Done` and `No`. Any other status
/// stays, so a refusal remains one even if its line wasn't written.
pub fn unwritten(status: Status) -> Status
    ensures done { status ≡ Status.Done → result ≡ Status.WriteFault }
    ensures no { status ≡ Status.No → result ≡ Status.WriteFault }
    ensures other { status ≢ Status.Done → status ≢ Status.No → result ≡ status }
{
    match status {
        Status::Done | Status::No => Status::WriteFault,
        other => other,
    }
}

/// Returns the exit code of a status, 0 to 7. The name of a status other than `Done` is also printed to standard error, which no clause
/// states.
pub fn exit(rt: &HostRuntime, status: Status) -> ExitCode
    ensures { exit_status result ≡ status_code status }
{
    if status != Status::Done {
        let _ = eprintln!(rt; "{}", status.name());
    }
    ExitCode::from(status.code())
}
