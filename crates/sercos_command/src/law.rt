// Laws on which commands are set, and on their data status.
ghost use Rattle.sercos_command.specs.Clauses.{SetByNewest, SetByFirst, StatusSays};

/// States when a procedure command is set, and what its data status is. It is set if and only if there is a write to it since the last
/// phase 0 or restart, and the newest isn't 0; then it is set since the first of these writes, or the first after the last 0 among them.
/// The data status of a set command is 7 for the drive's command time, and from then on 3 if it ends well, otherwise 15. That of a command
/// that isn't set is 0. The function does nothing.
pub fn command_law()
    ensures set { SetByNewest }
    ensures first { SetByFirst }
    ensures status { StatusSays }
{}
