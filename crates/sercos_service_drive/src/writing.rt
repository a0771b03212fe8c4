// Informs the procedure commands of writes.
ghost use Rattle.std.specs.Prelude.{◌≡◌, ◌⊎◌, if◌then◌else◌, true};
ghost use Rattle.sercos_service_drive.specs.Clauses.{w16, from_le_bytes, to_cancel, to_set, is_command, Wrote, Other, CommandHistory, with_call, with_check_list, are_commands_of, CommandsStandFor};

use sercos_block::Store;
use sercos_command::Commands;
use sercos_idn::Idn;
use sercos_step::word_at;

// Informs the procedure commands that operation data was written, which the store has already. `command` is whether it is that of a
// command; then `bytes` are its new value, 0 or 3, in two bytes, the low one first, and a check that is newly set writes its list to the
// store. Otherwise the store is unchanged. All commands that are set are procedure commands of the store, before and after.
#[tactic(auto, using(crate::proofs::WritingLemmas::setting_is))]
pub(crate) fn tell(
    commands: &mut Commands,
    idn: Idn,
    command: bool,
    bytes: &[u8],
    cycle: u32,
    store: &mut Store,
)
    requires command { command ≡ true → is_command store.old idn.raw ≡ true }
    requires setting { command ≡ true → (from_le_bytes w16 bytes.now ≡ to_cancel) ⊎ (from_le_bytes w16 bytes.now ≡ to_set) }
    requires set { are_commands_of store.old commands.old ≡ true }
    ensures blocks { (c : CommandHistory) → CommandsStandFor commands.old c →
        store.new ≡ (if command then with_check_list c idn.raw (from_le_bytes w16 bytes.now) store.old else store.old) }
    ensures commands { (c : CommandHistory) → CommandsStandFor commands.old c →
        CommandsStandFor commands.new (with_call (if command then Wrote idn.raw (from_le_bytes w16 bytes.now) cycle store.old else Other cycle) c) }
    ensures set { are_commands_of store.new commands.new ≡ true }
{
    if command {
        commands.write(idn, word_at(bytes, 0), cycle, store);
    } else {
        commands.written(cycle);
    }
}
