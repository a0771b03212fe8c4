// The procedure commands among the blocks of a store.
ghost use Rattle.std.specs.Prelude.{◌≡◌, ℕ, List};
ghost use Rattle.sercos_command.specs.Clauses.{Block, with_data, is_command, CommandsView, are_commands_of};

use sercos_block::Store;
use sercos_idn::Idn;

/// Returns whether the block with the identifier number is a procedure command; false if there is no such block.
pub fn is_command(store: &Store, idn: Idn) -> bool
    ensures { result ≡ is_command store.now idn.raw }
{
    match store.attribute(idn) {
        Ok(attribute) => attribute.command,
        Err(_) => false,
    }
}

/// States that a write of operation data changes neither which blocks are procedure commands, nor whether all set commands are among them.
/// The function does nothing.
pub fn stored_law()
    ensures command { (raw other : ℕ) (bytes : List ℕ) (blocks : List Block) → is_command (with_data other bytes blocks) raw ≡ is_command blocks raw }
    ensures set { (other : ℕ) (bytes : List ℕ) (blocks : List Block) (commands : CommandsView) →
        are_commands_of (with_data other bytes blocks) commands ≡ are_commands_of blocks commands }
{}
