// What a procedure command does when it is set. The invariant of a store says that it has at most 57 blocks, which ascend by identifier
// number and are sound and typed.
ghost use Rattle.std.specs.Prelude.{◌≡◌, ◌≤◌, ◌==◌, ◌⊎◌, length};
ghost use Rattle.sercos_command.specs.Clauses.{with_data, IsStore, list_bytes, ends_well, with_list_of};

use crate::check::{check127, check128};
use sercos_bits::ByteList;
use sercos_block::Store;
use sercos_block::numbers::{
    INVALID_FOR_PHASE_2, INVALID_FOR_PHASE_3, PHASE_3_CHECK, PHASE_4_CHECK,
};
use sercos_idn::Idn;

// Returns the bytes of at most 64 identifier numbers, two each, the low byte first.
fn list_bytes(idns: &[Idn]) -> ByteList<128>
    requires { length idns.now ≤ 64 }
    ensures { result ≡ list_bytes idns.now }
{
    let mut bytes = ByteList::new();
    for idn in idns {
        bytes.push_word_within(idn.raw);
    }
    bytes
}

// Writes the unfit identifier numbers that a check found, at most 64, into its list S-0-0021 or S-0-0022, and returns whether there are
// none. All other blocks are unchanged. By `store` the blocks kept the invariant of a store before.
fn write_list(store: &mut Store, list: Idn, unfit: &[Idn]) -> bool
    requires list { (list.raw ≡ 21) ⊎ (list.raw ≡ 22) }
    requires few { length unfit.now ≤ 64 }
    ensures well { result ≡ (length unfit.now == 0) }
    ensures blocks { store.new ≡ with_data list.raw (list_bytes unfit.now) store.old }
    ensures store { IsStore store.old }
{
    let bytes = list_bytes(unfit);
    store.set_list(list, bytes.as_slice());
    unfit.is_empty()
}

// Runs a command that is newly set, in a ring with a rate in bits per microsecond, and returns whether it ends well. A check writes its
// list to the store, and ends well iff that is empty. Any other command leaves the store unchanged, and ends well iff its block isn't set
// up to fail. By `store` the blocks kept the invariant of a store before.
pub(crate) fn run(rate: u8, idn: Idn, store: &mut Store) -> bool
    ensures well { result ≡ ends_well rate idn.raw store.old }
    ensures blocks { store.new ≡ with_list_of rate idn.raw store.old }
    ensures store { IsStore store.old }
{
    if idn == PHASE_3_CHECK {
        let unfit = check127(rate, store);
        return write_list(store, INVALID_FOR_PHASE_2, unfit.as_slice());
    }
    if idn == PHASE_4_CHECK {
        let unfit = check128(store);
        return write_list(store, INVALID_FOR_PHASE_3, unfit.as_slice());
    }
    !store.fails(idn)
}
