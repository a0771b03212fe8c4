//! What C holds: a station, or nothing.
ghost use Rattle.std.specs.Prelude.{◌≡◌, ◌≢◌, ◌⊎◌, Option, Some, None, is_some, option_map};
ghost use Rattle.sercos_c.specs.Clauses.{done, no_memory};

use crate::held::Held;
use crate::pointer::{StationPointer, to_held, to_pointer};
use crate::station::Station;
use crate::status::{DONE, MEMORY};
use std::alloc::Global;
use std::mem;

/// A station that a program holds, or nothing. A handle of zeros holds nothing.
#[repr(C)]
#[derive(Drop)]
pub struct Handle {
    is_open: bool,
    held: StationPointer,
    ghost agrees: { is_open ≡ is_some held.value },
}

/// Takes the station out of a handle, which then holds nothing. `None` if it held nothing.
pub(crate) fn take_out(alloc: Global, handle: &mut Handle) -> Option<Box<Station>>
    ensures value { option_map (λ b. b.value) result ≡ handle.old.held.value }
    ensures none { handle.new.held.value ≡ None }
{
    let closed = Handle {
        is_open: false,
        held: to_pointer(Held::none(alloc)),
    };
    let Handle { is_open, held } = mem::replace(handle, closed);
    if is_open {
        Some(to_held(held, alloc).into_box())
    } else {
        None
    }
}

/// Makes a call from C to a station: takes the station out of `$handle`, makes the call if the station matches `$kind`, and puts it back.
/// `$kind` binds the station for `$call`, whose value is the status of the call. The value of the macro is that status, or `CLOSED` for a
/// station of another kind, which is put back unchanged. If the handle holds nothing, the function that uses the macro returns `CLOSED`.
/// `$call` must contain no `return` and no `?`: the station would be dropped, and the handle would hold nothing.
macro_rules! on_station {
    ($alloc:ident, $handle:ident, $kind:pat => $call:expr) => {{
        let Some(mut station) = $crate::handle::take_out($alloc, $handle) else {
            return $crate::status::CLOSED;
        };
        let status = match &mut *station {
            $kind => $call,
            _ => $crate::status::CLOSED,
        };
        $crate::handle::put_back(station, $handle);
        status
    }};
}

pub(crate) use on_station;

/// Puts a station into a handle, in place of what it held.
pub(crate) fn put_back(station: Box<Station>, handle: &mut Handle)
    ensures { handle.new.held.value ≡ Some station.value }
{
    *handle = Handle {
        is_open: true,
        held: to_pointer(Held::of(station)),
    };
}

/// Drops the station of a handle, if it holds one, and frees its memory. The handle then holds nothing, and may be closed again.
pub(crate) fn close(alloc: Global, handle: &mut Handle)
    ensures { handle.new.held.value ≡ None }
{
    let _before = take_out(alloc, handle);
}

/// Closes a handle, and puts a station into it. Returns `DONE`, or `MEMORY` if there is no memory for the station; then nothing is held.
pub(crate) fn open(alloc: Global, station: Station, handle: &mut Handle) -> u8
    ensures done { result ≡ done → handle.new.held.value ≡ Some station }
    ensures none { result ≢ done → handle.new.held.value ≡ None }
    ensures memory { (result ≡ done) ⊎ (result ≡ no_memory) }
{
    close(alloc, handle);
    match Box::new(alloc, station) {
        Ok(made) => {
            put_back(made, handle);
            DONE
        }
        Err(_) => MEMORY,
    }
}
