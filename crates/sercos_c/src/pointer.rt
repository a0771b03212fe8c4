//! A station that is held, in a form that crosses to C.
ghost use Rattle.std.specs.Prelude.{◌≡◌, Option};
ghost use Rattle.sercos_c.specs.Clauses.{Station, station_owns};

use crate::held::Held;
use crate::station::Station;
use std::alloc::Global;
use std::marker::Model;

/// A boxed station as the pointer to it, or none.
#[repr(C)]
#[derive(Drop)]
pub struct StationPointer {
    at: *mut u8,
    pub ghost value: { Option Station },
}

impl Model for StationPointer {
    ghost also_owns = { λ s. station_owns s.at s.value };
}

/// Returns the pointer of a box that is held, or of none, without its allocator.
pub(crate) fn to_pointer(held: Held<Station, Global>) -> StationPointer
    ensures { result.value ≡ held.value }
{
    let Held { at, alloc: _ } = held;
    StationPointer { at: at as *mut u8 }
}

/// Returns what a pointer holds, a box or none, with an allocator.
pub(crate) fn to_held(pointer: StationPointer, alloc: Global) -> Held<Station, Global>
    ensures { result.value ≡ pointer.value }
{
    let StationPointer { at } = pointer;
    Held {
        at: at as *mut Station,
        alloc,
    }
}
