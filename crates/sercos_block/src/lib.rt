//! The data blocks of a drive (IEC 61491:1995): those that a setup declares, those that every drive has, and the store that holds them.
#![tactic(auto)]

mod block;
mod built_in;
mod carried;
mod check;
mod entry;
mod law;
pub mod limits;
pub mod numbers;
mod region;
mod ring;
mod setup;
mod store;
mod stored;
mod value;
mod wishes;
mod write;

pub use block::Block;
pub use built_in::is_built_in;
pub use carried::{added_len, attribute_in, cyclic_len, mdt_len, number_len};
pub use check::{BadBlock, Field, check_blocks, has_block, is_text};
pub use law::{ring_law, store_law};
pub use ring::{cycles_of, drives_of, has_address, has_other_data};
pub use setup::{DriveSetup, RingSetup};
pub use store::Store;
pub use stored::Stored;
pub use value::{bits_in, bytes_for, is_number, number_end};
