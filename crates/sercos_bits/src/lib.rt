//! Bit lists, byte lists of fixed capacity, and the frame check sequence.
#![tactic(auto)]

mod bit_buf;
mod byte_list;
mod check_sequence;
mod register;
mod spelling;
mod words;

pub use bit_buf::{BitBuf, MAX_BITS};
pub use byte_list::{ByteList, Bytes, Content, Full, MAX_CONTENT, Text, byte_at};
pub use check_sequence::{division_law, fcs};
pub use register::Register;
pub use spelling::{BadBits, bits_of, bytes_of, push_number};
