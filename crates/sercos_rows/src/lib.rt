//! What the tests of the programs share: a row of a table, with words, input, status and output, and how it is run. The functions state no
//! clause, so that a crate of tests is proved without the contracts of the programs.
#![tactic(auto)]

mod answering;
mod inputs;
mod row;

pub use answering::{NotRun, SOUND_READS, SOUND_WRITES, answer_by, answer_in_memory, is_generated};
pub use inputs::push_number;
pub use row::{PLAIN, Row, check, check_over, failed, fault_of, input_of, output};
