//! The records of a run: the telegrams of a cycle, the moves of the drives, what the master reports, and the totals. They are written as
//! the lines of a trace, and read back.
#![tactic(auto)]

mod cycle_text;
mod event_text;
mod events;
mod kind;
mod line;
mod reader;
mod reading;
mod record;
mod writing;

pub use events::{Events, Fall, Reported, Stop};
pub use kind::template_law;
pub use reader::Reader;
pub use reading::{BadLine, Line, read_line, reading_law};
pub use record::{CycleRecord, Move, Sent, Totals, put_sent};
pub use writing::{
    write_cycle, write_end, write_header, write_marked_cycle, write_marked_end, write_marked_header,
};
