//! The verified ends for programs in C, C++, Rust and Python, as a static library.
#![tactic(auto)]

mod answer;
mod bad_frame;
mod call;
mod deframer;
mod drive;
mod drive_opening;
mod frames;
mod handle;
mod held;
mod idns;
mod layouts;
mod links;
mod links_opening;
mod master;
mod master_opening;
mod master_station;
mod pointer;
mod ring;
mod ring_opening;
mod ring_station;
mod room;
mod slices;
mod slots;
mod station;
mod status;
mod telegrams;
mod texts;
mod words;
