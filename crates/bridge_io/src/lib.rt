//! What every part of the bridge stands on: lists and texts, places in a file and reasons of refusal,
//! and the outside as two traits, `Shelf` for what is read and `Sink` for what is written, with
//! devices in memory and over the runtime's files and streams.
#![tactic(auto)]

mod feeder;
mod file_shelf;
mod line_map;
mod list;
mod memory_shelf;
mod memory_sink;
mod place;
mod reason;
mod results;
mod shelf;
mod short;
mod sink;
mod std_sink;
mod tally;
mod transfer;
mod whole;

pub use feeder::Feeder;
pub use file_shelf::FileShelf;
pub use line_map::LineMap;
pub use list::{List, Text};
pub use memory_shelf::MemoryShelf;
pub use memory_sink::MemorySink;
pub use place::{Place, place_of};
pub use reason::{Fault, Named, Reason, Refused};
pub use results::together;
pub use shelf::{Shelf, ShelfFault};
pub use sink::{Sink, SinkFault, write_whole};
pub use std_sink::StdSink;
pub use transfer::{ReadFail, read_all, read_into};
pub use whole::Whole;
