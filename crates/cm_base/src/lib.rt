//! What every crate speaks of: lists, shared nodes, places in a source, refusals, the regions of the platform,
//! the stops of the machine, and the store and the sink.
#![tactic(auto)]

mod file_store;
pub mod laws;
mod list;
mod mem_sink;
mod mem_store;
mod memory;
mod out_sink;
mod outside;
mod place;
mod regions;
mod shared;
mod stop;

pub use file_store::FileStore;
pub use list::{Bytes, List, Text};
pub use mem_sink::MemSink;
pub use mem_store::MemStore;
pub use memory::NoMemory;
pub use out_sink::OutSink;
pub use outside::{Sink, Store, StoreFault};
pub use place::{Place, Refusal};
pub use regions::{
    DATA_POINTER, MAIN_SEAL, NS_RAM, NS_ROM, NSC, PLATFORM, PROCESS_LIMIT, PROCESS_SEAL, Regions,
    Row, SEAL_WORD, SECURE_CONTROL, SECURE_DATA, SECURE_ROM,
};
pub use shared::Shared;
pub use stop::Stop;
