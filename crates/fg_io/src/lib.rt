//! What the engine sees of the outside: files by name, a stream to read and a stream to write.
//! Each counts its faults, and fails only where that count rose.
#![tactic(auto)]

mod error;
mod folder_shelf;
pub mod laws;
mod mem_shelf;
mod mem_sink;
mod mem_source;
mod put;
mod shelf;
mod sink;
mod source;
mod standard;
mod write;

pub use error::{Failed, FetchFault};
pub use folder_shelf::FolderShelf;
pub use mem_shelf::MemShelf;
pub use mem_sink::MemSink;
pub use mem_source::MemSource;
pub use put::{put_piece, put_text};
pub use shelf::Shelf;
pub use sink::Sink;
pub use source::Source;
pub use standard::{StdinSource, StdoutSink};
pub use write::put_all;
