//! The host that a program runs on, as the outside of a run: its files, its standard output and the words of the call.
#![tactic(auto)]

mod call;
mod files;
mod sink;

pub use call::words;
pub use files::HostFiles;
pub use sink::HostSink;
