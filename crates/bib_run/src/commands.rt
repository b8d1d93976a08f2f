//! The commands that read more than a file, or answer in another format: what each answers to the bytes of its sources.

pub mod edit;
pub mod explain;
pub mod import;
pub mod insert;
pub mod log;
pub mod merge;
pub mod ris;
pub mod skipping;
pub mod turning;
