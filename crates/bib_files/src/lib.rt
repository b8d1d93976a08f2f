//! Puts new files in the place of old ones. It knows in which order a folder is called, and not what the files are or
//! who makes them. It promises, over any folder that tells what is at its paths, which path has which bytes afterwards.
#![tactic(auto)]

mod folder;
mod storing;

pub use folder::{Folder, Kind};
pub use storing::{Paths, store};
