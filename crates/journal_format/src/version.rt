//! The versions of the format.

/// A version of the format. Version 1 has no labels; it is still read, but no longer written.
#[derive(Clone, Copy, Debug)]
pub(crate) enum Version {
    First,
    Second,
}
