//! Lists that own their members.

ghost use Rattle.std.specs.Prelude.{◌≡◌, [], List, IfOk};

use std::alloc::{AllocError, Global};
use std::marker::Model;

/// A list that owns its members. Contracts speak of the list, and not of its place in memory.
#[derive(Debug, Drop)]
pub struct Seq<T> {
    members: Vec<T>,
}

/// Owned bytes.
pub type Text = Seq<u8>;

impl<T> Model for Seq<T> {
    ghost Value = { List T };

    ghost view = { λ s. s.members.items };
}

impl<T> Seq<T> {
    /// The list without members. It asks for no memory.
    pub fn empty(alloc: Global) -> Self
        ensures { result ≡ [] }
    {
        Seq {
            members: Vec::new(alloc),
        }
    }

    /// The list of a vector's members. It allocates no memory.
    pub fn from_vec(members: Vec<T>) -> Self
        ensures { result ≡ members.items }
    {
        Seq { members }
    }

    /// The members as a vector again. It allocates no memory.
    pub fn into_vec(self) -> Vec<T>
        ensures { result.items ≡ self }
    {
        self.members
    }

    /// The members as a slice.
    pub fn as_slice(&self) -> &[T]
        ensures { result.now ≡ self.now }
    {
        self.members.as_slice()
    }
}

/// A copy of these bytes. It is refused if memory is refused.
pub fn copied(alloc: Global, bytes: &[u8]) -> Result<Text, AllocError>
    ensures { IfOk result (λ text. text ≡ bytes.now) }
{
    Ok(Seq::from_vec(bytes.to_vec(alloc)?))
}
