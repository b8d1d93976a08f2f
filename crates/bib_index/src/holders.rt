//! The ids that have one text.

ghost use Rattle.std.specs.Prelude.{◌≡◌, ◌≤◌, [], ◌∷◌, length, insert, IfOk, OnOk, OnErr};
ghost use Rattle.bib_index.specs.KeyIndex.{without};

use std::alloc::{AllocError, Global};
use std::marker::Model;
use std::slice::from_ref;

/// How the ids are kept.
#[derive(Drop)]
enum Held {
    Nothing,
    One(usize),
    // in a box, so that a `Held` with one id is small
    Many(Box<Vec<usize>>),
}

/// Ids in order. A single id takes no memory of its own.
#[derive(Drop)]
pub(crate) struct Holders {
    alloc: Global,
    held: Held,
}

impl Model for Holders {
    ghost use Rattle.std.specs.Prelude.{List, ℕ};
    ghost use Rattle.bib_index.specs.Held.{ids_of};

    ghost Value = { List ℕ };

    ghost view = { λ h. ids_of h.held };
}

/// Two ids: `one`, with `id` before it or after it.
fn pair(alloc: Global, one: usize, k: usize, id: usize) -> Result<Box<Vec<usize>>, AllocError>
    requires { k ≤ 1 }
    ensures { IfOk result (λ ids. ids.value.items ≡ insert (one ∷ []) k id) }
{
    let mut ids = Vec::with_capacity(alloc, 2)?;
    ids.push(one)?;
    ids.insert(k, id)?;
    Ok(Box::new(alloc, ids)?)
}

impl Holders {
    /// No ids. It asks for no memory.
    pub(crate) fn new(alloc: Global) -> Self
        ensures { result ≡ [] }
    {
        Holders {
            alloc,
            held: Held::Nothing,
        }
    }

    /// One id alone. It asks for no memory.
    pub(crate) fn of(alloc: Global, id: usize) -> Self
        ensures { result ≡ id ∷ [] }
    {
        Holders {
            alloc,
            held: Held::One(id),
        }
    }

    /// The ids.
    pub(crate) fn as_slice(&self) -> &[usize]
        ensures { result.now ≡ self.now }
    {
        match &self.held {
            Held::Nothing => &[],
            Held::One(id) => from_ref(id),
            Held::Many(ids) => ids.as_slice(),
        }
    }

    /// Puts an id before id `k`, or at the end.
    #[tactic(auto, using(crate::proofs::HeldLaws::insert_none))]
    pub(crate) fn insert(&mut self, k: usize, id: usize) -> Result<(), AllocError>
        requires { k ≤ length self.old }
        ensures ok { OnOk result (self.new ≡ insert self.old k id) }
        ensures err { OnErr result (self.new ≡ self.old) }
    {
        match &mut self.held {
            Held::Nothing => {
                self.held = Held::One(id);
                Ok(())
            }
            Held::One(one) => {
                let ids = pair(self.alloc, *one, k, id)?;
                self.held = Held::Many(ids);
                Ok(())
            }
            Held::Many(ids) => {
                ids.insert(k, id)?;
                Ok(())
            }
        }
    }

    /// Removes an id. It asks for no memory.
    pub(crate) fn take_out(&mut self, id: usize)
        ensures { self.new ≡ without id self.old }
    {
        match &mut self.held {
            Held::Nothing => {}
            Held::One(one) => {
                if *one == id {
                    self.held = Held::Nothing;
                }
            }
            Held::Many(ids) => ids.retain(|other| *other != id),
        }
    }
}
