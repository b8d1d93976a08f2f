//! Values by names, without regard to ASCII case.

ghost use Rattle.std.specs.Prelude.{◌≡◌, ◌≤◌, None, length, IfOk, OnOk, OnErr};
ghost use Rattle.std.specs.Option.{option_copied, IfSome, IfNone};
ghost use Rattle.bib_spec.specs.Bytes.{name_limit};
ghost use Rattle.bib_spec.specs.Text.{Text, folded};
ghost use Rattle.folded_map.specs.FoldedMap.{value_at, IsWith, IsWithout};

use crate::folding::FoldedName;
use crate::kept_name::KeptName;
use bib_text::NAME_LIMIT;
use indexmap::IndexMap;
use std::alloc::{AllocError, Global};
use std::marker::Model;
use std::mem;

/// A map from names of at most 255 bytes to values. Names are compared without regard to ASCII case. Contracts speak of the
/// list of the names, folded, with their values.
#[derive(Drop)]
pub struct FoldedMap<V> {
    alloc: Global,
    entries: IndexMap<KeptName, V>,
}

impl<V> Model for FoldedMap<V> {
    ghost use Rattle.std.specs.Prelude.{List};
    ghost use Rattle.bib_spec.specs.Text.{Text};
    ghost use Rattle.folded_map.specs.FoldedMap.{NamesAreShort};

    ghost Value = { List (Text × V) };

    ghost view = { λ m. m.entries.entries };

    ghost invariant = { λ m. NamesAreShort m.entries.entries };
}

impl<V> FoldedMap<V> {
    /// The map without names. It takes no memory.
    pub fn new(alloc: Global) -> Self
        ensures { (name : Text) → value_at result name ≡ None }
    {
        FoldedMap {
            alloc,
            entries: IndexMap::new(alloc),
        }
    }

    /// The allocator of the map.
    pub fn allocator(&self) -> Global {
        self.alloc
    }

    /// The number of names with a value.
    pub fn len(&self) -> usize
        ensures { result ≡ length self.now }
    {
        self.entries.len()
    }

    /// Makes room for `additional` more names. The map itself is unchanged. That there is room afterwards is not promised;
    /// it only saves time.
    pub fn reserve(&mut self, additional: usize) -> Result<(), AllocError>
        ensures { self.new ≡ self.old }
    {
        self.entries.reserve(additional)
    }

    /// The value of a name, if it has one.
    pub fn get(&self, name: &[u8]) -> Option<&V>
        ensures { option_copied result ≡ value_at self.now (folded name.now) }
    {
        let entries = &self.entries;
        if name.len() > NAME_LIMIT {
            return None;
        }
        entries.get(&FoldedName::of(name))
    }

    /// Gives the name this value, and returns its former value, if it had one. If memory is refused, nothing changes.
    pub fn insert(&mut self, name: &[u8], value: V) -> Result<Option<V>, AllocError>
    where
        V: Drop,
        requires { length name.now ≤ name_limit }
        ensures value { IfOk result (λ old. old ≡ value_at self.old (folded name.now)) }
        ensures ok { OnOk result (IsWith self.old name.now value self.new) }
        ensures err { OnErr result (self.new ≡ self.old) }
    {
        let kept = KeptName::of(self.alloc, name)?;
        Ok(self.entries.insert(kept, value)?)
    }

    /// Gives the name this value if it already has a value, and returns the former one. A name without a value stays
    /// without. It allocates no memory.
    pub fn replace(&mut self, name: &[u8], value: V) -> Option<V>
    where
        V: Drop,
        ensures value { result ≡ value_at self.old (folded name.now) }
        ensures some { IfSome result (λ old. IsWith self.old name.now value self.new) }
        ensures none { IfNone result (self.new ≡ self.old) }
    {
        let _ = &self.entries;
        if name.len() > NAME_LIMIT {
            return None;
        }
        let kept = self.entries.get_mut(&FoldedName::of(name))?;
        Some(mem::replace(kept, value))
    }

    /// Removes the name, and returns its value, if it had one. It allocates no memory.
    pub fn remove(&mut self, name: &[u8]) -> Option<V>
        ensures value { result ≡ value_at self.old (folded name.now) }
        ensures rest { IsWithout self.old name.now self.new }
    {
        let _ = &self.entries;
        if name.len() > NAME_LIMIT {
            return None;
        }
        self.entries.swap_remove(&FoldedName::of(name))
    }
}
