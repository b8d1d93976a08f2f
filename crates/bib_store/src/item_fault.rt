//! Why an item's texts are not kept.

ghost use Rattle.std.specs.Prelude.{◌≡◌, ◌⊎◌, ◌+◌, ◌<◌, ◌^◌, ℕ};
ghost use Rattle.bib_items.specs.declared.fault.StoreFault.TheVariants.{Memory, BadSplice};
ghost use Rattle.bib_value.specs.declared.fault.ValueFault.TheVariants.{TextTooLong};
ghost use Rattle.bib_store.specs.declared.item_fault.ItemFault.TheVariants.{TooLong as ItemTooLong, Memory as ItemMemory, Unsettled as ItemUnsettled};

use bib_items::StoreFault;
use bib_scan::ReadFault;
use bib_value::ValueFault;
use std::alloc::{AllocError, AllocFailed};

/// Why an item is not kept: the raw text of the value at this place of the body is too long, a request for memory was
/// refused, or tables that are firm can't take it and stay so, though tables made again may: what other items say would
/// depend on macros, or no label is left for a definition.
#[derive(Clone, Copy, Debug, PartialEq, Eq)]
pub(crate) enum ItemFault {
    TooLong(usize),
    Memory,
    Unsettled,
}

impl ItemFault {
    /// The fault of the value that begins at this place of the body.
    pub(crate) fn of_value(fault: ValueFault, at: usize) -> Self
        ensures place { (n : ℕ) → result ≡ ItemTooLong n → n ≡ at }
        ensures too_long { (n : ℕ) → result ≡ ItemTooLong n → fault ≡ TextTooLong }
        ensures settled { result ≡ ItemUnsettled → ⊥ }
    {
        match fault {
            ValueFault::TextTooLong => ItemFault::TooLong(at),
            ValueFault::Memory => ItemFault::Memory,
        }
    }

    /// The fault of a splice that brings the item.
    pub(crate) fn of_splice(self) -> StoreFault
        ensures too_long { result ≡ BadSplice → ((place : ℕ) × (self ≡ ItemTooLong place)) ⊎ (self ≡ ItemUnsettled) }
        ensures only { (result ≡ BadSplice) ⊎ (result ≡ Memory) }
    {
        match self {
            ItemFault::TooLong(_) => StoreFault::BadSplice,
            ItemFault::Unsettled => StoreFault::BadSplice,
            ItemFault::Memory => StoreFault::Memory,
        }
    }

    /// The fault of the file in which the item begins at this place.
    pub(crate) fn in_file(self, start: usize) -> ReadFault
        ensures memory { (self ≡ ItemMemory) ⊎ (self ≡ ItemUnsettled) → (result.kind ≡ 10) × (result.place ≡ 0) }
        ensures too_long { (n : ℕ) → self ≡ ItemTooLong n → (result.kind ≡ 8) × (start + n < 2 ^ 64 → result.place ≡ start + n) }
    {
        match self {
            ItemFault::TooLong(at) => ReadFault {
                kind: 8,
                place: start.saturating_add(at),
            },
            ItemFault::Memory | ItemFault::Unsettled => ReadFault::MEMORY,
        }
    }
}

impl From<StoreFault> for ItemFault {
    ghost use Rattle.std.specs.Prelude.{◌≡◌};
    ghost use Rattle.bib_store.specs.declared.item_fault.ItemFault.TheVariants.{Memory as ItemMemory};

    ghost from_gives = { λ _ fault. fault ≡ ItemMemory };

    fn from(_fault: StoreFault) -> ItemFault {
        ItemFault::Memory
    }
}

impl From<AllocError> for ItemFault {
    ghost use Rattle.std.specs.Prelude.{◌≡◌};
    ghost use Rattle.bib_store.specs.declared.item_fault.ItemFault.TheVariants.{Memory as ItemMemory};

    ghost from_gives = { λ _ fault. fault ≡ ItemMemory };

    fn from(_error: AllocError) -> ItemFault {
        ItemFault::Memory
    }
}

impl<T: Drop> From<AllocFailed<T>> for ItemFault {
    ghost use Rattle.std.specs.Prelude.{◌≡◌};
    ghost use Rattle.bib_store.specs.declared.item_fault.ItemFault.TheVariants.{Memory as ItemMemory};

    ghost from_gives = { λ _ fault. fault ≡ ItemMemory };

    fn from(_failed: AllocFailed<T>) -> ItemFault {
        ItemFault::Memory
    }
}
