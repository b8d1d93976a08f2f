//! What the definitions say of small files.

ghost use Rattle.std.specs.Prelude.{codes};
ghost use Rattle.extract_spec.specs.Examples.{LastDefinitionBeforeUse, MonthBeforeDefinition, RingIsKept, StarKeepsEntries};

/// An extract has the last definition before each use, both entries of a ring of parents, and for `*` all entries.
pub fn an_extract_is_what_is_cited()
    ensures first { LastDefinitionBeforeUse (codes "a") (codes "@string{p={A}}\n@misc{a,t=p}\n") }
    ensures second { LastDefinitionBeforeUse (codes "b") (codes "@string{p={B}}\n@misc{b,t=p}\n") }
    ensures month { MonthBeforeDefinition (codes "a") (codes "@misc{a,month=jan}\n") }
    ensures defined { MonthBeforeDefinition (codes "b") (codes "@string{jan=jan#{x}}\n@misc{b,month=jan}\n") }
    ensures ring { RingIsKept }
    ensures star { StarKeepsEntries }
{}
