//! Records.

use bib_text::{Seq, Text};
use std::marker::Model;

/// An entry as bibliography styles see it: its type, its key, and the names and texts of its fields.
#[derive(Debug, Drop)]
pub struct Record {
    pub kind_name: Text,
    pub key: Text,
    pub fields: Seq<(Text, Text)>,
}

impl Model for Record {
    ghost use Rattle.bib_spec.specs.Records.{Record as EntryRecord};

    ghost Value = { EntryRecord };

    ghost view = { λ r. record { kind_name = r.kind_name; key = r.key; fields = r.fields } };
}
