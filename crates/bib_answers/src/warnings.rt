//! What `lint` warns of: each kind of finding, with its code and its words.

ghost use Rattle.std.specs.Prelude.{◌≡◌};
ghost use Rattle.bib_answers.specs.Warnings.{code_of, words_before, words_after};

/// A kind of finding.
#[derive(Clone, Copy, Debug, PartialEq, Eq)]
pub enum Warning {
    UndefinedMacro,
    OwnMacro,
    RepeatedField,
    RepeatedKey,
    NoKey,
    OddKey,
    MissingParent,
    OwnParent,
    EarlyParent,
    NestedParent,
    ConflictMarker,
    LostEntry,
    LoneBrace,
    RepeatedMacro,
    ManyCommas,
    EmptyCrossref,
    FieldNotUtf8,
    KeyNotUtf8,
    TypeNotUtf8,
    MissingKey,
}

impl Warning {
    /// The code of the kind, which never changes. It stands at the end of a line, and `--ignore` takes it.
    pub fn code(self) -> &'static str
        ensures { result.now ≡ code_of self }
    {
        match self {
            Warning::UndefinedMacro => "undefined-macro",
            Warning::OwnMacro => "own-macro",
            Warning::RepeatedField => "repeated-field",
            Warning::RepeatedKey => "repeated-key",
            Warning::NoKey => "no-key",
            Warning::OddKey => "odd-key",
            Warning::MissingParent => "missing-parent",
            Warning::OwnParent => "own-parent",
            Warning::EarlyParent => "early-parent",
            Warning::NestedParent => "nested-parent",
            Warning::ConflictMarker => "conflict-marker",
            Warning::LostEntry => "lost-entry",
            Warning::LoneBrace => "lone-brace",
            Warning::RepeatedMacro => "repeated-macro",
            Warning::ManyCommas => "refused-name",
            Warning::EmptyCrossref => "empty-crossref",
            Warning::FieldNotUtf8 | Warning::KeyNotUtf8 | Warning::TypeNotUtf8 => "not-utf8",
            Warning::MissingKey => "missing-key",
        }
    }

    /// What a line says before the name, key or text that is found.
    pub fn words_before(self) -> &'static str
        ensures { result.now ≡ words_before self }
    {
        match self {
            Warning::UndefinedMacro | Warning::OwnMacro | Warning::RepeatedMacro => "macro ",
            Warning::RepeatedField | Warning::FieldNotUtf8 => "field ",
            Warning::RepeatedKey | Warning::OddKey | Warning::KeyNotUtf8 | Warning::MissingKey =>
                "key ",
            Warning::TypeNotUtf8 => "type ",
            Warning::NoKey => "the entry",
            Warning::MissingParent | Warning::OwnParent => "crossref ",
            Warning::EarlyParent | Warning::NestedParent => "parent ",
            Warning::ConflictMarker => "conflict marker ",
            Warning::LostEntry => "text ",
            Warning::LoneBrace => "brace ",
            Warning::ManyCommas => "name ",
            Warning::EmptyCrossref => "the crossref of ",
        }
    }

    /// What a line says after the name, key or text that is found.
    pub fn words_after(self) -> &'static str
        ensures { result.now ≡ words_after self }
    {
        match self {
            Warning::UndefinedMacro => " is not defined",
            Warning::OwnMacro => " is used in its own definition",
            Warning::RepeatedField => " is there already",
            Warning::RepeatedKey => " is that of an earlier entry",
            Warning::NoKey => " has no key",
            Warning::OddKey => " is none that an edit could write",
            Warning::MissingParent => " names no entry",
            Warning::OwnParent => " names its own entry",
            Warning::EarlyParent => {
                " stands before its child: BibTeX finds this parent only if it is cited itself or named by an earlier child"
            }
            Warning::NestedParent => " has a parent itself, whose fields are not inherited",
            Warning::ConflictMarker => " was left by a merge",
            Warning::LostEntry => "{ has no at-sign before it and begins no entry",
            Warning::LoneBrace => " closes no item",
            Warning::RepeatedMacro => " is defined already: the uses after this have the new text",
            Warning::ManyCommas => " has too many commas: 21 TooManyCommas",
            Warning::EmptyCrossref => " is empty and an entry has no key",
            Warning::FieldNotUtf8 | Warning::KeyNotUtf8 | Warning::TypeNotUtf8 => {
                " is not UTF-8: 24 NotUtf8"
            }
            Warning::MissingKey => " is cited and no entry has it",
        }
    }
}
