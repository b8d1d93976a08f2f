//! A command as its words.

use crate::verbs::{Shape, Verb};
use aux_text::AuxKeys;
use bib_data::DEPTH_LIMIT;
use bib_text::{Seq, Text};

/// The greatest number that a command takes.
const NUMBER_LIMIT: u32 = 65_535;

/// A command: its name; its arguments in order, the file first if there is one, for `diff` the old one and the new one, and for
/// `lint` after it the codes to ignore;
/// the names of the aux files that cite more keys, and of the files that are read before its own and after it; for `lint`, the keys
/// that the aux files cite, file by file, each with its place; its number, and the depth of the records that it shows, each 0 if the
/// command takes none; and whether its options `--print`, `--new-journal`, `--no-journal`, `--all-or-nothing`, `--dropped`, `--at`,
/// `--strict`, `--latex`, `--raw`, `--skipped`, `--plain` and `--bibtex` were given.
#[derive(Drop)]
pub struct Command {
    pub name: Text,
    pub words: Seq<Text>,
    pub aux: Seq<Text>,
    pub before: Seq<Text>,
    pub after: Seq<Text>,
    pub cited: Seq<AuxKeys>,
    pub n: u32,
    pub depth: u8,
    pub print: bool,
    pub new_journal: bool,
    pub no_journal: bool,
    pub all_or_nothing: bool,
    pub dropped: bool,
    pub at: bool,
    pub strict: bool,
    pub latex: bool,
    pub raw: bool,
    pub skipped: bool,
    pub plain: bool,
    pub bibtex: bool,
}

impl Command {
    ghost use Rattle.std.specs.Prelude.{◌≡◌, ◌↔◌, ◌<◌, ◌≤◌, [], true, false, IsTrue, length, drop, slice_index_or};
    ghost use Rattle.bib_words.specs.Verbs.{verb_of, takes_print, adds_change, takes_scripts, takes_dropped, takes_at, takes_strict, takes_others, takes_latex, takes_raw, takes_skipped, takes_plain, takes_bibtex};
    ghost use Rattle.bib_words.specs.Command.{HasItsWords, HasItsOptions, has_others, AddsChange, MakesFile, IsCommand, ReadsJournal, TakesInput};

    /// Whether the command has this name. It takes no memory.
    pub fn is_named(&self, name: &[u8]) -> bool
        ensures { IsTrue result ↔ (self.now.name ≡ name.now) }
    {
        self.name.as_slice() == name
    }

    /// Which command of the program this is, or none if the program has no command of this name. It takes no memory.
    pub fn verb(&self) -> Option<Verb>
        ensures { result ≡ verb_of self.now.name }
    {
        Verb::of(self.name.as_slice())
    }

    /// Whether the command adds a change to its file. It takes no memory.
    pub fn adds_change(&self) -> bool
        ensures { IsTrue result ↔ AddsChange self.now }
    {
        match self.verb() {
            Some(verb) => verb.adds_change(),
            None => false,
        }
    }

    /// Whether the command makes a new file from the old one. It takes no memory.
    pub fn makes_file(&self) -> bool
        ensures { IsTrue result ↔ MakesFile self.now }
    {
        match self.verb() {
            Some(verb) => verb.makes_file(),
            None => false,
        }
    }

    /// Whether the command reads the journal of its file: with `--no-journal` none does. It takes no memory.
    pub fn reads_journal(&self) -> bool
        ensures { IsTrue result ↔ ReadsJournal self.now }
    {
        match self.verb() {
            Some(verb) => verb.reads_journal() && !self.no_journal,
            None => false,
        }
    }

    /// Whether the command reads an input as well as its file: standard input, or for `diff` the new file. It takes no memory.
    pub fn takes_input(&self) -> bool
        ensures { IsTrue result ↔ TakesInput self.now }
    {
        match self.verb() {
            Some(verb) => verb.takes_input(self.words.as_slice().len()),
            None => false,
        }
    }

    /// Whether the command names files that are read before its own or after it. It takes no memory.
    pub fn has_others(&self) -> bool
        ensures { result ≡ has_others self.now }
    {
        has_any(self.before.as_slice()) || has_any(self.after.as_slice())
    }

    /// Whether the program has a command with this name, this number of arguments, this number and depth, and these
    /// options. It takes no memory.
    pub fn is_known(&self) -> bool
        ensures { IsTrue result ↔ IsCommand self.now }
    {
        match self.verb() {
            Some(verb) => self.has_its_words(verb.shape()) && self.has_its_options(verb),
            None => false,
        }
    }

    /// The word with this index: the file is the first, with index 0. It takes no memory.
    pub fn word(&self, i: usize) -> &[u8]
        requires { i < length self.now.words }
        ensures { result.now ≡ slice_index_or self.now.words i [] }
    {
        self.words.as_slice()[i].as_slice()
    }

    /// The words after the file. It takes no memory.
    pub fn words_after_file(&self) -> &[Text]
        requires { 1 ≤ length self.now.words }
        ensures { result.now ≡ drop 1 self.now.words }
    {
        &self.words.as_slice()[1..]
    }

    /// Whether the command has each option that is given.
    fn has_its_options(&self, verb: Verb) -> bool
        ensures { IsTrue result ↔ HasItsOptions verb self.now }
    {
        self.has_its_changes(verb) && self.has_its_choices(verb) && self.has_its_forms(verb)
    }

    /// Whether the command has each option that is given of those that say what becomes of a change.
    fn has_its_changes(&self, verb: Verb) -> bool
        ensures { IsTrue result ↔ ((self.now.print ≡ true → takes_print verb ≡ true) × (self.now.new_journal ≡ true → adds_change verb ≡ true) × (self.now.no_journal ≡ true → adds_change verb ≡ true) × (self.now.all_or_nothing ≡ true → takes_scripts verb ≡ true)) }
    {
        is_allowed(self.print, verb.takes_print())
            && is_allowed(self.new_journal, verb.adds_change())
            && is_allowed(self.no_journal, verb.adds_change())
            && is_allowed(self.all_or_nothing, verb.takes_scripts())
    }

    /// Whether the command has each option that is given of those that say what is answered.
    fn has_its_choices(&self, verb: Verb) -> bool
        ensures { IsTrue result ↔ ((self.now.dropped ≡ true → takes_dropped verb ≡ true) × (self.now.at ≡ true → takes_at verb ≡ true) × (self.now.strict ≡ true → takes_strict verb ≡ true) × (has_others self.now ≡ true → takes_others verb ≡ true)) }
    {
        is_allowed(self.dropped, verb.takes_dropped())
            && is_allowed(self.at, verb.takes_at())
            && is_allowed(self.strict, verb.takes_strict())
            && is_allowed(self.has_others(), verb.takes_others())
    }

    /// Whether the command has each option that is given of those that say how texts are written, which lines are listed, and who
    /// reads the file.
    fn has_its_forms(&self, verb: Verb) -> bool
        ensures { IsTrue result ↔ ((self.now.latex ≡ true → takes_latex verb ≡ true) × (self.now.raw ≡ true → takes_raw verb ≡ true) × (self.now.skipped ≡ true → takes_skipped verb ≡ true) × (self.now.plain ≡ true → takes_plain verb ≡ true) × (self.now.bibtex ≡ true → takes_bibtex verb ≡ true) × (self.now.bibtex ≡ true → has_others self.now ≡ false)) }
    {
        is_allowed(self.latex, verb.takes_latex())
            && is_allowed(self.raw, verb.takes_raw())
            && is_allowed(self.skipped, verb.takes_skipped())
            && is_allowed(self.plain, verb.takes_plain())
            && is_allowed(self.bibtex, verb.takes_bibtex())
            && is_allowed(self.bibtex, !self.has_others())
    }

    /// Whether the command has as many arguments as this shape takes, and the number, the depth and the aux files that it
    /// takes.
    fn has_its_words(&self, shape: Shape) -> bool
        ensures { IsTrue result ↔ HasItsWords shape self.now }
    {
        let count = self.words.as_slice().len();
        count >= least_words(shape, self.aux.as_slice())
            && (!has_any(self.aux.as_slice()) || shape.aux)
            && is_at_most(count, shape.most)
            && is_number(shape.number, self.n, NUMBER_LIMIT)
            && is_number(shape.depth, self.depth as u32, DEPTH_LIMIT as u32)
    }
}

ghost use Rattle.std.specs.Prelude.{◌≡◌, ◌↔◌, ◌≤◌, true, IsTrue, IfSome};
ghost use Rattle.bib_words.specs.Command.{IsNumber, has_any, least_words};

/// Whether an option is taken, if it is given.
fn is_allowed(given: bool, taken: bool) -> bool
    ensures { IsTrue result ↔ (given ≡ true → taken ≡ true) }
{
    !given || taken
}

/// Whether the list has a member.
fn has_any(texts: &[Text]) -> bool
    ensures { result ≡ has_any texts.now }
{
    !texts.is_empty()
}

/// How many arguments a command of this shape needs: the file alone, if aux files are named that cite its keys.
fn least_words(shape: Shape, aux: &[Text]) -> usize
    ensures { result ≡ least_words shape aux.now }
{
    if shape.aux && has_any(aux) {
        return 1;
    }
    shape.least
}

/// Whether this many are not more than the most, if there is one.
fn is_at_most(count: usize, most: Option<usize>) -> bool
    ensures { IsTrue result ↔ IfSome most (λ most. count ≤ most) }
{
    match most {
        Some(most) => count <= most,
        None => true,
    }
}

/// Whether the number is in the range from 1 up to the limit, or is 0 if none is taken.
fn is_number(taken: bool, n: u32, limit: u32) -> bool
    ensures { IsTrue result ↔ IsNumber taken limit n }
{
    if taken {
        return n > 0 && n <= limit;
    }
    n == 0
}
