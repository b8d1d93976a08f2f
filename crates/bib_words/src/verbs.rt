//! The commands as data: what each takes and reads.

ghost use Rattle.std.specs.Prelude.{◌≡◌, bytes_eq};
ghost use Rattle.bib_words.specs.Verbs.{adds_change, makes_file, reads_journal, takes_input, takes_dropped, takes_at, takes_scripts, takes_strict, takes_latex, takes_raw, takes_skipped, takes_plain, takes_bibtex, takes_others, takes_print, question_shape, shape, verb_of};

/// A command that answers what its file says, and reads nothing else.
#[derive(Clone, Copy, Debug, PartialEq, Eq)]
pub enum Question {
    Check,
    Show,
    Entry,
    Cite,
    Labels,
    Json,
    NewKeys,
    Ris,
    Extract,
}

/// A command of the program.
#[derive(Clone, Copy, Debug, PartialEq, Eq)]
pub enum Verb {
    Asks(Question),
    Cat,
    Lint,
    Names,
    Explain,
    Edit,
    Undo,
    Redo,
    Log,
    Forget,
    Import,
    Insert,
    Merge,
    Diff,
}

/// What a command takes: how many arguments, the file among them, and whether a number, a depth, or aux files in place of keys.
#[derive(Clone, Copy)]
pub struct Shape {
    pub least: usize,
    pub most: Option<usize>,
    pub number: bool,
    pub depth: bool,
    pub aux: bool,
}

/// One argument and nothing else: `check F`.
const ALONE: Shape = Shape {
    least: 1,
    most: Some(1),
    number: false,
    depth: false,
    aux: false,
};

/// A file, one key or more, aux files that cite more, and a depth: `labels F KEY..`.
const KEYS: Shape = Shape {
    least: 2,
    most: None,
    number: false,
    depth: true,
    aux: true,
};

/// Whether the name is this word, byte for byte.
fn is(name: &[u8], word: &[u8]) -> bool
    ensures { result ≡ bytes_eq name.now word.now }
{
    name == word
}

impl Verb {
    /// The command with this name, or none if the program has no such command.
    pub fn of(name: &[u8]) -> Option<Self>
        ensures { result ≡ verb_of name.now }
    {
        if is(name, b"cat") {
            return Some(Verb::Cat);
        }
        if is(name, b"check") {
            return Some(Verb::Asks(Question::Check));
        }
        if is(name, b"lint") {
            return Some(Verb::Lint);
        }
        if is(name, b"show") {
            return Some(Verb::Asks(Question::Show));
        }
        if is(name, b"entry") {
            return Some(Verb::Asks(Question::Entry));
        }
        if is(name, b"cite") {
            return Some(Verb::Asks(Question::Cite));
        }
        if is(name, b"labels") {
            return Some(Verb::Asks(Question::Labels));
        }
        if is(name, b"json") {
            return Some(Verb::Asks(Question::Json));
        }
        if is(name, b"names") {
            return Some(Verb::Names);
        }
        if is(name, b"newkeys") {
            return Some(Verb::Asks(Question::NewKeys));
        }
        if is(name, b"edit") {
            return Some(Verb::Edit);
        }
        if is(name, b"undo") {
            return Some(Verb::Undo);
        }
        if is(name, b"redo") {
            return Some(Verb::Redo);
        }
        if is(name, b"log") {
            return Some(Verb::Log);
        }
        if is(name, b"forget") {
            return Some(Verb::Forget);
        }
        if is(name, b"ris") {
            return Some(Verb::Asks(Question::Ris));
        }
        if is(name, b"extract") {
            return Some(Verb::Asks(Question::Extract));
        }
        if is(name, b"import") {
            return Some(Verb::Import);
        }
        if is(name, b"insert") {
            return Some(Verb::Insert);
        }
        if is(name, b"merge") {
            return Some(Verb::Merge);
        }
        if is(name, b"diff") {
            return Some(Verb::Diff);
        }
        if is(name, b"explain") {
            return Some(Verb::Explain);
        }
        None
    }

    /// Whether the command adds a change to its file.
    pub fn adds_change(self) -> bool
        ensures { result ≡ adds_change self }
    {
        matches!(self, Verb::Edit | Verb::Import | Verb::Insert)
    }

    /// Whether the command makes a new file from the old one.
    pub fn makes_file(self) -> bool
        ensures { result ≡ makes_file self }
    {
        self.adds_change() || matches!(self, Verb::Undo | Verb::Redo)
    }

    /// Whether the command reads the journal of its file.
    pub fn reads_journal(self) -> bool
        ensures { result ≡ reads_journal self }
    {
        self.makes_file() || matches!(self, Verb::Log)
    }

    /// Whether the command with this number of arguments reads an input as well as its file: standard input, or for `diff` the new
    /// file.
    pub fn takes_input(self, words: usize) -> bool
        ensures { result ≡ takes_input self words }
    {
        match self {
            Verb::Import | Verb::Insert | Verb::Diff => true,
            Verb::Edit => words == 1,
            _ => false,
        }
    }

    /// Whether the command takes `--print`.
    pub fn takes_print(self) -> bool
        ensures { result ≡ takes_print self }
    {
        self.makes_file() || matches!(self, Verb::Merge)
    }

    /// Whether the command takes `--dropped`.
    pub fn takes_dropped(self) -> bool
        ensures { result ≡ takes_dropped self }
    {
        matches!(self, Verb::Asks(Question::Ris))
    }

    /// Whether the command takes `--at`.
    pub fn takes_at(self) -> bool
        ensures { result ≡ takes_at self }
    {
        matches!(self, Verb::Asks(Question::Entry))
    }

    /// Whether the command takes a script.
    pub fn takes_scripts(self) -> bool
        ensures { result ≡ takes_scripts self }
    {
        matches!(self, Verb::Edit)
    }

    /// Whether the command takes `--strict`.
    pub fn takes_strict(self) -> bool
        ensures { result ≡ takes_strict self }
    {
        matches!(self, Verb::Asks(Question::Cite) | Verb::Import)
    }

    /// Whether the command takes `--latex`.
    pub fn takes_latex(self) -> bool
        ensures { result ≡ takes_latex self }
    {
        matches!(self, Verb::Import)
    }

    /// Whether the command takes `--raw`.
    pub fn takes_raw(self) -> bool
        ensures { result ≡ takes_raw self }
    {
        matches!(self, Verb::Asks(Question::Json))
    }

    /// Whether the command takes `--skipped`.
    pub fn takes_skipped(self) -> bool
        ensures { result ≡ takes_skipped self }
    {
        matches!(self, Verb::Import)
    }

    /// Whether the command takes `--plain`.
    pub fn takes_plain(self) -> bool
        ensures { result ≡ takes_plain self }
    {
        matches!(self, Verb::Asks(Question::Ris))
    }

    /// Whether the command takes `--bibtex`.
    pub fn takes_bibtex(self) -> bool
        ensures { result ≡ takes_bibtex self }
    {
        match self {
            Verb::Asks(question) => matches!(
                question,
                Question::Show | Question::Cite | Question::Labels | Question::Json | Question::Ris
            ),
            Verb::Names => true,
            _ => false,
        }
    }

    /// Whether the command reads other files too, before and after its own.
    pub fn takes_others(self) -> bool
        ensures { result ≡ takes_others self }
    {
        match self {
            Verb::Asks(question) => !matches!(question, Question::Entry),
            Verb::Lint | Verb::Names => true,
            _ => false,
        }
    }

    /// What the command takes.
    pub(crate) fn shape(self) -> Shape
        ensures { result ≡ shape self }
    {
        match self {
            Verb::Asks(question) => question.shape(),
            Verb::Cat => Shape { least: 0, ..ALONE },
            Verb::Names => Shape {
                least: 3,
                most: Some(3),
                aux: false,
                ..KEYS
            },
            Verb::Lint => Shape {
                most: None,
                aux: true,
                ..ALONE
            },
            Verb::Edit => Shape {
                most: None,
                ..ALONE
            },
            Verb::Insert => Shape {
                most: Some(2),
                ..ALONE
            },
            Verb::Merge => Shape {
                least: 3,
                most: Some(3),
                ..ALONE
            },
            Verb::Diff => Shape {
                least: 2,
                most: Some(2),
                ..ALONE
            },
            Verb::Undo | Verb::Redo => Shape {
                number: true,
                ..ALONE
            },
            _ => ALONE,
        }
    }
}

impl Question {
    /// What the command takes.
    fn shape(self) -> Shape
        ensures { result ≡ question_shape self }
    {
        match self {
            Question::Check => ALONE,
            Question::Show => Shape {
                most: Some(2),
                aux: false,
                ..KEYS
            },
            Question::Entry => Shape {
                depth: false,
                aux: false,
                ..KEYS
            },
            Question::Cite => Shape {
                number: true,
                depth: false,
                ..KEYS
            },
            Question::Labels | Question::Json | Question::Ris => KEYS,
            Question::Extract => Shape {
                depth: false,
                ..KEYS
            },
            Question::NewKeys => Shape {
                depth: true,
                ..ALONE
            },
        }
    }
}
