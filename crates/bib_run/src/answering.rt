//! What each command answers to the bytes of its sources.

ghost use Rattle.std.specs.Prelude.{◌≡◌, ◌≤◌, ◌||◌, true, false, IfOk, option_map, length};
ghost use Rattle.bib_words.specs.Command.{HasItsWords, IsCommand};
ghost use Rattle.bib_words.specs.Verbs.{adds_change, question_shape, shape, takes_bibtex};
ghost use Rattle.bib_words.specs.declared.verbs.Verb.TheVariants.{Asks, Names};
ghost use Rattle.bib_answers.specs.Opened.{AnswersFile};
ghost use Rattle.bib_run.specs.Answers.{Answers, AnswersBibtex, AnswersNames, AnswersQuestion, IsAnswer, IsEditsAnswer, IsWholeAnswer, IsStoredAnswer, question_answer};
ghost use Rattle.bib_run.specs.Shown.{printed, shown, without_journal, kept_with, IsUpTo};

use crate::commands::edit::{answer_edit, answer_words, whole};
use crate::commands::explain::answer_explain;
use crate::commands::import::answer_import;
use crate::commands::insert::answer_insert;
use crate::commands::log::{answer_forget, answer_log};
use crate::commands::merge::answer_apart;
use crate::commands::ris::answer_ris;
use crate::commands::turning::{answer_redo, answer_undo};
use crate::reading::Sources;
use bib_answers::{
    Answer, Outcome, answer_cat, answer_check, answer_cite, answer_entry, answer_extract,
    answer_json, answer_labels, answer_lint, answer_names, answer_newkeys, answer_show, outcome_of,
};
use bib_text::Text;
use bib_words::{Command, Question, Verb};
use bibtex_answers::{
    answer_cite_as_bibtex, answer_json_as_bibtex, answer_labels_as_bibtex, answer_names_as_bibtex,
    answer_show_as_bibtex,
};
use bibtex_ris::answer_ris_as_bibtex;
use diff_answers::answer_diff;
use std::alloc::{AllocError, Global};

/// The command's answer to the bytes of its sources. It keeps the file once, where it was read. It reads and writes
/// nothing, and is refused only if memory runs out.
pub fn answer(alloc: Global, command: &Command, sources: Sources) -> Result<Answer, AllocError>
    requires { IsCommand command.now }
    ensures { IfOk result (IsAnswer command.now sources.file sources.journal sources.input) }
{
    let Sources {
        file,
        journal,
        input,
    } = sources;
    answer_of(
        alloc,
        command,
        file.into_vec(),
        lent(&journal),
        input.as_slice(),
    )
}

/// The bytes of a text, if there is one.
fn lent(text: &Option<Text>) -> Option<&[u8]>
    ensures { option_map (λ bytes. bytes.now) result ≡ text.now }
{
    match text {
        Some(text) => Some(text.as_slice()),
        None => None,
    }
}

/// The command's answer to the bytes of its file, of its journal and of its input.
fn answer_of(
    alloc: Global,
    command: &Command,
    file: Vec<u8>,
    journal: Option<&[u8]>,
    input: &[u8],
) -> Result<Answer, AllocError>
    requires { IsCommand command.now }
    ensures { IfOk result (IsAnswer command.now file.items (option_map (λ text. text.now) journal.entry) input.now) }
{
    let no_journal = drops_journal(command);
    let stored = stored_answer_of(alloc, command, file, journal, no_journal, input)?;
    let kept = kept_with(command.no_journal, stored);
    Ok(shown(alloc, command.print, kept))
}

/// Whether no journal of the command's answer is stored.
fn drops_journal(command: &Command) -> bool
    ensures { result ≡ (command.now.no_journal || command.now.print) }
{
    command.no_journal || command.print
}

/// The answer with what is stored of it, with `--no-journal` or without.
fn kept_with(no_journal: bool, answer: Answer) -> Answer
    ensures { result ≡ kept_with no_journal answer }
{
    if no_journal {
        return without_journal(answer);
    }
    answer
}

/// The answer, of which no journal is stored.
fn without_journal(answer: Answer) -> Answer
    ensures { result ≡ without_journal answer }
{
    let Outcome {
        file,
        journal: _journal,
        message,
        status,
    } = answer.outcome;
    Answer {
        output: answer.output,
        outcome: Outcome {
            file,
            journal: None,
            message,
            status,
        },
    }
}

/// The answer as a command gives it, with `--print` or without.
fn shown(alloc: Global, print: bool, answer: Answer) -> Answer
    ensures { result ≡ shown print answer }
{
    if print {
        return printed(alloc, answer);
    }
    answer
}

/// The new file, if there is one, becomes the output, and nothing is stored.
fn printed(alloc: Global, answer: Answer) -> Answer
    ensures { result ≡ printed answer }
{
    let Outcome {
        file,
        journal: _journal,
        message,
        status,
    } = answer.outcome;
    Answer {
        output: file.unwrap_or(Text::empty(alloc)),
        outcome: outcome_of(message, status),
    }
}

/// The command's answer when what is new is to be stored. With `no_journal` its journal is not stored, and need not be made.
fn stored_answer_of(
    alloc: Global,
    command: &Command,
    file: Vec<u8>,
    journal: Option<&[u8]>,
    no_journal: bool,
    input: &[u8],
) -> Result<Answer, AllocError>
    requires { IsCommand command.now }
    ensures { IfOk result (IsUpTo no_journal (IsStoredAnswer command.now file.items (option_map (λ text. text.now) journal.entry) input.now)) }
{
    let Some(verb) = command.verb() else {
        unreachable!()
    };
    if verb.adds_change() {
        return answer_change(alloc, verb, command, file, journal, no_journal, input);
    }
    answer_verb(alloc, verb, command, file, journal, input)
}

/// What each command that adds a change answers. With `no_journal`, `edit` and `import` make no journal.
fn answer_change(
    alloc: Global,
    verb: Verb,
    command: &Command,
    file: Vec<u8>,
    journal: Option<&[u8]>,
    no_journal: bool,
    input: &[u8],
) -> Result<Answer, AllocError>
    requires words { HasItsWords (shape verb) command.now }
    requires adds { adds_change verb ≡ true }
    ensures { IfOk result (IsUpTo no_journal (Answers verb command.now file.items (option_map (λ text. text.now) journal.entry) input.now)) }
{
    match verb {
        Verb::Edit => answer_whole(alloc, command, file, journal, no_journal, input),
        Verb::Import => answer_import(alloc, command, file, journal, no_journal, input),
        Verb::Insert => {
            let words = command.words_after_file();
            answer_insert(alloc, file, journal, command.new_journal, words, input)
        }
        _ => unreachable!(),
    }
}

/// What each other command answers.
fn answer_verb(
    alloc: Global,
    verb: Verb,
    command: &Command,
    file: Vec<u8>,
    journal: Option<&[u8]>,
    input: &[u8],
) -> Result<Answer, AllocError>
    requires words { HasItsWords (shape verb) command.now }
    requires bibtex { command.now.bibtex ≡ true → takes_bibtex verb ≡ true }
    requires other { adds_change verb ≡ false }
    ensures { IfOk result (Answers verb command.now file.items (option_map (λ text. text.now) journal.entry) input.now) }
{
    match verb {
        Verb::Asks(question) => answer_asked(alloc, question, command, file),
        Verb::Cat => answer_cat(alloc, file),
        Verb::Lint => {
            let ignored = command.words_after_file();
            let cited = command.cited.as_slice();
            answer_lint(alloc, command.word(0), file, ignored, cited)
        }
        Verb::Names => answer_printed_names(alloc, command, file),
        Verb::Explain => answer_explain(alloc, command.word(0)),
        Verb::Diff => {
            let (old, new) = (command.word(0), command.word(1));
            answer_diff(alloc, old, new, file.as_slice(), input)
        }
        Verb::Undo => answer_undo(alloc, file, journal, command.n as usize),
        Verb::Redo => answer_redo(alloc, file, journal, command.n as usize),
        Verb::Log => answer_log(alloc, file, journal),
        Verb::Forget => answer_forget(alloc, file),
        Verb::Merge => answer_apart(alloc),
        Verb::Edit | Verb::Import | Verb::Insert => unreachable!(),
    }
}

/// What each command that reads a file alone answers to it, with `--bibtex` or without.
fn answer_asked(
    alloc: Global,
    question: Question,
    command: &Command,
    file: Vec<u8>,
) -> Result<Answer, AllocError>
    requires words { HasItsWords (question_shape question) command.now }
    requires bibtex { command.now.bibtex ≡ true → takes_bibtex (Asks question) ≡ true }
    ensures { IfOk result (AnswersQuestion question command.now file.items) }
{
    if command.bibtex {
        return answer_as_bibtex(alloc, question, command, file);
    }
    answer_question(alloc, question, command, file)
}

/// What `names` answers, with `--bibtex` or without.
fn answer_printed_names(
    alloc: Global,
    command: &Command,
    file: Vec<u8>,
) -> Result<Answer, AllocError>
    requires { HasItsWords (shape Names) command.now }
    ensures { IfOk result (AnswersNames command.now file.items) }
{
    let (key, template) = (command.word(1), command.word(2));
    if !command.bibtex {
        return answer_names(alloc, file, key, command.depth, template);
    }
    answer_names_as_bibtex(alloc, file, key, template)
}

/// What each command that reads a file alone and takes `--bibtex` answers with it.
fn answer_as_bibtex(
    alloc: Global,
    question: Question,
    command: &Command,
    file: Vec<u8>,
) -> Result<Answer, AllocError>
    requires words { HasItsWords (question_shape question) command.now }
    requires bibtex { takes_bibtex (Asks question) ≡ true }
    ensures { IfOk result (AnswersBibtex question command.now file.items) }
{
    match question {
        Question::Show => answer_show_as_bibtex(alloc, file, command.word(1)),
        Question::Cite => {
            let keys = command.words_after_file();
            answer_cite_as_bibtex(alloc, file, keys, command.n, command.strict)
        }
        Question::Labels => answer_labels_as_bibtex(alloc, file, command.words_after_file()),
        Question::Json => answer_json_as_bibtex(alloc, file, command.words_after_file()),
        Question::Ris => {
            let keys = command.words_after_file();
            answer_ris_as_bibtex(alloc, file, keys, command.dropped, command.plain)
        }
        _ => unreachable!(),
    }
}

/// What each command that reads a file alone answers to what the file says.
fn answer_question(
    alloc: Global,
    question: Question,
    command: &Command,
    file: Vec<u8>,
) -> Result<Answer, AllocError>
    requires { HasItsWords (question_shape question) command.now }
    ensures { IfOk result (AnswersFile (question_answer question command.now) file.items) }
{
    let (depth, n) = (command.depth, command.n);
    match question {
        Question::Check => answer_check(alloc, file),
        Question::Show => answer_show(alloc, file, command.word(1), depth),
        Question::Entry => answer_entry(alloc, file, command.words_after_file(), command.at),
        Question::Cite => {
            let keys = command.words_after_file();
            answer_cite(alloc, file, keys, n, command.strict)
        }
        Question::Labels => answer_labels(alloc, file, command.words_after_file(), depth),
        Question::Json => {
            let keys = command.words_after_file();
            answer_json(alloc, file, keys, depth, command.raw)
        }
        Question::NewKeys => answer_newkeys(alloc, file, depth),
        Question::Ris => {
            let keys = command.words_after_file();
            answer_ris(alloc, file, keys, depth, command.dropped, command.plain)
        }
        Question::Extract => answer_extract(alloc, file, command.words_after_file()),
    }
}

/// What `edit` answers, with `--all-or-nothing` or without.
fn answer_whole(
    alloc: Global,
    command: &Command,
    file: Vec<u8>,
    journal: Option<&[u8]>,
    no_journal: bool,
    input: &[u8],
) -> Result<Answer, AllocError>
    requires { 1 ≤ length command.now.words }
    ensures { IfOk result (IsUpTo no_journal (IsWholeAnswer command.now file.items (option_map (λ text. text.now) journal.entry) input.now)) }
{
    let made = answer_edits(alloc, command, file, journal, no_journal, input)?;
    whole(alloc, command.all_or_nothing, made)
}

/// What `edit` answers: to the words of one edit, or to a script if there are no words.
fn answer_edits(
    alloc: Global,
    command: &Command,
    file: Vec<u8>,
    journal: Option<&[u8]>,
    no_journal: bool,
    input: &[u8],
) -> Result<Answer, AllocError>
    requires { 1 ≤ length command.now.words }
    ensures { IfOk result (IsUpTo no_journal (IsEditsAnswer command.now file.items (option_map (λ text. text.now) journal.entry) input.now)) }
{
    if command.words.as_slice().len() == 1 {
        return answer_edit(alloc, file, journal, command.new_journal, no_journal, input);
    }
    answer_words(
        alloc,
        file,
        journal,
        command.new_journal,
        no_journal,
        command.words_after_file(),
    )
}
