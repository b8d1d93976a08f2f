//! What each command answers to several files that are read as one.

ghost use Rattle.std.specs.Prelude.{◌≡◌, true, List, ◌-◌, ◌<◌, IfOk};
ghost use Rattle.bib_spec.specs.Text.{Text as FileText};
ghost use Rattle.bib_store.specs.Readings.{OfReading};
ghost use Rattle.bib_words.specs.Command.{IsCommand, HasItsWords, has_others};
ghost use Rattle.bib_words.specs.declared.verbs.Question.TheVariants.{Json};
ghost use Rattle.bib_words.specs.declared.verbs.Verb.TheVariants.{Names};
ghost use Rattle.bib_words.specs.Verbs.{shape, question_shape, takes_others};
ghost use Rattle.bib_shelf.specs.Joined.{AreJoined};
ghost use Rattle.bib_answers.specs.Names.{AnswersNames};
ghost use Rattle.bib_run.specs.Answers.{key_word, template_word};
ghost use Rattle.shelf_run.specs.Answers.{shelf_answer, AnswersShelf, ShelfAnswers, IsShelfAnswer};

use crate::linting::answer_lint;
use crate::messages::unread_in;
use bib_answers::{
    Answer, NamedFiles, check_in, cite_in, entries_in, extract_in, json_in, labels_in, names_in,
    newkeys_in, show_in,
};
use bib_run::ris_in;
use bib_shelf::{Joined, Shelf};
use bib_store::Paged;
use bib_text::Text;
use bib_words::{Command, Question, Verb};
use std::alloc::{AllocError, Global};

/// What a command that names other files answers to all its files, which have these names, in the order in which they are read.
/// It reads and writes nothing, and is refused only if memory runs out.
pub fn answer_shelf(
    alloc: Global,
    command: &Command,
    names: &[Text],
    files: Joined,
) -> Result<Answer, AllocError>
    requires command { IsCommand command.now }
    requires others { has_others command.now ≡ true }
    requires joined { (texts : List FileText) × AreJoined texts files }
    ensures { IfOk result (λ answer. (texts : List FileText) → AreJoined texts files → IsShelfAnswer command.now names.now texts answer) }
{
    match command.verb() {
        Some(verb) => answer_verb(alloc, verb, command, names, files),
        None => unreachable!(),
    }
}

/// What each command that takes other files answers.
fn answer_verb(
    alloc: Global,
    verb: Verb,
    command: &Command,
    names: &[Text],
    files: Joined,
) -> Result<Answer, AllocError>
    requires words { HasItsWords (shape verb) command.now }
    requires others { takes_others verb ≡ true }
    requires joined { (texts : List FileText) × AreJoined texts files }
    ensures { IfOk result (λ answer. (texts : List FileText) → AreJoined texts files → ShelfAnswers verb command.now names.now texts answer) }
{
    match verb {
        Verb::Asks(question) => answer_question(alloc, question, command, names, files),
        Verb::Lint => {
            let ignored = command.words_after_file();
            answer_lint(alloc, names, &files, ignored, command.cited.as_slice())
        }
        Verb::Names => answer_names(alloc, command, names, files),
        _ => unreachable!(),
    }
}

/// What a command answers to what the files say together.
fn answer_question(
    alloc: Global,
    question: Question,
    command: &Command,
    names: &[Text],
    files: Joined,
) -> Result<Answer, AllocError>
    requires words { HasItsWords (question_shape question) command.now }
    requires joined { (texts : List FileText) × AreJoined texts files }
    ensures { IfOk result (λ answer. (texts : List FileText) → AreJoined texts files → AnswersShelf (λ db now. now ≡ shelf_answer question command.now names.now texts db) names.now texts answer) }
{
    match Shelf::open_joined(alloc, files, Paged::new(alloc)) {
        Ok(shelf) => question_answer(alloc, question, command, names, &shelf),
        Err(fault) => unread_in(alloc, names, fault),
    }
}

/// What a command answers to files that are open as one.
fn question_answer(
    alloc: Global,
    question: Question,
    command: &Command,
    names: &[Text],
    shelf: &Shelf<Paged>,
) -> Result<Answer, AllocError>
    requires words { HasItsWords (question_shape question) command.now }
    requires joined { (texts : List FileText) × AreJoined texts shelf.now }
    ensures { IfOk result (λ answer. (texts : List FileText) → AreJoined texts shelf.now → OfReading shelf.now.text (λ r. answer ≡ shelf_answer question command.now names.now texts r)) }
{
    let db = shelf.database();
    let (depth, n) = (command.depth, command.n);
    match question {
        Question::Check => check_in(alloc, db, shelf.file_count().saturating_sub(1)),
        Question::Show => show_in(alloc, db, command.word(1), depth),
        Question::Entry => entries_in(alloc, db, command.words_after_file(), command.at),
        Question::Cite => {
            let keys = command.words_after_file();
            cite_in(alloc, db, keys, n, command.strict)
        }
        Question::Labels => labels_in(alloc, db, command.words_after_file(), depth),
        Question::Json => json_of(alloc, command, names, shelf),
        Question::NewKeys => newkeys_in(alloc, db, depth),
        Question::Ris => {
            let keys = command.words_after_file();
            ris_in(alloc, db, keys, depth, command.dropped, command.plain)
        }
        Question::Extract => extract_in(alloc, db, command.words_after_file()),
    }
}

/// What `json` answers to files that are open as one.
fn json_of(
    alloc: Global,
    command: &Command,
    names: &[Text],
    shelf: &Shelf<Paged>,
) -> Result<Answer, AllocError>
    requires words { HasItsWords (question_shape Json) command.now }
    requires joined { (texts : List FileText) × AreJoined texts shelf.now }
    ensures { IfOk result (λ answer. (texts : List FileText) → AreJoined texts shelf.now → OfReading shelf.now.text (λ r. answer ≡ shelf_answer Json command.now names.now texts r)) }
{
    let db = shelf.database();
    let files = NamedFiles::new(names, db, shelf.spans());
    json_in(
        alloc,
        db,
        Some(&files),
        command.words_after_file(),
        command.depth,
        command.raw,
    )
}

/// What `names` answers to what the files say together.
fn answer_names(
    alloc: Global,
    command: &Command,
    names: &[Text],
    files: Joined,
) -> Result<Answer, AllocError>
    requires words { HasItsWords (shape Names) command.now }
    requires joined { (texts : List FileText) × AreJoined texts files }
    ensures { IfOk result (λ answer. (texts : List FileText) → AreJoined texts files → AnswersShelf (AnswersNames command.now.depth (key_word command.now) (template_word command.now)) names.now texts answer) }
{
    let (key, template) = (command.word(1), command.word(2));
    match Shelf::open_joined(alloc, files, Paged::new(alloc)) {
        Ok(shelf) => names_in(alloc, shelf.database(), key, command.depth, template),
        Err(fault) => unread_in(alloc, names, fault),
    }
}
