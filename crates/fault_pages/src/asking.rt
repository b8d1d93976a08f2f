//! The fault that a word names.

ghost use Rattle.std.specs.Prelude.{◌≡◌, find};
ghost use Rattle.std.specs.Option.{option_map};
ghost use Rattle.fault_pages.specs.Heads.{head_of, is_asked, faults_of_questions, asked};

use crate::pages::{
    faults_of_bytes, faults_of_edits, faults_of_inputs, faults_of_journals, faults_of_limits,
    faults_of_requests, faults_of_texts,
};

/// A fault's number in digits, its name, and the text of its page.
#[derive(Clone, Copy, Debug)]
pub struct Page {
    pub number: &'static [u8],
    pub name: &'static [u8],
    pub text: &'static [u8],
}

/// Whether the word is this number, or this name in upper or lower case.
pub(crate) fn is_asked(word: &[u8], number: &[u8], name: &[u8]) -> bool
    ensures { result ≡ is_asked word.now (number.now, name.now) }
{
    word == number || word.eq_ignore_ascii_case(name)
}

/// The page on one of these faults, if the word names one: a question is not answered.
fn faults_of_questions(word: &[u8]) -> Option<Page>
    ensures { option_map head_of result ≡ find (is_asked word.now) faults_of_questions }
{
    faults_of_requests(word).or(faults_of_texts(word))
}

/// The page on the fault that has this number or name. It takes no memory.
pub fn page_of(word: &[u8]) -> Option<Page>
    ensures { option_map head_of result ≡ asked word.now }
{
    faults_of_bytes(word)
        .or(faults_of_limits(word))
        .or(faults_of_questions(word))
        .or(faults_of_edits(word))
        .or(faults_of_journals(word))
        .or(faults_of_inputs(word))
}
