//! Printing a name by a template.

ghost use Rattle.std.specs.Prelude.{◌≡◌, IfOk, drop};
ghost use Rattle.bibtex_names.specs.Printing.{shown, dot, part_of, ends_with_tie, but_last, printed};

use crate::counting::{Count, three};
use crate::initial::initial;
use crate::name::{Name, split_name};
use crate::template::{Form, Group, Letters, Part, Template};
use crate::word::Word;
use bib_names::NameFault;
use bib_text::{Seq, Text};
use std::alloc::{AllocError, Global};
use std::marker::Model;

/// Room for the print of most names, in bytes, so that few prints take memory twice.
const ROOM: usize = 64;

/// What has been printed, and whether the last count of characters stopped inside braces.
#[derive(Drop)]
pub(crate) struct Print {
    text: Vec<u8>,
    is_open: bool,
}

impl Model for Print {
    ghost use Rattle.bibtex_names.specs.Printing.{Printed};

    ghost Value = { Printed };

    ghost view = { λ p. record { text = p.text.items; is_open = p.is_open } };
}

/// What a group prints of a word.
fn shown(form: Form, word: &[u8]) -> &[u8]
    ensures { result.now ≡ shown form word.now }
{
    match form {
        Form::Words => word,
        Form::Initials => initial(word),
    }
}

/// What is printed after a word or its initial, before a space or a tie.
fn dot(form: Form) -> &'static [u8]
    ensures { result.now ≡ dot form }
{
    match form {
        Form::Words => b"",
        Form::Initials => b".",
    }
}

/// The text from a place on, empty if the text ends before it.
fn after(text: &[u8], start: usize) -> &[u8]
    ensures { result.now ≡ drop start text.now }
{
    text.split_at(start.min(text.len())).1
}

/// Whether the text ends with a tie.
fn ends_with_tie(text: &[u8]) -> bool
    ensures { result ≡ ends_with_tie text.now }
{
    !text.is_empty() && text[text.len() - 1] == b'~'
}

/// The text without its last byte.
fn but_last(text: &[u8]) -> &[u8]
    ensures { result.now ≡ but_last text.now }
{
    text.split_at(text.len().saturating_sub(1)).0
}

impl Print {
    ghost use Rattle.std.specs.Prelude.{◌≡◌, ◌<◌, ◌+◌, ◌∷◌, [], length, drop, IfOk, OnOk};
    ghost use Rattle.bibtex_names.specs.Counting.{three};
    ghost use Rattle.bibtex_names.specs.Printing.{with_text, with_counted, with_joint, with_between, with_words, tie_counted, finished, group_text, with_group_text, with_part, with_letters, with_group, with_groups};

    /// Adds a text.
    fn push_text(&mut self, text: &[u8]) -> Result<(), AllocError>
        ensures { OnOk result (self.new ≡ with_text self.old text.now) }
    {
        self.text.extend_from_slice(text)
    }

    /// Adds a byte.
    fn push_byte(&mut self, byte: u8) -> Result<(), AllocError>
        ensures { OnOk result (self.new ≡ with_text self.old (byte ∷ [])) }
    {
        self.text.push(byte)?;
        Ok(())
    }

    /// Adds a space if three characters are there, else a tie.
    fn push_counted(&mut self) -> Result<(), AllocError>
        ensures { OnOk result (self.new ≡ with_counted self.old.text (three self.old.is_open self.old.text)) }
    {
        let count = three(self.text.as_slice(), self.is_open);
        let joint = if count.is_enough { b' ' } else { b'~' };
        self.text.push(joint)?;
        self.is_open = count.is_open;
        Ok(())
    }

    /// Adds the byte before the next word.
    fn push_joint(&mut self, sep: u8, is_last: bool) -> Result<(), AllocError>
        ensures { OnOk result (self.new ≡ with_joint self.old sep is_last) }
    {
        if sep == b'-' || sep == b'~' {
            self.push_byte(sep)
        } else if is_last {
            self.push_byte(b'~')
        } else {
            self.push_counted()
        }
    }

    /// Adds what is between a word and the next.
    fn push_between(&mut self, letters: &Letters, sep: u8, is_last: bool) -> Result<(), AllocError>
        ensures { OnOk result (self.new ≡ with_between letters.now self.old sep is_last) }
    {
        match &letters.between {
            Some(between) => self.push_text(between.as_slice()),
            None => {
                self.push_text(dot(letters.form))?;
                self.push_joint(sep, is_last)
            }
        }
    }

    /// Adds word `n` or its initial, and what is between it and the next.
    fn push_word(
        &mut self,
        letters: &Letters,
        words: &[Word<'_>],
        n: usize,
    ) -> Result<(), AllocError>
        requires { n < length words.now }
        ensures { OnOk result (with_words letters.now self.new (drop (n + 1) words.now) ≡ with_words letters.now self.old (drop n words.now)) }
    {
        let word = &words[n];
        self.push_text(shown(letters.form, word.text))?;
        if n + 1 < words.len() {
            let next = &words[n + 1];
            return self.push_between(letters, next.sep, n + 2 == words.len());
        }
        Ok(())
    }

    /// Adds these words.
    fn push_words(&mut self, letters: &Letters, words: &[Word<'_>]) -> Result<(), AllocError>
        ensures { OnOk result (self.new ≡ with_words letters.now self.old words.now) }
    {
        for n in 0..words.len() {
            self.push_word(letters, words, n)?;
        }
        Ok(())
    }

    /// Makes the tie at the end a space if three characters are before it.
    fn end_tie(&mut self, count: Count) -> Result<(), AllocError>
        ensures { OnOk result (self.new ≡ tie_counted self.old.text count) }
    {
        self.is_open = count.is_open;
        if count.is_enough {
            let len = but_last(self.text.as_slice()).len();
            self.text.truncate(len);
            self.text.push(b' ')?;
        }
        Ok(())
    }

    /// Looks at the ties at the end, after a group that begins after `start` bytes.
    fn finish(&mut self, start: usize) -> Result<(), AllocError>
        ensures { OnOk result (self.new ≡ finished start self.old) }
    {
        if !ends_with_tie(self.text.as_slice()) {
            return Ok(());
        }
        let front = but_last(self.text.as_slice());
        if ends_with_tie(front) {
            let len = front.len();
            self.text.truncate(len);
            return Ok(());
        }
        let count = three(after(front, start), self.is_open);
        self.end_tie(count)
    }

    /// Adds what a group has printed, and looks at the ties at the end.
    fn push_group_text(&mut self, group: Print) -> Result<(), AllocError>
        ensures { OnOk result (self.new ≡ with_group_text self.old group) }
    {
        let start = self.text.len();
        self.text.extend_from_slice(group.text.as_slice())?;
        self.is_open = group.is_open;
        self.finish(start)
    }

    /// What a group prints of these words, before its end is looked at.
    fn of_words(
        alloc: Global,
        is_open: bool,
        group: &Group,
        letters: &Letters,
        words: &[Word<'_>],
    ) -> Result<Print, AllocError>
        ensures { IfOk result (λ print. print ≡ group_text is_open group.now letters.now words.now) }
    {
        let mut print = Print::of(alloc, group.pre.as_slice(), is_open)?;
        print.push_words(letters, words)?;
        print.push_text(group.post.as_slice())?;
        Ok(print)
    }

    /// A copy of this text.
    fn of(alloc: Global, text: &[u8], is_open: bool) -> Result<Print, AllocError>
        ensures { IfOk result (λ print. print ≡ record { text = text.now; is_open = is_open }) }
    {
        let mut copy = Vec::with_capacity(alloc, ROOM)?;
        copy.extend_from_slice(text)?;
        Ok(Print {
            text: copy,
            is_open,
        })
    }

    /// Adds what a group prints of the words of its part.
    fn push_part(
        &mut self,
        alloc: Global,
        group: &Group,
        letters: &Letters,
        words: &[Word<'_>],
    ) -> Result<(), AllocError>
        ensures { OnOk result (self.new ≡ with_part self.old group.now letters.now words.now) }
    {
        if words.is_empty() {
            return Ok(());
        }
        let print = Print::of_words(alloc, self.is_open, group, letters, words)?;
        self.push_group_text(print)
    }

    /// Adds what a group prints of a name.
    fn push_group(
        &mut self,
        alloc: Global,
        name: &Name<'_>,
        group: &Group,
    ) -> Result<(), AllocError>
        ensures { OnOk result (self.new ≡ with_letters name.now self.old group.now group.now.letters) }
    {
        match &group.letters {
            Some(letters) => self.push_part(alloc, group, letters, part_of(name, letters.part)),
            None => {
                let print = Print::of(alloc, group.pre.as_slice(), self.is_open)?;
                self.push_group_text(print)
            }
        }
    }

    /// Adds what a group prints of a name, and the text after the group.
    fn push_with_trail(
        &mut self,
        alloc: Global,
        name: &Name<'_>,
        group: &Group,
    ) -> Result<(), AllocError>
        ensures { OnOk result (self.new ≡ with_group name.now self.old group.now) }
    {
        self.push_group(alloc, name, group)?;
        self.push_text(group.trail.as_slice())
    }

    /// Adds what these groups print of a name.
    fn push_groups(
        &mut self,
        alloc: Global,
        name: &Name<'_>,
        groups: &[Group],
    ) -> Result<(), AllocError>
        ensures { OnOk result (self.new ≡ with_groups name.now self.old groups.now) }
    {
        for group in groups {
            self.push_with_trail(alloc, name, group)?;
        }
        Ok(())
    }

    /// The text.
    fn into_text(self) -> Text
        ensures { result ≡ self.text }
    {
        Seq::from_vec(self.text)
    }
}

/// The words of a part.
fn part_of<'a, 'b>(name: &'b Name<'a>, part: Part) -> &'b [Word<'a>]
    ensures { result.now ≡ part_of name.now part }
{
    match part {
        Part::First => name.first.as_slice(),
        Part::Von => name.von.as_slice(),
        Part::Last => name.last.as_slice(),
        Part::Jr => name.jr.as_slice(),
    }
}

/// The print of a name by a template.
fn printed(alloc: Global, template: &Template, name: &Name<'_>) -> Result<Text, AllocError>
    ensures { IfOk result (λ text. text ≡ printed template.now name.now) }
{
    let mut print = Print::of(alloc, template.front(), false)?;
    print.push_groups(alloc, name, template.groups())?;
    Ok(print.into_text())
}

impl Template {
    ghost use Rattle.std.specs.Prelude.{◌≡◌, ◌≢◌, Ok, Err, IfOk, IfErr};
    ghost use Rattle.bib_names.specs.declared.fault.NameFault.TheVariants.{Memory};
    ghost use Rattle.bibtex_names.specs.NamesInLists.{printed_as_bibtex};
    ghost use Rattle.bibtex_names.specs.Printing.{printed};

    /// The print of a name with these parts, as BibTeX prints it. The one refusal is want of memory.
    pub fn print(&self, name: &Name<'_>) -> Result<Text, NameFault>
        ensures printed { IfOk result (λ text. text ≡ printed self.now name.now) }
        ensures memory { IfErr result (λ fault. fault ≡ Memory) }
    {
        Ok(printed(self.allocator(), self, name)?)
    }

    /// The print of one name of a list, as BibTeX takes the name apart and prints it. `split_names` has the names of a list.
    ///
    /// A name whose braces do not balance is refused as 22. Another name is refused as 21 if it has no word before its first comma. All
    /// other names are refused only for want of memory.
    pub fn print_name(&self, name: &[u8]) -> Result<Text, NameFault>
        ensures printed { IfOk result (λ text. printed_as_bibtex self.now name.now ≡ Ok text) }
        ensures fault { IfErr result (λ fault. fault ≢ Memory → printed_as_bibtex self.now name.now ≡ Err fault) }
    {
        let parts = split_name(self.allocator(), name)?;
        self.print(&parts)
    }
}
