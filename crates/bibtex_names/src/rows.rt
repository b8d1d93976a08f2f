//! Names and templates, and the prints that BibTeX 0.99d gives for them.

ghost use Rattle.bibtex_names.specs.Rows.{PeriodStaysWithoutInitial, BracesCount, DepthIsCarried, TiesBeforeAGroupAreItsOwn, LettersHaveEitherCase, InnerGroupsStay, LaterCommasPartWords, SeparatorBeforeACommaStays, InitialIsOneByte, CommandIsAnInitial, BytesAreLettersOfASequence, BadTemplatesAreRefused, NameBeginsWithAWord};

/// A period follows a word that prints no initial.
pub fn a_period_stays_without_an_initial()
    ensures { PeriodStaysWithoutInitial }
{}

/// Braces are among the three characters after which a space is printed.
pub fn braces_count()
    ensures { BracesCount }
{}

/// A count of characters that stops inside braces leaves them open for the next one.
pub fn the_depth_is_carried()
    ensures { DepthIsCarried }
{}

/// A group that prints nothing drops one of two ties before it.
pub fn ties_before_a_group_are_its_own()
    ensures { TiesBeforeAGroupAreItsOwn }
{}

/// The letters of a group may have either case, and the text between words may have braces.
pub fn letters_have_either_case()
    ensures { LettersHaveEitherCase }
{}

/// Other groups in a group are printed with their braces.
pub fn inner_groups_stay()
    ensures { InnerGroupsStay }
{}

/// A third comma parts words of First.
pub fn later_commas_part_words()
    ensures { LaterCommasPartWords }
{}

/// The separator before a third comma is that of the next word.
pub fn a_separator_before_a_comma_stays()
    ensures { SeparatorBeforeACommaStays }
{}

/// Of a letter of two bytes the first is the initial.
pub fn an_initial_is_one_byte()
    ensures { InitialIsOneByte }
{}

/// A group with a backslash is an initial at any depth.
pub fn a_command_is_an_initial()
    ensures { CommandIsAnInitial }
{}

/// Bytes from 0x80 on belong to a control sequence.
pub fn bytes_are_letters_of_a_sequence()
    ensures { BytesAreLettersOfASequence }
{}

/// A template is refused if BibTeX complains of it.
pub fn bad_templates_are_refused()
    ensures { BadTemplatesAreRefused }
{}

/// A name that has no word before its first comma is refused.
pub fn a_name_begins_with_a_word()
    ensures { NameBeginsWithAWord }
{}
