//! `names`: the names of an entry, printed by a template.

ghost use Rattle.std.specs.Prelude.{◌≡◌, ◌≢◌, [], Ok, Err, map, IfOk, IfErr};
ghost use Rattle.std.specs.Option.{option_map_or};
ghost use Rattle.bib_spec.specs.Records.{entries_of, expanded, IsDepth};
ghost use Rattle.bib_store.specs.Readings.{OfReading, IsEntryNumber};
ghost use Rattle.bib_names.specs.declared.fault.NameFault.TheVariants.{Memory};
ghost use Rattle.bib_answers.specs.Messages.{no_such_entry_line};
ghost use Rattle.bib_answers.specs.Outcome.{answer_of};
ghost use Rattle.bib_answers.specs.Names.{name_fault_name, listed_in, persons, parts_in, line_of, name_line, name_lines, lines_of, lines_answer, record_answer, names_answer, Spells, IsNamesAnswer, AnswersNames};

use crate::answers::{Answer, done, no_such_entry, refused};
use crate::opening::answer_file;
use bib_names::{Name, NameFault, Template, split_name, split_names, text_in};
use bib_store::{Database, Paged, Record};
use bib_text::{Seq, Text};
use std::alloc::{AllocError, Global};

/// The names in the first entry with this key, from its record at this depth, printed by the template that the bytes spell; or
/// why they are not printed.
pub fn answer_names(
    alloc: Global,
    file: Vec<u8>,
    key: &[u8],
    depth: u8,
    template: &[u8],
) -> Result<Answer, AllocError>
    requires { IsDepth depth }
    ensures { IfOk result (IsNamesAnswer depth key.now template.now file.items) }
{
    let template = spelled(alloc, template)?;
    answer_file(alloc, file, |db| names(alloc, db, key, depth, &template))
}

/// What `answer_names` answers, for a file that is open. It takes a look-up, and time and memory for the record and the template.
pub fn names_in(
    alloc: Global,
    db: &Database<Paged>,
    key: &[u8],
    depth: u8,
    template: &[u8],
) -> Result<Answer, AllocError>
    requires { IsDepth depth }
    ensures { IfOk result (λ answer. OfReading db.now (λ r. AnswersNames depth key.now template.now r answer)) }
{
    let template = spelled(alloc, template)?;
    names(alloc, db, key, depth, &template)
}

/// The template that the bytes spell, if they spell one.
fn spelled(alloc: Global, bytes: &[u8]) -> Result<Option<Template>, AllocError>
    ensures { IfOk result (Spells bytes.now) }
{
    match Template::read(alloc, bytes) {
        Ok(template) => Ok(Some(template)),
        Err(NameFault::BadTemplate) => Ok(None),
        Err(_) => Err(AllocError),
    }
}

fn names(
    alloc: Global,
    db: &Database<Paged>,
    key: &[u8],
    depth: u8,
    template: &Option<Template>,
) -> Result<Answer, AllocError>
    requires { IsDepth depth }
    ensures { IfOk result (λ answer. OfReading db.now (λ r. answer ≡ names_answer depth key.now template.now r)) }
{
    match db.find(key) {
        Ok(n) => entry_answer(alloc, db, n, depth, template),
        Err(_) => no_such_entry(alloc),
    }
}

/// The names of the record of entry `n` at this depth.
fn entry_answer(
    alloc: Global,
    db: &Database<Paged>,
    n: usize,
    depth: u8,
    template: &Option<Template>,
) -> Result<Answer, AllocError>
    requires number { IsEntryNumber db.now n }
    requires depth { IsDepth depth }
    ensures { IfOk result (λ answer. OfReading db.now (λ r. answer ≡ option_map_or (record_answer template.now) (expanded depth (entries_of r) n) (answer_of [] no_such_entry_line 1))) }
{
    let Ok(expanded) = db.expanded(n, depth) else {
        return Err(AllocError);
    };
    record_answer(alloc, &expanded.rec, template)
}

/// The names of a record by a template, if there is one.
fn record_answer(
    alloc: Global,
    rec: &Record,
    template: &Option<Template>,
) -> Result<Answer, AllocError>
    ensures { IfOk result (λ answer. answer ≡ record_answer template.now rec.now) }
{
    let Some(template) = template else {
        return name_fault_answer(alloc, NameFault::BadTemplate);
    };
    match record_lines(alloc, template, rec) {
        Ok(lines) => Ok(done(alloc, lines)),
        Err(fault) => name_fault_answer(alloc, fault),
    }
}

/// The answer whose message says why no name is printed. If memory ran out, there is no answer.
pub fn name_fault_answer(alloc: Global, fault: NameFault) -> Result<Answer, AllocError>
    ensures { IfOk result (λ answer. (fault ≢ Memory) × (answer ≡ lines_answer (Err fault))) }
{
    if fault == NameFault::Memory {
        return Err(AllocError);
    }
    let name = name_fault_name(fault);
    let line = format!(in alloc; "bibkeep: {} {}\n", fault.number(), name)?;
    Ok(refused(alloc, Text::from_vec(line.into_bytes())))
}

/// The name of a fault.
fn name_fault_name(fault: NameFault) -> &'static str
    ensures { result.now ≡ name_fault_name fault }
{
    match fault {
        NameFault::Memory => "Memory",
        NameFault::TooManyCommas => "TooManyCommas",
        NameFault::UnbalancedName => "UnbalancedName",
        NameFault::BadTemplate => "BadTemplate",
    }
}

/// A line for each author; or for each editor, if there is no author.
fn record_lines(alloc: Global, template: &Template, rec: &Record) -> Result<Text, NameFault>
    ensures lines { IfOk result (λ text. lines_of template.now (persons rec.now.fields) ≡ Ok text) }
    ensures fault { IfErr result (λ fault. fault ≢ Memory → lines_of template.now (persons rec.now.fields) ≡ Err fault) }
{
    let names = persons(alloc, rec.fields.as_slice())?;
    name_lines(alloc, template, names.as_slice())
}

/// The authors; or the editors, if there is no author.
pub fn persons<'a>(alloc: Global, fields: &'a [(Text, Text)]) -> Result<Seq<&'a [u8]>, NameFault>
    ensures names { IfOk result (λ names. persons fields.now ≡ Ok (map (λ n. n.now) names)) }
    ensures fault { IfErr result (λ fault. fault ≢ Memory → persons fields.now ≡ Err fault) }
{
    let authors = listed_in(alloc, text_in(fields, b"author"))?;
    if authors.as_slice().is_empty() {
        listed_in(alloc, text_in(fields, b"editor"))
    } else {
        Ok(authors)
    }
}

/// The names of a list.
fn listed_in(alloc: Global, text: &[u8]) -> Result<Seq<&[u8]>, NameFault>
    ensures names { IfOk result (λ names. listed_in text.now ≡ Ok (map (λ n. n.now) names)) }
    ensures fault { IfErr result (λ fault. fault ≢ Memory → listed_in text.now ≡ Err fault) }
{
    split_names(alloc, text)
}

/// A line for each name.
fn name_lines(alloc: Global, template: &Template, names: &[&[u8]]) -> Result<Text, NameFault>
    ensures lines { IfOk result (λ text. name_lines template.now (map (λ n. n.now) names.now) ≡ Ok text) }
    ensures fault { IfErr result (λ fault. fault ≢ Memory → name_lines template.now (map (λ n. n.now) names.now) ≡ Err fault) }
{
    let mut out = Vec::new(alloc);
    'print: for name in names {
        out.extend_from_slice(name_line(alloc, template, name)?.as_slice())?;
    }
    Ok(Text::from_vec(out))
}

/// The print of a name, a line.
fn name_line(alloc: Global, template: &Template, name: &[u8]) -> Result<Text, NameFault>
    ensures line { IfOk result (λ line. name_line template.now name.now ≡ Ok line) }
    ensures fault { IfErr result (λ fault. fault ≢ Memory → name_line template.now name.now ≡ Err fault) }
{
    let parts = parts_in(alloc, name)?;
    line_of(template, &parts)
}

/// The print of a name with these parts, a line.
fn line_of(template: &Template, parts: &Name<'_>) -> Result<Text, NameFault>
    ensures line { IfOk result (λ line. line_of template.now (Ok parts.now) ≡ Ok line) }
    ensures fault { IfErr result (λ fault. fault ≡ Memory) }
{
    let mut line = template.print(parts)?.into_vec();
    line.extend_from_slice(b"\n")?;
    Ok(Text::from_vec(line))
}

/// The parts of a name.
fn parts_in(alloc: Global, name: &[u8]) -> Result<Name<'_>, NameFault>
    ensures parts { IfOk result (λ parts. parts_in name.now ≡ Ok parts) }
    ensures fault { IfErr result (λ fault. fault ≢ Memory → parts_in name.now ≡ Err fault) }
{
    split_name(alloc, name)
}
