//! The commands and their words, and what help says of each.

ghost use Rattle.std.specs.Prelude.{IfOk, codes};
ghost use Rattle.clap.specs.Words.{App, new_app};
ghost use Rattle.bib_command.specs.Lines.{Reads};
ghost use Rattle.bib_command.specs.CommandLine.{adds, over_file, over_files, cat_line, check_line, lint_line, show_line, cited_line, entry_line, cite_line, edit_or_print_line, json_line, keys_line, labels_line, names_line, newkeys_line, edit_line, insert_line, steps_line, ris_line, import_texts_line, import_line, merge_line, diff_line, explain_line, bibkeep_top, bibkeep_shows, bibkeep_makes, bibkeep_edits, bibkeep};

use crate::arguments::{
    any_file, aux_files, bibtex, count, edit_words, files_after, files_before, hints, ignore, keys,
    levels, needed, needed_keys, new_journal, no_journal, position, print, switch,
};
use clap::Command;
use std::alloc::{AllocError, Global};

/// The whole command line.
pub fn command_line<'a>(alloc: Global) -> Result<Command<'a>, AllocError>
    ensures { IfOk result (Reads bibkeep) }
{
    let shared = adds(
        alloc,
        adds(alloc, adds(alloc, edits(alloc), ris(alloc)), extract(alloc)),
        import(alloc),
    );
    let between = adds(alloc, adds(alloc, shared, merge(alloc)), diff(alloc));
    adds(alloc, between, explain(alloc))
}

/// With the commands that change a file, and those over its journal.
fn edits<'a>(alloc: Global) -> Result<Command<'a>, AllocError>
    ensures { IfOk result (Reads bibkeep_edits) }
{
    let changes = adds(alloc, adds(alloc, makes(alloc), edit(alloc)), insert(alloc));
    let turns = adds(alloc, adds(alloc, changes, undo(alloc)), redo(alloc));
    adds(alloc, adds(alloc, turns, log(alloc)), forget(alloc))
}

/// With the commands that make labels, JSON, names or keys of what a file says.
fn makes<'a>(alloc: Global) -> Result<Command<'a>, AllocError>
    ensures { IfOk result (Reads bibkeep_makes) }
{
    let records = adds(alloc, adds(alloc, shows(alloc), labels(alloc)), json(alloc));
    adds(alloc, adds(alloc, records, names(alloc)), newkeys(alloc))
}

/// With the commands that show what a file says.
fn shows<'a>(alloc: Global) -> Result<Command<'a>, AllocError>
    ensures { IfOk result (Reads bibkeep_shows) }
{
    let checks = adds(
        alloc,
        adds(alloc, adds(alloc, top(alloc), cat(alloc)), check(alloc)),
        lint(alloc),
    );
    let entries = adds(alloc, adds(alloc, checks, show(alloc)), entry(alloc));
    adds(alloc, entries, cite(alloc))
}

/// The command with one more subcommand, which has the option `--hints` too, if there was memory to make both.
fn adds<'a>(
    alloc: Global,
    command: Result<Command<'a>, AllocError>,
    more: Result<Command<'a>, AllocError>,
) -> Result<Command<'a>, AllocError>
    ensures { (a s : App) → IfOk command.entry (Reads a) → IfOk more.entry (Reads s) → IfOk result (Reads (adds a s)) }
{
    command?.subcommand(more?.arg(hints(alloc))?)
}

/// The program. Help calls it bibkeep, even if the file that it was started from has another name.
fn top<'a>(alloc: Global) -> Result<Command<'a>, AllocError>
    ensures { IfOk result (Reads bibkeep_top) }
{
    named(
        alloc,
        "bibkeep",
        "Edits BibTeX files and leaves every other byte as it was",
        "\
Exit status: 0 done, 1 refused, a finding of lint or a difference, 2 bad usage, 3 read or write error, 4 out of memory.
More: man bibkeep; the guide is GUIDE.md in the folder share/doc/bibkeep that ./install made.

Examples:
  bibkeep check refs.bib          # what is in the file, and what looks wrong
  bibkeep show refs.bib knuth86   # one entry, with inherited fields
  bibkeep help edit               # more about a command",
    )
    .version("0.1.0")
    .subcommand_required(true)
    .arg_required_else_help(true)
    .bin_name("bibkeep")
}

fn cat<'a>(alloc: Global) -> Result<Command<'a>, AllocError>
    ensures { IfOk result (Reads cat_line) }
{
    named(
        alloc,
        "cat",
        "Prints a file that is valid BibTeX, byte for byte",
        "\
Examples:
  bibkeep cat refs.bib     # the file, byte for byte, or where it goes wrong
  bibkeep cat < refs.bib   # the same for standard input",
    )
    .arg(any_file(alloc))
}

fn check<'a>(alloc: Global) -> Result<Command<'a>, AllocError>
    ensures { IfOk result (Reads check_line) }
{
    over_files(
        alloc,
        "check",
        "Counts what is in a file and reports what looks wrong",
        "\
It reports repeated entries, extra fields, undefined macros, macros that their own definition uses, and crossrefs that name
no entry, that name their own entry, or whose parent comes before them. A report is not a refusal: the status is 0.

With --before and --after it reads other files too, as a document with \\bibliography{strings,refs} does: the macros of
earlier files and the entries of all count.

Examples:
  bibkeep check refs.bib
  bibkeep check refs.bib --before strings.bib --after parents.bib",
    )
}

fn lint<'a>(alloc: Global) -> Result<Command<'a>, AllocError>
    ensures { IfOk result (Reads lint_line) }
{
    over_files(
        alloc,
        "lint",
        "Reports what looks wrong, one finding per line with line and column, for editors and hooks",
        "\
A finding is a line such as `refs.bib:12:5: warning: macro mai is not defined [undefined-macro]`. The column counts bytes
from 1. The status is 1 if there is a finding, and 0 if there is none. The word in brackets is the finding's code: with
`--ignore undefined-macro` such lines are left out, and do not count. With `--aux` the keys that a document cites and no
entry has are found too, each with its place in the aux file.

Examples:
  bibkeep lint refs.bib
  bibkeep lint refs.bib --before strings.bib   # the macros of strings.bib are defined
  bibkeep lint refs.bib --aux paper.aux
  bibkeep lint refs.bib --ignore undefined-macro --ignore nested-parent",
    )?
    .arg(ignore(alloc))?
    .arg(aux_files(
        alloc,
        "An aux file of LaTeX; the keys that it cites are looked up",
    ))
}

fn show<'a>(alloc: Global) -> Result<Command<'a>, AllocError>
    ensures { IfOk result (Reads show_line) }
{
    over_files(
        alloc,
        "show",
        "Prints an entry as a bibliography style sees it",
        "\
Macros are expanded, each run of white space is one space, and missing fields are inherited from the parent; with
--depth 2 from the parent's parent too, and so on. With --bibtex the entry inherits as in BibTeX 0.99d, which looks for the
parent after the entry.

Examples:
  bibkeep show refs.bib knuth86
  bibkeep show refs.bib knuth86 --depth 2
  bibkeep show refs.bib knuth86 --bibtex",
    )?
    .arg(needed(alloc, "KEY", "The entry's key"))?
    .arg(levels(alloc))?
    .arg(bibtex(
        alloc,
        "Prints the entry as BibTeX 0.99d reads it; not with --depth, --before or --after",
    ))
}

fn entry<'a>(alloc: Global) -> Result<Command<'a>, AllocError>
    ensures { IfOk result (Reads entry_line) }
{
    over_file(
        alloc,
        "entry",
        "Prints entries as they stand in the file, byte for byte",
        "\
Each entry is printed from its at-sign to its closing brace, with a line feed after it, in the order of the keys. A key
that several entries have names the first of them.

Examples:
  bibkeep entry refs.bib knuth86
  bibkeep entry refs.bib --at knuth86   # first a line: item (from 0), tab, line, tab, column
  bibkeep entry refs.bib '*'            # every entry, without what stands between them",
    )?
    .arg(needed_keys(alloc))?
    .arg(switch(
        alloc,
        "at",
        "Prints a line before each entry: the number of its item, counted from 0, its line and its column",
    ))
}

fn cite<'a>(alloc: Global) -> Result<Command<'a>, AllocError>
    ensures { IfOk result (Reads cite_line) }
{
    over_cited(
        alloc,
        "cite",
        "Lists the entries that a bibliography for these keys contains",
        "\
A parent that at least N cited entries refer to is listed too. Unknown keys come last, each after `?`. With --bibtex the
entries, their order and their crossrefs are those of BibTeX 0.99d: it finds a parent only after its child, or if you cite
the parent.

Examples:
  bibkeep cite refs.bib knuth86 lamport86
  bibkeep cite refs.bib --min-crossrefs 3 knuth86 lamport86
  bibkeep cite refs.bib --bibtex knuth86 lamport86
  bibkeep cite refs.bib '*'   # every entry
  bibkeep cite refs.bib --strict --aux paper.aux   # status 1 if the paper cites an unknown key",
    )?
    .arg(count(
        alloc,
        "min-crossrefs",
        "2",
        "How many cited entries must refer to a parent so that it is listed too, from 1 to 65535",
    ))?
    .arg(switch(alloc, "strict", "Ends with status 1 if a key is unknown"))?
    .arg(bibtex(
        alloc,
        "Lists what BibTeX 0.99d would list; not with --before or --after",
    ))
}

fn labels<'a>(alloc: Global) -> Result<Command<'a>, AllocError>
    ensures { IfOk result (Reads labels_line) }
{
    over_keys(
        alloc,
        "labels",
        "Prints a short label, such as Knu84, for each entry that these keys cite",
        "\
Each line is a label, a tab and the entry's key. A label is made of names and year; equal labels get letters. With --bibtex
the labels are those that the style alpha of BibTeX 0.99d makes, byte for byte, in the order of its bibliography.

Examples:
  bibkeep labels refs.bib knuth86 lamport86
  bibkeep labels refs.bib '*'   # every entry
  bibkeep labels refs.bib --bibtex '*'",
    )?
    .arg(bibtex(
        alloc,
        "Prints the labels of the style alpha of BibTeX 0.99d; not with --depth, --before or --after",
    ))
}

fn json<'a>(alloc: Global) -> Result<Command<'a>, AllocError>
    ensures { IfOk result (Reads json_line) }
{
    over_keys(
        alloc,
        "json",
        "Prints the entries that these keys cite as JSON, one line each",
        "\
Each line is an object with type, key, parent (or null) and fields. The fields are those that `show` prints, in order.
With --raw each field is an object with name, value (the bytes in the file, delimiters and macros too) and inherited (false,
or the key of the entry from which it comes), and the entry has item (from 0), line and column too.

Examples:
  bibkeep json refs.bib knuth86 lamport86
  bibkeep json refs.bib '*' | jq -r .key   # every entry
  bibkeep json refs.bib --raw '*' | jq -r 'select(.fields.journal) | .fields.journal.value'
  bibkeep json refs.bib --bibtex '*'",
    )?
    .arg(switch(
        alloc,
        "raw",
        "Prints the fields as they are written, and where each entry stands",
    ))?
    .arg(bibtex(
        alloc,
        "Prints the entries as BibTeX 0.99d reads them; not with --depth, --raw, --before or --after",
    ))
}

fn names<'a>(alloc: Global) -> Result<Command<'a>, AllocError>
    ensures { IfOk result (Reads names_line) }
{
    over_files(
        alloc,
        "names",
        "Prints an entry's authors, or its editors if it has none, by a template",
        "\
A template is text and groups in braces. Each group prints a part of the name: f (first), v (von), l (last) or j (jr). One
letter prints initials, two print the words. With --bibtex the names are printed as a style of BibTeX 0.99d prints them, byte
for byte.

Examples:
  bibkeep names refs.bib knuth86 '{ff }{vv~}{ll}{, jj}'
  bibkeep names refs.bib knuth86 '{vv~}{ll}{, jj}{, f.}'
  bibkeep names refs.bib knuth86 --bibtex '{f.~}{vv~}{ll}{, jj}'",
    )?
    .arg(needed(alloc, "KEY", "The entry's key"))?
    .arg(needed(alloc, "TEMPLATE", "How a name is printed"))?
    .arg(levels(alloc))?
    .arg(bibtex(
        alloc,
        "Prints the names as BibTeX 0.99d prints them; not with --depth, --before or --after",
    ))
}

fn newkeys<'a>(alloc: Global) -> Result<Command<'a>, AllocError>
    ensures { IfOk result (Reads newkeys_line) }
{
    over_files(
        alloc,
        "newkeys",
        "Lists the keys that `edit F regenerate` would make, and changes nothing",
        "\
Each line is an entry's key, a tab and the key that it would get, in file order.

Examples:
  bibkeep newkeys refs.bib
  bibkeep newkeys refs.bib --depth 2",
    )?
    .arg(levels(alloc))
}

fn edit<'a>(alloc: Global) -> Result<Command<'a>, AllocError>
    ensures { IfOk result (Reads edit_line) }
{
    edit_or_print(alloc)?
        .arg(new_journal(alloc))?
        .arg(no_journal(alloc))?
        .arg(switch(
            alloc,
            "all-or-nothing",
            "Stores nothing if a line of the script is refused",
        ))
}

/// `edit` without the options that say what is stored.
fn edit_or_print<'a>(alloc: Global) -> Result<Command<'a>, AllocError>
    ensures { IfOk result (Reads edit_or_print_line) }
{
    over_file(
        alloc,
        "edit",
        "Makes one edit, or those listed on standard input, and changes no other byte",
        "\
An edit is one of these. As arguments, its words follow F; on standard input there is one edit per line, words separated
by tabs (shown here as spaces):
  set KEY FIELD VALUE                    sets the field, or adds it; a value is {text}, \"text\", 12 or a macro
  drop KEY FIELD                         removes the field
  add POSITION TYPE KEY FIELD VALUE ..   inserts an entry: POSITION is a number of items, end, before:KEY or after:KEY
  remove KEY                             removes the entry
  move KEY POSITION                      moves the entry there; a number counts the items without the entry
  set-type KEY TYPE                      gives the entry another type, such as book
  rename-key FROM TO                     changes the entry's key and the crossrefs to it
  rename-field OLD NEW [KEY]             gives the field OLD the name NEW, in every entry or in that of KEY
  rename-macro FROM TO                   renames the macro, in its definition and the uses after it
  inline NAME                            replaces the macro's uses by its text, and removes its definition
  introduce NAME TEXT                    defines the macro and uses it for every {TEXT} or \"TEXT\"
  undefine NAME                          removes the macro's definition, if nothing after it uses the macro
  define NAME VALUE                      defines a macro, after the definitions before the first entry
  set-macro NAME VALUE                   gives the macro another value
  regenerate [DEPTH]                     makes a key of names and year for every entry, and updates the crossrefs
  group LABEL                            begins a step: one undo takes back the edits up to its end
  end                                    ends the step
KEY,2 is the second of several entries with the key, also in before:KEY,2. FIELD,2 is the second of several fields, in set and
drop, and NAME,2 the second of several definitions, in set-macro and undefine.
Arguments make one edit, so group and end are for standard input only. Put -- before words that begin with a hyphen.
The first refused line stops the script; the edits before it are kept, unless --all-or-nothing is given. `bibkeep undo F`
takes back the last edit or step, `bibkeep undo F --steps N` the last N; after --no-journal nothing can be taken back.

Examples:
  bibkeep edit refs.bib set knuth86 year 1986
  bibkeep edit refs.bib set knuth86 note '{50\\% of \\TeX}'
  bibkeep edit refs.bib --print rename-key type86 type | diff -u refs.bib -
  bibkeep edit refs.bib remove knuth86,2
  printf 'set\\tknuth86\\tnote\\t{x}\\ndrop\\tknuth86\\tpages\\n' | bibkeep edit refs.bib",
    )?
    .arg(edit_words(alloc))?
    .arg(print(alloc))
}

fn insert<'a>(alloc: Global) -> Result<Command<'a>, AllocError>
    ensures { IfOk result (Reads insert_line) }
{
    over_file(
        alloc,
        "insert",
        "Puts the BibTeX text on standard input into the file, byte for byte",
        "\
The text is what a page or a program gives: entries, and whatever stands around them. It must be valid by itself. At the
end of a file whose last line is not ended, it begins a new line. One change, which `bibkeep undo F` takes back. It is
refused if a key of its entries is in the file, or twice in the text, or if it defines a macro of the file as something else.

Examples:
  bibkeep insert refs.bib 0 --print < entry.bib | diff -u refs.bib -
  bibkeep insert refs.bib after:knuth86 < entry.bib
  printf '@book{typebook, title = {Type}}\\n' | bibkeep insert refs.bib",
    )?
    .arg(position(alloc))?
    .arg(print(alloc))?
    .arg(new_journal(alloc))?
    .arg(no_journal(alloc))
}

fn undo<'a>(alloc: Global) -> Result<Command<'a>, AllocError>
    ensures { IfOk result (Reads (steps_line (codes "undo"))) }
{
    over_steps(
        alloc,
        "undo",
        "Undoes the last changes, of earlier runs too",
        "\
Undone changes can be redone until the next edit or import. `bibkeep log F` lists both.

Examples:
  bibkeep undo refs.bib             # the last change
  bibkeep undo refs.bib --steps 2   # the last two changes",
    )
}

fn redo<'a>(alloc: Global) -> Result<Command<'a>, AllocError>
    ensures { IfOk result (Reads (steps_line (codes "redo"))) }
{
    over_steps(
        alloc,
        "redo",
        "Redoes what was undone last",
        "\
Example:
  bibkeep redo refs.bib --steps 2",
    )
}

fn log<'a>(alloc: Global) -> Result<Command<'a>, AllocError>
    ensures { IfOk result (Reads (over_file (codes "log"))) }
{
    over_file(
        alloc,
        "log",
        "Lists the changes that can be undone and redone",
        "\
One line per change, the oldest first: done or undone, the number of replacements, of bytes removed and of bytes
inserted, and the label of a step.

Example:
  bibkeep log refs.bib",
    )
}

fn forget<'a>(alloc: Global) -> Result<Command<'a>, AllocError>
    ensures { IfOk result (Reads (over_file (codes "forget"))) }
{
    over_file(
        alloc,
        "forget",
        "Starts a new journal, and gives up undo of what was done before",
        "\
The file is unchanged. Use it after a change by hand, when `edit` and `undo` say 54 JournalMismatch.

Example:
  bibkeep forget refs.bib",
    )
}

fn ris<'a>(alloc: Global) -> Result<Command<'a>, AllocError>
    ensures { IfOk result (Reads ris_line) }
{
    over_keys(
        alloc,
        "ris",
        "Prints the entries that these keys cite as RIS, for reference managers",
        "\
Each entry has its inherited fields, and macros are expanded. Fields that RIS has no place for are left out.

Examples:
  bibkeep ris refs.bib knuth86 lamport86
  bibkeep ris refs.bib '*' > refs.ris   # every entry
  bibkeep ris refs.bib --plain '*'      # accents as letters, and no braces
  bibkeep ris refs.bib --dropped '*'    # what the RIS text leaves out
  bibkeep ris refs.bib --bibtex '*'     # with the fields that entries inherit in BibTeX",
    )?
    .arg(switch(
        alloc,
        "dropped",
        "Lists the fields that RIS leaves out, as key, tab and field, instead of the RIS text",
    ))?
    .arg(switch(
        alloc,
        "plain",
        "Writes texts without braces, and LaTeX's accents as Unicode, except url and doi",
    ))?
    .arg(bibtex(
        alloc,
        "Prints the entries as BibTeX 0.99d reads them; not with --depth, --before or --after",
    ))
}

fn extract<'a>(alloc: Global) -> Result<Command<'a>, AllocError>
    ensures { IfOk result (Reads (cited_line (codes "extract"))) }
{
    over_cited(
        alloc,
        "extract",
        "Prints the part of the file that these keys need, byte for byte",
        "\
It has the entries of the keys, all their parents, the preambles, and the macros that these use. It drops other entries,
comments and text between items. Keys come from the command line and from the aux files of a document.

Examples:
  bibkeep extract refs.bib --aux paper.aux > paper.bib   # what a paper cites
  bibkeep extract refs.bib --before strings.bib --aux paper.aux > paper.bib   # of two files
  bibkeep extract refs.bib knuth86 lamport86
  bibkeep extract refs.bib '*'   # every entry",
    )
}

fn import<'a>(alloc: Global) -> Result<Command<'a>, AllocError>
    ensures { IfOk result (Reads import_line) }
{
    import_texts(alloc)?
        .arg(switch(
            alloc,
            "skipped",
            "Lists the lines that are skipped, each with its number in the input",
        ))?
        .arg(switch(
            alloc,
            "strict",
            "Refuses the input if a line of it would be skipped",
        ))
}

/// `import` without the options about skipped lines.
fn import_texts<'a>(alloc: Global) -> Result<Command<'a>, AllocError>
    ensures { IfOk result (Reads import_texts_line) }
{
    over_file(
        alloc,
        "import",
        "Appends the RIS records on standard input as entries",
        "\
A record's ID becomes the key if it is a valid key; otherwise an unused key is made of names and year. All entries are one
change, which `bibkeep undo F` takes back. If one of them is refused, none is added. Texts are copied: what LaTeX takes for
a command, such as & or %, stays one, unless --latex is given. Lines with an unknown tag, and text between records, are
skipped.

Examples:
  bibkeep import refs.bib < citation.ris
  bibkeep import refs.bib --skipped < citation.ris   # and the lines that were skipped
  bibkeep import refs.bib --latex < citation.ris   # of someone else
  bibkeep import refs.bib --print < citation.ris | diff -u refs.bib -
  printf 'TY  - BOOK\\nTI  - Type\\nER  - \\n' | bibkeep import refs.bib",
    )?
    .arg(print(alloc))?
    .arg(new_journal(alloc))?
    .arg(no_journal(alloc))?
    .arg(switch(
        alloc,
        "latex",
        "Writes texts so that LaTeX prints them as they are, except url and doi",
    ))
}

fn merge<'a>(alloc: Global) -> Result<Command<'a>, AllocError>
    ensures { IfOk result (Reads merge_line) }
{
    named(
        alloc,
        "merge",
        "Merges the changes that two sides made to one file, entry by entry",
        "\
OURS and THEIRS come from BASE. Each entry, macro, preamble, comment and text is taken from the side that changed it; an entry
that both changed is merged field by field. What one side removed goes if the other left it. The merged file takes the place
of OURS. If both sides changed a field, a type or a macro, and say different things, both versions of the entry or the
macro are written between the lines `<<<<<<< ours` and `>>>>>>> theirs`. Each such conflict is printed, and so is a
crossref or a macro that no longer means what it meant; the status is 1. No journal is read or written.

git merges so after `git config merge.bibkeep.driver 'bibkeep merge %O %A %B'` and a line `*.bib merge=bibkeep` in the file
.gitattributes.

Examples:
  bibkeep merge base.bib refs.bib theirs.bib --print | diff -u refs.bib -
  bibkeep merge base.bib refs.bib theirs.bib",
    )
    .arg(needed(alloc, "BASE", "The BibTeX file that both sides come from"))?
    .arg(needed(alloc, "OURS", "Our file, which the merged file replaces"))?
    .arg(needed(alloc, "THEIRS", "Their file"))?
    .arg(print(alloc))
}

fn diff<'a>(alloc: Global) -> Result<Command<'a>, AllocError>
    ensures { IfOk result (Reads diff_line) }
{
    named(
        alloc,
        "diff",
        "Prints the edits that make the entries of one file those of another",
        "\
Each line is an edit as `edit` reads it. If OLD gets these edits, its entries are those of NEW, in the same order: the same
types, the same keys, and the same text in each field. White space, delimiters, macros, comments and the order of fields do
not count. The status is 1 if there is a difference, and 0 if there is none.

Examples:
  bibkeep diff old.bib refs.bib
  bibkeep diff old.bib refs.bib | bibkeep edit old.bib   # old.bib gets the entries of refs.bib",
    )
    .arg(needed(alloc, "OLD", "The BibTeX file that would be edited"))?
    .arg(needed(alloc, "NEW", "The BibTeX file whose entries it would have"))
}

fn explain<'a>(alloc: Global) -> Result<Command<'a>, AllocError>
    ensures { IfOk result (Reads explain_line) }
{
    named(
        alloc,
        "explain",
        "Explains a refusal: what it means, an example, what to do",
        "\
FAULT is a number or a name, as in the message `bibkeep: 39 Referred`.

Examples:
  bibkeep explain 39
  bibkeep explain Referred",
    )
    .arg(needed(alloc, "FAULT", "The number or the name of a fault"))
}

/// A command over a file that takes keys and a depth.
fn over_keys<'a>(
    alloc: Global,
    name: &'a str,
    about: &'a str,
    more: &'a str,
) -> Result<Command<'a>, AllocError>
    ensures { IfOk result (Reads (keys_line name.entry.now)) }
{
    over_cited(alloc, name, about, more)?.arg(levels(alloc))
}

/// A command over a file that takes keys, those of aux files among them.
fn over_cited<'a>(
    alloc: Global,
    name: &'a str,
    about: &'a str,
    more: &'a str,
) -> Result<Command<'a>, AllocError>
    ensures { IfOk result (Reads (cited_line name.entry.now)) }
{
    over_files(alloc, name, about, more)?
        .arg(keys(alloc))?
        .arg(aux_files(
            alloc,
            "An aux file of LaTeX; the keys that it cites come after the KEYs",
        ))
}

/// A command over a file that takes a number of changes.
fn over_steps<'a>(
    alloc: Global,
    name: &'a str,
    about: &'a str,
    more: &'a str,
) -> Result<Command<'a>, AllocError>
    ensures { IfOk result (Reads (steps_line name.entry.now)) }
{
    over_file(alloc, name, about, more)?
        .arg(count(alloc, "steps", "1", "How many changes, from 1 to 65535"))?
        .arg(print(alloc))
}

/// A command with the argument F that reads other files too.
fn over_files<'a>(
    alloc: Global,
    name: &'a str,
    about: &'a str,
    more: &'a str,
) -> Result<Command<'a>, AllocError>
    ensures { IfOk result (Reads (over_files name.entry.now)) }
{
    over_file(alloc, name, about, more)?
        .arg(files_before(alloc))?
        .arg(files_after(alloc))
}

/// A command with the argument F.
fn over_file<'a>(
    alloc: Global,
    name: &'a str,
    about: &'a str,
    more: &'a str,
) -> Result<Command<'a>, AllocError>
    ensures { IfOk result (Reads (over_file name.entry.now)) }
{
    named(alloc, name, about, more).arg(needed(alloc, "F", "The BibTeX file"))
}

fn named<'a>(alloc: Global, name: &'a str, about: &'a str, more: &'a str) -> Command<'a>
    ensures { Reads (new_app name.entry.now) result }
{
    Command::new(alloc, name).about(about).after_help(more)
}
