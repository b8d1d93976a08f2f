//! The pages on faults, by their numbers. tests/docs/explanations.py writes this file from docs/FAULTS.md.

ghost use Rattle.std.specs.Prelude.{◌≡◌, find};
ghost use Rattle.std.specs.Option.{option_map};
ghost use Rattle.fault_pages.specs.Heads.{head_of, is_asked, faults_of_bytes, faults_of_limits, faults_of_requests, faults_of_texts, faults_of_edits, faults_of_journals, faults_of_inputs};

use crate::asking::{Page, is_asked};

/// The page on one of these faults, if the word names one: the bytes of a file are not valid.
pub(crate) fn faults_of_bytes(word: &[u8]) -> Option<Page>
    ensures { option_map head_of result ≡ find (is_asked word.now) faults_of_bytes }
{
    if is_asked(word, b"1", b"Unended") {
        return Some(Page {
            number: b"1",
            name: b"Unended",
            text: b"The file ends inside an entry, macro definition or preamble: a brace, a parenthesis or a quotation mark is never closed.\nThe offset is the file's length. Of the text of an `insert` the message says ` in standard input`: often a part of the entry\nwas not copied.\n\n  $ printf '@misc{' | bibkeep cat\n  bibkeep: 1 Unended at 6\n\nClose it. The mistake is often hundreds of lines earlier, where a closing brace is missing; `GUIDE.md` has a command that\nfinds the entry. In an entry that was opened with `(`, a `)` directly after the key is a byte of the key: write a space\nbefore it.\n",
        });
    }
    if is_asked(word, b"2", b"ExpectedName") {
        return Some(Page {
            number: b"2",
            name: b"ExpectedName",
            text: b"A name is missing. After a comma comes the name of a field, or the end of the entry; a macro definition begins with the\nname of the macro. A name does not begin with a digit.\n\n  $ printf '@misc{a,,}' | bibkeep cat\n  bibkeep: 2 ExpectedName at 8\n\nRemove the second comma, or write `name = value` there.\n",
        });
    }
    if is_asked(word, b"3", b"ExpectedEquals") {
        return Some(Page {
            number: b"3",
            name: b"ExpectedEquals",
            text: b"A name is followed by `=` and a value. Names contain no white space.\n\n  $ printf '@misc{a,t}' | bibkeep cat\n  bibkeep: 3 ExpectedEquals at 9\n\nWrite `= {value}` after the name, or join the words of the name: `book-title`.\n",
        });
    }
    if is_asked(word, b"4", b"ExpectedCommaOrClose") {
        return Some(Page {
            number: b"4",
            name: b"ExpectedCommaOrClose",
            text: b"Something follows a complete value or key that is neither a comma nor the closing delimiter.\n\n  $ printf '@misc{a b}' | bibkeep cat\n  bibkeep: 4 ExpectedCommaOrClose at 8\n\nWrite a comma between two fields, or `#` between two parts of a value. If a comma is there, look just before it for a\nbrace that closed a text too early. In a macro definition or preamble no comma may follow the value: remove it. In free\ntext, an address that is followed by a parenthesis begins an entry:\n\n  $ printf 'joe@x.org (work phone)\\n' | bibkeep cat\n  bibkeep: 4 ExpectedCommaOrClose at 16\n\nThere, remove the at-sign or the parenthesis.\n",
        });
    }
    if is_asked(word, b"5", b"ExpectedValue") {
        return Some(Page {
            number: b"5",
            name: b"ExpectedValue",
            text: b"A value is missing after `=` or `#`, or in a preamble.\n\n  $ printf '@misc{a,t=}' | bibkeep cat\n  bibkeep: 5 ExpectedValue at 10\n\nWrite `{text}`, `\"text\"`, a number or a macro's name.\n",
        });
    }
    if is_asked(word, b"6", b"UnbalancedBrace") {
        return Some(Page {
            number: b"6",
            name: b"UnbalancedBrace",
            text: b"A brace is closed inside quotation marks that was not opened there. A backslash does not protect a brace.\n\n  $ printf '@misc{a,t=\"}\"}' | bibkeep cat\n  bibkeep: 6 UnbalancedBrace at 11\n\nRemove the `}` or open it before; or write the text in braces.\n",
        });
    }
    if is_asked(word, b"7", b"KeyTooLong") {
        return Some(Page {
            number: b"7",
            name: b"KeyTooLong",
            text: b"A key or name has more than 255 bytes.\n\n  $ printf '@misc{%0256d}' 0 | bibkeep cat\n  bibkeep: 7 KeyTooLong at 261\n\nShorten it.\n",
        });
    }
    None
}

/// The page on one of these faults, if the word names one: something is too long, or too much.
pub(crate) fn faults_of_limits(word: &[u8]) -> Option<Page>
    ensures { option_map head_of result ≡ find (is_asked word.now) faults_of_limits }
{
    if is_asked(word, b"8", b"TextTooLong") {
        return Some(Page {
            number: b"8",
            name: b"TextTooLong",
            text: b"With its macros expanded, the text of a field, a definition or a preamble has more than 1,048,576 bytes. When a file is\nopened, the offset is the first byte of the first such value; an edit, an import or an insertion that would make such a text is\nrefused without an offset. `cat` does not expand macros, so it never says 8. If several files are read as one, a macro may be\ndefined in an earlier file; the message names the file with the value that is too long.\n\n  $ (printf '@misc{a, t = {'; head -c 1048577 /dev/zero | tr '\\0' x; printf '}}\\n') > long.bib\n  $ bibkeep check long.bib\n  bibkeep: 8 TextTooLong at 13\n  $ bibkeep cat long.bib | wc -c\n  1048594\n\nWrite a shorter text. Look for a chain of macros in which each contains the one before it twice, and for a closing\ndelimiter that is missing where the text should end.\n",
        });
    }
    if is_asked(word, b"9", b"FileTooLong") {
        return Some(Page {
            number: b"9",
            name: b"FileTooLong",
            text: b"A file has more than 16,777,216 bytes, which is the offset; or an edit would make it so long, without an offset. `edit`,\n`import` and `insert` report 9 for their input too, with the same message: check the size of the file and of the input. Of an aux\nfile the message names it: `bibkeep: 9 FileTooLong at 16777216 in paper.aux`. If several files are read as one, the limit is for\nall of them together, with eleven bytes for each file after the first. The message then names the first file that ends past\nthe limit, even if that file is short, and the offset is how many bytes were left for it. The output of `extract` can be\nlonger than the file, by a line feed for each item; if that is too long, the message has no offset.\n\n  $ head -c 16777217 /dev/zero | bibkeep cat\n  bibkeep: 9 FileTooLong at 16777216\n\nSplit the file.\n",
        });
    }
    if is_asked(word, b"10", b"Memory") {
        return Some(Page {
            number: b"10",
            name: b"Memory",
            text: b"bibkeep is out of memory. Nothing is changed; the status is 4. Give the program more memory.\n",
        });
    }
    None
}

/// The page on one of these faults, if the word names one: what you ask for is not there, or BibTeX may say something else.
pub(crate) fn faults_of_requests(word: &[u8]) -> Option<Page>
    ensures { option_map head_of result ≡ find (is_asked word.now) faults_of_requests }
{
    if is_asked(word, b"11", b"NoSuchEntry") {
        return Some(Page {
            number: b"11",
            name: b"NoSuchEntry",
            text: b"No entry has the key. `show`, `names`, `labels`, `json`, `ris` and `extract` say so, and `extract` names the first such key;\n`cite` lists unknown keys and refuses none, but with `--strict` its status is 1. An empty key is never found.\n\n  $ printf '@misc{a, t = 1, t = 2}\\n@misc{b, crossref = {c}}\\n@misc{c}\\n' > f.bib\n  $ bibkeep show f.bib q\n  bibkeep: 11 NoSuchEntry\n  $ bibkeep extract f.bib a q\n  bibkeep: 11 NoSuchEntry in q\n\n`bibkeep cite F '*'` lists the keys.\n",
        });
    }
    if is_asked(word, b"12", b"BadSplice") {
        return Some(Page {
            number: b"12",
            name: b"BadSplice",
            text: b"Only the library says this, from `Database::{splice, splice_in_turn}`: the replacements are not in order, an old text is\nnot at its place, or the new file would not be valid. Make the replacements from the bytes that the database has now.\n",
        });
    }
    if is_asked(word, b"13", b"NoSuchFault") {
        return Some(Page {
            number: b"13",
            name: b"NoSuchFault",
            text: b"`explain` takes the number or the name of a fault, and the word that you gave is neither.\n\n  $ bibkeep explain 99\n  bibkeep: 13 NoSuchFault\n\nGive the number or the name that the message has, without `bibkeep:`.\n",
        });
    }
    if is_asked(word, b"14", b"NotPlain") {
        return Some(Page {
            number: b"14",
            name: b"NotPlain",
            text: b"With `--bibtex` bibkeep answers only if BibTeX would read the same items of the file, and of this file it might read others. The\noffset is that of an at-sign. It is there for one of these reasons:\n\n- Something that begins at the at-sign before ends in the last line of the file. BibTeX reads nothing after it.\n- The at-sign is in an entry whose key an earlier entry has. BibTeX reads such an entry up to its key, and then looks for the next\n  at-sign, even inside the entry.\n- The name after the at-sign is not one that bibkeep reads: it has another at-sign or a DEL byte (127) in it, or more than 255\n  bytes.\n\n  $ printf '@misc{a,\\n  note = 1}@misc{b}\\n' > last.bib\n  $ bibkeep cite last.bib --bibtex '*'\n  bibkeep: 14 NotPlain at 20\n  $ echo >> last.bib; bibkeep cite last.bib --bibtex '*'\n  a\n  b\n  $ printf '@misc{a}\\n@misc{a, note = {joe@x.org}}\\n\\n' > again.bib\n  $ bibkeep cite again.bib --bibtex a\n  bibkeep: 14 NotPlain at 29\n\nIf the at-sign is in the last line, end the file with an empty line. Take a repeated entry out: `bibkeep lint F` finds it, and\n`bibkeep edit F remove KEY,2` removes the second with the key. In the third case remove the at-sign. There are files of which\nBibTeX would read the same items all the same; bibkeep refuses these too.\n",
        });
    }
    if is_asked(word, b"15", b"TooDeep") {
        return Some(Page {
            number: b"15",
            name: b"TooDeep",
            text: b"With `--bibtex` an entry that is listed would inherit from more than 64 entries, one after another. bibkeep refuses this, so that\nits answer cannot be much longer than the file.\n\n  $ (printf '@misc{k0}\\n'; seq 65 | awk '{ printf \"@misc{k%d, crossref = {k%d}}\\n\", $1, $1 - 1 }'; echo) > deep.bib\n  $ bibkeep cite deep.bib --bibtex '*'\n  bibkeep: 15 TooDeep\n\nLook for the entries whose parents have parents: `bibkeep lint F` names each as a `nested-parent`. Give the entries their fields, and\ntake out the crossrefs that are no longer needed.\n",
        });
    }
    None
}

/// The page on one of these faults, if the word names one: names or texts cannot be written.
pub(crate) fn faults_of_texts(word: &[u8]) -> Option<Page>
    ensures { option_map head_of result ≡ find (is_asked word.now) faults_of_texts }
{
    if is_asked(word, b"21", b"TooManyCommas") {
        return Some(Page {
            number: b"21",
            name: b"TooManyCommas",
            text: b"A name has more than two commas outside braces, not counting those at its end. A name is `First von Last`,\n`von Last, First` or `von Last, Jr, First`.\n\n  $ printf '@misc{a, author = {Lee, A, B, C}}\\n' > names.bib\n  $ bibkeep names names.bib a '{ll}'\n  bibkeep: 21 TooManyCommas\n\nWrite `and` between two names, or braces around the comma: `{Barnes, Inc.}`.\n\n`names --bibtex` refuses no name for more commas, since BibTeX does not. It refuses one that has no word before its first comma, such as\n`, Jean`: BibTeX reads there what it did not write. `labels --bibtex` refuses an entry that has such a name among those by which it is\nlabelled and sorted.\n",
        });
    }
    if is_asked(word, b"22", b"UnbalancedName") {
        return Some(Page {
            number: b"22",
            name: b"UnbalancedName",
            text: b"The braces of a name or of a list of names do not match. Only the library meets this, from `split_names` and\n`split_name`: in a valid file the braces of every text match. Close each brace.\n",
        });
    }
    if is_asked(word, b"23", b"BadTemplate") {
        return Some(Page {
            number: b"23",
            name: b"BadTemplate",
            text: b"The template that you gave to `names` is not valid. `NAMES.md` has the rules, and those for `--bibtex`, which takes what BibTeX takes.\n\n  $ bibkeep names names.bib a '{l'\n  bibkeep: 23 BadTemplate\n\nWrite a template such as `'{ll}{, f.}'`, in single quotes for the shell.\n",
        });
    }
    if is_asked(word, b"24", b"NotUtf8") {
        return Some(Page {
            number: b"24",
            name: b"NotUtf8",
            text: b"`json` writes UTF-8, and the type, the key, a field's name or a text of an entry is not UTF-8. The message ends with the\nentry's key; it is the first such entry of the list. Nothing is written.\n\n  $ printf '@misc{a, t = {caf\\351}}\\n' > latin.bib\n  $ bibkeep json latin.bib a\n  bibkeep: 24 NotUtf8 in a\n\nConvert the file: `iconv -f LATIN1 -t UTF-8 F > new.bib`.\n",
        });
    }
    None
}

/// The page on one of these faults, if the word names one: an edit is refused, or no edits are found.
pub(crate) fn faults_of_edits(word: &[u8]) -> Option<Page>
    ensures { option_map head_of result ≡ find (is_asked word.now) faults_of_edits }
{
    if is_asked(word, b"31", b"BadKey") {
        return Some(Page {
            number: b"31",
            name: b"BadKey",
            text: b"A new key is not valid: it could not be read back, or no crossref could name it. A new key has 1 to 255 bytes. None of\nthem is a space, a control byte (0 to 31, or 127), a comma or a brace. The key of an entry that is there already may be\nanything that the file allows.\n\n  $ printf '%s\\t%s\\t%s\\n' rename-key a 'knuth 86' | bibkeep edit f.bib\n  applied 0\n  bibkeep: line 1: 31 BadKey\n\nWrite `knuth-86`.\n",
        });
    }
    if is_asked(word, b"32", b"BadName") {
        return Some(Page {
            number: b"32",
            name: b"BadName",
            text: b"The name of a field or macro is not valid, or the type that an entry would have is not. `string`, `preamble` and `comment`\nare not types of entries. `FORMAT-BIB.md` says what a name is.\n\n`rename-field` also refuses the name `crossref`, old or new: entries would lose a parent, or get one.\n\n  $ printf '%s\\t%s\\t%s\\t%s\\n' set a 'x=y' 1 | bibkeep edit f.bib\n  applied 0\n  bibkeep: line 1: 32 BadName\n\nWrite a name without white space and `=`. Look for words in the wrong order.\n",
        });
    }
    if is_asked(word, b"33", b"BadValue") {
        return Some(Page {
            number: b"33",
            name: b"BadValue",
            text: b"A value is not written as in a file; or, for `introduce`, the braces of the text do not match.\n\n  $ printf '%s\\t%s\\t%s\\t%s\\n' set a x '{1' | bibkeep edit f.bib\n  applied 0\n  bibkeep: line 1: 33 BadValue\n\nWrite `{text}`, `\"text\"`, a number, a macro's name, or such parts with `#` between them. White space before or after the\nvalue is refused too: look for a space at the end of the line.\n",
        });
    }
    if is_asked(word, b"34", b"BadPosition") {
        return Some(Page {
            number: b"34",
            name: b"BadPosition",
            text: b"The position is greater than the number of items. For `move`, it is greater than the number of the other items. For `insert`, it\nmay also be no position at all: a position is a number of 1 to 9 digits, `end`, `before:KEY` or `after:KEY`. In an edit, what is\nno position is 71.\n\n  $ printf '%s\\t%s\\t%s\\t%s\\n' add 4 misc x | bibkeep edit f.bib\n  applied 0\n  bibkeep: line 1: 34 BadPosition\n\n`bibkeep check F` prints the number of items; that number is the end of the file, and so is `end`. The text of an `insert` comes\nfrom standard input: a file's name after F is taken for a position.\n\n  $ printf '@misc{x}\\n' > entry.bib; bibkeep insert f.bib entry.bib < entry.bib\n  bibkeep: 34 BadPosition\n",
        });
    }
    if is_asked(word, b"35", b"NotFound") {
        return Some(Page {
            number: b"35",
            name: b"NotFound",
            text: b"There is nothing to change. No entry has the key, or the entry has no such field to drop or rename; no entry has a field to\nrename; the file does not define the macro (a month is not a definition); or no part of a value is the text to introduce. Or\nno entry has the key of a position `before:KEY` or `after:KEY`, in an edit or an `insert`. Or there are not so many of that\nname: `KEY,3` is the third entry with the key.\n\n  $ printf '%s\\t%s\\t%s\\n' drop b t | bibkeep edit f.bib\n  applied 0\n  bibkeep: line 1: 35 NotFound\n\n`bibkeep cite F '*'` lists the keys. A field that `show` prints may be inherited: change it in the parent.\n",
        });
    }
    if is_asked(word, b"36", b"Ambiguous") {
        return Some(Page {
            number: b"36",
            name: b"Ambiguous",
            text: b"Two entries have the key; or the entry has the field twice, or a new entry would; or the macro is defined twice. The key may also\nbe that of a position, `before:KEY` or `after:KEY`. `rename-field` says 36 if an entry would have the new name twice; other\nentries with that name are no reason.\n\n  $ printf '%s\\t%s\\t%s\\t%s\\n' set a t 3 | bibkeep edit f.bib\n  applied 0\n  bibkeep: line 1: 36 Ambiguous\n\n`bibkeep lint F` finds repeated keys, fields and macros, each with its line. A number behind the name tells which is meant:\n`t,2` is the second `t` in the order of the file, and `t,1` the first.\n\n  $ bibkeep edit f.bib --print drop a t,2\n  @misc{a, t = 1}\n  @misc{b, crossref = {c}}\n  @misc{c}\n\n`remove KEY,2` removes the second entry with the key, and `rename-key KEY,2 NEW` keeps it under another key. `undefine NAME,2`\nremoves the second definition of a macro; `inline` and `rename-macro` take no number. If `rename-field` would make two fields of\none name, drop one of them first.\n",
        });
    }
    if is_asked(word, b"37", b"KeyInUse") {
        return Some(Page {
            number: b"37",
            name: b"KeyInUse",
            text: b"Another entry has the new key already, or another new entry would get it. An import says so too, and `insert` of a text with a key\nthat the file has, or that two of its entries have.\n\n`rename-key` also refuses a key that no entry has but that a crossref names. The renamed entry would become a parent, and\nyou did not ask for that. `add` and `import` accept such a key: the new entry becomes the parent.\n\n  $ printf '%s\\t%s\\t%s\\t%s\\n' add 0 misc C | bibkeep edit f.bib\n  applied 0\n  bibkeep: line 1: 37 KeyInUse\n\nChoose another key. In the text of an `insert`, change it before the text goes in: `bibkeep edit entry.bib rename-key C C2`, or\n`rename-key C,2 C2` if two of its entries have it.\n",
        });
    }
    if is_asked(word, b"38", b"NameInUse") {
        return Some(Page {
            number: b"38",
            name: b"NameInUse",
            text: b"The new name of a macro is that of a month, or the file defines or uses it already, so some text would change.\n`rename-macro` may change the case of a name.\n\n  $ printf '@string{m = 1}@misc{a, t = m}' > macro.bib\n  $ printf '%s\\t%s\\t%s\\n' rename-macro m jan | bibkeep edit macro.bib\n  applied 0\n  bibkeep: line 1: 38 NameInUse\n\nChoose a name that the file does not have.\n\n`define` says 38 only of a macro that the file defines already. `set-macro` gives such a macro another value.\n\n  $ bibkeep edit macro.bib define M 2\n  applied 0\n  bibkeep: 38 NameInUse\n\n`insert` says 38 of a text that defines a macro that the file defines. A definition that says the same is left out, and not refused:\nits value is one text or number, the macro stands for just that where the text is put in, and only white space is behind it.\n\n  $ printf '@string{M = 2}@misc{x, t = m}' | bibkeep insert macro.bib\n  bibkeep: 38 NameInUse\n\nGive the macro another name in the text: `bibkeep edit entry.bib rename-macro M M2`. Or leave its definition out, if the entries shall\nuse that of the file.\n",
        });
    }
    if is_asked(word, b"39", b"Referred") {
        return Some(Page {
            number: b"39",
            name: b"Referred",
            text: b"The `crossref` of another entry names the entry that you remove. The other entry would lose what it inherits.\n\n  $ printf '%s\\t%s\\n' remove c | bibkeep edit f.bib\n  applied 0\n  bibkeep: line 1: 39 Referred\n  $ bibkeep cite f.bib '*' | awk -F'\\t' 'tolower($2) == \"c\" { print $1 }'\n  b\n\nThe last command lists the entries that refer to `c`. `drop` or `set` their `crossref` first. If two entries have the key, a\n`crossref` means the first: `remove KEY,2` is not refused for it.\n\n`undefine` says 39 of a macro that a value after the definition uses. The value would lose the macro's text.\n\n  $ printf '@string{m = 1}@misc{a, t = m}' > used.bib; bibkeep edit used.bib undefine m\n  applied 0\n  bibkeep: 39 Referred\n\n`inline` writes the text for the uses, and removes the definition.\n",
        });
    }
    if is_asked(word, b"40", b"WouldMerge") {
        return Some(Page {
            number: b"40",
            name: b"WouldMerge",
            text: b"The edit would turn text into something else:\n\n- The text before and after an entry that you remove or move, or a definition that `inline` or `undefine` removes, would\n  join, and begin an item or continue the word `comment`.\n- In an entry that was opened with `(`, the closing `)` would become a byte of the key.\n- The text before the position of an `insert` would join the beginning of its text, and begin an item.\n- In a `merge`, text of one side would join text of the other, and begin an item.\n\n  $ printf 'x @book@misc{a}{b}' > merged.bib; printf '%s\\t%s\\n' remove a | bibkeep edit merged.bib\n  applied 0\n  bibkeep: line 1: 40 WouldMerge\n  $ printf '@misc(a, t = 1)' > round.bib; printf '%s\\t%s\\t%s\\n' drop a t | bibkeep edit round.bib\n  applied 0\n  bibkeep: line 1: 40 WouldMerge\n  $ printf '@misc{a} x @book' > joined.bib; printf '{b}' | bibkeep insert joined.bib after:a --print\n  bibkeep: 40 WouldMerge\n  $ printf '@misc{a}\\n' > base.bib; printf '@misc{a}\\n@book\\n' > ours.bib; printf '@misc{a}\\n{b}\\n' > theirs.bib\n  $ bibkeep merge base.bib ours.bib theirs.bib\n  bibkeep: 40 WouldMerge\n\nChange the text between the items by hand. Before a `)`, write white space:\n\n  $ printf '@misc(a, t = 1 )' > spaced.bib; printf '%s\\t%s\\t%s\\n' drop a t | bibkeep edit spaced.bib; cat spaced.bib; echo\n  applied 1\n  @misc(a )\n",
        });
    }
    if is_asked(word, b"41", b"JournalFull") {
        return Some(Page {
            number: b"41",
            name: b"JournalFull",
            text: b"The journal would have more than 65,535 steps, or more than 67,174,399 bytes of steps. An edit, an import or an insertion\ndiscards the undone steps, so these do not count.\n\n  $ printf '@misc{a, t = 1}\\n' > full.bib\n  $ yes \"$(printf 'set\\ta\\tt\\t2')\" | head -n 65536 > script\n  $ bibkeep edit full.bib < script\n  applied 65535\n  bibkeep: line 65536: 41 JournalFull\n\n`bibkeep forget F` starts a new journal; earlier changes can then no longer be undone. Then run the rest of the script.\nThe edits between `group LABEL` and `end` are one step.\n",
        });
    }
    if is_asked(word, b"46", b"NoScript") {
        return Some(Page {
            number: b"46",
            name: b"NoScript",
            text: b"`diff OLD NEW` found no edits that lead from OLD to NEW. The message names the key of the entry at fault, if there is such an\nentry and it has a key. One of these is most often the reason:\n\n- an entry that NEW has more, or that it has less, has no key;\n- two entries of one file have the same key;\n- a new key is not one that an edit writes (31);\n- a field whose text changes is twice in its entry;\n- an entry that goes holds apart texts that would be read as an item without it (40).\n\n  $ printf '@misc{a}\\n@misc{A}\\n' > twice.bib; printf '@misc{a}\\n' > once.bib\n  $ bibkeep diff twice.bib once.bib\n  bibkeep: 46 NoScript in a\n  $ printf '@misc{a}\\n@misc{}\\n' | bibkeep diff once.bib /dev/stdin\n  bibkeep: 46 NoScript\n\nCorrect the entry in both files, or in the one that has it. `bibkeep lint` finds repeated entries and fields; `remove KEY,2` and\n`drop KEY FIELD,2` take the second out. `diff -u OLD NEW` shows the lines that differ.\n",
        });
    }
    None
}

/// The page on one of these faults, if the word names one: nothing can be undone or redone, a journal does not fit, or steps do not.
pub(crate) fn faults_of_journals(word: &[u8]) -> Option<Page>
    ensures { option_map head_of result ≡ find (is_asked word.now) faults_of_journals }
{
    if is_asked(word, b"51", b"NothingToUndo") {
        return Some(Page {
            number: b"51",
            name: b"NothingToUndo",
            text: b"There are fewer changes to undo than you ask for. `undo F --steps N` then undoes them all and prints how many they were;\nthe status is 1 all the same.\n\n  $ printf '@misc{a}\\n' > new.bib; bibkeep undo new.bib\n  undone 0\n  bibkeep: 51 NothingToUndo\n\n`bibkeep log F` lists the changes.\n",
        });
    }
    if is_asked(word, b"52", b"NothingToRedo") {
        return Some(Page {
            number: b"52",
            name: b"NothingToRedo",
            text: b"There are fewer changes to redo than you ask for. `redo F --steps N` then redoes them all and prints how many they were.\nAn edit, an import or an insertion discards what could be redone.\n\n  $ bibkeep redo new.bib\n  redone 0\n  bibkeep: 52 NothingToRedo\n\n`bibkeep log F` lists the changes.\n",
        });
    }
    if is_asked(word, b"53", b"BadJournal") {
        return Some(Page {
            number: b"53",
            name: b"BadJournal",
            text: b"`F.bibkeep` is not a journal; the offset is where it goes wrong (`FORMAT-JOURNAL.md`). Nothing is done.\n\n  $ printf 'not a journal\\n' > new.bib.bibkeep; bibkeep log new.bib\n  bibkeep: 53 BadJournal at 0\n\nRestore the journal from a copy; or start a new one by `bibkeep forget F`, or `--new-journal` of `edit`, `import` and `insert`.\n",
        });
    }
    if is_asked(word, b"54", b"JournalMismatch") {
        return Some(Page {
            number: b"54",
            name: b"JournalMismatch",
            text: b"`F.bibkeep` is a journal, but not of this file as it is now. You, your editor, `git checkout` or another program changed\nthe file since the last run of bibkeep. Or a run was interrupted after it stored the file and before it stored the\njournal. Nothing is done, because undo would change the wrong bytes.\n\n  $ printf '@misc{a, t = 1}\\n' > kept.bib\n  $ printf '%s\\t%s\\t%s\\t%s\\n' set a t 2 | bibkeep edit kept.bib\n  applied 1\n  $ printf '@misc{b}\\n' >> kept.bib\n  $ bibkeep undo kept.bib; echo status $?\n  bibkeep: 54 JournalMismatch\n  status 1\n  $ bibkeep forget kept.bib; bibkeep log kept.bib\n  $ cat kept.bib\n  @misc{a, t = 2}\n  @misc{b}\n\nTo keep your change, start a new journal by `bibkeep forget F`, or by `edit`, `import` or `insert` with `--new-journal`. Undo then\nreaches back to this moment. To undo the earlier changes instead, first restore the file exactly as the last run left it.\n",
        });
    }
    if is_asked(word, b"55", b"StepOpen") {
        return Some(Page {
            number: b"55",
            name: b"StepOpen",
            text: b"A line `group` is inside a step that has not ended. In the library `begin`, `undo` and `redo` say so while a step is open.\n\n  $ printf 'group\\tone\\ngroup\\ttwo\\n' | bibkeep edit f.bib\n  applied 0\n  bibkeep: line 2: 55 StepOpen\n\nWrite a line `end` before the second `group`.\n",
        });
    }
    if is_asked(word, b"56", b"NoOpenStep") {
        return Some(Page {
            number: b"56",
            name: b"NoOpenStep",
            text: b"A line `end` has no `group` before it.\n\n  $ printf 'end\\n' | bibkeep edit f.bib\n  applied 0\n  bibkeep: line 1: 56 NoOpenStep\n\nWrite `group LABEL` before the edits of the step.\n",
        });
    }
    None
}

/// The page on one of these faults, if the word names one: a RIS text or a script is not read.
pub(crate) fn faults_of_inputs(word: &[u8]) -> Option<Page>
    ensures { option_map head_of result ≡ find (is_asked word.now) faults_of_inputs }
{
    if is_asked(word, b"61", b"NoStart") {
        return Some(Page {
            number: b"61",
            name: b"NoStart",
            text: b"A line of a RIS text is outside a record, and its tag is not TY. The offset is that line's first byte.\n\n  $ : > new2.bib; printf 'AU  - x\\n' | bibkeep import new2.bib\n  bibkeep: 61 NoStart at 0\n\nWrite a line `TY  - BOOK`, or another type, before that line.\n",
        });
    }
    if is_asked(word, b"62", b"NoEnd") {
        return Some(Page {
            number: b"62",
            name: b"NoEnd",
            text: b"A RIS record has no line ER: another TY line begins inside it, or the text ends there.\n\n  $ printf 'TY  - BOOK\\nTI  - One\\nTY  - BOOK\\nER  - \\n' | bibkeep import new2.bib\n  bibkeep: 62 NoEnd at 21\n\nWrite a line `ER  - ` before that TY line, or at the end of the text.\n",
        });
    }
    if is_asked(word, b"63", b"EmptyType") {
        return Some(Page {
            number: b"63",
            name: b"EmptyType",
            text: b"A RIS record has no type, and every record needs one. The offset is that of its TY line.\n\n  $ printf 'TY  -\\nTI  - One\\nER  - \\n' | bibkeep import new2.bib\n  bibkeep: 63 EmptyType at 0\n\nWrite a type in the TY line: `TY  - JOUR`.\n",
        });
    }
    if is_asked(word, b"64", b"UnbalancedText") {
        return Some(Page {
            number: b"64",
            name: b"UnbalancedText",
            text: b"The braces of a text of a RIS record do not match, so no value can hold the text.\n\n  $ printf 'TY  - BOOK\\nTI  - a}b\\nER  - \\n' | bibkeep import new2.bib\n  bibkeep: 64 UnbalancedText\n\nCorrect the braces in the RIS text.\n",
        });
    }
    if is_asked(word, b"65", b"SkippedLine") {
        return Some(Page {
            number: b"65",
            name: b"SkippedLine",
            text: b"With `--strict`, `import` refuses a RIS text of which a line would be skipped: a line with an unknown tag inside a record, or a\ntext without a tag outside records. The offset is that of the first such line.\n\n  $ printf 'TY  - BOOK\\nTI  - One\\nXX  - q\\nER  - \\n' | bibkeep import new2.bib --strict\n  bibkeep: 65 SkippedLine at 21\n\nRemove the line, or import without `--strict`. `import F --skipped` lists every line that was skipped.\n",
        });
    }
    if is_asked(word, b"71", b"BadScript") {
        return Some(Page {
            number: b"71",
            name: b"BadScript",
            text: b"A line of the script is neither an edit nor `group` or `end`; or the words after the file are not an edit. One of these is\nthe reason:\n\n- the first word is unknown;\n- there are too few or too many words, or a field has no value;\n- a position is not 1 to 9 digits, `end`, `before:KEY` or `after:KEY`;\n- the depth of `regenerate` is not one digit from 1 to 8;\n- `group` or `end` is the edit after the file;\n- a label has more than 255 bytes or a control byte.\n\n  $ printf 'set a t 3\\n' | bibkeep edit f.bib\n  applied 0\n  bibkeep: line 1: 71 BadScript\n  $ printf 'set a t 3\\n' | cat -t\n  set a t 3\n\nMost often the words are separated by spaces and not by tabs, or `printf` changed a backslash. `cat -t` shows a tab as `^I`.\n`bibkeep help edit` lists the lines.\n",
        });
    }
    None
}
