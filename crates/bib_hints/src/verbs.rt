//! The edits, and the words that each takes.

/// The words of an edit that begins with this word, or nothing if none does.
pub fn form_of(verb: &[u8]) -> &'static [u8] {
    if verb == b"set".as_slice() {
        return b"set KEY FIELD VALUE";
    }
    if verb == b"drop".as_slice() {
        return b"drop KEY FIELD";
    }
    if verb == b"add".as_slice() {
        return b"add POSITION TYPE KEY FIELD VALUE ..";
    }
    if verb == b"remove".as_slice() {
        return b"remove KEY";
    }
    if verb == b"move".as_slice() {
        return b"move KEY POSITION";
    }
    if verb == b"set-type".as_slice() {
        return b"set-type KEY TYPE";
    }
    if verb == b"regenerate".as_slice() {
        return b"regenerate [DEPTH]";
    }
    form_of_renaming(verb)
}

fn form_of_renaming(verb: &[u8]) -> &'static [u8] {
    if verb == b"rename-key".as_slice() {
        return b"rename-key FROM TO";
    }
    if verb == b"rename-field".as_slice() {
        return b"rename-field OLD NEW [KEY]";
    }
    form_of_macro_edit(verb)
}

fn form_of_macro_edit(verb: &[u8]) -> &'static [u8] {
    if verb == b"rename-macro".as_slice() {
        return b"rename-macro FROM TO";
    }
    if verb == b"inline".as_slice() {
        return b"inline NAME";
    }
    if verb == b"introduce".as_slice() {
        return b"introduce NAME TEXT";
    }
    if verb == b"undefine".as_slice() {
        return b"undefine NAME";
    }
    form_of_definition(verb)
}

fn form_of_definition(verb: &[u8]) -> &'static [u8] {
    if verb == b"define".as_slice() {
        return b"define NAME VALUE";
    }
    if verb == b"set-macro".as_slice() {
        return b"set-macro NAME VALUE";
    }
    form_of_step(verb)
}

fn form_of_step(verb: &[u8]) -> &'static [u8] {
    if verb == b"group".as_slice() {
        return b"group LABEL";
    }
    if verb == b"end".as_slice() {
        return b"end";
    }
    b""
}

/// Whether an edit begins with this word.
pub fn is_verb(word: &[u8]) -> bool {
    !form_of(word).is_empty()
}

/// The edits, in a line.
pub const VERBS: &[u8] =
    b"the edits: set drop add remove move set-type rename-key rename-field rename-macro inline introduce undefine define set-macro regenerate; in a script also group end";

/// Whether the name is that of a month, which each file knows.
pub fn is_month(name: &[u8]) -> bool {
    const MONTHS: &[u8] = b"jan feb mar apr may jun jul aug sep oct nov dec";
    'months: for month in MONTHS.split(|byte| *byte == b' ') {
        if name.eq_ignore_ascii_case(month) {
            return true;
        }
    }
    false
}
