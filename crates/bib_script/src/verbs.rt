//! The words of each edit.

ghost use Rattle.std.specs.Prelude.{◌≡◌, bytes_eq, map, option_map, IfOk};
ghost use Rattle.bib_data.specs.declared.request.Request.TheVariants as request;
ghost use Rattle.bib_script.specs.Script.{fields_of, new_entry, set_of, drop_of, adding, add_of, remove_of, moving, move_of, position_of, set_type_of, rename_key_of, rename_field_of, rename_macro_of, inline_of, introduce_of, undefine_of, define_of, set_macro_of, depth_of, regenerate_of, macro_edit_of, renaming_of, edit_of, edit_asked, group_of, end_of, request_of};

use crate::fields::fields_of;
use crate::positions::read_position;
use bib_data::{Edit, Label, NewEntry, Position, Request};
use bib_text::{Text, copied};
use std::alloc::{AllocError, Global};

/// The depth of records if a line does not say it: parents only.
const DEFAULT_DEPTH: u8 = 1;

/// Whether the word is this verb, byte for byte.
fn is(word: &[u8], verb: &[u8]) -> bool
    ensures { result ≡ bytes_eq word.now verb.now }
{
    word == verb
}

/// `set KEY FIELD VALUE`
fn set_of(alloc: Global, words: &[&[u8]]) -> Result<Option<Edit>, AllocError>
    ensures { IfOk result (λ edit. edit ≡ set_of (map (λ w. w.now) words.now)) }
{
    let [key, field, value] = words else {
        return Ok(None);
    };
    Ok(Some(Edit::SetField {
        key: copied(alloc, key)?,
        field: copied(alloc, field)?,
        value: copied(alloc, value)?,
    }))
}

/// `drop KEY FIELD`
fn drop_of(alloc: Global, words: &[&[u8]]) -> Result<Option<Edit>, AllocError>
    ensures { IfOk result (λ edit. edit ≡ drop_of (map (λ w. w.now) words.now)) }
{
    let [key, field] = words else {
        return Ok(None);
    };
    Ok(Some(Edit::DropField {
        key: copied(alloc, key)?,
        field: copied(alloc, field)?,
    }))
}

/// The entry of this type and this key with the fields that words say.
fn entry_of(
    alloc: Global,
    kind_name: &[u8],
    key: &[u8],
    fields: &[&[u8]],
) -> Result<Option<NewEntry>, AllocError>
    ensures { IfOk result (λ entry. entry ≡ option_map (new_entry kind_name.now key.now) (fields_of (map (λ w. w.now) fields.now))) }
{
    let Some(fields) = fields_of(alloc, fields)? else {
        return Ok(None);
    };
    Ok(Some(NewEntry {
        kind_name: copied(alloc, kind_name)?,
        key: copied(alloc, key)?,
        fields,
    }))
}

/// The request that adds this entry at this position.
fn adding(position: Position, entry: NewEntry) -> Request
    ensures { result ≡ adding position entry }
{
    match position {
        Position::Number(place) => Request::Edit(Edit::AddEntry { place, entry }),
        position => Request::Place(position, Edit::AddEntry { place: 0, entry }),
    }
}

/// `add POSITION TYPE KEY FIELD VALUE ..`
fn add_of(alloc: Global, words: &[&[u8]]) -> Result<Option<Request>, AllocError>
    ensures { IfOk result (λ asked. asked ≡ add_of (map (λ w. w.now) words.now)) }
{
    let [place, kind_name, key, fields @ ..] = words else {
        return Ok(None);
    };
    let Some(position) = read_position(alloc, place)? else {
        return Ok(None);
    };
    match entry_of(alloc, kind_name, key, fields)? {
        Some(entry) => Ok(Some(adding(position, entry))),
        None => Ok(None),
    }
}

/// `remove KEY`
fn remove_of(alloc: Global, words: &[&[u8]]) -> Result<Option<Edit>, AllocError>
    ensures { IfOk result (λ edit. edit ≡ remove_of (map (λ w. w.now) words.now)) }
{
    let [key] = words else {
        return Ok(None);
    };
    Ok(Some(Edit::RemoveEntry {
        key: copied(alloc, key)?,
    }))
}

/// The request that moves this entry to this position.
fn moving(key: Text, position: Position) -> Request
    ensures { result ≡ moving key position }
{
    match position {
        Position::Number(place) => Request::Edit(Edit::MoveEntry { key, place }),
        position => Request::Place(position, Edit::MoveEntry { key, place: 0 }),
    }
}

/// The request that moves the entry with this key to the position that the word says.
fn moved_to(alloc: Global, key: &[u8], place: &[u8]) -> Result<Option<Request>, AllocError>
    ensures { IfOk result (λ asked. asked ≡ option_map (λ position. moving key.now position) (position_of place.now)) }
{
    match read_position(alloc, place)? {
        Some(position) => Ok(Some(moving(copied(alloc, key)?, position))),
        None => Ok(None),
    }
}

/// `move KEY POSITION`
fn move_of(alloc: Global, words: &[&[u8]]) -> Result<Option<Request>, AllocError>
    ensures { IfOk result (λ asked. asked ≡ move_of (map (λ w. w.now) words.now)) }
{
    let [key, place] = words else {
        return Ok(None);
    };
    moved_to(alloc, key, place)
}

/// `set-type KEY TYPE`
fn set_type_of(alloc: Global, words: &[&[u8]]) -> Result<Option<Edit>, AllocError>
    ensures { IfOk result (λ edit. edit ≡ set_type_of (map (λ w. w.now) words.now)) }
{
    let [key, kind_name] = words else {
        return Ok(None);
    };
    Ok(Some(Edit::SetType {
        key: copied(alloc, key)?,
        kind_name: copied(alloc, kind_name)?,
    }))
}

/// `rename-key FROM TO`
fn rename_key_of(alloc: Global, words: &[&[u8]]) -> Result<Option<Edit>, AllocError>
    ensures { IfOk result (λ edit. edit ≡ rename_key_of (map (λ w. w.now) words.now)) }
{
    let [from, to] = words else {
        return Ok(None);
    };
    Ok(Some(Edit::RenameKey {
        from: copied(alloc, from)?,
        to: copied(alloc, to)?,
    }))
}

/// `rename-field OLD NEW [KEY]`
fn rename_field_of(alloc: Global, words: &[&[u8]]) -> Result<Option<Edit>, AllocError>
    ensures { IfOk result (λ edit. edit ≡ rename_field_of (map (λ w. w.now) words.now)) }
{
    match words {
        [from, to] => Ok(Some(Edit::RenameField {
            from: copied(alloc, from)?,
            to: copied(alloc, to)?,
            key: None,
        })),
        [from, to, key] => Ok(Some(Edit::RenameField {
            from: copied(alloc, from)?,
            to: copied(alloc, to)?,
            key: Some(copied(alloc, key)?),
        })),
        _ => Ok(None),
    }
}

/// `rename-macro FROM TO`
fn rename_macro_of(alloc: Global, words: &[&[u8]]) -> Result<Option<Edit>, AllocError>
    ensures { IfOk result (λ edit. edit ≡ rename_macro_of (map (λ w. w.now) words.now)) }
{
    let [from, to] = words else {
        return Ok(None);
    };
    Ok(Some(Edit::RenameMacro {
        from: copied(alloc, from)?,
        to: copied(alloc, to)?,
    }))
}

/// `inline NAME`
fn inline_of(alloc: Global, words: &[&[u8]]) -> Result<Option<Edit>, AllocError>
    ensures { IfOk result (λ edit. edit ≡ inline_of (map (λ w. w.now) words.now)) }
{
    let [name] = words else {
        return Ok(None);
    };
    Ok(Some(Edit::InlineMacro {
        name: copied(alloc, name)?,
    }))
}

/// `introduce NAME TEXT`
fn introduce_of(alloc: Global, words: &[&[u8]]) -> Result<Option<Edit>, AllocError>
    ensures { IfOk result (λ edit. edit ≡ introduce_of (map (λ w. w.now) words.now)) }
{
    let [name, text] = words else {
        return Ok(None);
    };
    Ok(Some(Edit::IntroduceMacro {
        name: copied(alloc, name)?,
        text: copied(alloc, text)?,
    }))
}

/// `undefine NAME`
fn undefine_of(alloc: Global, words: &[&[u8]]) -> Result<Option<Edit>, AllocError>
    ensures { IfOk result (λ edit. edit ≡ undefine_of (map (λ w. w.now) words.now)) }
{
    let [name] = words else {
        return Ok(None);
    };
    Ok(Some(Edit::UndefineMacro {
        name: copied(alloc, name)?,
    }))
}

/// `define NAME VALUE`
fn define_of(alloc: Global, words: &[&[u8]]) -> Result<Option<Edit>, AllocError>
    ensures { IfOk result (λ edit. edit ≡ define_of (map (λ w. w.now) words.now)) }
{
    let [name, value] = words else {
        return Ok(None);
    };
    Ok(Some(Edit::DefineMacro {
        name: copied(alloc, name)?,
        value: copied(alloc, value)?,
    }))
}

/// `set-macro NAME VALUE`
fn set_macro_of(alloc: Global, words: &[&[u8]]) -> Result<Option<Edit>, AllocError>
    ensures { IfOk result (λ edit. edit ≡ set_macro_of (map (λ w. w.now) words.now)) }
{
    let [name, value] = words else {
        return Ok(None);
    };
    Ok(Some(Edit::SetMacro {
        name: copied(alloc, name)?,
        value: copied(alloc, value)?,
    }))
}

/// The depth that one digit from 1 to 8 says.
fn depth_of(word: &[u8]) -> Option<u8>
    ensures { result ≡ depth_of word.now }
{
    match word {
        [digit] if (b'1'..=b'8').contains(digit) => Some(*digit - b'0'),
        _ => None,
    }
}

/// `regenerate [DEPTH]`
fn regenerate_of(words: &[&[u8]]) -> Option<Edit>
    ensures { result ≡ regenerate_of (map (λ w. w.now) words.now) }
{
    match words {
        [] => Some(Edit::RegenerateKeys {
            depth: DEFAULT_DEPTH,
        }),
        [depth] => match depth_of(depth) {
            Some(depth) => Some(Edit::RegenerateKeys { depth }),
            None => None,
        },
        _ => None,
    }
}

/// The edit of macros that a verb and the words after it say.
fn macro_edit_of(alloc: Global, verb: &[u8], words: &[&[u8]]) -> Result<Option<Edit>, AllocError>
    ensures { IfOk result (λ edit. edit ≡ macro_edit_of verb.now (map (λ w. w.now) words.now)) }
{
    if is(verb, b"rename-macro") {
        rename_macro_of(alloc, words)
    } else if is(verb, b"inline") {
        inline_of(alloc, words)
    } else if is(verb, b"introduce") {
        introduce_of(alloc, words)
    } else if is(verb, b"undefine") {
        undefine_of(alloc, words)
    } else if is(verb, b"define") {
        define_of(alloc, words)
    } else if is(verb, b"set-macro") {
        set_macro_of(alloc, words)
    } else {
        Ok(None)
    }
}

/// The edit of keys, names of fields or macros that a verb and the words after it say.
fn renaming_of(alloc: Global, verb: &[u8], words: &[&[u8]]) -> Result<Option<Edit>, AllocError>
    ensures { IfOk result (λ edit. edit ≡ renaming_of verb.now (map (λ w. w.now) words.now)) }
{
    if is(verb, b"rename-key") {
        rename_key_of(alloc, words)
    } else if is(verb, b"rename-field") {
        rename_field_of(alloc, words)
    } else if is(verb, b"regenerate") {
        Ok(regenerate_of(words))
    } else {
        macro_edit_of(alloc, verb, words)
    }
}

/// The edit, without a position, that a verb and the words after it say.
fn edit_of(alloc: Global, verb: &[u8], words: &[&[u8]]) -> Result<Option<Edit>, AllocError>
    ensures { IfOk result (λ edit. edit ≡ edit_of verb.now (map (λ w. w.now) words.now)) }
{
    if is(verb, b"set") {
        set_of(alloc, words)
    } else if is(verb, b"drop") {
        drop_of(alloc, words)
    } else if is(verb, b"remove") {
        remove_of(alloc, words)
    } else if is(verb, b"set-type") {
        set_type_of(alloc, words)
    } else {
        renaming_of(alloc, verb, words)
    }
}

/// The request of an edit, if there is one.
fn as_request(edit: Option<Edit>) -> Option<Request>
    ensures { result ≡ option_map request.Edit edit }
{
    match edit {
        Some(edit) => Some(Request::Edit(edit)),
        None => None,
    }
}

/// The edit that words ask for, as a line of a script has them.
pub(crate) fn edit_asked(alloc: Global, words: &[&[u8]]) -> Result<Option<Request>, AllocError>
    ensures { IfOk result (λ asked. asked ≡ edit_asked (map (λ w. w.now) words.now)) }
{
    let [verb, words @ ..] = words else {
        return Ok(None);
    };
    if is(verb, b"add") {
        add_of(alloc, words)
    } else if is(verb, b"move") {
        move_of(alloc, words)
    } else {
        Ok(as_request(edit_of(alloc, verb, words)?))
    }
}

/// `group LABEL`
fn group_of(alloc: Global, words: &[&[u8]]) -> Result<Option<Request>, AllocError>
    ensures { IfOk result (λ asked. asked ≡ group_of (map (λ w. w.now) words.now)) }
{
    let [label] = words else {
        return Ok(None);
    };
    match Label::read(alloc, label)? {
        Some(label) => Ok(Some(Request::Begin(label))),
        None => Ok(None),
    }
}

/// `end`
fn end_of(words: &[&[u8]]) -> Option<Request>
    ensures { result ≡ end_of (map (λ w. w.now) words.now) }
{
    if words.is_empty() {
        Some(Request::End)
    } else {
        None
    }
}

/// What a line's words ask for.
pub(crate) fn request_of(alloc: Global, words: &[&[u8]]) -> Result<Option<Request>, AllocError>
    ensures { IfOk result (λ asked. asked ≡ request_of (map (λ w. w.now) words.now)) }
{
    let [verb, others @ ..] = words else {
        return Ok(None);
    };
    if is(verb, b"group") {
        group_of(alloc, others)
    } else if is(verb, b"end") {
        Ok(end_of(others))
    } else {
        edit_asked(alloc, words)
    }
}
