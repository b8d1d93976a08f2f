//! The lines that tell conflicts.

ghost use Rattle.std.specs.Prelude.{◌≡◌, ◌++◌, codes, map, IfOk, OnOk};
ghost use Rattle.std.specs.List.{flat_map};
ghost use Rattle.bib_spec.specs.Text.{folded};
ghost use Rattle.bib_units.specs.Labels.{label_seen};
ghost use Rattle.bib_fields.specs.PartsSeen.{part_seen};
ghost use Rattle.bib_places.specs.OwnedLabels.{owned_seen};
ghost use Rattle.bib_places.specs.ConflictsSeen.{change_seen, conflict_seen};
ghost use Rattle.merge_run.specs.Lines.{line, label_words, name_words, part_words, change_lines, conflict_lines, key_line, lost_line, use_line, told_lines};

use bib_merge::{Change, ChangedPart, Conflict, KeyConflict, Label, LostUse};
use bib_text::Text;
use std::alloc::{AllocError, Global};

/// Adds the name in lower case.
fn add_lower(alloc: Global, out: &mut Vec<u8>, name: &[u8]) -> Result<(), AllocError>
    ensures { OnOk result (out.new.items ≡ out.old.items ++ folded name.now) }
{
    let mut lower = Vec::from_slice(alloc, name)?;
    lower.make_ascii_lowercase();
    out.extend_from_slice(lower.as_slice())?;
    Ok(())
}

/// Adds the words for a unit with this label.
fn add_label(alloc: Global, out: &mut Vec<u8>, label: Label<'_>) -> Result<(), AllocError>
    ensures { OnOk result (out.new.items ≡ out.old.items ++ label_words (label_seen label.entry)) }
{
    match label {
        Label::Entry(key) => {
            out.extend_from_slice(b"entry ")?;
            add_lower(alloc, out, key)?;
        }
        Label::Macro(name) => {
            out.extend_from_slice(b"macro ")?;
            add_lower(alloc, out, name)?;
        }
        Label::Bytes(_) => out.extend_from_slice(b"text")?,
    }
    Ok(())
}

/// Adds the key or the name of a unit with this label.
fn add_name(alloc: Global, out: &mut Vec<u8>, label: Label<'_>) -> Result<(), AllocError>
    ensures { OnOk result (out.new.items ≡ out.old.items ++ name_words (label_seen label.entry)) }
{
    match label {
        Label::Entry(key) => add_lower(alloc, out, key)?,
        Label::Macro(name) => add_lower(alloc, out, name)?,
        Label::Bytes(_) => out.extend_from_slice(b"text")?,
    }
    Ok(())
}

/// Adds the words for a field of a unit with this label.
fn add_field(
    alloc: Global,
    out: &mut Vec<u8>,
    label: Label<'_>,
    name: &[u8],
) -> Result<(), AllocError>
    ensures { OnOk result (out.new.items ≡ out.old.items ++ (codes "field " ++ (name_words (label_seen label.entry) ++ (codes " " ++ name.now)))) }
{
    out.extend_from_slice(b"field ")?;
    add_name(alloc, out, label)?;
    out.extend_from_slice(b" ")?;
    out.extend_from_slice(name)?;
    Ok(())
}

/// Adds the words for a part of a unit with this label that both sides changed.
fn add_part(
    alloc: Global,
    out: &mut Vec<u8>,
    label: Label<'_>,
    part: &ChangedPart,
) -> Result<(), AllocError>
    ensures { OnOk result (out.new.items ≡ out.old.items ++ part_words (label_seen label.entry) (part_seen part.now)) }
{
    match part {
        ChangedPart::Whole => add_label(alloc, out, label)?,
        ChangedPart::TypeName => {
            out.extend_from_slice(b"type ")?;
            add_name(alloc, out, label)?;
        }
        ChangedPart::Field(name) => add_field(alloc, out, label, name.as_slice())?,
    }
    Ok(())
}

/// Adds the line of a part of a unit with this label that both sides changed.
fn add_part_line(
    alloc: Global,
    out: &mut Vec<u8>,
    label: Label<'_>,
    part: &ChangedPart,
) -> Result<(), AllocError>
    ensures { OnOk result (out.new.items ≡ out.old.items ++ line (part_words (label_seen label.entry) (part_seen part.now))) }
{
    out.extend_from_slice(b"conflict ")?;
    add_part(alloc, out, label, part)?;
    out.push(b'\n')?;
    Ok(())
}

/// Adds the lines of parts of a unit with this label that both sides changed.
fn add_part_lines(
    alloc: Global,
    out: &mut Vec<u8>,
    label: Label<'_>,
    parts: &[ChangedPart],
) -> Result<(), AllocError>
    ensures { OnOk result (out.new.items ≡ out.old.items ++ flat_map (λ part. line (part_words (label_seen label.entry) part)) (map part_seen parts.now)) }
{
    'parts: for k in 0..parts.len() {
        add_part_line(alloc, out, label, &parts[k])?;
    }
    Ok(())
}

/// Adds the line of a conflict over a unit with this label that begins with these words.
fn add_line(
    alloc: Global,
    out: &mut Vec<u8>,
    words: &[u8],
    label: Label<'_>,
) -> Result<(), AllocError>
    ensures { OnOk result (out.new.items ≡ out.old.items ++ line (words.now ++ label_words (label_seen label.entry))) }
{
    out.extend_from_slice(b"conflict ")?;
    out.extend_from_slice(words)?;
    add_label(alloc, out, label)?;
    out.push(b'\n')?;
    Ok(())
}

/// Adds the lines of a conflict over the unit with this label.
fn add_change(
    alloc: Global,
    out: &mut Vec<u8>,
    label: Label<'_>,
    change: &Change,
) -> Result<(), AllocError>
    ensures { OnOk result (out.new.items ≡ out.old.items ++ change_lines (label_seen label.entry) (change_seen change.now)) }
{
    match change {
        Change::Changed(parts) => add_part_lines(alloc, out, label, parts.as_slice())?,
        Change::BothAdded => add_line(alloc, out, b"both added ", label)?,
        Change::RemovedByOurs => add_line(alloc, out, b"removed by ours ", label)?,
        Change::RemovedByTheirs => add_line(alloc, out, b"removed by theirs ", label)?,
    }
    Ok(())
}

/// Adds the lines of a conflict.
fn add_lines(alloc: Global, out: &mut Vec<u8>, conflict: &Conflict) -> Result<(), AllocError>
    ensures { OnOk result (out.new.items ≡ out.old.items ++ change_lines (owned_seen conflict.now.label) (change_seen conflict.now.change)) }
{
    add_change(alloc, out, conflict.label.as_label(), &conflict.change)
}

/// Adds the lines of these conflicts, in order.
fn add_conflicts(alloc: Global, out: &mut Vec<u8>, conflicts: &[Conflict]) -> Result<(), AllocError>
    ensures { OnOk result (out.new.items ≡ out.old.items ++ conflict_lines (map conflict_seen conflicts.now)) }
{
    'conflicts: for k in 0..conflicts.len() {
        add_lines(alloc, out, &conflicts[k])?;
    }
    Ok(())
}

/// Adds the line of an entry with this key that has lost its parent.
fn add_lost(alloc: Global, out: &mut Vec<u8>, key: &[u8]) -> Result<(), AllocError>
    ensures { OnOk result (out.new.items ≡ out.old.items ++ lost_line key.now) }
{
    out.extend_from_slice(b"conflict crossref ")?;
    add_lower(alloc, out, key)?;
    out.push(b'\n')?;
    Ok(())
}

/// Adds the lines of entries with these keys that have lost their parents.
fn add_all_lost(alloc: Global, out: &mut Vec<u8>, lost: &[Text]) -> Result<(), AllocError>
    ensures { OnOk result (out.new.items ≡ out.old.items ++ flat_map lost_line lost.now) }
{
    'lost: for k in 0..lost.len() {
        add_lost(alloc, out, lost[k].as_slice())?;
    }
    Ok(())
}

/// Adds the line of an entry to which each side gave another key.
fn add_key(alloc: Global, out: &mut Vec<u8>, conflict: &KeyConflict) -> Result<(), AllocError>
    ensures { OnOk result (out.new.items ≡ out.old.items ++ key_line conflict.now) }
{
    out.extend_from_slice(b"conflict key ")?;
    add_lower(alloc, out, conflict.key.as_slice())?;
    out.push(b' ')?;
    add_lower(alloc, out, conflict.ours.as_slice())?;
    out.push(b' ')?;
    add_lower(alloc, out, conflict.theirs.as_slice())?;
    out.push(b'\n')?;
    Ok(())
}

/// Adds the line of a use of a macro that has lost its meaning.
fn add_use(alloc: Global, out: &mut Vec<u8>, lost: &LostUse) -> Result<(), AllocError>
    ensures { OnOk result (out.new.items ≡ out.old.items ++ use_line lost.now) }
{
    out.extend_from_slice(b"conflict macro ")?;
    out.extend_from_slice(lost.name.as_slice())?;
    out.extend_from_slice(b" in ")?;
    add_lower(alloc, out, lost.key.as_slice())?;
    out.push(b'\n')?;
    Ok(())
}

/// Adds the lines of entries to which each side gave another key.
fn add_keys(alloc: Global, out: &mut Vec<u8>, keys: &[KeyConflict]) -> Result<(), AllocError>
    ensures { OnOk result (out.new.items ≡ out.old.items ++ flat_map key_line keys.now) }
{
    'keys: for k in 0..keys.len() {
        add_key(alloc, out, &keys[k])?;
    }
    Ok(())
}

/// Adds the lines of these uses of macros, which have lost their meaning.
fn add_uses(alloc: Global, out: &mut Vec<u8>, uses: &[LostUse]) -> Result<(), AllocError>
    ensures { OnOk result (out.new.items ≡ out.old.items ++ flat_map use_line uses.now) }
{
    'uses: for k in 0..uses.len() {
        add_use(alloc, out, &uses[k])?;
    }
    Ok(())
}

/// The lines of entries to which each side gave another key, of conflicts, in order, of the entries with these keys, which have lost
/// their parents, and of these uses of macros, which have lost their meaning.
pub(crate) fn told_lines(
    alloc: Global,
    keys: &[KeyConflict],
    conflicts: &[Conflict],
    lost: &[Text],
    uses: &[LostUse],
) -> Result<Text, AllocError>
    ensures { IfOk result (λ lines. lines ≡ told_lines keys.now (map conflict_seen conflicts.now) lost.now uses.now) }
{
    let mut out = Vec::new(alloc);
    add_keys(alloc, &mut out, keys)?;
    add_conflicts(alloc, &mut out, conflicts)?;
    add_all_lost(alloc, &mut out, lost)?;
    add_uses(alloc, &mut out, uses)?;
    Ok(Text::from_vec(out))
}
