//! Whether a field of a merged entry is what three versions make of it, and whether it is in conflict.

ghost use Rattle.std.specs.Prelude.{◌≡◌, ◌||◌, ◌&&◌, List, IfOk};
ghost use Rattle.std.specs.Option.{option_copied};
ghost use Rattle.bib_spec.specs.Tree.{Entry, Row};
ghost use Rattle.bib_spec.specs.Texts.{Macros};
ghost use Rattle.merge_spec.specs.ThreeWay.{alike, said_in, fields_agree as fields_agree_in, same_value as same_value_in, is_row_of_three};
ghost use Rattle.merge_spec.specs.Conflicts.{is_in_conflict};
ghost use Rattle.bib_sayings.specs.FieldTables.{IsTableOfRows};
ghost use Rattle.bib_fields.specs.Versions.{IsVersion};
ghost use Rattle.bib_fields.specs.Agreeing.{value_in};

use crate::agreeing::{fields_agree, same_value};
use crate::version::Version;
use bib_sayings::FieldTable;
use bib_scan::FieldView;
use std::alloc::{AllocError, Global};

/// Whether two versions agree on the field with this name.
pub(crate) fn agree_on(
    alloc: Global,
    name: &[u8],
    a: &Version<'_>,
    b: &Version<'_>,
) -> Result<bool, AllocError>
    ensures { IfOk result (λ same. (ma mb : Macros) (ea eb : Entry) → IsVersion a.now ma ea → IsVersion b.now mb eb
        → same ≡ alike fields_agree_in (said_in ma ea.rows name.now) (said_in mb eb.rows name.now)) }
{
    let one = a.table.get(name).copied();
    let other = b.table.get(name).copied();
    let same = fields_agree(alloc, one, &a.macros, other, &b.macros)?;
    Ok(same)
}

/// Whether they left the field with this name, or agree with us.
fn is_ours(
    alloc: Global,
    name: &[u8],
    b: &Version<'_>,
    o: &Version<'_>,
    t: &Version<'_>,
) -> Result<bool, AllocError>
    ensures { IfOk result (λ is. (mb mo mt : Macros) (eb eo et : Entry) → IsVersion b.now mb eb → IsVersion o.now mo eo → IsVersion t.now mt et
        → is ≡ (alike fields_agree_in (said_in mb eb.rows name.now) (said_in mt et.rows name.now) || alike fields_agree_in (said_in mo eo.rows name.now) (said_in mt et.rows name.now))) }
{
    if agree_on(alloc, name, b, t)? {
        return Ok(true);
    }
    let same = agree_on(alloc, name, o, t)?;
    Ok(same)
}

/// Whether a version has this value of the field with this name, or lacks the field if there is no value.
fn has_value(name: &[u8], version: &Version<'_>, value: Option<&[u8]>) -> bool
    ensures { (macros any : Macros) (e : Entry) (rows : List Row) → IsVersion version.now macros e → option_copied value.entry ≡ value_in rows name.now
        → result ≡ alike same_value_in (said_in any rows name.now) (said_in macros e.rows name.now) }
{
    same_value(value, version.table.get(name).copied())
}

/// Whether a field that has this value is ours, and may be: they left it, or agree with us.
fn may_be_ours(
    alloc: Global,
    name: &[u8],
    value: Option<&[u8]>,
    b: &Version<'_>,
    o: &Version<'_>,
    t: &Version<'_>,
) -> Result<bool, AllocError>
    ensures { IfOk result (λ is. (mb mo mt : Macros) (eb eo et : Entry) (rows : List Row) → IsVersion b.now mb eb → IsVersion o.now mo eo → IsVersion t.now mt et → option_copied value.entry ≡ value_in rows name.now
        → is ≡ (alike same_value_in (said_in mo rows name.now) (said_in mo eo.rows name.now)
        && (alike fields_agree_in (said_in mb eb.rows name.now) (said_in mt et.rows name.now) || alike fields_agree_in (said_in mo eo.rows name.now) (said_in mt et.rows name.now)))) }
{
    if !has_value(name, o, value) {
        return Ok(false);
    }
    let is = is_ours(alloc, name, b, o, t)?;
    Ok(is)
}

/// Whether a field that has this value is theirs, and may be: we left it.
fn may_be_theirs(
    alloc: Global,
    name: &[u8],
    value: Option<&[u8]>,
    b: &Version<'_>,
    o: &Version<'_>,
    t: &Version<'_>,
) -> Result<bool, AllocError>
    ensures { IfOk result (λ is. (mb mo mt : Macros) (eb eo et : Entry) (rows : List Row) → IsVersion b.now mb eb → IsVersion o.now mo eo → IsVersion t.now mt et → option_copied value.entry ≡ value_in rows name.now
        → is ≡ (alike same_value_in (said_in mo rows name.now) (said_in mt et.rows name.now) && alike fields_agree_in (said_in mb eb.rows name.now) (said_in mo eo.rows name.now))) }
{
    if !has_value(name, t, value) {
        return Ok(false);
    }
    let left = agree_on(alloc, name, b, o)?;
    Ok(left)
}

/// Whether what a merged entry with this table has of the field with the name of this one is what three versions make of it.
pub(crate) fn is_of_three(
    alloc: Global,
    field: &FieldView<'_>,
    b: &Version<'_>,
    o: &Version<'_>,
    t: &Version<'_>,
    merged: &FieldTable<'_>,
) -> Result<bool, AllocError>
    ensures { IfOk result (λ is. (mb mo mt : Macros) (eb eo et : Entry) (rows : List Row) → IsVersion b.now mb eb → IsVersion o.now mo eo → IsVersion t.now mt et
        → IsTableOfRows merged.now rows → is ≡ is_row_of_three mb eb mo eo mt et rows field.now.name.now) }
{
    let value = merged.get(field.name).copied();
    if may_be_ours(alloc, field.name, value, b, o, t)? {
        return Ok(true);
    }
    let is = may_be_theirs(alloc, field.name, value, b, o, t)?;
    Ok(is)
}

/// Whether the field with this name is in conflict: no two of three versions agree on it.
pub(crate) fn is_in_conflict(
    alloc: Global,
    name: &[u8],
    b: &Version<'_>,
    o: &Version<'_>,
    t: &Version<'_>,
) -> Result<bool, AllocError>
    ensures { IfOk result (λ is. (mb mo mt : Macros) (eb eo et : Entry) → IsVersion b.now mb eb → IsVersion o.now mo eo → IsVersion t.now mt et
        → is ≡ is_in_conflict mb eb mo eo mt et name.now) }
{
    if is_ours(alloc, name, b, o, t)? {
        return Ok(false);
    }
    let left = agree_on(alloc, name, b, o)?;
    Ok(!left)
}
