//! The months: macros that are defined from the start.

ghost use Rattle.std.specs.Prelude.{◌≡◌, map};
ghost use Rattle.std.specs.Option.{option_copied};
ghost use Rattle.bib_spec.specs.Text.{folded};
ghost use Rattle.bib_spec.specs.Texts.{months};
ghost use Rattle.bib_value.specs.Months.{shown, text_in};

use bib_text::same_folded;

/// The twelve months, with their texts. (btxdoc 2.2; their texts as in the style `plain`)
const MONTHS: [(&[u8], &[u8]); 12] = [
    (b"jan", b"January"),
    (b"feb", b"February"),
    (b"mar", b"March"),
    (b"apr", b"April"),
    (b"may", b"May"),
    (b"jun", b"June"),
    (b"jul", b"July"),
    (b"aug", b"August"),
    (b"sep", b"September"),
    (b"oct", b"October"),
    (b"nov", b"November"),
    (b"dec", b"December"),
];

/// The text that belongs to this name, folded, in a list of names with their texts: the first one counts.
fn text_in(names: &[(&'static [u8], &'static [u8])], name: &[u8]) -> Option<&'static [u8]>
    ensures { option_copied result ≡ text_in (map shown names.now) name.now }
{
    for entry in names {
        if same_folded(entry.0, name) {
            return Some(entry.1);
        }
    }
    None
}

/// The text of the month with this name, in any case.
#[tactic(auto, unfolding(bib_spec::specs::Texts::months))]
pub fn month(name: &[u8]) -> Option<&'static [u8]>
    ensures { option_copied result ≡ months (folded name.now) }
{
    text_in(&MONTHS, name)
}
