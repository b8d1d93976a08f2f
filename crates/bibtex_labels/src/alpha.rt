//! The style, and the templates by which it prints names.

ghost use Rattle.std.specs.Prelude.{◌≡◌, IfOk};
ghost use Rattle.bibtex_labels.specs.Label.{spelled, initials_template, last_template, whole_template, sorted_template};

use bibtex_names::Template;
use std::alloc::{AllocError, Global};
use std::marker::Model;

/// The template that the text spells.
fn spelled(alloc: Global, text: &[u8]) -> Result<Template, AllocError>
    ensures { IfOk result (λ t. t ≡ spelled text.now) }
{
    match Template::read(alloc, text) {
        Ok(template) => Ok(template),
        Err(_) => Err(AllocError),
    }
}

/// The template of initials.
#[tactic(auto, unfolding(crate::specs::Label::initials_template))]
fn initials_template(alloc: Global) -> Result<Template, AllocError>
    ensures { IfOk result (λ t. t ≡ initials_template) }
{
    spelled(alloc, b"{v{}}{l{}}")
}

/// The template of the last name.
#[tactic(auto, unfolding(crate::specs::Label::last_template))]
fn last_template(alloc: Global) -> Result<Template, AllocError>
    ensures { IfOk result (λ t. t ≡ last_template) }
{
    spelled(alloc, b"{ll}")
}

/// The template of the whole name.
#[tactic(auto, unfolding(crate::specs::Label::whole_template))]
fn whole_template(alloc: Global) -> Result<Template, AllocError>
    ensures { IfOk result (λ t. t ≡ whole_template) }
{
    spelled(alloc, b"{ff }{vv }{ll}{ jj}")
}

/// The template of names in the sort key.
#[tactic(auto, unfolding(crate::specs::Label::sorted_template))]
fn sorted_template(alloc: Global) -> Result<Template, AllocError>
    ensures { IfOk result (λ t. t ≡ sorted_template) }
{
    spelled(alloc, b"{vv{ } }{ll{ }}{  ff{ }}{  jj{ }}")
}

/// The style `alpha`, with the templates by which it prints names, so that they are read once for all records.
#[derive(Debug, Drop)]
pub struct Alpha {
    initials: Template,
    last: Template,
    whole: Template,
    sorted: Template,
}

impl Model for Alpha {
    ghost use Rattle.std.specs.Prelude.{◌≡◌};
    ghost use Rattle.bibtex_labels.specs.Label.{NameTemplates, initials_template, last_template, whole_template, sorted_template};

    ghost Value = { NameTemplates };

    ghost view = { λ a. record { initials = a.initials; last = a.last; whole = a.whole; sorted = a.sorted } };

    ghost invariant = { λ a. (a.initials ≡ initials_template) × (a.last ≡ last_template) × (a.whole ≡ whole_template) × (a.sorted ≡ sorted_template) };
}

impl Alpha {
    ghost use Rattle.std.specs.Prelude.{◌≡◌, IfOk};
    ghost use Rattle.bibtex_labels.specs.Label.{initials_template, last_template, whole_template, sorted_template, alpha_templates};

    /// The style. It takes memory for its templates.
    pub fn new(alloc: Global) -> Result<Alpha, AllocError>
        ensures { IfOk result (λ alpha. alpha ≡ alpha_templates) }
    {
        Ok(Alpha {
            initials: initials_template(alloc)?,
            last: last_template(alloc)?,
            whole: whole_template(alloc)?,
            sorted: sorted_template(alloc)?,
        })
    }

    /// The template of initials.
    pub(crate) fn initials(&self) -> &Template
        ensures { result.now ≡ initials_template }
    {
        &self.initials
    }

    /// The template of the last name.
    pub(crate) fn last(&self) -> &Template
        ensures { result.now ≡ last_template }
    {
        &self.last
    }

    /// The template of the whole name.
    pub(crate) fn whole(&self) -> &Template
        ensures { result.now ≡ whole_template }
    {
        &self.whole
    }

    /// The template of names in the sort key.
    pub(crate) fn sorted(&self) -> &Template
        ensures { result.now ≡ sorted_template }
    {
        &self.sorted
    }
}
