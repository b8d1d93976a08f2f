//! Edits that are tried in a session.

ghost use Rattle.bib_data.specs.Depths.{HasDepth};

use crate::fault::Stop;
use bib_data::{Edit, Request};
use bib_journal::{Session, SessionFault};
use bib_store::{Database, Paged};
use bib_text::copied;
use std::alloc::Global;

/// A session, and the edits that it accepted.
pub(crate) struct Trial {
    pub alloc: Global,
    pub session: Session<Paged>,
    pub requests: Vec<Request>,
}

impl Trial {
    /// No edit was tried.
    pub fn new(alloc: Global, session: Session<Paged>) -> Trial {
        Trial {
            alloc,
            session,
            requests: Vec::new(alloc),
        }
    }

    /// The edits that were accepted. The session is closed.
    pub fn end(self) -> Vec<Request> {
        let Trial {
            alloc: _,
            session,
            requests,
        } = self;
        session.close();
        requests
    }

    /// The session's file, as the edits left it.
    pub fn file(&self) -> &Database<Paged> {
        self.session.database()
    }

    /// Makes an edit, and keeps it, if it is accepted. Whether it was.
    pub fn try_edit(&mut self, edit: Edit) -> Result<bool, Stop>
        requires { HasDepth edit }
    {
        match self.session.edit(&edit) {
            Ok(()) => {
                self.requests.push(Request::Edit(edit))?;
                Ok(true)
            }
            Err(SessionFault::Memory) => Err(Stop::Memory),
            Err(_) => Ok(false),
        }
    }

    /// Makes an edit of the entry with this key, and keeps it. If it is refused, the search ends there.
    pub fn make(&mut self, key: &[u8], edit: Edit) -> Result<(), Stop>
        requires { HasDepth edit }
    {
        if self.try_edit(edit)? {
            return Ok(());
        }
        Err(lost(self.alloc, key))
    }

    /// Drops a field of an entry.
    pub fn drop_field(&mut self, key: &[u8], field: &[u8]) -> Result<(), Stop> {
        let edit = Edit::DropField {
            key: copied(self.alloc, key)?,
            field: copied(self.alloc, field)?,
        };
        self.make(key, edit)
    }
}

/// The search ends at the entry with this key.
pub(crate) fn lost(alloc: Global, key: &[u8]) -> Stop {
    if key.is_empty() {
        return Stop::Lost(None);
    }
    match copied(alloc, key) {
        Ok(key) => Stop::Lost(Some(key)),
        Err(_) => Stop::Memory,
    }
}
