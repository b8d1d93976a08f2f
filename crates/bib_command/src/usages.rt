//! The text that the user gets if no command runs.

ghost use Rattle.std.specs.Prelude.{◌≡◌, ◌⊎◌};
ghost use Rattle.clap.specs.Words.{kind_of};
ghost use Rattle.bib_command.specs.Usage.{IsUsageOf, no_memory};

use bib_text::Text;
use bib_words::status;
use clap::error::ErrorKind;
use std::alloc::{AllocError, Global};

/// Why the words give no command: a text for the user, and the status to end with. The status is 0 for help and the
/// version, 2 for a mistake, and 4, with no text, if memory runs out.
#[derive(Drop)]
pub struct Usage {
    pub text: Text,
    pub status: u8,
}

/// The text and the status for an error of clap.
pub fn usage_of(alloc: Global, error: &clap::Error) -> Usage
    ensures { IsUsageOf (kind_of error.now) result }
{
    if error.kind() == ErrorKind::OutOfMemory {
        return no_memory(alloc);
    }
    let status = if error.use_stderr() {
        status::COMMAND_LINE
    } else {
        status::DONE
    };
    match error.to_string(alloc) {
        Ok(text) => Usage {
            text: Text::from_vec(text.into_bytes()),
            status,
        },
        Err(_) => no_memory(alloc),
    }
}

/// The text and the status for the words of a command over keys that have neither a key nor an aux file.
pub fn without_keys(alloc: Global, command: &[u8]) -> Usage
    ensures { (result.status ≡ 2) ⊎ (result ≡ no_memory) }
{
    match keyless_text(alloc, command) {
        Ok(text) => Usage {
            text,
            status: status::COMMAND_LINE,
        },
        Err(_) => no_memory(alloc),
    }
}

fn keyless_text(alloc: Global, command: &[u8]) -> Result<Text, AllocError> {
    let mut text = Vec::new(alloc);
    text.extend_from_slice(
        b"error: the following required arguments were not provided:\n  <KEY>...\n\nUsage: bibkeep ",
    )?;
    text.extend_from_slice(command)?;
    text.extend_from_slice(b" <F> <KEY>...\n\nFor more information, try '--help'.\n")?;
    Ok(Text::from_vec(text))
}

/// The text and the status for words that give `--bibtex` and this option, which does not go with it.
pub fn in_conflict(alloc: Global, rival: &[u8]) -> Usage
    ensures { (result.status ≡ 2) ⊎ (result ≡ no_memory) }
{
    match conflict_text(alloc, rival) {
        Ok(text) => Usage {
            text,
            status: status::COMMAND_LINE,
        },
        Err(_) => no_memory(alloc),
    }
}

fn conflict_text(alloc: Global, rival: &[u8]) -> Result<Text, AllocError> {
    let mut text = Vec::new(alloc);
    text.extend_from_slice(b"error: the argument '--bibtex' cannot be used with '")?;
    text.extend_from_slice(rival)?;
    text.extend_from_slice(b"'\n\nFor more information, try '--help'.\n")?;
    Ok(Text::from_vec(text))
}

/// The answer without a text, when there is no memory to make one.
pub fn no_memory(alloc: Global) -> Usage
    ensures { result ≡ no_memory }
{
    Usage {
        text: Text::empty(alloc),
        status: status::MEMORY,
    }
}
