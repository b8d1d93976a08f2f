//! The lines before the steps.

ghost use Rattle.std.specs.Prelude.{◌≡◌, ◌↔◌, IsTrue, IfSome, IfNone, IfOk, IfErr};
ghost use Rattle.std.specs.List.{list_all};
ghost use Rattle.journal_format.specs.Contents.{is_hex_digit, IsDigest};
ghost use Rattle.journal_format.specs.JournalText.{version_line, IsKnown, counts, counts_line, AreFew};
ghost use Rattle.journal_format.specs.Wrong.{IsLineOf, BeginsWith, HasWrongLine};

use crate::cutting::cut;
use crate::numbers::read_number;
use crate::version::Version;

/// The largest number of steps that can be kept. (dialect)
pub const CHANGE_LIMIT: usize = 65_535;

/// The version that the line names, if it names one.
fn read_version(line: &[u8]) -> Option<Version>
    ensures some { IfSome result (λ version. IsKnown version × (line.now ≡ version_line version)) }
    ensures none { IfNone result (IsLineOf version_line IsKnown line.now → ⊥) }
{
    if line == b"bibkeep 2".as_slice() {
        Some(Version::Second)
    } else if line == b"bibkeep 1".as_slice() {
        Some(Version::First)
    } else {
        None
    }
}

/// The version in the first line, and the text after that line; or the number of bytes left where the text goes wrong.
pub(crate) fn split_version(text: &[u8]) -> Result<(Version, &[u8]), usize>
    ensures read { IfOk result (λ x. BeginsWith version_line IsKnown text.now x.0 x.1.now) }
    ensures wrong { IfErr result (HasWrongLine version_line IsKnown text.now) }
{
    let Some((line, rest)) = cut(b'\n', text) else {
        return Err(0);
    };
    match read_version(line) {
        Some(version) => Ok((version, rest)),
        None => Err(text.len()),
    }
}

/// Whether the byte is a lower-case hex digit.
fn is_hex_digit(b: u8) -> bool
    ensures { result ≡ is_hex_digit b }
{
    b.is_ascii_digit() || (b'a'..=b'f').contains(&b)
}

/// Whether all bytes are lower-case hex digits.
fn are_hex_digits(line: &[u8]) -> bool
    ensures { result ≡ list_all is_hex_digit line.now }
{
    line.iter().all(|b| is_hex_digit(*b))
}

/// Whether the line is a digest: 64 lower-case hex digits.
fn is_digest(line: &[u8]) -> bool
    ensures { IsTrue result ↔ IsDigest line.now }
{
    line.len() == 64 && are_hex_digits(line)
}

/// The digest in the first line, and the text after that line; or the number of bytes left where the text goes wrong.
pub(crate) fn split_digest(text: &[u8]) -> Result<(&[u8], &[u8]), usize>
    ensures read { IfOk result (λ x. BeginsWith (λ digest. digest) IsDigest text.now x.0.now x.1.now) }
    ensures wrong { IfErr result (HasWrongLine (λ digest. digest) IsDigest text.now) }
{
    match cut(b'\n', text) {
        Some((line, rest)) if is_digest(line) => Ok((line, rest)),
        Some(_) => Err(text.len()),
        None => Err(0),
    }
}

/// The two numbers of the line, separated by a space, if there are no more changes than can be kept.
fn read_counts(line: &[u8]) -> Option<(u64, u64)>
    ensures some { IfSome result (λ x. AreFew (counts x.0 x.1) × (line.now ≡ counts_line (counts x.0 x.1))) }
    ensures none { IfNone result (IsLineOf counts_line AreFew line.now → ⊥) }
{
    let (undos, redos) = cut(b' ', line)?;
    let undos = read_number(undos)?;
    let redos = read_number(redos)?;
    if undos + redos <= CHANGE_LIMIT as u64 {
        Some((undos, redos))
    } else {
        None
    }
}

/// The numbers of changes that can be undone and redone, and the text after their line; or the number of bytes left where
/// the text goes wrong.
pub(crate) fn split_counts(text: &[u8]) -> Result<(u64, u64, &[u8]), usize>
    ensures read { IfOk result (λ x. BeginsWith counts_line AreFew text.now (counts x.0 x.1) x.2.now) }
    ensures wrong { IfErr result (HasWrongLine counts_line AreFew text.now) }
{
    let Some((line, rest)) = cut(b'\n', text) else {
        return Err(0);
    };
    match read_counts(line) {
        Some((undos, redos)) => Ok((undos, redos, rest)),
        None => Err(text.len()),
    }
}
