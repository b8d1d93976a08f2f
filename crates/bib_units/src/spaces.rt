//! White space at the ends of texts.

ghost use Rattle.std.specs.Prelude.{◌≡◌, ◌≤◌, length};
ghost use Rattle.std.specs.List.{prefix_len};
ghost use Rattle.bib_spec.specs.Text.{is_space, after_run};
ghost use Rattle.bib_text.specs.Trimming.{up_to_last, before_run};
ghost use Rattle.merge_spec.specs.Units.{front_space, end_space};
ghost use Rattle.std.specs.Prelude.{not};

use bib_text::is_space;

/// How many bytes of white space the text begins with.
fn space_len(text: &[u8]) -> usize
    ensures len { result ≡ prefix_len is_space text.now }
    ensures within { result ≤ length text.now }
{
    text.iter().take_while(|b| is_space(**b)).count()
}

/// The white space with which the text begins, and the rest.
pub(crate) fn split_front(text: &[u8]) -> (&[u8], &[u8])
    ensures space { result.0.now ≡ front_space text.now }
    ensures rest { result.1.now ≡ after_run is_space text.now }
{
    text.split_at(space_len(text))
}

/// How long the text is without the white space at its end.
fn words_len(text: &[u8]) -> usize
    ensures len { result ≡ up_to_last (λ b. not (is_space b)) text.now }
    ensures within { result ≤ length text.now }
{
    let mut end = text.len();
    'end: while end > 0 && is_space(text[end - 1]) {
        end -= 1;
    }
    end
}

/// The text without the white space at its end, and that white space.
pub(crate) fn split_end(text: &[u8]) -> (&[u8], &[u8])
    ensures words { result.0.now ≡ before_run is_space text.now }
    ensures space { result.1.now ≡ end_space text.now }
{
    text.split_at(words_len(text))
}
