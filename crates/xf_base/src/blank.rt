//! Blanks at the ends of a text.
ghost use Rattle.std.specs.Prelude.{◌≡◌};
ghost use Rattle.xf_base.specs.Fixed.{without_start_blanks, without_end_blanks, without_blanks};

/// A text without the blanks at its ends.
pub(crate) fn without_blanks(text: &[u8]) -> &[u8]
    ensures { result.now ≡ without_blanks text.now }
{
    without_end_blanks(without_start_blanks(text))
}

fn without_start_blanks(text: &[u8]) -> &[u8]
    ensures { result.now ≡ without_start_blanks text.now }
{
    let mut start = 0;
    while start < text.len() && text[start] == b' ' {
        start += 1;
    }
    &text[start..]
}

fn without_end_blanks(text: &[u8]) -> &[u8]
    ensures { result.now ≡ without_end_blanks text.now }
{
    let mut end = text.len();
    while end > 0 && text[end - 1] == b' ' {
        end -= 1;
    }
    &text[..end]
}
