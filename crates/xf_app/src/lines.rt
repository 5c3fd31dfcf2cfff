//! The lines of a session: where each ends.
ghost use Rattle.std.specs.Prelude.{◌≡◌, ◌<◌, ◌∷◌, length};
ghost use Rattle.std.specs.Str.Lines.{lines, strip_carriage_return};
ghost use Rattle.csv.specs.Reading.{strip_bom};

/// A session's bytes after one byte order mark, if it has one.
#[tactic(auto, unfolding(csv::specs::Reading::strip_bom))]
pub fn text_of(session: &[u8]) -> &[u8]
    ensures { result.now ≡ strip_bom session.now }
{
    match session {
        [0xef, 0xbb, 0xbf, text @ ..] => text,
        _ => session,
    }
}

/// The first line of a text that is not empty, and the text after its line feed.
pub fn first_line(text: &[u8]) -> (&[u8], &[u8])
    requires { 0 < length text.now }
    ensures first { lines text.now ≡ result.0.now ∷ lines result.1.now }
    ensures shorter { length result.1.now < length text.now }
{
    match text.iter().position(|byte| *byte == b'\n') {
        None => (text, &[]),
        Some(end) => (without_return(&text[..end]), &text[end + 1..]),
    }
}

/// A line without a carriage return at its end.
fn without_return(line: &[u8]) -> &[u8]
    ensures { result.now ≡ strip_carriage_return line.now }
{
    match line {
        [line @ .., b'\r'] => line,
        _ => line,
    }
}
