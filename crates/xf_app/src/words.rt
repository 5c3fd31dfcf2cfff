//! The words of the program.
ghost use Rattle.std.specs.Prelude.{◌≡◌, map, not, option_map, string_bytes};
ghost use Rattle.xf_app.specs.Words.{is_option, names_of};

/// The names of the board and the session, where the words are accepted.
pub fn names_of(words: &[String]) -> Option<(&str, &str)>
    ensures { option_map (λ names. (names.0.now, names.1.now)) result ≡ names_of (map string_bytes words.now) }
{
    let [board, session] = words else {
        return None;
    };
    let (board, session) = (board.as_str(), session.as_str());
    if is_name(board) && is_name(session) {
        Some((board, session))
    } else {
        None
    }
}

/// Whether a word is no option.
fn is_name(word: &str) -> bool
    ensures { result ≡ not (is_option word.now) }
{
    !matches!(word.as_bytes(), [b'-', ..])
}
