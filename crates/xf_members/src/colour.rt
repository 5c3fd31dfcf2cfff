//! Colours.
ghost use Rattle.std.specs.Prelude.{◌≡◌, true, option_map, IfSome};
ghost use Rattle.std.specs.Char.{is_ascii_hexdigit};
ghost use Rattle.std.specs.List.{list_all};
ghost use Rattle.serde_json.specs.View.{view};
ghost use Rattle.xf_members.specs.Reading.{colour, is_colour};

use serde_json::Value;

/// Whether a text is a colour: `#` and six hexadecimal digits.
fn is_colour(text: &str) -> bool
    ensures { result ≡ is_colour text.now }
{
    match text.as_bytes() {
        [first, digits @ ..] => *first == b'#' && digits.len() == 6 && are_hexadecimal(digits),
        [] => false,
    }
}

/// Whether all bytes are hexadecimal digits.
fn are_hexadecimal(digits: &[u8]) -> bool
    ensures { result ≡ list_all is_ascii_hexdigit digits.now }
{
    digits.iter().all(|digit| digit.is_ascii_hexdigit())
}

/// The colour that a value is.
pub fn colour_of(value: &Value) -> Option<&str>
    ensures exact { option_map (λ text. text.now) result ≡ colour (view value.now) }
    ensures sound { IfSome result (λ text. is_colour text.now ≡ true) }
{
    match value.as_str() {
        Some(text) if is_colour(text) => Some(text),
        _ => None,
    }
}
