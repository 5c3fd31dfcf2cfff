//! Counts as words of a line.
ghost use Rattle.std.specs.Prelude.{◌≡◌, ◌≤◌, ◌<◌, ◌^◌, IfSome};
ghost use Rattle.xf_script.specs.Openers.{field_of, letters_of, width_of};

use xf_base::Text;
use xf_filter::count_of;

/// The width of a `floor`: a count from 1 on.
pub fn width_of(word: &[u8]) -> Option<u64>
    ensures { result ≡ width_of word.now }
{
    match count_of(word) {
        Some(count) if count > 0 => Some(count),
        _ => None,
    }
}

/// How many characters `letters` keeps: a count from 1 to 64.
pub fn letters_of(word: &[u8]) -> Option<u8>
    ensures { result ≡ letters_of word.now }
{
    match count_of(word) {
        Some(count) if 1 <= count && count <= 64 => Some(count as u8),
        _ => None,
    }
}

/// The number of a field, a count up to 255; Some(None) for the word `natural`.
pub fn field_of(word: &str) -> Option<Option<u8>>
    ensures { result ≡ field_of word.now }
{
    if word == "natural" {
        return Some(None);
    }
    match count_of(word.as_bytes()) {
        Some(count) if count <= 255 => Some(Some(count as u8)),
        _ => None,
    }
}
