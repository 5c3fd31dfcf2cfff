//! How many values a JSON text has, counted without memory.
ghost use Rattle.std.specs.Prelude.{◌≡◌, nat_lt};
ghost use Rattle.xf_members.specs.Count.{openers, opens, state_after};
ghost use Rattle.xf_members.specs.declared.count.TextState.TheVariants.{Outside};

/// What stands before a byte of a JSON text.
#[derive(Clone, Copy, Debug, PartialEq, Eq)]
pub enum TextState {
    /// The byte is in no text.
    Outside,
    /// The byte is in a text, or ends it.
    InText,
    /// The byte is in a text, behind a `\`.
    Escaped,
}

/// Whether a text has more commas and beginnings of arrays and objects, outside of its texts, than a limit.
pub fn has_more_openers(bytes: &[u8], limit: u64) -> bool
    ensures { result ≡ nat_lt limit (openers Outside bytes.now) }
{
    let mut state = TextState::Outside;
    let mut count: u64 = 0;
    for byte in bytes {
        if opens(state, *byte) {
            if count >= limit {
                return true;
            }
            count += 1;
        }
        state = state_after(state, *byte);
    }
    false
}

/// Whether a byte is a comma or begins an array or an object.
fn opens(state: TextState, byte: u8) -> bool
    ensures { result ≡ opens state byte }
{
    match state {
        TextState::Outside => byte == b',' || byte == b'[' || byte == b'{',
        TextState::InText | TextState::Escaped => false,
    }
}

/// What stands before the next byte.
fn state_after(state: TextState, byte: u8) -> TextState
    ensures { result ≡ state_after state byte }
{
    match state {
        TextState::Outside => {
            if byte == b'"' {
                TextState::InText
            } else {
                TextState::Outside
            }
        }
        TextState::InText => match byte {
            b'"' => TextState::Outside,
            b'\\' => TextState::Escaped,
            _ => TextState::InText,
        },
        TextState::Escaped => TextState::InText,
    }
}
