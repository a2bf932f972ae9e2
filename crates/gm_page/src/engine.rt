//! The engine's text in a page: digits of base64.
ghost use Rattle.std.specs.Prelude.{◌≡◌, ◌<◌, ◌++◌, None, true, List, ℕ, IfSome, length};
ghost use Rattle.std.specs.List.{list_all};
ghost use Rattle.gm_page.specs.Engines.{is_digit, IsBeforeEnd, IsEngine};
ghost use Rattle.gm_page.specs.Scripts.{opens_none};

/// The text between the lines of a page's data and the engine's: the end of one element, and the beginning of the other.
pub const BETWEEN: &[u8] = br##"</script>
<script type="application/octet-stream" id="engine">"##;

// Tests whether a byte is a digit of base64, or `=`.
fn is_digit(byte: u8) -> bool
    ensures { result ≡ is_digit byte }
{
    matches!(byte, b'A'..=b'Z' | b'a'..=b'z' | b'/'..=b'9' | b'+' | b'=')
}

/// Returns the engine in a text: its digits of base64, without the one line end that may follow them. Any other text has none.
pub fn engine_in(text: &[u8]) -> Option<&[u8]>
    ensures some { IfSome result (λ digits. IsEngine text.now digits.now) }
    ensures none { result ≡ None → (digits : List ℕ) → IsEngine text.now digits → ⊥ }
{
    let digits = without_end(text);
    if digits.is_empty() || !are_digits(digits) {
        return None;
    }
    Some(digits)
}

// Returns a text without the line end that is its last byte, if it has one.
fn without_end(text: &[u8]) -> &[u8]
    ensures { IsBeforeEnd text.now result.now }
{
    match text.split_last() {
        Some((b'\n', front)) => front,
        _ => text,
    }
}

// Tests whether all bytes are digits.
fn are_digits(text: &[u8]) -> bool
    ensures { result ≡ list_all is_digit text.now }
{
    text.iter().all(|byte| is_digit(*byte))
}

/// Has no effect; its contract states that no digit of an engine opens a tag.
pub fn no_digit_opens(digits: &[u8])
    ensures { list_all is_digit digits.now ≡ true → list_all opens_none digits.now ≡ true }
{}
