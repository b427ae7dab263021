ghost use Rattle.std.specs.Prelude.{◌≡◌, ◌+◌, ◌==◌, ◌↔◌, IsTrue, length};
ghost use Rattle.cts_base.specs.Vocabulary.{before_first, after_first, list_all, position, is_ascii_digit, AllDigits, IsNumeral, starts_with_minus, without_leading_sign, is_decimal, is_exponent_mark, is_marked, is_numeral, is_point, exponent, whole_digits, fraction_digits, HasDigits};

/// The parts that the spelling of a number has.
#[derive(Clone, Copy, Debug)]
pub struct Parts<'a> {
    /// The digits before the point.
    pub whole: &'a [u8],
    /// The digits after the point.
    pub fraction: &'a [u8],
    /// What stands after the exponent's mark.
    pub exponent: &'a [u8],
    /// Whether there is such a mark.
    pub is_marked: bool,
}

/// The parts of a text, whether or not it is a number.
pub fn parts_of<'a>(text: &'a [u8]) -> Parts<'a>
    ensures whole { result.whole.now ≡ whole_digits text.now }
    ensures fraction { result.fraction.now ≡ fraction_digits text.now }
    ensures exponent { result.exponent.now ≡ exponent text.now }
    ensures is_marked { result.is_marked ≡ is_marked text.now }
{
    let body = without_sign(text);
    let coefficient = before_mark(body);
    Parts {
        whole: before_point(coefficient),
        fraction: after_point(coefficient),
        exponent: after_mark(body),
        is_marked: coefficient.len() < body.len(),
    }
}

/// Whether a text has the form of a number.
#[tactic(auto, unfolding(crate::specs::Decimals::is_decimal))]
pub fn is_decimal(text: &[u8]) -> bool
    ensures form { result ≡ is_decimal text.now }
    ensures digits { IsTrue result → HasDigits text.now }
{
    let parts = parts_of(text);
    if !are_digits(parts.whole) {
        return false;
    }
    if !are_digits(parts.fraction) {
        return false;
    }
    if is_nothing(parts.whole, parts.fraction) {
        return false;
    }
    !parts.is_marked || is_numeral(without_sign(parts.exponent))
}

fn is_nothing(whole: &[u8], fraction: &[u8]) -> bool
    ensures { result ≡ (length whole.now + length fraction.now == 0) }
{
    whole.is_empty() && fraction.is_empty()
}

/// Whether a text begins with a minus.
pub fn begins_with_minus(text: &[u8]) -> bool
    ensures { result ≡ starts_with_minus text.now }
{
    match text.first() {
        Some(first) => *first == b'-',
        None => false,
    }
}

/// A text without its sign.
pub fn without_sign(text: &[u8]) -> &[u8]
    ensures { result.now ≡ without_leading_sign text.now }
{
    match text {
        [b'-', rest @ ..] => rest,
        [b'+', rest @ ..] => rest,
        _ => text,
    }
}

fn before_mark(body: &[u8]) -> &[u8]
    ensures { result.now ≡ before_first is_exponent_mark body.now }
{
    match mark_of(body) {
        Some(end) => &body[..end],
        None => body,
    }
}

fn after_mark(body: &[u8]) -> &[u8]
    ensures { result.now ≡ after_first is_exponent_mark body.now }
{
    match mark_of(body) {
        Some(end) => body.split_at(end + 1).1,
        None => &[],
    }
}

fn mark_of(body: &[u8]) -> Option<usize>
    ensures { result ≡ position is_exponent_mark body.now }
{
    body.iter().position(|byte| *byte == b'e' || *byte == b'E')
}

fn before_point(body: &[u8]) -> &[u8]
    ensures { result.now ≡ before_first is_point body.now }
{
    match point_of(body) {
        Some(end) => &body[..end],
        None => body,
    }
}

fn after_point(body: &[u8]) -> &[u8]
    ensures { result.now ≡ after_first is_point body.now }
{
    match point_of(body) {
        Some(end) => body.split_at(end + 1).1,
        None => &[],
    }
}

fn point_of(body: &[u8]) -> Option<usize>
    ensures { result ≡ position is_point body.now }
{
    body.iter().position(|byte| *byte == b'.')
}

fn are_digits(bytes: &[u8]) -> bool
    ensures tested { result ≡ list_all is_ascii_digit bytes.now }
    ensures digits { IsTrue result ↔ AllDigits 10 bytes.now }
{
    all_ascii_digits(bytes)
}

fn all_ascii_digits(bytes: &[u8]) -> bool
    ensures { result ≡ list_all is_ascii_digit bytes.now }
{
    bytes.iter().all(|byte| byte.is_ascii_digit())
}

/// Whether bytes are digits, and at least one.
pub fn is_numeral(bytes: &[u8]) -> bool
    ensures tested { result ≡ is_numeral bytes.now }
    ensures numeral { IsTrue result ↔ IsNumeral 10 bytes.now }
{
    !bytes.is_empty() && are_digits(bytes)
}
