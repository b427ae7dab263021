//! How the text of an answer is handed to the caller.

ghost use Rattle.std.specs.Prelude.{◌≡◌, ◌⊎◌};
ghost use Rattle.cts_c.specs.Vocabulary.{ending_status, IsHanded, IsTooLarge, IsEnding};

use answer_texts::Answer;

// The status where a buffer is too small for the text.
const TOO_SMALL: u32 = 5;

/// Hands the text of an answer to a caller's buffer, where it fits, and its size in bytes to the
/// caller. Gives the status of the call.
pub fn hand_over(answer: &Answer, out: &mut [u8], size: &mut usize) -> u32
    ensures handed { IsEnding result → (result ≡ ending_status answer.now.ending)
        × IsHanded answer.now.text.items out.old out.new size.new }
    ensures small { result ≡ 5 → IsTooLarge answer.now.text.items out.old out.new size.new }
    ensures statuses { IsEnding result ⊎ (result ≡ 5) }
{
    let text = answer.text.as_slice();
    *size = text.len();
    if text.len() > out.len() {
        return TOO_SMALL;
    }
    out[..text.len()].copy_from_slice(text);
    u32::from(answer.ending.status())
}
