// Bytes written as digits.
ghost use Rattle.std.specs.Prelude.{◌≡◌, ◌+◌, ◌*◌, ◌≤◌, length};
ghost use Rattle.base.specs.Part.{splice};
ghost use Rattle.hex_text.specs.Hex.{encoded};

use crate::digit::digit_for;

// Two digits a byte, high one first, from place `at` of the text on.
#[tactic(auto, using(crate::proofs::Texts::written_all))]
pub fn encode(text: &mut [u8], at: usize, bytes: &[u8])
    requires { at + 2 * length bytes.now ≤ length text.old }
    ensures { text.new ≡ splice at (encoded bytes.now) text.old }
{
    for (i, byte) in bytes.iter().enumerate() {
        let to = at + 2 * i;
        text[to] = digit_for(*byte / 16);
        text[to + 1] = digit_for(*byte % 16);
    }
}
