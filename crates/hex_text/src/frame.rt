// The bytes of a line that has been read to its end.
ghost use Rattle.std.specs.Prelude.{◌≡◌};
ghost use Rattle.hex_text.specs.Frame.{is_reset};

// FF alone.
pub fn is_reset(frame: &[u8]) -> bool
    ensures { result ≡ is_reset frame.now }
{
    frame[..] == [0xFF]
}
