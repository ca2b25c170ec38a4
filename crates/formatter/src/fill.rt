// What a format writes into every slot's data.
ghost use Rattle.std.specs.Prelude.{◌≡◌};
ghost use Rattle.base.specs.Same.{one_byte};

use base::bytes::{one_byte, set_bytes};

// The bytes, and whether they are one byte repeated: that is then set, which takes less than a copy.
#[derive(Clone, Copy)]
pub(crate) struct Fill<'a> {
    pub(crate) bytes: &'a [u8],
    one: bool,
    ghost told: { one ≡ one_byte bytes.now },
}

impl<'a> Fill<'a> {
    ghost use Rattle.std.specs.Prelude.{length};

    // Looks at the bytes.
    pub(crate) fn new(bytes: &'a [u8]) -> Fill<'a>
        ensures { result.bytes.now ≡ bytes.now }
    {
        Fill {
            bytes,
            one: one_byte(bytes),
        }
    }

    // A slot's data become the fill.
    pub(crate) fn write(self, dst: &mut [u8])
        requires { length dst.old ≡ length self.bytes.now }
        ensures { dst.new ≡ self.entry.bytes.now }
    {
        let bytes = self.bytes;
        if self.one {
            set_bytes(dst, bytes[0]);
        } else {
            dst.copy_from_slice(bytes);
        }
    }
}
