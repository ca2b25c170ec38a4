// Byte slices: moved, set, told from one byte repeated.
ghost use Rattle.std.specs.Prelude.{◌≡◌, ◌+◌, ◌*◌, ◌≤◌, length, replicate};
ghost use Rattle.base.specs.Part.{part, splice};
ghost use Rattle.base.specs.Same.{one_byte};

// All of src into dst, which is as long, for sectors: up to 512 bytes go through a local array, of which LLVM makes one memmove. It is
// not told that dst and src are apart, and makes of `copy_from_slice` alone a loop of 32 bytes a turn where dst is near behind src: 11
// instructions more for each of a run's sectors.
pub fn move_bytes(dst: &mut [u8], src: &[u8])
    requires { length dst.old ≡ length src.now }
    ensures { dst.new ≡ src.now }
{
    let n = src.len();
    if 512 < n {
        dst.copy_from_slice(src);
        return;
    }
    let mut room = [0u8; 512];
    room[..n].copy_from_slice(src);
    dst.copy_from_slice(&room[..n]);
}

// The same within one slice, for a sector's data and for what goes to a front: again one memmove. Std's `copy_within` is a loop of the
// bytes, which takes more.
pub fn copy_within(bytes: &mut [u8], from: usize, to: usize, size: usize)
    requires { (from + size ≤ length bytes.old) × (to + size ≤ length bytes.old) × (size ≤ 512) }
    ensures { bytes.new ≡ splice to (part from size bytes.old) bytes.old }
{
    let mut room = [0u8; 512];
    let end = from + size;
    room[..size].copy_from_slice(&bytes[from..end]);
    let past = to + size;
    bytes[to..past].copy_from_slice(&room[..size]);
}

// Every byte becomes this one: one memset. `fill` stores the last byte for itself, 7 instructions more for each slot that is formatted.
pub fn set_bytes(dst: &mut [u8], byte: u8)
    ensures { dst.new ≡ replicate (length dst.old) byte }
{
    for place in dst.iter_mut() {
        *place = byte;
    }
}

// Whether the bytes are one byte, repeated. No early exit, so that LLVM compares many at once.
#[tactic(auto, using(crate::proofs::Ones::seen))]
pub fn one_byte(bytes: &[u8]) -> bool
    ensures { result ≡ one_byte bytes.now }
{
    let mut same = !bytes.is_empty();
    for byte in bytes {
        same &= *byte == bytes[0];
    }
    same
}
