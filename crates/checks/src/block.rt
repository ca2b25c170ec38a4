// The bytes of a block.
ghost use Rattle.std.specs.Prelude.{◌≡◌, [], ◌∷◌, ◌≤◌, length};
ghost use Rattle.model.specs.Block.{block_of, is_copy, block_length, is_whole, copy_of, count_of, from_buffer, keeps, alternate_of};

use geometry::params::Lba;
use model::block::{Block, CopyBlock};

// Whether it begins with 20h.
pub fn is_copy(bytes: &[u8]) -> bool
    ensures { result ≡ is_copy bytes.now }
{
    if bytes.len() == 0 {
        return false;
    }
    bytes[0] == 0x20
}

// How many bytes a block has, by its first: ten in a Copy, else six.
pub fn block_length(bytes: &[u8]) -> usize
    ensures { result ≡ block_length bytes.now }
{
    if is_copy(bytes) { 10 } else { 6 }
}

// Whether it has as many. By its length first: the calls of six bytes are the many.
pub fn is_whole(bytes: &[u8]) -> bool
    ensures { result ≡ is_whole bytes.now }
{
    if bytes.len() == 6 {
        return !is_copy(bytes);
    }
    bytes.len() == 10 && is_copy(bytes)
}

#[tactic(auto, unfolding(model::specs::Block::block_of))]
fn fields(opcode: u8, high: u8, middle: u8, low: u8, extra: u8, control: u8) -> Block
    ensures { result ≡ block_of (opcode ∷ high ∷ middle ∷ low ∷ extra ∷ control ∷ []) }
{
    Block {
        opcode,
        top: 128 <= high,
        drive: high / 32 % 4,
        address: Lba::from([high % 32, middle, low]),
        extra,
        control,
    }
}

// A call: in line it costs every command some 20 instructions more, as LLVM then spills.
#[inline(never)]
pub fn decode(bytes: &[u8]) -> Block
    requires { length bytes.now ≡ 6 }
    ensures { result ≡ block_of bytes.now }
{
    fields(bytes[0], bytes[1], bytes[2], bytes[3], bytes[4], bytes[5])
}

// Copy's ten bytes: the control byte goes with the source.
pub fn decode_copy(bytes: &[u8]) -> CopyBlock
    requires { length bytes.now ≡ 10 }
    ensures { result ≡ copy_of bytes.now }
{
    CopyBlock {
        from: fields(bytes[0], bytes[1], bytes[2], bytes[3], bytes[4], bytes[9]),
        to: fields(bytes[0], bytes[5], bytes[6], bytes[7], bytes[4], 0),
    }
}

// The sectors of a transfer.
pub fn count_of(b: Block) -> usize
    ensures { (result ≡ count_of b) × (result ≤ 256) }
{
    if b.extra == 0 {
        return 256;
    }
    b.extra as usize
}

// Whether the fill comes from the buffer.
pub fn from_buffer(b: Block) -> bool
    ensures { result ≡ from_buffer b }
{
    b.control / 32 % 2 == 1
}

// Whether the contents are kept.
pub fn keeps_contents(b: Block) -> bool
    ensures { result ≡ keeps b }
{
    b.control / 16 % 2 == 1
}

// The address in the three bytes given to Assign Alternate.
pub fn alternate_of(given: &[u8]) -> Lba
    requires { 3 ≤ length given.now }
    ensures { result ≡ alternate_of given.now }
{
    Lba::from([given[0], given[1], given[2]])
}
