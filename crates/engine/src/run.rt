// A command from its block to its outcome: the record and the images are put together here, and nowhere else.
ghost use Rattle.std.specs.Prelude.{◌≡◌, length, set, true};
ghost use Rattle.model.specs.Block.{block_of, is_whole};
ghost use Rattle.model.specs.Engine.{execute};
ghost use Rattle.model.specs.Premises.{WellFormed};
ghost use Rattle.pouring.specs.Lent.{lent, SameLent};
ghost use Rattle.copies.specs.Runs.{IsCopy, CopyRan};
ghost use Rattle.engine.specs.Results.{lent_now, obeyed, result_now};

use checks::block::{decode, decode_copy, is_copy, is_whole};
use codes::Refusal;
use copies::run::run_copy;
use dispatch::obey::obey;
use drives::entry::{drive_at, with_drive};
use endings::ending::bare_answer;
use model::block::{Block, CopyBlock};
use model::record::{Answer, Controller, Drive, Ending, Outcome};
use pouring::images::Images;

// A command on the image of the drive that it names. By four calls: a `&mut` to one of four is not returned yet (docs/DECISIONS.md, D44).
fn on_images(
    entry: Drive,
    b: Block,
    buffer: &mut [u8; 512],
    given: &[u8],
    area: &mut [u8],
    images: &mut Images,
) -> Ending
    requires { WellFormed b }
    ensures left { lent_now result buffer.new area.new (lent images.new)
        ≡ obeyed b given.now entry buffer.old area.old (lent images.old) }
    ensures same { SameLent images.old images.new }
{
    let drive = b.drive;
    match drive {
        0 => obey(entry, b, buffer, given, area, images.image0),
        1 => obey(entry, b, buffer, given, area, images.image1),
        2 => obey(entry, b, buffer, given, area, images.image2),
        _ => obey(entry, b, buffer, given, area, images.image3),
    }
}

// A Copy. The images are lent again, so that no other command writes the struct to the stack (D44).
fn copy_apart(
    drives: [Drive; 4],
    k: CopyBlock,
    buffer: &mut [u8; 512],
    images: &mut Images,
) -> Ending
    requires { IsCopy k }
    ensures ran { CopyRan k (record { buffer = buffer.old; drives = drives }) (lent images.old)
        (record { controller = record { buffer = buffer.new; drives = set drives k.from.drive result.entry }; answer = result.answer })
        (lent images.new) }
    ensures same { SameLent images.old images.new }
{
    let mut again = Images {
        image0: &mut *images.image0,
        image1: &mut *images.image1,
        image2: &mut *images.image2,
        image3: &mut *images.image3,
    };
    run_copy(drives, k, buffer, &mut again)
}

// What a call leaves beside the buffer: the drives' entries, and the answer.
#[derive(Clone, Copy)]
pub struct Ran {
    pub drives: [Drive; 4],
    pub answer: Answer,
}

// A whole block: what it leaves of the drive in its byte 1, which is a Copy's source, with the answer.
fn run_block(
    drives: [Drive; 4],
    block: &[u8],
    buffer: &mut [u8; 512],
    given: &[u8],
    area: &mut [u8],
    images: &mut Images,
) -> Ending
    requires { is_whole block.now ≡ true }
    ensures left { result_now (record {
      controller = record {
        buffer = buffer.new;
        drives = set drives (block_of block.now).drive result.entry;
      };
      answer = result.answer;
    })
        area.new (lent images.new)
        ≡ execute (record { buffer = buffer.old; drives = drives }) block.now given.now area.old (lent images.old) }
    ensures same { SameLent images.old images.new }
{
    if is_copy(block) {
        let k = decode_copy(block);
        return copy_apart(drives, k, buffer, images);
    }
    let b = decode(block);
    let before = drive_at(drives, b.drive);
    on_images(before, b, buffer, given, area, images)
}

// A command: any block, given data, data area and images. The buffer is lent, so that no call copies it.
#[inline(always)]
pub fn execute_on(
    drives: [Drive; 4],
    buffer: &mut [u8; 512],
    block: &[u8],
    given: &[u8],
    area: &mut [u8],
    images: &mut Images,
) -> Ran
    ensures left { result_now (record { controller = record { buffer = buffer.new; drives = result.drives }; answer = result.answer })
        area.new (lent images.new)
        ≡ execute (record { buffer = buffer.old; drives = drives }) block.now given.now area.old (lent images.old) }
    ensures same { SameLent images.old images.new }
{
    if !is_whole(block) {
        return Ran {
            drives,
            answer: bare_answer(Refusal::Block.number()),
        };
    }
    let ending = run_block(drives, block, buffer, given, area, images);
    let drive = block[1] / 32 % 4;
    let entry = ending.entry;
    let answer = ending.answer;
    let after = with_drive(drives, drive, entry);
    Ran {
        drives: after,
        answer,
    }
}

// The same of a record by value.
pub fn execute(
    c: Controller,
    block: &[u8],
    given: &[u8],
    area: &mut [u8],
    images: &mut Images,
) -> Outcome
    ensures left { result_now result area.new (lent images.new)
        ≡ execute c block.now given.now area.old (lent images.old) }
    ensures same { SameLent images.old images.new }
{
    let drives = c.drives;
    let mut buffer = c.buffer;
    let ran = execute_on(drives, &mut buffer, block, given, area, images);
    let left = ran.drives;
    let answer = ran.answer;
    Outcome {
        controller: Controller {
            buffer,
            drives: left,
        },
        answer,
    }
}
