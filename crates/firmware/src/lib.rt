// The firmware's form of the calls: it lends the controller's record and has it changed there. Thin calls over `execute_on`, which
// takes the drives by value and is lent the buffer, and over `reset` and `fresh`, which make a record, for C and Rust to link.
#![tactic(auto)]

ghost use Rattle.std.specs.Prelude.{◌≡◌};
ghost use Rattle.model.specs.Engine.{images_of, execute, fresh, reset_of};
ghost use Rattle.engine.specs.Results.{result_now};

use drives::reset::{fresh, reset};
use engine::run::execute_on;
use model::record::{Answer, Controller};
use pouring::images::Images;

// A command: any record, block, given data, data area and images: two hard disks, then two floppies.
#[inline(always)]
#[unsafe(no_mangle)]
pub extern "C" fn lanthewg_execute(
    c: &mut Controller,
    block: &[u8],
    given: &[u8],
    area: &mut [u8],
    image0: &mut [u8],
    image1: &mut [u8],
    image2: &mut [u8],
    image3: &mut [u8],
) -> Answer
    ensures { result_now (record { controller = c.new; answer = result }) area.new
        (images_of image0.new image1.new image2.new image3.new)
        ≡ execute c.old block.now given.now area.old
        (images_of image0.old image1.old image2.old image3.old) }
{
    let mut images = Images {
        image0,
        image1,
        image2,
        image3,
    };
    let ran = execute_on(c.drives, &mut c.buffer, block, given, area, &mut images);
    let drives = ran.drives;
    c.drives = drives;
    ran.answer
}

// Reset answers zeros.
#[unsafe(no_mangle)]
pub extern "C" fn lanthewg_reset(
    c: &mut Controller,
    image0: &[u8],
    image1: &[u8],
    image2: &[u8],
    image3: &[u8],
) -> Answer
    ensures { record { controller = c.new; answer = result }
        ≡ reset_of (images_of image0.now image1.now image2.now image3.now) }
{
    let o = reset([image0, image1, image2, image3]);
    *c = o.controller;
    o.answer
}

// A fresh controller: as it is after Reset.
#[unsafe(no_mangle)]
pub extern "C" fn lanthewg_fresh(
    c: &mut Controller,
    image0: &[u8],
    image1: &[u8],
    image2: &[u8],
    image3: &[u8],
)
    ensures { c.new ≡ fresh (images_of image0.now image1.now image2.now image3.now) }
{
    *c = fresh([image0, image1, image2, image3]);
}
