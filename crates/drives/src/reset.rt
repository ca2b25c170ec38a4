// Reset, and a fresh controller.
ghost use Rattle.std.specs.Prelude.{◌≡◌, map};
ghost use Rattle.model.specs.Engine.{fresh, reset_of};

use crate::load::load;
use endings::ending::bare_answer;
use model::record::{Controller, Outcome};

// A fresh controller: as it is after Reset.
pub fn fresh(images: [&[u8]; 4]) -> Controller
    ensures { result ≡ fresh (map (λ image. image.now) images.entry) }
{
    Controller {
        buffer: [0; 512],
        drives: [
            load(0, images[0]),
            load(1, images[1]),
            load(2, images[2]),
            load(3, images[3]),
        ],
    }
}

// Reset answers zeros.
// In line first, so that the outcome stands on the stack once and not twice.
#[inline(always)]
pub fn reset(images: [&[u8]; 4]) -> Outcome
    ensures { result ≡ reset_of (map (λ image. image.now) images.entry) }
{
    Outcome {
        controller: fresh(images),
        answer: bare_answer(0),
    }
}
