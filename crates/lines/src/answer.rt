// One line of the program frames: a frame, Reset or bad hex, and the line of hex digits that answers it.
ghost use Rattle.std.specs.Prelude.{◌≡◌, ◌+◌, ◌*◌, ◌≤◌, min, length};
ghost use Rattle.base.specs.Part.{splice};
ghost use Rattle.model.specs.Engine.{reset_of};
ghost use Rattle.pouring.specs.Lent.{lent, SameLent};
ghost use Rattle.hex_text.specs.Line.{line_now, whole_of};
ghost use Rattle.lines.specs.Said.{answer_text, bad_text, reset_text, Says, frame_said, line_said};

use checks::block::block_length;
use drives::reset::reset;
use engine::run::execute;
use hex_text::frame::is_reset;
use hex_text::line::Line;
use hex_text::text::encode;
use model::record::{Answer, Controller};
use pouring::images::Images;

pub const LINE_FEED: u8 = 0x0A;

// The controller after a line, and the length of the text that answers it.
#[derive(Clone, Copy)]
pub struct Told {
    pub controller: Controller,
    pub length: usize,
}

// Number, status, message and the data handed over, as digits at the front of the text, then a line feed.
fn tell(text: &mut [u8], answer: Answer, handed: &[u8]) -> usize
    requires { 7 + 2 * length handed.now ≤ length text.old }
    ensures { (result ≡ 7 + 2 * length handed.now)
        × (text.new ≡ splice 0 (answer_text answer handed.now) text.old) }
{
    let head = [answer.number, answer.status, answer.message];
    encode(text, 0, &head);
    encode(text, 6, handed);
    let end = 6 + 2 * handed.len();
    text[end] = LINE_FEED;
    end + 1
}

// A frame: the block, as long as its first byte says, and the rest data.
fn answer_frame(
    c: Controller,
    frame: &[u8],
    area: &mut [u8],
    images: &mut Images,
    text: &mut [u8],
) -> Told
    requires { 7 + 2 * length area.old ≤ length text.old }
    ensures says { Says (frame_said c frame.now area.old (lent images.old))
        result text.old text.new area.new (lent images.new) }
    ensures same { SameLent images.old images.new }
{
    let end = frame.len();
    let n = block_length(frame).min(end);
    let outcome = execute(c, &frame[0..n], &frame[n..end], area, images);
    let answer = outcome.answer;
    let controller = outcome.controller;
    let handed = (answer.bytes as usize).min(area.len());
    Told {
        controller,
        length: tell(text, answer, &area[0..handed]),
    }
}

// Reset: zeros.
fn answer_reset(images: &Images, text: &mut [u8]) -> Told
    requires { 7 ≤ length text.old }
    ensures { (result.controller
        ≡ (reset_of (lent images.now)).controller)
        × (result.length ≡ 7) × (text.new ≡ splice 0 reset_text text.old) }
{
    let outcome = reset(images.shared());
    let answer = outcome.answer;
    let controller = outcome.controller;
    Told {
        controller,
        length: tell(text, answer, &[]),
    }
}

// Bad hex, or too many bytes: FF, and nothing changes.
fn answer_bad(c: Controller, text: &mut [u8]) -> Told
    requires { 3 ≤ length text.old }
    ensures { (result.controller ≡ c) × (result.length ≡ 3) × (text.new ≡ splice 0 bad_text text.old) }
{
    text[0] = 0x46;
    text[1] = 0x46;
    text[2] = LINE_FEED;
    Told {
        controller: c,
        length: 3,
    }
}

// A line that has been read to its end.
pub fn answer_line(
    c: Controller,
    line: Line,
    bytes: &[u8],
    area: &mut [u8],
    images: &mut Images,
    text: &mut [u8],
) -> Told
    requires { (7 + 2 * length area.old ≤ length text.old) × (line.count ≤ length bytes.now) }
    ensures says { Says (line_said c (whole_of (line_now line bytes.now)) area.old (lent images.old))
        result text.old text.new area.new (lent images.new) }
    ensures same { SameLent images.old images.new }
{
    let count = line.count;
    if line.bad {
        return answer_bad(c, text);
    }
    if line.high.is_some() {
        return answer_bad(c, text);
    }
    if is_reset(&bytes[0..count]) {
        return answer_reset(images, text);
    }
    answer_frame(c, &bytes[0..count], area, images, text)
}
