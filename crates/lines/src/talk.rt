// The program's input, taken a line at a time: where the program stands, and what it says.
ghost use Rattle.std.specs.Prelude.{◌≡◌, ◌+◌, ◌*◌, ◌≤◌, length, take, map};
ghost use Rattle.pouring.specs.Lent.{lent, SameLent};
ghost use Rattle.lines.specs.Talk.{answered, talked, closed};
ghost use Rattle.lines.specs.Frames.{first_talk, Talking};
ghost use Rattle.lines.specs.Hearing.{talk_now, Speaks, AtFirst, text_length, feed_at, line_end};

use crate::answer::{LINE_FEED, answer_line};
use drives::reset::fresh;
use hex_text::line::{Line, accept_all, is_begun, start};
use model::record::Controller;
use pouring::images::Images;

// The controller, and what is read of the line under way.
#[derive(Clone, Copy)]
pub struct Session {
    pub controller: Controller,
    pub line: Line,
}

// Where the program stands, how many characters of the input it has taken, and the length of the text that it says.
#[derive(Clone, Copy)]
pub struct Heard {
    pub session: Session,
    pub taken: usize,
    pub length: usize,
}

// Before the first character, with zeros in every slice that the program goes on to lend.
pub fn begin(bytes: &[u8], area: &[u8], images: [&[u8]; 4]) -> Session
    requires { AtFirst bytes.now area.now (map (λ image. image.now) images) }
    ensures { talk_now result bytes.now area.now (map (λ image. image.now) images.entry) ≡ first_talk }
{
    Session {
        controller: fresh(images),
        line: start(),
    }
}

// A line that has ended is answered, and the next one begins.
fn answer(
    session: Session,
    taken: usize,
    bytes: &[u8],
    area: &mut [u8],
    images: &mut Images,
    text: &mut [u8],
) -> Heard
    requires { (7 + 2 * length area.old ≤ length text.old) × (session.line.count ≤ length bytes.now) }
    ensures taken_value { result.taken ≡ taken }
    ensures speaks { Speaks (answered (talk_now session bytes.now area.old (lent images.old)))
        result text.old text.new bytes.now area.new (lent images.new) }
    ensures same { SameLent images.old images.new }
{
    let c = session.controller;
    let line = session.line;
    let told = answer_line(c, line, bytes, area, images, text);
    let controller = told.controller;
    Heard {
        session: Session {
            controller,
            line: start(),
        },
        taken,
        length: told.length,
    }
}

// The place of the first line feed; the end where there is none.
fn first_feed(input: &[u8]) -> usize
    ensures { result ≡ feed_at input.now }
{
    input
        .iter()
        .position(|&c| c == LINE_FEED)
        .unwrap_or(input.len())
}

// Takes the characters of the input up to and with the first line feed, or all, and answers the line that they end.
pub fn hear(
    session: Session,
    input: &[u8],
    bytes: &mut [u8],
    area: &mut [u8],
    images: &mut Images,
    text: &mut [u8],
) -> Heard
    requires talking { Talking (talk_now session bytes.old area.old (lent images.old)) }
    requires text_length_in_bounds { text_length ≤ length text.old }
    ensures taken_value { result.taken ≡ line_end input.now }
    ensures speaks { Speaks (talked (talk_now session bytes.old area.old (lent images.old)) (take result.taken input.now))
        result text.old text.new bytes.new area.new (lent images.new) }
    ensures same { SameLent images.old images.new }
{
    let c = session.controller;
    let first = session.line;
    let end = first_feed(input);
    let line = accept_all(first, bytes, &input[0..end]);
    let next = Session {
        controller: c,
        line,
    };
    if end == input.len() {
        return Heard {
            session: next,
            taken: end,
            length: 0,
        };
    }
    answer(next, end + 1, bytes, area, images, text)
}

// The input has ended: a last line without a line feed counts.
pub fn close(
    session: Session,
    bytes: &[u8],
    area: &mut [u8],
    images: &mut Images,
    text: &mut [u8],
) -> Heard
    requires talking { Talking (talk_now session bytes.now area.old (lent images.old)) }
    requires text_length_in_bounds { text_length ≤ length text.old }
    ensures speaks { Speaks (closed (talk_now session bytes.now area.old (lent images.old)))
        result text.old text.new bytes.now area.new (lent images.new) }
    ensures same { SameLent images.old images.new }
{
    let line = session.line;
    if is_begun(line) {
        return answer(session, 0, bytes, area, images, text);
    }
    Heard {
        session,
        taken: 0,
        length: 0,
    }
}
