// Reads frames, one a line of hex digits, from standard input and prints an answer a line. What is said is the library's
// (lines::talk); here are the slices, reading and writing.
#![tactic(auto)]

ghost use Rattle.std.specs.Prelude.{◌≡◌, ℕ, ◌≤◌, ◌<◌, length, take, IfOk, OnOk, OnErr};
ghost use Rattle.std.specs.Io.KnownBytes.{Appends, Consumes, IsAtEnd, Keeps};
ghost use Rattle.pouring.specs.Lent.{lent, SameLent};
ghost use Rattle.lines.specs.Talk.{talked};
ghost use Rattle.lines.specs.Frames.{Talking};
ghost use Rattle.lines.specs.Hearing.{talk_now, text_length};
ghost use Rattle.frames.specs.Onward.{WritesFront, Onward, CutOff, Served, Failed};

use lines::talk::{Session, begin, close, hear};
use lines::{AREA_LENGTH, IMAGE_LENGTH, LINE_LENGTH, TEXT_LENGTH};
use pouring::images::Images;
use std::io;
use std::io::{ErrorKind, Read, Write};

// Where the program stands, and whether it goes on: `Ok` where no read and no write has failed, else how the first one did.
#[derive(Drop)]
pub struct Went {
    pub session: Session,
    pub going: io::Result<()>,
}

// How many characters of the input have come, none at its end. A read that a signal has interrupted is tried again. One that fails
// otherwise is passed on: where the input ends is then unknown.
fn read_some<R: Read>(reader: &mut R, input: &mut [u8]) -> io::Result<usize>
    ensures bound { IfOk result (λ n. n ≤ length input.new) }
    ensures ok { IfOk result (λ n. Consumes (R.remaining reader.old) (R.remaining reader.new) (take n input.new)) }
    ensures end { IfOk result (λ n. n ≡ 0 → 0 < length input.old → IsAtEnd (R.remaining reader.new)) }
    ensures err { OnErr result (Keeps (R.remaining reader.old) (R.remaining reader.new)) }
{
    for _ in 0..u64::MAX {
        match reader.read(input) {
            Ok(n) => return Ok(n),
            Err(e) => {
                if e.kind() != ErrorKind::Interrupted {
                    return Err(e);
                }
            }
        }
    }
    Err(io::Error::from(ErrorKind::Interrupted))
}

// Writes the first n characters of the text. Where that fails, a front of them is written. A write that a signal has interrupted is
// tried again.
fn say<W: Write>(writer: &mut W, text: &[u8], n: usize) -> io::Result<()>
    requires { n ≤ length text.now }
    ensures ok { OnOk result (Appends (W.contents writer.old) (W.contents writer.new) (take n text.now)) }
    ensures err { OnErr result (WritesFront (W.contents writer.old) (W.contents writer.new) (take n text.now)) }
{
    let mut done = 0;
    for _ in 0..u64::MAX {
        if done == n {
            return Ok(());
        }
        match writer.write(&text[done..n]) {
            Ok(0) => return Err(io::Error::from(ErrorKind::WriteZero)),
            Ok(more) => done += more,
            Err(e) => {
                if e.kind() != ErrorKind::Interrupted {
                    return Err(e);
                }
            }
        }
    }
    Err(io::Error::from(ErrorKind::Interrupted))
}

// Takes in what has come of the input, all of it, a line at a time, and writes what is said. A failed write ends the program.
fn feed<W: Write>(
    writer: &mut W,
    first: Session,
    input: &[u8],
    bytes: &mut [u8],
    area: &mut [u8],
    images: &mut Images,
    text: &mut [u8],
) -> Went
    requires talking { Talking (talk_now first bytes.old area.old (lent images.old)) }
    requires text_length_in_bounds { text_length ≤ length text.old }
    ensures talking_after { Talking (talk_now result.session bytes.new area.new (lent images.new)) }
    ensures heard { OnOk result.going (talk_now result.session bytes.new area.new (lent images.new)
        ≡ (talked (talk_now first bytes.old area.old (lent images.old)) input.now).talk) }
    ensures said { OnOk result.going (Appends (W.contents writer.old) (W.contents writer.new)
        (talked (talk_now first bytes.old area.old (lent images.old)) input.now).text) }
    ensures cut { OnErr result.going (WritesFront (W.contents writer.old) (W.contents writer.new)
        (talked (talk_now first bytes.old area.old (lent images.old)) input.now).text) }
    ensures same { SameLent images.old images.new }
{
    let mut here = first;
    let mut rest = input;
    while !rest.is_empty() {
        let got = hear(here, rest, bytes, area, images, text);
        here = got.session;
        if let Err(e) = say(writer, text, got.length) {
            return Went {
                session: here,
                going: Err(e),
            };
        }
        rest = &rest[got.taken..];
    }
    Went {
        session: here,
        going: Ok(()),
    }
}

// Answers line after line, and goes on to the last line only where the input has ended: after a read that failed the line under way
// may be half a command, and half a command is not carried out. A proved loop has to end, and nothing says that the input does: so
// it counts its turns, up to a number that no session uses up.
fn converse<R: Read, W: Write>(
    reader: &mut R,
    writer: &mut W,
    first: Session,
    input: &mut [u8],
    bytes: &mut [u8],
    area: &mut [u8],
    images: &mut Images,
    text: &mut [u8],
) -> Went
    requires talking { Talking (talk_now first bytes.old area.old (lent images.old)) }
    requires text_length_in_bounds { text_length ≤ length text.old }
    ensures talking_after { Talking (talk_now result.session bytes.new area.new (lent images.new)) }
    ensures onward { OnOk result.going (Onward (talk_now first bytes.old area.old (lent images.old))
        (talk_now result.session bytes.new area.new (lent images.new))
        (R.remaining reader.old) (R.remaining reader.new) (W.contents writer.old) (W.contents writer.new)) }
    ensures end { OnOk result.going (0 < length input.old → IsAtEnd (R.remaining reader.new)) }
    ensures cut { OnErr result.going (CutOff (talk_now first bytes.old area.old (lent images.old))
        (R.remaining reader.old) (R.remaining reader.new) (W.contents writer.old) (W.contents writer.new)) }
    ensures same { SameLent images.old images.new }
{
    let mut session = first;
    for _ in 0..u64::MAX {
        let n = match read_some(reader, input) {
            Ok(n) => n,
            Err(e) => {
                return Went {
                    session,
                    going: Err(e),
                };
            }
        };
        if n == 0 {
            return Went {
                session,
                going: Ok(()),
            };
        }
        let went = feed(writer, session, &input[..n], bytes, area, images, text);
        session = went.session;
        if let Err(e) = went.going {
            return Went {
                session,
                going: Err(e),
            };
        }
    }
    Went {
        session,
        going: Err(io::Error::other("the input has no end")),
    }
}

// The whole program, for any reader and any writer: every line that the reader gives is answered, the last one too where it has no
// line feed. After a read that failed, the line under way is not carried out.
fn run<R: Read, W: Write>(reader: &mut R, writer: &mut W) -> io::Result<()>
    ensures served { OnOk result (Served (R.remaining reader.old) (R.remaining reader.new)
        (W.contents writer.old) (W.contents writer.new)) }
    ensures failed { OnErr result (Failed (R.remaining reader.old) (R.remaining reader.new)
        (W.contents writer.old) (W.contents writer.new)) }
{
    let mut image0 = [0u8; IMAGE_LENGTH];
    let mut image1 = [0u8; IMAGE_LENGTH];
    let mut image2 = [0u8; 0];
    let mut image3 = [0u8; 0];
    let mut area = [0u8; AREA_LENGTH];
    let mut bytes = [0u8; LINE_LENGTH];
    let mut text = [0u8; TEXT_LENGTH];
    let mut input = [0u8; 4096];
    let mut images = Images {
        image0: &mut image0,
        image1: &mut image1,
        image2: &mut image2,
        image3: &mut image3,
    };
    let first = begin(&bytes, &area, images.shared());
    let last = converse(
        reader,
        writer,
        first,
        &mut input,
        &mut bytes,
        &mut area,
        &mut images,
        &mut text,
    );
    let session = last.session;
    // By a match: behind `last.going?` the proof does not find that it was `Ok` (tried).
    match last.going {
        Ok(()) => {}
        Err(e) => return Err(e),
    }
    let heard = close(session, &bytes, &mut area, &mut images, &mut text);
    let n = heard.length;
    say(writer, &text, n)
}

fn main(rt: HostRuntime) -> io::Result<()> {
    run(&mut rt.stdin(), &mut rt.stdout())
}
