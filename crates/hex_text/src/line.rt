// A line of hex digits, read one character at a time: its bytes go one behind the other into a slice of any length.
ghost use Rattle.std.specs.Prelude.{◌≡◌, ◌<◌, IfSome};
ghost use Rattle.hex_text.specs.Line.{started, spoilt_line, line_now, taken_in, accepted, accepted_all, is_begun};

use crate::digit::value_of;

// What is read of a line so far.
#[derive(Clone, Copy)]
pub struct Line {
    // whole bytes
    pub count: usize,
    // the value of a first digit that waits for its second
    pub high: Option<u8>,
    // a character that is no digit, or a byte for which there is no room
    pub bad: bool,
}

// Nothing is read yet.
pub fn start() -> Line
    ensures { result ≡ started }
{
    Line {
        count: 0,
        high: None,
        bad: false,
    }
}

#[tactic(auto, unfolding(crate::specs::Line::spoilt_line))]
fn spoilt(line: Line) -> Line
    ensures { result ≡ spoilt_line line }
{
    Line { bad: true, ..line }
}

// A character whose value is known.
#[tactic(auto, using(crate::proofs::Characters::takes))]
fn take_value(line: Line, bytes: &mut [u8], value: u8) -> Line
    requires { IfSome line.high (λ high. high < 16) × (value < 16) }
    ensures { line_now result bytes.new ≡ taken_in (line_now line bytes.old) value }
{
    let at = line.count;
    match line.high {
        None => Line {
            count: at,
            high: Some(value),
            bad: false,
        },
        Some(high) => {
            if bytes.len() <= at {
                return spoilt(line);
            }
            bytes[at] = high * 16 + value;
            Line {
                count: at + 1,
                high: None,
                bad: false,
            }
        }
    }
}

// One more character of the line.
#[tactic(auto, using(crate::proofs::Characters::accepts))]
pub fn accept(line: Line, bytes: &mut [u8], c: u8) -> Line
    requires { IfSome line.high (λ high. high < 16) }
    ensures { (line_now result bytes.new ≡ accepted (line_now line bytes.old) c) × IfSome result.high (λ high. high < 16) }
{
    if line.bad {
        return line;
    }
    match value_of(c) {
        None => spoilt(line),
        Some(value) => take_value(line, bytes, value),
    }
}

// One character after the other.
#[tactic(auto, using(crate::proofs::Rooms::taken_all))]
pub fn accept_all(first: Line, bytes: &mut [u8], text: &[u8]) -> Line
    requires { IfSome first.high (λ high. high < 16) }
    ensures { (line_now result bytes.new ≡ accepted_all (line_now first bytes.old) text.now) × IfSome result.high (λ high. high < 16) }
{
    let mut line = first;
    for c in text {
        line = accept(line, bytes, *c);
    }
    line
}

// Whether any character of a line has been read.
#[tactic(auto, unfolding(crate::specs::Line::is_begun))]
pub fn is_begun(line: Line) -> bool
    ensures { result ≡ is_begun line }
{
    line.bad || line.high.is_some() || 0 < line.count
}
