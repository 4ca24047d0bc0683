// Lines of text: words, decimal numbers and bytes in hex, put one behind the other into a line by value, and written out. A line has room
// for 640 bytes and what is past them is cut: by promise, and not by the programs. What no contract can say is what is written.
#![tactic(auto)]

ghost use Rattle.std.specs.Prelude.{◌≡◌, [], ◌++◌, ◌+◌, ◌≤◌, ◌<◌, length, take, IfOk};
ghost use Rattle.model.specs.Text.{upper, lower, hex, decimal};
ghost use Rattle.model.specs.Text.{digit as digitOf};
ghost use Rattle.lines.specs.View.{text_of, appended, gap, flag_of};

use std::io::Result;

// What is added to a digit from ten on.
const UPPER: u8 = b'A' - 10;

const LOWER: u8 = b'a' - 10;

// The buffer is fixed, since there is no heap.
#[derive(Clone, Copy)]
pub struct Line {
    pub len: usize,
    pub bytes: [u8; 640],
}

// As much of a word as has room, behind the first `at` bytes; how many bytes there are then.
fn put(line: &mut [u8], at: usize, word: &[u8]) -> usize
    ensures { take result line.new ≡ take (length line.old) (take at line.old ++ word.now) }
{
    let from = at.min(line.len());
    let n = (line.len() - from).min(word.len());
    line[from..from + n].copy_from_slice(&word[..n]);
    from + n
}

// A digit below 16.
fn digit(d: u8, high: u8) -> u8
    requires { (d < 16) × (high ≤ lower) }
    ensures { result ≡ digitOf high d }
{
    if d < 10 { b'0' + d } else { high + d }
}

impl Line {
    pub fn new() -> Line
        ensures { text_of result ≡ [] }
    {
        Line {
            len: 0,
            bytes: [0; 640],
        }
    }

    // The text as it is.
    pub fn text(self, text: &[u8]) -> Line
        ensures { text_of result ≡ appended (text_of self) text.now }
    {
        let mut bytes = self.bytes;
        let len = put(&mut bytes, self.len, text);
        Line { len, bytes }
    }

    // A blank, but not at the start of the line.
    fn gap(self) -> Line
        ensures { text_of result ≡ appended (text_of self) (gap (text_of self)) }
    {
        if self.len == 0 {
            return self;
        }
        self.text(b" ")
    }

    // The text as a word of its own.
    pub fn word(self, text: &[u8]) -> Line
        ensures { text_of result ≡ appended (text_of self) (gap (text_of self) ++ text.now) }
    {
        self.gap().text(text)
    }

    // A number, decimal, as a word of its own.
    pub fn number(self, n: u64) -> Line
        ensures { text_of result ≡ appended (text_of self) (gap (text_of self) ++ decimal n) }
    {
        let mut digits = [0u8; 20];
        let k = io::decimal(n, &mut digits);
        self.word(&digits[..k])
    }

    // 1 or 0, as a word of its own.
    pub fn flag(self, b: bool) -> Line
        ensures { text_of result ≡ appended (text_of self) (gap (text_of self) ++ flag_of b) }
    {
        self.word(if b { b"1" } else { b"0" })
    }

    // Bytes as one word, two digits each.
    fn digits(self, bytes: &[u8], high: u8) -> Line
        requires { high ≤ lower }
        ensures { text_of result ≡ appended (text_of self) (gap (text_of self) ++ hex high bytes.now) }
    {
        let mut line = self.gap();
        for &b in bytes {
            line = line.text(&[digit(b / 16, high), digit(b % 16, high)]);
        }
        line
    }

    // Upper-case hex.
    pub fn hex(self, bytes: &[u8]) -> Line
        ensures { text_of result ≡ appended (text_of self) (gap (text_of self) ++ hex upper bytes.now) }
    {
        self.digits(bytes, UPPER)
    }

    // Lower-case hex.
    pub fn lower_hex(self, bytes: &[u8]) -> Line
        ensures { text_of result ≡ appended (text_of self) (gap (text_of self) ++ hex lower bytes.now) }
    {
        self.digits(bytes, LOWER)
    }

    // Writes the line and a line end to standard output; how many bytes it hands over, which is all that a contract can say of it. The only
    // error is that of a write; then a part of the line may have been written.
    pub fn print<R: Print>(self, rt: &R) -> Result<usize>
        ensures { IfOk result (λ k. k ≡ length (text_of self) + 1) }
    {
        let end = self.len.min(self.bytes.len());
        rt.write_all(&self.bytes[..end])?;
        rt.write_all(b"\n")?;
        Ok(end + 1)
    }
}
