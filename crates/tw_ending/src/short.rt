// Lines that are made without memory.
ghost use Rattle.std.specs.Prelude.{◌≡◌, ◌+◌, ◌++◌, ◌≤◌, length};
ghost use Rattle.std.specs.Fmt.{decimal};
ghost use Rattle.tw_ending.specs.Lines.{numbered};

use arrayvec::ArrayString;
use itoa::Buffer;

/// A short text that takes no memory.
pub type Short = ArrayString<128>;

/// A text as a short one.
pub fn whole(line: &str) -> Short
    requires { length line.now ≤ 80 }
    ensures { result.bytes ≡ line.now }
{
    let mut text = Short::new();
    text.push_str(line);
    text
}

/// A number between two texts.
pub fn numbered(front: &str, number: u64, back: &str) -> Short
    requires { length front.now + length back.now ≤ 80 }
    ensures { result.bytes ≡ numbered front.now number back.now }
{
    let mut digits = Buffer::new();
    let mut text = Short::new();
    text.push_str(front);
    text.push_str(digits.format(number));
    text.push_str(back);
    text
}

/// Puts a number and a text after it to the end of another.
pub fn push_number(text: &mut Short, number: u64, back: &str)
    requires { length text.old.bytes + length back.now + 20 ≤ 128 }
    ensures text { text.new.bytes ≡ text.old.bytes ++ decimal number ++ back.now }
    ensures short { length text.new.bytes ≤ length text.old.bytes + 20 + length back.now }
{
    let mut digits = Buffer::new();
    text.push_str(digits.format(number));
    text.push_str(back);
}
