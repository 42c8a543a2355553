// Bytes and decimal numbers, written one after another.
ghost use Rattle.std.specs.Prelude.{◌+◌, ◌≤◌, length};
ghost use Rattle.model.specs.Digits.{digits};
ghost use Rattle.writing.specs.Wrote.{Writes, farthest};
ghost use Rattle.dot.specs.Lines.{most_digits};

use writing::Writer;

// Some bytes.
pub fn put_bytes(text: &mut Writer<'_, u8>, bytes: &[u8])
    requires { text.old.at + length bytes.now ≤ farthest }
    ensures { Writes bytes.now text.old text.new }
{
    for &byte in bytes {
        text.put(byte);
    }
}

// The digits of a number, the most significant first.
pub fn put_digits(text: &mut Writer<'_, u8>, n: u32)
    requires { text.old.at + most_digits ≤ farthest }
    ensures { Writes (digits n) text.old text.new }
{
    if 10 <= n {
        put_digits(text, n / 10);
    }
    text.put(b'0' + (n % 10) as u8);
}
