ghost use Rattle.std.specs.Prelude.{◌≡◌, ◌++◌, decimal, OnOk, OnErr};
ghost use Rattle.convoy_lines.specs.Texts.{ended, spaced, number_line};

use itoa::Buffer;
use std::alloc::AllocError;

/// Appends a space and a word. Where memory runs out, a front of the two may have been appended.
pub fn push_further_word(text: &mut Vec<u8>, word: &str) -> Result<(), AllocError>
    ensures { OnOk result (text.new.items ≡ text.old.items ++ spaced word.now) }
{
    text.push(b' ')?;
    text.extend_from_slice(word.as_bytes())
}

/// Appends a number in decimal digits. Where memory runs out, `text` stays as it was.
pub fn push_number(text: &mut Vec<u8>, number: u32) -> Result<(), AllocError>
    ensures ok { OnOk result (text.new.items ≡ text.old.items ++ decimal number) }
    ensures err { OnErr result (text.new.items ≡ text.old.items) }
{
    let mut buffer = Buffer::new();
    text.extend_from_slice(buffer.format(number).as_bytes())
}

/// Appends the line of a label and a number, and the byte 10 that ends it. Where memory runs out, a
/// front of the line may have been appended.
pub fn push_number_line(text: &mut Vec<u8>, label: &str, number: u32) -> Result<(), AllocError>
    ensures { OnOk result (text.new.items ≡ text.old.items ++ ended (number_line label.now number)) }
{
    text.extend_from_slice(label.as_bytes())?;
    text.push(b' ')?;
    push_number(text, number)?;
    Ok(text.push(b'\n')?)
}
