/// How wide a text is at most, in the wider ones of the usual fonts.
pub fn width_of(words: &str) -> u32 {
    let mut width: u32 = 0;
    for letter in words.as_bytes() {
        width = width.saturating_add(letter_width(*letter));
    }
    width
}

/// How wide a letter is at most.
fn letter_width(letter: u8) -> u32 {
    match letter {
        b'm' => 108,
        b'w' => 90,
        b'f' | b'i' | b'j' | b'l' | b'r' | b't' | b'-' | b'.' | b',' | b' ' => 46,
        _ => 70,
    }
}
