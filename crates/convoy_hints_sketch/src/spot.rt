/// A place in a text: its line and its column, both from 1. A column counts characters.
#[derive(Clone, Copy)]
pub struct Spot {
    /// Its line.
    pub line: usize,
    /// Its column.
    pub column: usize,
}

/// The place after that many bytes of a text, or at its end.
pub fn spot_at(text: &[u8], offset: usize) -> Spot {
    let mut spot = Spot { line: 1, column: 1 };
    for byte in text.iter().take(offset) {
        if *byte == b'\n' {
            spot.line = spot.line.saturating_add(1);
            spot.column = 1;
        } else if *byte & 0xC0 != 0x80 {
            spot.column = spot.column.saturating_add(1);
        }
    }
    spot
}
