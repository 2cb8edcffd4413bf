/// The line, from 1, of a table of an array by its place among `count`: that of its header. None where
/// the text has not one such header for each table, as where tables are written inline.
pub fn header_line(text: &str, header: &str, place: usize, count: usize) -> Option<usize> {
    let mut headers: usize = 0;
    let mut number = None;
    for (before, line) in text.lines().enumerate() {
        if is_header(line, header) {
            if headers == place {
                number = Some(before.saturating_add(1));
            }
            headers = headers.saturating_add(1);
        }
    }
    if headers == count { number } else { None }
}

/// Whether a line is that header, with a comment or without.
fn is_header(line: &str, header: &str) -> bool {
    match line.trim().strip_prefix(header) {
        Some(rest) => rest.is_empty() || rest.trim_start().starts_with('#'),
        None => false,
    }
}
