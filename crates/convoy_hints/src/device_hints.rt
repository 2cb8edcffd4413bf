use convoy_certificate::{Form, form_of};
use convoy_hints_sketch::Quoted;
use std::alloc::{AllocError, Global};
use std::io::Error;

/// Why standard input could not be read, in one line `hint: ..`.
pub fn hint_for_reading(alloc: Global, error: &Error) -> Result<String, AllocError> {
    format!(in alloc; "hint: standard input could not be read: {error}\n")
}

/// Why a file could not be opened or read, in one line `convoy: FILE: CAUSE`. It is no hint, but what went
/// wrong.
pub fn line_for_file(alloc: Global, file: &str, error: &Error) -> Result<String, AllocError> {
    let told = format!(in alloc; "{error}")?;
    let cause = cause_in(told.as_str());
    if is_shown_whole(file) {
        return format!(in alloc; "convoy: {file}: {cause}\n");
    }
    let name = Quoted(file);
    format!(in alloc; "convoy: {name}: {cause}\n")
}

/// What the system says of an error, without its number. An `Error` has a kind, a number and one text with the
/// number in it, and the words of its kind are others than the system's: so they are cut out of that text.
fn cause_in(told: &str) -> &str {
    match told.split_once(" (os error ") {
        Some((cause, _)) => cause,
        None => told,
    }
}

/// Whether the name of a file can stand in a line as it is.
fn is_shown_whole(file: &str) -> bool {
    !file.is_empty() && !file.chars().any(|character| character.is_control())
}

/// Why standard output could not be written, in one line `hint: ..`.
pub fn hint_for_writing(alloc: Global, error: &Error) -> Result<String, AllocError> {
    format!(in alloc; "hint: standard output could not be written: {error}\n")
}

/// What to do with a text that begins so and has more bytes than the `most` that its command reads, in
/// one line `hint: ..`.
pub fn hint_for_length(alloc: Global, text: &[u8], most: usize) -> Result<String, AllocError> {
    if let Form::Certificate(Some(_)) = form_of(text) {
        return format!(in alloc;
            "hint: the input has more than {most} bytes and begins as a certificate: 'convoy check' reads certificates\n"
        );
    }
    if has_divider(text) {
        return format!(in alloc;
            "hint: the input has more than {most} bytes and lines '---', as between scenarios: 'convoy batch' reads several\n"
        );
    }
    format!(in alloc;
        "hint: the input has more than {most} bytes, which is the most that is read\n"
    )
}

/// Whether a line of the text is one between two scenarios.
fn has_divider(text: &[u8]) -> bool {
    text.split(|byte| *byte == b'\n').any(|line| line == b"---".as_slice()
        || line.starts_with(b"--- ".as_slice()))
}

/// What to do with too many jobs, in one line `hint: ..`.
pub fn hint_for_jobs(alloc: Global, most: u32) -> Result<String, AllocError> {
    format!(in alloc;
        "hint: a batch has at most {most} jobs: cut the input in two at a line '---'\n"
    )
}
