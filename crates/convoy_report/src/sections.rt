//! The sections of a page, one after the other.

ghost use Rattle.std.specs.Prelude.{◌≡◌, ◌++◌, IfOk, OnOk, option_map, string_bytes};
ghost use Rattle.std.specs.List.{flat_map};
ghost use Rattle.convoy_report.specs.Pages.{digest_text, end_text, explained_text, found_text, run_text, shown_text, start_text, system_text, table_section, verdict_text};

use super::notes::{
    DIGEST_END, DIGEST_START, FOUND_NOTE, MESSAGES_START, PAGE_END, PAGE_START, RUN_NOTE, STYLE,
    SYSTEM_START, WAYS_START,
};
use super::pieces::{escaped, push_pieces, title};
use super::report::{Run, Shown};
use convoy_commands::Done;
use convoy_scenario::Scenario;
use std::alloc::{AllocError, Global};

/// Appends the start of a page with that title.
#[tactic(auto, unfolding(crate::specs::Pages::start_text))]
pub(crate) fn push_start(title: &[u8], out: &mut Vec<u8>) -> Result<(), AllocError>
    ensures { OnOk result (out.new.items ≡ out.old.items ++ start_text title.now) }
{
    push_pieces(
        &[
            PAGE_START.as_bytes(),
            title,
            b"</title>\n<style>\n",
            STYLE.as_bytes(),
            b"</style>\n</head>\n<body>\n<main>\n<h1>",
            title,
            b"</h1>\n",
        ],
        out,
    )
}

/// The verdict in one sentence, by whether a message has a deadline and by how the survey ended.
#[tactic(auto, unfolding(crate::specs::Pages::verdict_text))]
pub(crate) fn verdict(judged: bool, done: Done) -> &'static str
    ensures { result.now ≡ verdict_text judged done }
{
    match (judged, done) {
        (true, Done::Fine) => {
            "<p class=\"verdict kept\">Each deadline in the table below is kept.</p>\n"
        }
        (false, Done::Fine) => {
            "<p class=\"verdict\">There is no deadline. Each worst case below is exact.</p>\n"
        }
        (_, Done::Beyond) => "<p class=\"verdict missed\">A deadline is missed.</p>\n",
        (true, Done::Open) => {
            "<p class=\"verdict unknown\">It is not known whether each deadline is kept: a search did not end.</p>\n"
        }
        (false, Done::Open) => {
            "<p class=\"verdict unknown\">There is no deadline, and a search did not end.</p>\n"
        }
        (
            _,
            Done::Faulty
            | Done::Refused(_)
            | Done::PlanRefused
            | Done::WorkflowRefused
            | Done::FinishRefused
            | Done::Differs(_)
            | Done::Departs
            | Done::NotChecked,
        ) => { "<p class=\"verdict unknown\">Memory ran out for a row of the table below.</p>\n" }
    }
}

/// Appends a section with a table, below its heading and a note.
#[tactic(auto, unfolding(crate::specs::Pages::table_section))]
pub(crate) fn push_table(
    heading: &str,
    note: &str,
    table: &[u8],
    out: &mut Vec<u8>,
) -> Result<(), AllocError>
    ensures { OnOk result (out.new.items
        ≡ out.old.items ++ table_section heading.now note.now table.now) }
{
    push_pieces(
        &[
            b"<section>\n<h2>",
            heading.as_bytes(),
            b"</h2>\n<p>",
            note.as_bytes(),
            b"</p>\n<div class=\"wide\">\n",
            table,
            b"</div>\n</section>\n",
        ],
        out,
    )
}

/// Appends the sections of runs.
pub(crate) fn push_runs(
    alloc: Global,
    scenario: &Scenario,
    runs: &[Run],
    out: &mut Vec<u8>,
) -> Result<(), AllocError>
    ensures { OnOk result (out.new.items
        ≡ out.old.items ++ flat_map (run_text scenario.now) runs.now) }
{
    for run in runs {
        push_run(alloc, scenario, run, out)?;
    }
    Ok(())
}

/// Appends the section of a run.
#[tactic(auto, unfolding(crate::specs::Pages::run_text))]
fn push_run(
    alloc: Global,
    scenario: &Scenario,
    run: &Run,
    out: &mut Vec<u8>,
) -> Result<(), AllocError>
    ensures { OnOk result (out.new.items ≡ out.old.items ++ run_text scenario.now run.now) }
{
    let title = title(alloc, scenario, run.message, run.group)?;
    let shown = shown_text(alloc, &run.shown)?;
    push_pieces(
        &[
            b"<section>\n<h2>Worst case of ",
            &title,
            b"</h2>\n",
            &shown,
            b"</section>\n",
        ],
        out,
    )
}

/// What is shown of a run.
fn shown_text(alloc: Global, shown: &Shown) -> Result<Vec<u8>, AllocError>
    ensures { IfOk result (λ text. text.items ≡ shown_text shown.now) }
{
    match shown {
        Shown::Explained { explanation, image } => explained_text(alloc, explanation, image),
        Shown::Found(found) => found_text(alloc, found),
    }
}

/// What is shown of a run that is explained: the explanation as text, and the image as it is.
#[tactic(auto, unfolding(crate::specs::Pages::explained_text))]
fn explained_text(alloc: Global, explanation: &[u8], image: &[u8]) -> Result<Vec<u8>, AllocError>
    ensures { IfOk result (λ text. text.items ≡ explained_text explanation.now image.now) }
{
    let explanation = escaped(alloc, explanation)?;
    let mut text = Vec::new(alloc);
    push_pieces(
        &[
            b"<p>",
            RUN_NOTE.as_bytes(),
            b"</p>\n<div class=\"wide\">\n<pre>",
            &explanation,
            b"</pre>\n</div>\n<div class=\"wide\">\n",
            image,
            b"</div>\n",
        ],
        &mut text,
    )?;
    Ok(text)
}

/// What is shown of a run of which the search did not end: what it found, as text.
#[tactic(auto, unfolding(crate::specs::Pages::found_text))]
fn found_text(alloc: Global, found: &[u8]) -> Result<Vec<u8>, AllocError>
    ensures { IfOk result (λ text. text.items ≡ found_text found.now) }
{
    let found = escaped(alloc, found)?;
    let mut text = Vec::new(alloc);
    push_pieces(
        &[
            b"<p>",
            FOUND_NOTE.as_bytes(),
            b"</p>\n<div class=\"wide\">\n<pre>",
            &found,
            b"</pre>\n</div>\n",
        ],
        &mut text,
    )?;
    Ok(text)
}

/// Appends the section of the system: a map of it, its messages and its ways.
#[tactic(auto, unfolding(crate::specs::Pages::system_text))]
pub(crate) fn push_system(
    map: &[u8],
    messages: &[u8],
    ways: &[u8],
    out: &mut Vec<u8>,
) -> Result<(), AllocError>
    ensures { OnOk result (out.new.items ≡ out.old.items ++ system_text map.now messages.now ways.now) }
{
    push_pieces(
        &[
            SYSTEM_START.as_bytes(),
            map,
            MESSAGES_START.as_bytes(),
            messages,
            WAYS_START.as_bytes(),
            ways,
            b"</div>\n</section>\n",
        ],
        out,
    )
}

/// Appends the end of a page: how to check it.
#[tactic(auto, unfolding(crate::specs::Pages::end_text))]
pub(crate) fn push_end(
    alloc: Global,
    digest: &Option<String>,
    out: &mut Vec<u8>,
) -> Result<(), AllocError>
    ensures { OnOk result (out.new.items
        ≡ out.old.items ++ end_text (option_map string_bytes digest.now)) }
{
    let digest = digest_text(alloc, digest)?;
    push_pieces(
        &[
            b"<section>\n<h2>How to check this page</h2>\n",
            &digest,
            PAGE_END.as_bytes(),
            b"\n",
        ],
        out,
    )
}

/// What tells the digest, where there is one.
#[tactic(auto, unfolding(crate::specs::Pages::digest_text))]
fn digest_text(alloc: Global, digest: &Option<String>) -> Result<Vec<u8>, AllocError>
    ensures { IfOk result (λ text. text.items ≡ digest_text (option_map string_bytes digest.now)) }
{
    let mut text = Vec::new(alloc);
    match digest {
        Some(digest) => push_pieces(
            &[
                DIGEST_START.as_bytes(),
                digest.as_bytes(),
                DIGEST_END.as_bytes(),
                b"\n",
            ],
            &mut text,
        )?,
        None => push_pieces(&[b"\n"], &mut text)?,
    }
    Ok(text)
}
