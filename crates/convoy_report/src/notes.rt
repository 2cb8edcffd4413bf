//! What a page says in any case: how it starts and ends, how it looks, and what its tables are.

/// The start of a page, up to its title.
pub const PAGE_START: &str = "\
<!DOCTYPE html>
<html lang=\"en\">
<head>
<meta charset=\"utf-8\">
<meta name=\"viewport\" content=\"width=device-width, initial-scale=1\">
<title>Convoy: ";

/// How the page looks, in a style sheet.
pub const STYLE: &str = "\
:root{color-scheme:light dark}
*{box-sizing:border-box}
body{margin:0;background:#ffffff;color:#1b1f24;font:16px/1.5 system-ui,sans-serif}
main{max-width:88rem;margin:0 auto;padding:1rem}
h1,h2,h3,p,code{overflow-wrap:anywhere}
h1{font-size:1.7rem;line-height:1.25;margin:.5rem 0 0}
h2{font-size:1.25rem;line-height:1.3;margin:0 0 .5rem}
h3{font-size:1rem;margin:1rem 0 .25rem}
p{margin:.25rem 0 .75rem;max-width:48rem}
section{margin:2rem 0 0;padding:1rem 0 0;border-top:1px solid #c9ced6}
.verdict{margin:1rem 0;padding:.75rem 1rem;border-left:.5rem solid #57606a;background:#f1f3f5;font-size:1.1rem}
.kept{border-color:#1a7f37;background:#e6f4ea}
.missed{border-color:#c62828;background:#fdecea}
.unknown{border-color:#9a6700;background:#fff4d6}
.wide{overflow-x:auto;max-width:100%;margin:0 0 .75rem}
table{border-collapse:collapse;font-size:.9rem}
th,td{padding:.3rem .7rem;border-bottom:1px solid #d8dde3;text-align:left;white-space:nowrap}
th{border-bottom-width:2px}
.number{text-align:right;font-variant-numeric:tabular-nums}
.nothing{color:#57606a}
pre{margin:0;padding:.75rem 1rem;background:#f1f3f5;font:.85rem/1.5 ui-monospace,monospace}
svg{display:block}
.map{max-width:36rem}
.map svg{width:100%;height:auto;max-width:36rem}
@media (prefers-color-scheme:dark){
body{background:#14171b;color:#e6e9ed}
section{border-color:#3a414a}
.verdict,pre{background:#20252b}
.kept{background:#123021}
.missed{background:#3b1716}
.unknown{background:#3a2d08}
th,td{border-color:#3a414a}
.nothing{color:#a5adb8}
}
@media print{
main{max-width:none;padding:0}
.wide{overflow:visible}
section{break-inside:auto}
svg{max-width:100%;height:auto}
th,td{white-space:normal;padding:.15rem .35rem}
pre{white-space:pre-wrap}
}
";

/// What is said before and after the span, where all is asked around targets.
pub const AROUND_START: &str = "\
<p>In each row, and in each run, every other message is issued at any time from ";

pub const AROUND_END: &str = " ticks before the message of that row to twice as many after it, \
whatever the scenario says of issue times: convoy asks so with the option --around.</p>
";

/// What the table of the survey is.
pub const SURVEY_NOTE: &str = "\
Each row is a message at a group that it goes to, and the row * is the message at all its groups. At worst, over all \
delays of packets, it is delivered so many ticks after its issue: at least the number under least, for which there is a \
schedule, and at most that under most, which no schedule exceeds. Where the answer is greatest, the two are one. The \
rival is the message that holds it back. No traffic of these kinds of messages is slower than the ceiling. Where there \
is a deadline, the verdict tells whether it is kept, and by how much that is so or not.";

/// What the table of changes is.
pub const CHANGES_NOTE: &str = "\
What becomes of the worst case of this message with each change of one thing: another message left out, or a link at \
its least or at its most. What saves most stands first; the row with nothing is the scenario as it is.";

/// What the image of a run is.
pub const RUN_NOTE: &str = "\
Why no schedule is worse was checked again before these lines were written; convoy analyse writes the certificate.";

/// What the search for a run found that did not end.
pub const FOUND_NOTE: &str = "\
The search did not end within its limits: the worst case lies between these two numbers, and below them stands a \
schedule that has the first.";

/// The start of the section of the system, up to its map.
pub const SYSTEM_START: &str = "\
<section>
<h2>The system</h2>
<p>Groups and clients, and the ways on which packets travel, with the least and the most that a packet takes on each.</p>
<div class=\"map\">
";

/// What stands before the table of messages.
pub const MESSAGES_START: &str = "\
</div>
<h3>Messages</h3>
<div class=\"wide\">
";

/// What stands before the table of ways.
pub const WAYS_START: &str = "\
</div>
<h3>Ways</h3>
<div class=\"wide\">
";

/// What stands before the digest of the scenario.
pub const DIGEST_START: &str = "\
<p>The scenario has this SHA-256, which the command below it tells of a file:</p>
<div class=\"wide\">
<pre>";

/// What stands after it.
pub const DIGEST_END: &str = "\
</pre>
</div>
<div class=\"wide\">
<pre>convoy scenario FILE | sha256sum</pre>
</div>";

/// The end of a page.
pub const PAGE_END: &str = "\
<p>A small checker goes over a certificate of the worst case of a file:</p>
<div class=\"wide\">
<pre>convoy analyse FILE | convoy check --scenario FILE</pre>
</div>
</section>
</main>
</body>
</html>";
