//! What help tells of the program, of its commands and of their options.

use super::limits::MOST_SECONDS;
use convoy_branch::PLAIN_TICKETS;
use convoy_commands::{DEFAULT_LIMIT, MOST_SIMULATIONS, MOST_STEPS, MOST_TICKETS, MOST_WORKERS};

// The numbers in these texts are the limits that hold.
const _: () = prove!(MOST_TICKETS == 4_000_000);

const _: () = prove!(DEFAULT_LIMIT == 1_000_000);

const _: () = prove!(PLAIN_TICKETS == 2_000);

const _: () = prove!(MOST_SIMULATIONS == 1_000_000);

const _: () = prove!(MOST_WORKERS == 16);

const _: () = prove!(MOST_STEPS == 1_000_000_000_000);

const _: () = prove!(MOST_SECONDS == 1_000_000);

pub(crate) const ABOUT: &str =
    "The greatest latency of Skeen's genuine atomic multicast, exact and proved";

pub(crate) const LONG_ABOUT: &str = "\
Convoy says how late, at worst, one message is delivered at one of its groups,
over all delays of packets. A scenario names overlapping groups, the multicasts
to them with the ticks at or between which they are issued, and the message and
the group of which the latency is asked. With `time = \"real\"` in it time is real;
without that key time goes in whole ticks, and what happens at once has a fixed
order.
  convoy analyse scenario.toml | convoy explain
finds the greatest latency and tells why it is so late, and
  convoy analyse scenario.toml | convoy draw > run.svg
draws it.

Each command reads one text, and `check --scenario`, `ranges --check` and `fits` a scenario
besides: the file that is named after it, or standard input where none is, or where its
name is `-`.
That is a scenario, as TOML. The commands `check`, `explain` and `draw` read a
certificate, which `analyse` writes; `simulate`, `timeline`, `packets` and
`scenario` read either; `plan` reads a plan, as TOML, `ranges` a table, as CSV, or a
trace, and `fits` a trace.
The answer goes to standard output. Without a command word the command is `first`,
and reads standard input.";

pub(crate) const AFTER: &str = "\
Example of a scenario:
  time = \"real\"
  delay = 3
  least = 1
  groups = [\"a\", \"b\"]

  [[multicast]]
  name = \"x\"
  to = [\"a\", \"b\"]
  at = 0

  [target]
  message = \"x\"
  group = \"a\"

With it in a file scenario.toml, `convoy latency scenario.toml` writes
  greatest 6
and `convoy analyse scenario.toml | convoy check` writes
  accepted 6

Exit status:
  0  an answer, or help
  1  a fault, told in one line as 'fault NUMBER TEXT'; of `survey` and `ceiling --all`
     also where memory ran out for a row, and of `batch --status` one of a scenario
  2  the command line is rejected
  3  a search that did not end within its limits, or a ceiling that was not attained;
     with a deadline, that it is not known whether it is kept; of `batch` only with
     `--status` or `--at-most`; or that `plan --certificate` made none
  4  a certificate that is refused, of a scenario or of a plan
  5  a deadline that is not kept: `within` of a message, or `--at-most`; of `batch`
     only with `--status` or `--at-most`
  6  a certificate that is not checked, since that takes more steps than `--limit`
     allows
  7  a trace that is no run of its scenario, or with `ranges --check` a packet that
     was out of its range";

pub(crate) const ABOUT_FIRST: &str = "Writes the latency under the least delays, and those delays";

pub(crate) const LONG_ABOUT_FIRST: &str = "\
Reads a scenario and writes two lines: 'attained N', the latency of the target in
ticks where each packet takes its least delay and no message waits, and 'schedule'
with the delay of each packet, in packet order, and with a wait of 0 for each
message that may wait. In real time a line 'order' follows, without ranks.

That is one schedule, and not the worst: `latency` finds the greatest latency.";

pub(crate) const ABOUT_SIMULATE: &str = "Writes the latency under a schedule, and that schedule";

pub(crate) const LONG_ABOUT_SIMULATE: &str = "\
Reads a scenario and writes two lines: 'latency N', the latency of the target in
ticks under a schedule, and 'schedule' with the delay of each packet and the wait
of each message that may wait, in packet order. In real time a line 'order' follows.

The schedule is the scenario's key `schedule`, an array of these numbers in packet
order, above the first table header:
  schedule = [1, 3, 1, 2]
Without that key each packet takes its least delay, and no message waits. In real
time the key `order` tells in which order things happen at one group in one tick. It
is an array with two ranks for each message at each group that it goes to, that of
its arrival and that of its commit, from 0 to 255: the lesser rank is first, and of
one rank what is first in whole ticks. Without that key all ranks are 0, for which
the line 'order' has none. In place of a scenario a certificate may be read: then
schedule and order are the certificate's.";

pub(crate) const ABOUT_TIMELINE: &str = "Writes what happens at each group under a schedule";

pub(crate) const LONG_ABOUT_TIMELINE: &str = "\
Reads a scenario and writes one line for each time that a group proposes a stamp
for a message, commits the message or delivers it:
  TICK GROUP KIND MESSAGE TIME.GROUP
KIND is 'propose', 'commit' or 'deliver'. The stamp at the end is the local one
of a proposal, else the message's final one. For each message that may wait a line
tells when it is issued, as 'TICK SENDER issue MESSAGE'. TICK counts ticks; where a
tick has a length, a line that tells it comes first, as 'tick 50 us'.

The schedule is that of the command `simulate`, and so is the order.";

pub(crate) const ABOUT_PACKETS: &str = "Writes the packets of a scenario, with their ranges";

pub(crate) const LONG_ABOUT_PACKETS: &str = "\
Reads a scenario and writes one line for each of its packets, in the order in
which schedules list their delays:
  packet 0: x from client to b, 1 to 3 ticks
  packet 4: proposal of t from b to a, 1 to 3 ticks
A message with an issue window (`until`) has a line for its wait before its packets:
  packet 5: y waits, 0 to 8 ticks
In place of a scenario a certificate may be read: then each line ends with the
delay of the packet in the certificate's schedule, as ', takes 3'.";

pub(crate) const ABOUT_SCENARIO: &str = "Writes the scenario of a certificate as TOML";

pub(crate) const LONG_ABOUT_SCENARIO: &str = "\
Reads a certificate and writes its scenario as TOML, with its schedule in the key
`schedule` and in real time its order of ties in the key `order`. All times are
numbers of ticks. Other commands read that text: `simulate` tells the latency of the
certificate, and `latency` finds it again.
  convoy scenario certificate > scenario.toml
In place of a certificate a scenario may be read, which is written in the same form,
with the schedule that `simulate` would run.";

pub(crate) const ABOUT_EXPLAIN: &str = "Tells why the latency of a certificate is what it is";

pub(crate) const LONG_ABOUT_EXPLAIN: &str = "\
Reads a certificate, checks it as the command `check` does, and tells in a few
lines why the greatest latency is what it is: when the target is committed, which
message holds it back and until when, and which packets it waits for.
  convoy analyse scenario.toml | convoy explain

A certificate that is refused is told in the line 'refused NUMBER TEXT', and one that
is not checked in 'not checked LIMIT'.";

pub(crate) const ABOUT_DRAW: &str = "Draws the run of a certificate as an SVG image";

pub(crate) const LONG_ABOUT_DRAW: &str = "\
Reads a certificate, checks it as the command `check` does, and writes an SVG
image of the run that has the greatest latency: the packets on their way from
group to group, what each group does with each message, and what the target waits
for.
  convoy analyse scenario.toml | convoy draw > run.svg

A certificate that is refused is told in the line 'refused NUMBER TEXT', and one that
is not checked in 'not checked LIMIT'.";

pub(crate) const ABOUT_CHECK: &str = "Checks a certificate of the greatest latency";

pub(crate) const LONG_ABOUT_CHECK: &str = "\
Reads a certificate and writes one line:
  accepted N
The certificate is valid: N is the greatest latency of its scenario's target, in
ticks, over all schedules. Or else:
  refused NUMBER TEXT
This is the first fault for which it is refused. Or, where checking takes more steps
than the option `--limit` allows, so that nothing is known of the certificate:
  not checked LIMIT

A certificate is text, and its first line is one of 'convoy 1' to 'convoy 5'.
Whoever made it need not be trusted. Of which scenario it is, the certificate says
itself: with
  convoy check certificate --scenario scenario.toml
it is accepted only if it is of that scenario, and else refused with the line
'refused 37 scenario differs in KEY'. With
  convoy check certificate --tell
what was accepted is told below the first line.

With
  convoy check --plan file
the file has a plan, and below it what `plan --certificate` writes of it. The line
'accepted' says that no other placement and no other order is better.";

pub(crate) const ABOUT_FITS: &str = "Tells whether a trace of a real run is one of the scenario";

pub(crate) const LONG_ABOUT_FITS: &str = "\
Reads a scenario, and a trace of what happened in a real run of its messages:
  convoy fits scenario.toml trace.csv
A trace is CSV with a line for each event, or JSON with an object in each line:
  event,message,group,from,time,stamp
  issue,x,,,0 ms,
  arrival,x,a,,1.25 ms,1.a
  proposal,x,b,a,3.5 ms,1.a
  commit,x,b,,3.5 ms,2.b
  delivery,x,b,,3.5 ms,2.b
What the trace does not tell is not judged. It writes 'fits' where some run of the
scenario does all that is told, in which each packet takes a time of its range and each
group keeps to the protocol; below it stands how many deliveries are told, where some are
not, and the latency of the target in that run, where its delivery is told. In real time no
such run is later than 'latency' says. Or else it writes one line:
  departs: WORDS
They tell the first packet that is out of its range, or what the protocol does not do.
Each group, and the client of each message, may have a clock of its own:
  convoy fits --skew \"3 ms\" scenario.toml trace.csv
judges by clocks that are wrong by 3 ms at most, each by as much all the time.";

pub(crate) const ABOUT_SKEW: &str = "\
By how much each clock by which the trace is told may be wrong: a duration, as `3 ms`, or
a number of ticks. Without this option clocks are right";

pub(crate) const ABOUT_JUDGED: &str = "\
The scenario by which the trace is judged, which is read first; `-` is standard input,
if the trace is in a file";

pub(crate) const ABOUT_TRACE_UNIT: &str = "\
Of which unit numbers in the trace are that have none, and in which times are told, where
a tick has a length: `ns`, `us`, `ms` or `s`. Without this option it is the greatest of
which the scenario's `delay` is a whole number";

pub(crate) const ABOUT_STEPS: &str = "\
How many steps checking the certificate takes at most: from 1 to 1000000000000.
A step takes about two microseconds at most, and a million of them two seconds";

pub(crate) const ABOUT_WANTED: &str = "\
Accepts a certificate only if it is valid and is of the scenario or the workflow in
this file, which is read first; `-` is standard input, if the certificate is in a file";

pub(crate) const ABOUT_OF_PLAN: &str = "\
Reads a plan and, below it, a certificate that no other choice of it is better, as
`plan --certificate` writes them, and checks that";

pub(crate) const ABOUT_TELL: &str = "\
Writes below 'accepted N' what was accepted: the target, the greatest delay of a
packet, how many groups, messages and links there are, and how many nodes";

pub(crate) const ABOUT_ANALYSE: &str = "Writes a certificate of the greatest latency";

pub(crate) const LONG_ABOUT_ANALYSE: &str = "\
Reads a scenario, searches for the greatest latency of the target over all
schedules, and writes a certificate: the scenario, that latency, a schedule that
has it, and a tree that shows that no schedule has a greater one. The command
`check` checks it, and needs nothing of the search:
  convoy analyse scenario.toml > certificate
  convoy check certificate

Where the search does not end, it writes two lines, and the exit status is 3:
'open LEAST MOST', the least and the most that the greatest latency may be, in
ticks, and 'schedule', of a schedule that has the latency LEAST. In real time a
line 'order' follows, as with `simulate`.
LEAST is then most likely the greatest latency; MOST is safe to rely on. With none
of `--limit`, `--bounds` and `--seconds` the search mostly ends.

Where the target's message has a deadline, by its key `within` or by `--at-most`, the
exit status tells how that is kept: 0 where it is, 5 where it is not, and 3 where
neither is known. What is written is the same.";

pub(crate) const ABOUT_LATENCY: &str = "Writes the greatest latency";

pub(crate) const LONG_ABOUT_LATENCY: &str = "\
Reads a scenario, searches for the greatest latency of the target over all
schedules, and writes one line: 'greatest N', in ticks.
  convoy latency scenario.toml
Where a tick has a length, by the key `tick` or by times with units, the line
goes on with the same in a unit of time, as in 'greatest 1630 163 ms'.
The command `analyse` runs the same search, and writes why it is so.

Where the search does not end, it writes 'open LEAST MOST', the least and the
most that the greatest latency may be, both once more in that unit where a tick
has a length, and the exit status is 3.
LEAST is then most likely the greatest latency; MOST is safe to rely on. With none
of `--limit`, `--bounds` and `--seconds` the search mostly ends.

Where the target's message has a deadline, by its key `within` or by `--at-most`, a
line below tells how that is kept: 'within by N', where N ticks are left and the exit
status is 0, 'beyond by N', where at least N are too many and it is 5, or 'undecided',
where neither is known and it is 3.
  convoy latency --at-most \"400 ms\" scenario.toml

With `--outage SPAN` a line 'outage-latency V' stands below the first: no latency is
above V where groups are silent in outages that last SPAN in all, as when another
replica takes over. The deadline is then judged by V. It takes two searches more.
The key `outage` of the text says the same, unless that option is given.
  convoy latency --outage \"5 s\" scenario.toml

With `--accept SPAN` each group is replicated by white box: a message is delivered only
once a majority of each group that it goes to has answered, and a packet between the
leader of a group and its replicas takes at most SPAN. Links between groups are those
between their leaders, and from the leader of one to the replicas of another. Below the
first line stands 'accept-latency V', the greatest latency then, or 'accept-open LEAST
MOST', what it is at least and at most. The deadline is then judged by that, and the
exit status is 3 where it is open. Neither `--outage` nor `--ceiling` may stand beside.
  convoy latency --accept \"3 ms\" scenario.toml

Where links say which share of their packets may be out of range, as by the key
`outside`, a line tells in at most which share of runs some packet is.";

pub(crate) const ABOUT_CEILING: &str =
    "Writes a latency that no traffic exceeds, and traffic that attains it";

pub(crate) const LONG_ABOUT_CEILING: &str = "\
Reads a scenario, of which the messages are kinds here: how many of each there
are and when they are issued does not matter. It writes 'ceiling U', in ticks: in
no traffic of these kinds is a message of the target's kind later at the target's
group than that after its issue. Where a tick has a length, the line goes on with
the same in a unit of time.

The second line is 'attained L', of traffic that was sought: below it stands that
traffic, as a scenario with a schedule that has the latency L. So
  convoy ceiling scenario.toml | tail -n +3 > traffic.toml
makes a scenario that other commands read, as `simulate` and `analyse`. Where L
is U no number below U is safe, and the exit status is 0; else it is 3.

Where the target's message has a deadline, by its key `within` or by `--at-most`, a
line below 'attained L' tells whether all such traffic keeps it, as with `latency`, and
so does the exit status. In tables columns VERDICT and BY do.

With `--all` a table is written instead, with a row for each message at each group
that it goes to, and with `--group GROUP` for each message that goes to that group:
  message  group  ceiling  attained
  t        a           12        12
  t        *           12        12
The row `*` of a message is at all its groups, which is when a client that waits for
all of them has its answer; with `--group` there is none.
The exit status is then 1 where memory ran out for a row, else 3 where a ceiling
was not attained. The text need not have a target for that.

With `--outage SPAN` it writes 'outage-ceiling V' too, and in tables a column: no
latency is above V where groups are silent in outages that last SPAN in all from a
message's issue to its delivery, as when another replica takes over, and what waits is
sent after. Deadlines are then judged by V. An outage of 5 s costs 5 s and a little:
  convoy ceiling --outage \"5 s\" scenario.toml
It may not stand beside `--kinds`. The key `outage` of the text says the same, unless
that option is given.

With `--kinds` the text has tables [[kind]] in place of messages, each with who sends
such messages and where they go, which may be thousands of kinds:
  [[kind]]
  name = \"transfer\"
  from = [\"a\", \"b\"]
  to_any = [2, 3]
are those from a or b to any two or three groups. U is the greatest ceiling of all of
them at all groups, in traffic of all of them; with `--all` there is a row for each kind
at each group, with the kind beside which it has that ceiling.";

pub(crate) const ABOUT_BESIDE: &str = "\
Tells beside the answer the ceiling, which is the latency that no traffic of the
scenario's kinds of messages exceeds: in a line 'ceiling U' below it, or in a column";

pub(crate) const ABOUT_ALL: &str =
    "Tells the ceiling of each message at each group that it goes to, as a table";

pub(crate) const ABOUT_KINDS: &str =
    "Reads kinds of messages in place of a scenario, of which there may be thousands";

pub(crate) const ABOUT_OUTAGE: &str = "\
Tells what no latency is above through outages that last so long in all, of `ceiling` from
a message's issue to its delivery, in ticks or as '5 s'; deadlines are judged by that";

pub(crate) const ABOUT_ACCEPT: &str = "\
Tells the greatest latency where each group is replicated by white box, with at most so
long between a leader and its replicas, in ticks or as '3 ms'; deadlines are judged by that";

pub(crate) const ABOUT_GROUP: &str =
    "Tells the ceiling at this group of each message that goes to it, as a table";

pub(crate) const ABOUT_BATCH: &str = "Answers each of many scenarios as `latency` does";

pub(crate) const LONG_ABOUT_BATCH: &str = "\
Reads scenarios, at most 1000, with a line '---' between two of them, and writes a
block for each: the line 'job K', with K from 1 on, and then what `latency` writes
for that scenario alone, or the line of its fault.
  convoy batch scenarios

A line '--- NAME' divides as well, and names the scenario after it, whose block then
begins with 'job K NAME'. It may also stand before the first. A name is one word.

A scenario that is too long, or for which memory runs out, gets that fault as its
block. Blocks are written as the scenarios come. With `--format` a table is written
instead, once all is known. The exit status is 0 whatever they say, unless
`--status` or `--at-most` is given.";

pub(crate) const ABOUT_SURVEY: &str = "Tells the greatest latency of each message at each group";

pub(crate) const LONG_ABOUT_SURVEY: &str = "\
Reads a scenario, searches for the greatest latency of each message at each group
that it goes to, as `latency` does for that target, and writes a table with a row
for each, in the order of the text:
  message  group  answer    least  most  rival  tied  nodes
  t        a      greatest     12    12  y      x         1
  t        *      greatest     12    12  y      x         -
The row `*` of a message is at all its groups, which is when a client that waits for
all of them has its answer.
LEAST and MOST are in ticks, and once more in a unit of time where a tick has a
length. Where the search did not end, the answer is 'open', and the greatest
latency lies between the two; where memory ran out it is that fault. RIVAL is the
message that holds this one back in the schedule that was found, and TIED the one
after which it gets its stamp in a tie. NODES are those of the tree that shows the
greatest latency. The text need not have a target.
  convoy survey scenario.toml

With `--without` the table is one of changes, and asks for the text's target alone,
which has to be there: its greatest latency as the text is, without each other
message, and with each link that packets travel at its least and at its most. What
saves most comes first, and one line stands for all changes that change nothing,
unless `--all` is given.
  convoy survey --without scenario.toml
  change   message  from    to  answer    least  most  rival  tied  nodes
  nothing  -        -       -   greatest     12    12  y      x         1

With `--outage SPAN` a column OUTAGE_LATENCY tells what no latency is above through
outages that last SPAN in all, by which deadlines are then judged. It may not stand
beside `--without`. The key `outage` of the text says the same, unless that option is
given.

Where a message has a deadline, by its key `within` or by `--at-most`, VERDICT tells
how it is kept: 'within', 'beyond' or 'undecided'; and BY by how many ticks.

The exit status is 5 where a row is beyond its deadline, else 1 where one is a fault,
else 3 where one is open, or where it has a deadline, undecided.";

pub(crate) const ABOUT_REPORT: &str = "Writes all about a scenario as a page for a browser";

pub(crate) const LONG_ABOUT_REPORT: &str = "\
Reads a scenario, and writes a page in HTML that stands alone: whether each deadline is
kept; the table of `survey --ceiling`; the worst runs of the target and of each row
that is beyond its deadline, but no more than nine, as `explain` and `draw` tell them;
what to change first, as `survey --without` tells it; the system; and how to check the
page.
  convoy report scenario.toml > report.html
Its numbers are those of these commands, with the same options.

The exit status is that of `survey`: 5 where a row is beyond its deadline, else 1 where
one is a fault, else 3 where one is open, or where it has a deadline, undecided. The
page is written in any case.";

pub(crate) const ABOUT_BUDGET: &str =
    "Tells how slow each link may get before a deadline is missed";

pub(crate) const LONG_ABOUT_BUDGET: &str = "\
Reads a scenario, and tells for each way on which packets travel, the others as they
are, how much later, and how much earlier, packets may come there before the greatest
latency of the target misses its deadline, which the key `within` of its message or
`--at-most` says:
  convoy budget --at-most \"165 ms\" scenario.toml
  message  group  from    to  answer  least  most  most_until  left  least_from
  t        a      client  a   exact       3    25        1625  1600           1
LEAST and MOST are the range that the way has now, in ticks. MOST_UNTIL is the
greatest MOST with which the deadline is kept: 'any' where even the greatest that can
be written does no harm, 'none' where none is small enough. LEFT is how much that is
more than MOST. LEAST_FROM is the least LEAST with which the deadline is kept. Where a
tick has a length, times follow. The numbers are exact: with one tick more the
deadline is missed. Where the search for one did not end, the answer is 'open', and
with the numbers the deadline is kept all the same.

The exit status is 5 where the deadline is missed already, else 1 where memory ran out
for a row, else 3 where one is open.";

pub(crate) const ABOUT_ORDER: &str = "Tells in which order the groups are best listed";

pub(crate) const LONG_ABOUT_ORDER: &str = "\
Reads a scenario, and tells in which order its groups are best listed: so that the
greatest latency of the messages that have deadlines, less these, is the least, or
where none has one that of the target. The group that is listed last settles ties last,
as if by the greatest tie-breaking number:
  convoy order scenario.toml
  order b a
  message  group  deadline  before_least  before_most  least  most
  t        a      -                   12           12      6     6
  *        *      -                    -            -      6     6
BEFORE_LEAST and BEFORE_MOST are between what the greatest latency lies with the groups
as they are listed, LEAST and MOST with those in the best order. The row `*` is that
of all targets: no order has a greatest latency below its LEAST, and the best one has
at most its MOST. Where there are deadlines it tells in place of both how they are
kept, and messages without one do not count.

The exit status is 5 where a deadline is missed in the best order, else 3 where it is
not known whether one is kept, or where there is none whether the order is the best,
or a search did not end in it.";

pub(crate) const ABOUT_ALL_TARGETS: &str = "\
Finds the best order for each message at each group that it goes to; where some have a
deadline it is the best for these, and the others are told; the text need not have a
target";

pub(crate) const ABOUT_WHY: &str = "\
Tells below the table why no order is better: a row for each of some groups, with an
order in which those of them that stand behind it do no more harm than in any other";

pub(crate) const ABOUT_PLAN: &str = "Tells at which sites the groups are best placed";

pub(crate) const LONG_ABOUT_PLAN: &str = "\
Reads a plan, and tells at which of its sites each group is best placed, and in which
order the groups are best listed there. A plan is a text as that of a scenario, whose
links lead from site to site and whose messages are sent from sites or by groups. It
names the `sites`, says in a table [[group]] at which of them each group may be, and in
`apart` which groups share none:
  convoy plan plan.toml
  sites orders@ireland stock@virginia
  order orders stock
The first line tells where each group is, the second how the groups are listed, and
below them stands the table of `order` for the scenario of that placement. The best
choice is that in which the greatest latency of the messages that have deadlines, less
these, is the least, or where none has one that of the target: in the row `*` no
placement and no order has a greatest latency below LEAST. As `csv` and `json` the
column SITES tells where each group is. Where nothing is apart, and what stays at a site
is fast, all groups at one site are often the best choice. `--limit` and `--seconds` hold
for each search by itself, of which there may be thousands.

With `--first 3` the best choices at three placements are told, the best first: each is
the best at a placement that none before it has. Their tables stand one after the other,
and as `csv` and `json` they are one table, whose column PLACE tells which choice it is.

With `--certificate` a certificate is written that no other choice is better, which
`check --plan` reads below the plan; or the line 'not proved', where none was found.

The exit status is 5 where a deadline is missed in a choice that is told, else 3 where it
is not known whether one is kept, or where there is none whether a choice is the best, or
a search did not end in it.

With `--ceiling` the best placement is that with the least ceilings, as `ceiling --all`
tells them of its scenario: it promises the most for traffic of any number of messages of
the plan's kinds, whenever they are issued. The groups stay in the order of the plan, on
which no ceiling depends, nothing is searched, and nothing is left open but whether a
deadline that is below a ceiling is missed in some traffic: the exit status is then 3.";

pub(crate) const ABOUT_PLACED_TARGETS: &str = "\
Finds the best placement and order for each message at each group that it goes to;
where some have a deadline it is the best for these, and tells no others; the text need
not have a target";

pub(crate) const ABOUT_FIRST_PLACEMENTS: &str = "\
Tells the best choices at so many placements, the best first; with `--scenario` the last
of them is written";

pub(crate) const ABOUT_BY_CEILING: &str = "\
Finds the placement with the least ceilings in place of latencies: the best one whatever
traffic of the plan's kinds of messages there is, and tells them";

pub(crate) const ABOUT_WHY_THERE: &str = "\
Tells below the table why no order is better at that placement: a row for each of some
groups, with an order in which those of them that stand behind it do no more harm than
in any other";

pub(crate) const ABOUT_PLACING: &str = "\
Writes in place of the table the scenario of the best placement, with its groups in the
best order, as `scenario` writes one: in ticks, and without deadlines";

pub(crate) const ABOUT_CERTIFYING: &str = "\
Writes in place of the table a certificate that no other placement and no other order is
better, which `check --plan` reads";

pub(crate) const ABOUT_RANGES: &str =
    "Writes links for a table of round trips, or for a trace of real runs";

pub(crate) const LONG_ABOUT_RANGES: &str = "\
Reads a table of round trips that were measured between places, as CSV, and writes for
each two of these the table of a link, for a scenario whose groups are there:
  from,to,round_trip,kilometres
  dublin,boston,74.2,4820
or a matrix, whose first line and first column name the places. A round trip is a number
of milliseconds, or a duration as '74.2 ms'; the greatest of a pair counts. LEAST is what
a signal takes for the distance, and MOST the greatest round trip, with the margin, less
the LEAST of the way back, both in whole ticks. Half of a round trip is no such range.

With `--trace` it reads a trace of real runs, as `fits` does, but of messages of any names:
  event,message,group,from,time
  issue,t-1234,,,0.5 ms
  arrival,t-1234,orders,,1.75 ms
In `group` an issue names the group that sends, or nothing, where a client does. A packet
of which the trace tells when it was sent and when it came counts for its link. LEAST is
the least time that one took, with the margin less, and MOST the greatest, with the margin
more. With `--check` it tells which packets of a trace left the ranges of a scenario; the
exit status is 7 where one did. What a group sends to itself counts in neither.";

pub(crate) const ABOUT_MARGIN: &str = "\
How many percent longer than the greatest that was measured a round trip may be, or a
packet of a trace, which may also be so much shorter than the least";

pub(crate) const ABOUT_TRACE: &str =
    "Reads a trace of real runs, and writes the ranges of its packets";

pub(crate) const ABOUT_TRACE_CHECK: &str = "\
Reads a trace of real runs, and tells for each link how many packets were below the range
of the scenario in this file, and how many above it; `-` is standard input, if the trace
is in a file";

pub(crate) const ABOUT_LINKS_FORMAT: &str = "\
Writes the links of a trace as a table: `text` aligns its columns, `csv` is for other
programs, and `json` an array with an object for each row";

pub(crate) const ABOUT_LINKS_UNIT: &str = "\
Of which unit numbers in the trace are that have none: `ns`, `us`, `ms` or `s`. Without
this option it is `ms`, and with `--check` the greatest of which the scenario's `delay` is
a whole number";

pub(crate) const ABOUT_SPEED: &str =
    "How fast a signal goes at most: 200 km in a millisecond in fibre, 300 km in air";

pub(crate) const ABOUT_LEAST: &str =
    "The least that a packet takes where no distance is known; a tick where not given";

pub(crate) const ABOUT_TICK: &str = "How long a tick lasts, of which ranges are whole numbers";

pub(crate) const ABOUT_LISTING: &str = "\
Writes in place of the table the scenario with its groups in the best order, as
`scenario` writes one: in ticks, and without deadlines";

pub(crate) const ABOUT_SWEEP: &str = "Tells the latency for each value of a time or a range";

pub(crate) const LONG_ABOUT_SWEEP: &str = "\
Reads a scenario, and writes a table with a row for each value that the option `--set`
gives a key of it: the greatest latency of the target in the scenario with that value:
  convoy sweep --set t.at=0..10/5 scenario.toml
  t.at  answer    least  most  rival  tied  nodes
     0  greatest     12    12  y      x         1
     5  greatest      7     7  y      -         1
    10  greatest      6     6  -      -         1
A key is `delay`, MESSAGE.at, MESSAGE.until, FROM-TO.least or FROM-TO.most, where FROM
is a group or `client`, and a link from there is in the scenario. The values go from
FROM in steps up to at most TO, each in ticks or as '10 ms', as the scenario's own
times. With a second `--set` there is a row for each pair of values, at most 10000.
Of what lies between two values nothing is told. With `--format svg` a curve over the
values of one key is drawn in place of the table:
  convoy sweep --set t.at=0..10/1 --format svg scenario.toml > curve.svg

The exit status is 5 where a row is beyond the target's deadline, else 1 where memory
ran out for one, else 3 where one is open.";

pub(crate) const ABOUT_SET: &str = "\
Which key of the scenario has which values; once, or twice for all pairs of values";

pub(crate) const ABOUT_ENVELOPE: &str = "\
Lets each row speak of all times of issue from one value to the next, as a window does:
for keys MESSAGE.at, but not of the target";

pub(crate) const ABOUT_ALL_DEADLINES: &str = "\
Tells the budgets of each message that has a deadline, at each group that it goes to;
the text need not have a target";

pub(crate) const ABOUT_OF_CEILING: &str = "\
Lets the ceiling keep the deadline, and not just the greatest latency: then any traffic
of the scenario's kinds does";

pub(crate) const ABOUT_WITHOUT: &str = "\
Tells the greatest latency of the target with each change of one thing: another
message left out, or a link at its least or at its most";

pub(crate) const ABOUT_ALL_CHANGES: &str = "\
Tells each change that changes nothing in a row of its own, in place of one line for
all of these";

pub(crate) const ABOUT_UNIT: &str = "\
In which unit times are told, where a tick has a length: `ns`, `us`, `ms` or `s`.
Without this option it is the unit in which the scenario writes its `delay`, and
of a certificate the greatest of which that delay is a whole number. Times are
exact, with as many digits as they need";

pub(crate) const ABOUT_FORMAT: &str = "\
How the table is written: `text`, with aligned columns, as without this option;
`csv`, with a line of names first and commas between cells; or `json`, an array
with an object for each row";

pub(crate) const ABOUT_SWEEP_FORMAT: &str = "\
How the table is written: `text`, with aligned columns, as without this option;
`csv`, with a line of names first and commas between cells; or `json`, an array
with an object for each row. Or `svg`, an image: the curve over the values of one key";

pub(crate) const ABOUT_BATCH_FORMAT: &str = "\
Writes one table with a row for each scenario in place of blocks: as `text`, with
aligned columns; as `csv`, with a line of names first and commas between cells; or
as `json`, an array with an object for each row";

pub(crate) const ABOUT_FILE: &str =
    "The file to read; without it, or with `-`, standard input is read";

pub(crate) const ABOUT_LIMIT: &str = "\
How many tickets the search spends at most, one for each set of schedules that it
looks at: from 1 to 4000000. A limit without `--bounds` means plain bounds;
without this option there are 1000000";

pub(crate) const ABOUT_SECONDS: &str = "\
After how many seconds the search stops, where it has not ended, before the next set
of schedules that it looks at: from 1 to 1000000. Each row of a survey and each
scenario of a batch has them for itself. Without this option no search is stopped";

pub(crate) const ABOUT_SEEK: &str = "\
How many schedules are simulated at most to find a good one for the search to
start from: from 0, for the schedule of the least delays, to 1000000";

pub(crate) const ABOUT_SEEK_TRAFFIC: &str = "\
How many schedules are simulated at most to find traffic of a great latency: from
0, for the scenario itself with its least delays, to 1000000";

pub(crate) const ABOUT_BOUNDS: &str = "\
By what the search closes sets of schedules: `plain` bounds, `stamp` bounds,
`lead`, which takes longest for each and mostly ends at once, or `best`: first
plain bounds with at most 2000 tickets, and where that does not end, leads.
That is also the way without this option and `--limit`. By leads at most 100000
tickets are spent, and only by them may the certificate be of the form
`convoy 3`; by plain bounds it is of the form `convoy 2` only where there are
links. In real time, and where a message has an `until`, it is of the form
`convoy 4`. In real time stamp bounds are plain ones";

pub(crate) const ABOUT_WORKERS: &str = "\
How many workers share the search, each in a thread of its own: from 1 to 16. The
latency does not depend on it; which schedule has it, and which tree shows it,
may, and with several workers they may be others each time";

pub(crate) const ABOUT_JOBS: &str = "\
How many rows of the table are made at a time, each in a thread of its own, which
`--workers` may share: from 1 to 16, and 1 without this option. The table does not
depend on it, but for rows that `--seconds` stops";

pub(crate) const ABOUT_CEILINGS_JOBS: &str = "\
How many rows of the table are made at a time, each in a thread of its own: from 1
to 16, and 1 without this option. The table does not depend on it";

pub(crate) const ABOUT_PROGRESS: &str = "\
Tells on standard error, once a second, how far the search has come, and of `plan`
how many placements are passed. Where that is a terminal it is told anyway";

pub(crate) const ABOUT_STATUS: &str = "\
Tells by the exit status how the scenarios end: 5 where one is beyond its deadline,
or else 1 where one has a fault, or else 3 where the answer for one is open, or else 0";

pub(crate) const ABOUT_AT_MOST: &str = "\
The deadline of each message that has no key `within`, in ticks or as '400 ms': the
exit status is 0 where all are kept, 5 where one is not, and 3 where neither is known";

pub(crate) const ABOUT_BATCH_AT_MOST: &str = "\
The deadline of each message that has no key `within`, in ticks or as '400 ms'. The
exit status tells how deadlines are kept, as with `--status`";

pub(crate) const ABOUT_AROUND: &str = "\
Lets each other message be issued at any time from a span before the target to twice
the span after it, whatever the text says: in ticks or as '400 ms', and without a value
the greatest delay";

pub(crate) const ABOUT_EACH_AROUND: &str = "\
Lets for each row the other messages be issued at any time from a span before that of
the row to twice the span after it, whatever the text says: in ticks or as '400 ms', and
without a value the greatest delay";

pub(crate) const ABOUT_WRITTEN_AROUND: &str = "\
Writes the scenario that `--around` of other commands asks about: each other message is
issued at any time from a span before the target to twice the span after it, in ticks or
as '400 ms', and without a value the greatest delay. Packets take their least delays";

pub(crate) const ABOUT_TARGET: &str = "\
The message and the group of which the latency is asked, as 't@a', in place of those
of the table [target], which may be missing then";

pub(crate) const ABOUT_QUIET: &str = "Writes no hints to standard error, and no progress";
