ghost use Rattle.std.specs.Prelude.{◌≡◌, IfOk, IsTrue, string_bytes, ℕ};
ghost use Rattle.convoy_draw.specs.Legends.{has_windows, legend_lines};
ghost use Rattle.convoy_draw.specs.Shown.{ShowsLines, is_wordless};

use super::scene::Scene;
use super::shown::placed_words;
use super::signs::sign;
use super::style::{BAR, color_of};
use convoy_picture::{MARGIN, MarkKind, Role, width_of};
use convoy_scenario::lookup::may_wait;
use convoy_scenario::naming::message_name;
use convoy_scenario::{AllocResult, Scenario};
use convoy_timeline::Holder;
use std::alloc::Global;
use std::marker::Model;

/// How wide a sample is, with the gap after it.
const SAMPLE: u32 = 350;

/// How high a line of the legend is.
const LINE: u32 = 220;

/// How a plain line is drawn.
const PLAIN: &str = r#"stroke-width="16""#;

/// How the line of a proposal is drawn.
const DASHED: &str = r#"stroke-width="16" stroke-dasharray="60 40""#;

/// How the line is drawn of what the delivery waits for.
const THICK: &str = r#"stroke-width="40""#;

/// What stamps are called, and where signs stand.
const NOTE: &str =
    "2.b is the stamp that group b gives at time 2 of its clock; of several messages the later ones have their signs a little to the right of their tick";

/// The legend: the colours of messages, the lines of packets, the signs of what happens, and a note.
pub(crate) fn legend(scene: &Scene) -> AllocResult<String>
    ensures { IfOk result (λ legend. (wordless : ℕ)
        × ShowsLines (legend_lines scene.now.scenario.now scene.now.picture.now.why wordless) (string_bytes legend)) }
{
    let holder = &scene.picture.why().holder;
    let mut legend = LegendRows::new(scene.alloc, scene.sheet.bottom.saturating_add(400));
    legend.push_colors(scene.scenario, holder)?;
    legend.end_row();
    legend.push_packets()?;
    legend.push_bar(scene.scenario)?;
    legend.push_wordless(scene.sheet.wordless())?;
    legend.end_row();
    legend.push_signs(holder)?;
    legend.end_row();
    legend.push_words(NOTE)?;
    Ok(legend.text)
}

/// Whether some message may wait before its issue.
fn has_windows(scenario: &Scenario) -> bool
    ensures { result ≡ has_windows scenario.now }
{
    (0..scenario.message_count()).any(|message| may_wait(scenario, message))
}

/// A legend that is written row by row, each from left to right.
#[derive(Drop)]
struct LegendRows {
    text: String,
    /// Where the next words stand, from the left.
    across: u32,
    /// Where they stand, from above.
    down: u32,
}

impl Model for LegendRows {
    ghost use Rattle.std.specs.Prelude.{List, string_bytes, ℕ};

    ghost Value = { List ℕ };

    ghost view = { λ l. string_bytes l.text };
}

impl LegendRows {
    ghost use Rattle.std.specs.Prelude.{◌≡◌, IsTrue, List, OnOk, [], ◌∷◌, ℕ, codes};
    ghost use Rattle.convoy_draw.specs.Legends.{bar_lines, color_lines, holder_lines, packet_lines, sign_lines, target_line, wait_lines, wordless_lines};
    ghost use Rattle.convoy_draw.specs.Shown.{ShowsLines, ShowsMore, is_wordless};

    /// A legend with nothing in it, that far down.
    fn new(alloc: Global, down: u32) -> LegendRows
        ensures { result ≡ [] }
    {
        LegendRows {
            text: String::new(alloc),
            across: MARGIN,
            down,
        }
    }

    /// Goes on at the left of the next row.
    fn end_row(&mut self)
        ensures { self.new ≡ self.old }
    {
        self.across = MARGIN;
        self.down = self.down.saturating_add(LINE);
    }

    /// The colours of the messages.
    #[tactic(auto, unfolding(crate::specs::Shown::no_words_after))]
    fn push_colors(&mut self, scenario: &Scenario, holder: &Option<Holder>) -> AllocResult<()>
        ensures { OnOk result (ShowsMore (color_lines scenario.now holder.now) self.old self.new) }
    {
        self.push_target(scenario)?;
        self.push_holder(scenario, holder)?;
        self.push_line(color_of(Role::Other), PLAIN, "other messages")
    }

    /// The colour of the target.
    #[tactic(auto, unfolding(crate::specs::Shown::no_words_after))]
    fn push_target(&mut self, scenario: &Scenario) -> AllocResult<()>
        ensures { OnOk result (ShowsMore (target_line scenario.now ∷ []) self.old self.new) }
    {
        let name = message_name(scenario, scenario.target_message());
        let words = format!(in *self.text.allocator(); "{name}, whose delivery it is about")?;
        self.push_line(color_of(Role::Target), PLAIN, &words)
    }

    /// The colour of the message that holds the target back, if there is one.
    #[tactic(auto, unfolding(crate::specs::Shown::no_words_after))]
    fn push_holder(&mut self, scenario: &Scenario, holder: &Option<Holder>) -> AllocResult<()>
        ensures { OnOk result (ShowsMore (holder_lines scenario.now holder.now) self.old self.new) }
    {
        match holder {
            Some(holder) => {
                let name = message_name(scenario, holder.message);
                let words = format!(in *self.text.allocator(); "{name}, which holds it back")?;
                self.push_line(color_of(Role::Holder), PLAIN, &words)
            }
            None => Ok(()),
        }
    }

    /// The lines of packets.
    #[tactic(auto, unfolding(crate::specs::Shown::no_words_after))]
    fn push_packets(&mut self) -> AllocResult<()>
        ensures { OnOk result (ShowsMore packet_lines self.old self.new) }
    {
        self.push_line("#000000", PLAIN, "a message on its way")?;
        self.push_line("#000000", DASHED, "a proposal on its way")?;
        self.push_line("#000000", THICK, "what the delivery waits for")
    }

    /// The bar along the ticks at which a message may be issued, where some message may wait.
    #[tactic(auto, unfolding(crate::specs::Shown::no_words_after))]
    fn push_bar(&mut self, scenario: &Scenario) -> AllocResult<()>
        ensures { OnOk result (ShowsMore (bar_lines scenario.now) self.old self.new) }
    {
        if has_windows(scenario) {
            self.push_line("#000000", BAR, "when it may be issued")
        } else {
            Ok(())
        }
    }

    /// How many signs have no words, if there are any.
    fn push_wordless(&mut self, count: usize) -> AllocResult<()>
        ensures { OnOk result (ShowsMore (wordless_lines count) self.old self.new) }
    {
        if count == 0 {
            return Ok(());
        }
        let words = format!(in *self.text.allocator(); "signs without room for words: {count}")?;
        self.push_words(&words)
    }

    /// The signs of what happens; that of the target's wait only where it waits.
    fn push_signs(&mut self, holder: &Option<Holder>) -> AllocResult<()>
        ensures { OnOk result (ShowsMore (sign_lines holder.now) self.old self.new) }
    {
        self.push_sign(MarkKind::Issue, "issue")?;
        self.push_sign(MarkKind::Arrival, "arrival, with the local stamp")?;
        self.push_sign(MarkKind::Commit, "commit, with the final stamp")?;
        self.push_wait(holder)?;
        self.push_sign(MarkKind::Delivery, "delivery")
    }

    /// The sign of the target's wait, if it waits.
    fn push_wait(&mut self, holder: &Option<Holder>) -> AllocResult<()>
        ensures { OnOk result (ShowsMore (wait_lines holder.now) self.old self.new) }
    {
        match holder {
            Some(_) => self.push_sign(MarkKind::Wait, "from its commit on the target waits"),
            None => Ok(()),
        }
    }

    /// A sign, with words.
    fn push_sign(&mut self, kind: MarkKind, words: &str) -> AllocResult<()>
        ensures { OnOk result (ShowsMore (words.now ∷ []) self.old self.new) }
    {
        let sample = sign_sample(*self.text.allocator(), kind, self.across, self.down)?;
        self.push_sample(&sample, words)
    }

    /// A line of that colour and style, with words.
    fn push_line(&mut self, color: &str, style: &str, words: &str) -> AllocResult<()>
        requires color { IsTrue (is_wordless color.now) }
        requires style { IsTrue (is_wordless style.now) }
        ensures { OnOk result (ShowsMore (words.now ∷ []) self.old self.new) }
    {
        let sample = line_sample(*self.text.allocator(), self.across, self.down, color, style)?;
        self.push_sample(&sample, words)
    }

    /// What is drawn as a sample, and words after it.
    fn push_sample(&mut self, sample: &str, words: &str) -> AllocResult<()>
        requires { IsTrue (is_wordless sample.now) }
        ensures { OnOk result (ShowsMore (words.now ∷ []) self.old self.new) }
    {
        let left = self.across.saturating_add(SAMPLE);
        let line = placed_words(*self.text.allocator(), left, self.down, words)?;
        self.text.push_str(sample)?;
        self.text.push_str(&line)?;
        self.across = left.saturating_add(width_of(words)).saturating_add(200);
        Ok(())
    }

    /// Words with no sample before them.
    fn push_words(&mut self, words: &str) -> AllocResult<()>
        ensures { OnOk result (ShowsMore (words.now ∷ []) self.old self.new) }
    {
        let line = placed_words(*self.text.allocator(), self.across, self.down, words)?;
        self.text.push_str(&line)
    }
}

/// A short line of that colour and style, in a row of the legend.
fn line_sample(
    alloc: Global,
    across: u32,
    down: u32,
    color: &str,
    style: &str,
) -> AllocResult<String>
    requires color { IsTrue (is_wordless color.now) }
    requires style { IsTrue (is_wordless style.now) }
    ensures { IfOk result (λ sample. IsTrue (is_wordless (string_bytes sample))) }
{
    let middle = down.saturating_sub(40);
    format!(in alloc; "<path d=\"M{across} {middle}h280\" stroke=\"{color}\" {style}/>")
}

/// The sign of a kind of mark, in a row of the legend.
fn sign_sample(alloc: Global, kind: MarkKind, across: u32, down: u32) -> AllocResult<String>
    ensures { IfOk result (λ sample. IsTrue (is_wordless (string_bytes sample))) }
{
    let sign = sign(
        alloc,
        kind,
        across.saturating_add(240),
        down.saturating_sub(40),
    )?;
    format!(in alloc; "<g stroke=\"#000000\">{sign}</g>")
}
