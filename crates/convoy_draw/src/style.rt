ghost use Rattle.std.specs.Prelude.{IsTrue};
ghost use Rattle.convoy_draw.specs.Shown.{is_wordless};

use convoy_picture::Role;

/// How many packets there are at most in a picture that is not crowded.
const CROWD: usize = 200;

/// How a bar is drawn along the ticks at which a message may be issued.
pub(crate) const BAR: &str = r#"stroke-width="60" stroke-opacity="0.3""#;

/// The colour of the lines, signs and words of a message.
#[tactic(auto, unfolding(crate::specs::Shown::no_words_after))]
pub(crate) fn color_of(role: Role) -> &'static str
    ensures { IsTrue (is_wordless result.now) }
{
    match role {
        Role::Target => "#0072b2",
        Role::Holder => "#d55e00",
        Role::Other => "#767676",
    }
}

/// How the packets of a message are drawn among so many: those of other messages paler the more there
/// are.
pub(crate) fn stroke_of(role: Role, flights: usize) -> &'static str {
    match role {
        Role::Target | Role::Holder => r#"stroke-width="16""#,
        Role::Other if flights > CROWD => r#"stroke-width="6" stroke-opacity="0.3""#,
        Role::Other => r#"stroke-width="9" stroke-opacity="0.6""#,
    }
}
