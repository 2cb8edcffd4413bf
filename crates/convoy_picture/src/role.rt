ghost use Rattle.std.specs.Prelude.{◌≡◌};
ghost use Rattle.convoy_picture.specs.Roles.{is_in_focus, role_of};

use super::picture::Picture;
use convoy_scenario::Scenario;

/// What a message is to the target of a picture.
#[derive(Clone, Copy, PartialEq, Eq)]
pub enum Role {
    /// The target itself.
    Target,
    /// The message that holds the target back.
    Holder,
    /// Any other message.
    Other,
}

impl Role {
    /// What the message of that number is in a picture of a run of the scenario: the target, what the
    /// picture names as holding the target back, or else another message.
    pub fn of(scenario: &Scenario, picture: &Picture, message: usize) -> Role
        ensures { result ≡ role_of scenario.now picture.now message }
    {
        if message == scenario.target_message() {
            return Role::Target;
        }
        match &picture.why().holder {
            Some(holder) if holder.message == message => Role::Holder,
            _ => Role::Other,
        }
    }

    /// Whether the picture is about it: the target, and what the target waits for.
    pub fn is_in_focus(self) -> bool
        ensures { result ≡ is_in_focus self }
    {
        self != Role::Other
    }
}
