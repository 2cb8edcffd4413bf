ghost use Rattle.std.specs.Prelude.{◌≡◌, IfOk, string_bytes};
ghost use Rattle.convoy_draw.specs.Layers.{element_text, Layers};

use convoy_picture::Role;
use std::alloc::{AllocError, Global};
use std::marker::Model;

/// Elements of an image in three layers, of which a later one lies over an earlier one: those of the
/// other messages, those of the message that holds the target back, and those of the target.
#[derive(Drop)]
pub(crate) struct Layers {
    others: String,
    holder: String,
    target: String,
}

impl Model for Layers {
    ghost Value = { Layers };

    ghost view = { λ l.
        record { others = string_bytes l.others; holder = string_bytes l.holder; target = string_bytes l.target } };
}

impl Layers {
    ghost use Rattle.std.specs.Prelude.{◌≡◌, IfOk, OnOk, List, ℕ, string_bytes};
    ghost use Rattle.convoy_draw.specs.Drawings.{Tells};
    ghost use Rattle.convoy_draw.specs.Layers.{IsToldIn, with_element};

    /// Layers with nothing in them.
    pub(crate) fn new(alloc: Global) -> Layers {
        Layers {
            others: String::new(alloc),
            holder: String::new(alloc),
            target: String::new(alloc),
        }
    }

    /// Puts an element into the layer of a role, over those that are there.
    pub(crate) fn push(&mut self, role: Role, element: &str) -> Result<(), AllocError>
        ensures { OnOk result (self.new ≡ with_element self.old role element.now) }
    {
        match role {
            Role::Target => self.target.push_str(element),
            Role::Holder => self.holder.push_str(element),
            Role::Other => self.others.push_str(element),
        }
    }

    /// Puts an element that is drawn so and that tells so into the layer of a role.
    pub(crate) fn push_telling(
        &mut self,
        role: Role,
        told: &str,
        drawn: &str,
    ) -> Result<(), AllocError>
        ensures told { OnOk result (IsToldIn self.new told.now) }
        ensures still { OnOk result ((piece : List ℕ) → IsToldIn self.old piece → IsToldIn self.new piece) }
    {
        let element = element(*self.target.allocator(), told, drawn)?;
        self.push(role, &element)
    }

    /// The layers in their order, each in a group with these attributes.
    pub(crate) fn joined(
        &self,
        alloc: Global,
        first: &str,
        second: &str,
        third: &str,
    ) -> Result<String, AllocError>
        ensures { IfOk result (λ text. (piece : List ℕ) → IsToldIn self.now piece
            → Tells piece (string_bytes text)) }
    {
        let others = self.others.as_str();
        let holder = self.holder.as_str();
        let target = self.target.as_str();
        format!(in alloc; "<g {first}>{others}</g><g {second}>{holder}</g><g {third}>{target}</g>")
    }
}

/// An element that is drawn so and that tells so.
pub(crate) fn element(alloc: Global, told: &str, drawn: &str) -> Result<String, AllocError>
    ensures { IfOk result (λ element. string_bytes element ≡ element_text told.now drawn.now) }
{
    format!(in alloc; "<g><title>{told}</title>{drawn}</g>\n")
}
