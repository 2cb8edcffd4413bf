use convoy_picture::{Picture, Role, Sheet};
use convoy_scenario::Scenario;
use convoy_times::Measure;
use std::alloc::Global;

/// What is drawn: the picture of a run of a scenario, where all of it stands on the sheet, and what memory comes from.
#[derive(Clone, Copy)]
pub(crate) struct Scene<'a> {
    pub alloc: Global,
    pub scenario: &'a Scenario,
    /// How times are told.
    pub measure: &'a Option<Measure>,
    pub picture: &'a Picture,
    pub sheet: &'a Sheet,
}

impl Scene<'_> {
    /// Which part a message has in what the picture tells.
    pub(crate) fn role_of(&self, message: usize) -> Role {
        Role::of(self.scenario, self.picture, message)
    }
}
