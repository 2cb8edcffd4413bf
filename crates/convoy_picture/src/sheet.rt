use super::axis::Axis;
use super::mark::{
    Mark, MarkKind, entry_label, entry_mark, issue_label, issue_mark, wait_label, wait_mark,
};
use super::rows::Rows;
use super::scale::Scale;
use super::widths::width_of;
use crate::{Picture, Role};
use convoy_scenario::{AllocResult, Scenario, Sender};
use convoy_times::Measure;
use std::alloc::Global;

// All lengths on the sheet are in tenths of a pixel.

/// How wide the sheet is.
pub const WIDTH: u32 = 11_200;

/// How wide its margin is.
pub const MARGIN: u32 = 300;

/// Where the first tick of all stands.
pub const LEFT: u32 = 1_700;

/// Where the last tick stands at most.
pub(crate) const RIGHT: u32 = 10_000;

/// How far words may reach to the right.
const WORDS_RIGHT: u32 = 11_050;

/// How far words stand from their mark.
pub const GAP: u32 = 70;

/// How high a row of words is.
const ROW: u32 = 140;

/// Where the numbers of the axis stand, from above.
pub const AXIS: u32 = 950;

/// How many rows all lanes together have on each side, about, for messages that are not in focus.
const MOST_ROWS: usize = 24;

/// A lane of the sheet: that of the clients, or of a group.
#[derive(Drop)]
struct Lane {
    /// Whether anything happens there: else it is not drawn.
    is_used: bool,
    /// Where its line is, from above.
    y: u32,
    above: Rows,
    below: Rows,
}

/// Where all that is drawn of a picture stands.
#[derive(Drop)]
pub struct Sheet {
    pub scale: Scale,
    pub axis: Axis,
    lanes: Vec<Lane>,
    /// Where the lanes end, from above.
    pub bottom: u32,
    issue_rows: Vec<Option<usize>>,
    entry_rows: Vec<Option<usize>>,
    wait_row: Option<usize>,
}

impl Sheet {
    /// The sheet of a picture of a run of the scenario, with an axis that tells times in that measure, or ticks
    /// where there is none.
    pub fn of(
        alloc: Global,
        scenario: &Scenario,
        picture: &Picture,
        measure: &Option<Measure>,
    ) -> AllocResult<Sheet> {
        let scale = Scale::of(alloc, scenario, picture)?;
        let mut sheet = Sheet {
            axis: Axis::of(alloc, &scale, *measure)?,
            scale,
            lanes: list_lanes(alloc, scenario)?,
            bottom: 0,
            issue_rows: no_rows(alloc, scenario.message_count())?,
            entry_rows: no_rows(alloc, picture.entries().len())?,
            wait_row: None,
        };
        sheet.use_lanes(scenario, picture);
        for is_focus in [true, false] {
            sheet.put_issues(alloc, scenario, picture, is_focus)?;
            sheet.put_entries(alloc, scenario, measure, picture, is_focus)?;
            sheet.close_rows();
        }
        sheet.lay_lanes();
        Ok(sheet)
    }

    /// Notes the lanes on which something happens.
    fn use_lanes(&mut self, scenario: &Scenario, picture: &Picture) {
        for message in 0..scenario.message_count() {
            self.use_lane(issue_mark(scenario, picture, message).lane);
        }
        for entry in picture.entries() {
            self.use_lane(entry_mark(entry).lane);
        }
    }

    /// Notes that something happens on a lane.
    fn use_lane(&mut self, lane: usize) {
        if let Some(lane) = self.lanes.get_mut(lane) {
            lane.is_used = true;
        }
    }

    /// Puts the words on issues into rows: those of messages in focus, or those of the others.
    fn put_issues(
        &mut self,
        alloc: Global,
        scenario: &Scenario,
        picture: &Picture,
        is_focus: bool,
    ) -> AllocResult<()> {
        for message in 0..scenario.message_count() {
            if Role::of(scenario, picture, message).is_in_focus() == is_focus {
                let label = issue_label(alloc, scenario, message)?;
                let row = self.put(&issue_mark(scenario, picture, message), &label)?;
                set(&mut self.issue_rows, message, row);
            }
        }
        Ok(())
    }

    /// Puts the words on what happens at groups into rows: those of messages in focus, or those of the
    /// others.
    fn put_entries(
        &mut self,
        alloc: Global,
        scenario: &Scenario,
        measure: &Option<Measure>,
        picture: &Picture,
        is_focus: bool,
    ) -> AllocResult<()> {
        let wait = wait_mark(scenario, picture);
        for (i, entry) in picture.entries().iter().enumerate() {
            if Role::of(scenario, picture, entry.message).is_in_focus() == is_focus {
                let label = entry_label(alloc, scenario, entry)?;
                let mark = entry_mark(entry);
                let row = self.put(&mark, &label)?;
                set(&mut self.entry_rows, i, row);
                if let Some(wait) = wait
                    && is_begun(&wait, &mark)
                {
                    let label = wait_label(alloc, scenario, measure, picture)?;
                    self.wait_row = self.put(&wait, &label)?;
                }
            }
        }
        Ok(())
    }

    /// Puts the words of a mark into a row beside its lane; none where there is no room.
    fn put(&mut self, mark: &Mark, label: &str) -> AllocResult<Option<usize>> {
        let extent = extent(self.x_of(mark), label);
        match self.lanes.get_mut(mark.lane) {
            Some(lane) if mark.kind.is_above() => lane.above.put(extent),
            Some(lane) => lane.below.put(extent),
            None => Ok(None),
        }
    }

    /// Closes the rows there are beside all lanes, and leaves each lane some more.
    fn close_rows(&mut self) {
        let more = MOST_ROWS / self.used_lanes().max(1);
        for lane in &mut self.lanes {
            lane.above.close(more);
            lane.below.close(more);
        }
    }

    /// How many lanes there are on which something happens.
    fn used_lanes(&self) -> usize {
        self.lanes.iter().filter(|lane| lane.is_used).count()
    }

    /// Gives each lane on which something happens its place, one below the other.
    fn lay_lanes(&mut self) {
        let count = u32::try_from(self.used_lanes()).unwrap_or(u32::MAX);
        let space = (2_400 / count.max(1)).clamp(250, 600);
        let mut top = AXIS.saturating_add(MARGIN);
        for lane in &mut self.lanes {
            if lane.is_used {
                lane.y = top.saturating_add(height(&lane.above));
                self.bottom = lane.y.saturating_add(height(&lane.below));
                top = self.bottom.saturating_add(space);
            }
        }
    }

    /// How high the sheet is.
    pub fn height(&self) -> u32 {
        self.bottom.saturating_add(1_220)
    }

    /// How many lanes there are, drawn or not.
    pub fn lane_count(&self) -> usize {
        self.lanes.len()
    }

    /// Whether a lane is drawn: something happens on it.
    pub fn has_lane(&self, lane: usize) -> bool {
        match self.lanes.get(lane) {
            Some(lane) => lane.is_used,
            None => false,
        }
    }

    /// Where the line of a lane is, from above; at the top where there is no such lane.
    pub fn y_of(&self, lane: usize) -> u32 {
        match self.lanes.get(lane) {
            Some(lane) => lane.y,
            None => 0,
        }
    }

    /// Where a mark stands across the sheet.
    pub fn x_of(&self, mark: &Mark) -> u32 {
        self.scale.place(mark.tick, mark.message)
    }

    /// Where the words of a mark stand in a row beside its lane.
    pub fn row_of(&self, mark: &Mark, row: usize) -> u32 {
        let lane = self.y_of(mark.lane);
        let rows = u32::try_from(row).unwrap_or(u32::MAX).saturating_mul(ROW);
        if mark.kind.is_above() {
            lane.saturating_sub(rows.saturating_add(90))
        } else {
            lane.saturating_add(rows.saturating_add(190))
        }
    }

    /// The row of the words on the issue of a message; none where they have no room.
    pub fn issue_row(&self, message: usize) -> Option<usize> {
        self.issue_rows.get(message).copied().flatten()
    }

    /// The row of the words on the entry of that number in the picture; none where they have no room.
    pub fn entry_row(&self, number: usize) -> Option<usize> {
        self.entry_rows.get(number).copied().flatten()
    }

    /// The row of the words on the target's waiting.
    pub fn wait_row(&self) -> Option<usize> {
        self.wait_row
    }

    /// How many marks have no words beside them.
    pub fn wordless(&self) -> usize {
        missing(&self.issue_rows).saturating_add(missing(&self.entry_rows))
    }
}

/// How many of these rows there are not.
fn missing(rows: &[Option<usize>]) -> usize {
    let mut count: usize = 0;
    for row in rows {
        if row.is_none() {
            count = count.saturating_add(1);
        }
    }
    count
}

/// The lane of a place: that of the clients comes first, wherever they are, and then the groups by number.
pub fn lane_of(place: Sender) -> usize {
    match place {
        Sender::Client(_) => 0,
        Sender::Group(group) => group.saturating_add(1),
    }
}

/// Whether words end at the mark there, since there is no room to the right of it.
pub fn is_turned(across: u32, words: &str) -> bool {
    across.saturating_add(GAP).saturating_add(width_of(words)) > WORDS_RIGHT
}

/// From where to where a mark and its words reach.
fn extent(across: u32, words: &str) -> (u32, u32) {
    let width = width_of(words).saturating_add(GAP);
    if is_turned(across, words) {
        (across.saturating_sub(width), across.saturating_add(GAP))
    } else {
        (across.saturating_sub(GAP), across.saturating_add(width))
    }
}

/// The lanes of a scenario, without a place yet.
fn list_lanes(alloc: Global, scenario: &Scenario) -> AllocResult<Vec<Lane>> {
    let mut lanes = Vec::new(alloc);
    for _ in 0..lane_of(Sender::Group(scenario.group_count())) {
        lanes.push(Lane {
            is_used: false,
            y: 0,
            above: Rows::new(alloc),
            below: Rows::new(alloc),
        })?;
    }
    Ok(lanes)
}

/// No row for each of so many words.
fn no_rows(alloc: Global, count: usize) -> AllocResult<Vec<Option<usize>>> {
    let mut rows = Vec::with_capacity(alloc, count)?;
    for _ in 0..count {
        rows.push(None)?;
    }
    Ok(rows)
}

/// Notes the row of words, if there is a place for it.
fn set(rows: &mut Vec<Option<usize>>, number: usize, row: Option<usize>) {
    if let Some(place) = rows.get_mut(number) {
        *place = row;
    }
}

/// Whether the target begins to wait at a mark: that of its commit.
fn is_begun(wait: &Mark, mark: &Mark) -> bool {
    mark.kind == MarkKind::Commit && mark.message == wait.message && mark.lane == wait.lane
}

/// How high the rows on a side of a lane are.
fn height(rows: &Rows) -> u32 {
    let count = u32::try_from(rows.count()).unwrap_or(u32::MAX);
    count.saturating_mul(ROW).saturating_add(60)
}
