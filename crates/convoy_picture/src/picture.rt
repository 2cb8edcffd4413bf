ghost use Rattle.std.specs.Prelude.{◌≡◌, IfOk};
ghost use Rattle.convoy_picture.specs.Pictures.{flights_of, issues_of, picture_of};
ghost use Rattle.convoy_packets.specs.Assignment.{IsAssignment};
ghost use Rattle.convoy_packets.specs.Packets.{is_wait};
ghost use Rattle.convoy_sim.specs.Run.{IsRunOf};

use super::flight::{Flight, flight_of};
use convoy_packets::{Instance, Packet, Schedule};
use convoy_scenario::AllocResult;
use convoy_sim::Run;
use convoy_timeline::{Entry, Explanation, entries_of, explain, issue_of};
use std::alloc::Global;
use std::marker::Model;

/// What is drawn of a run of a scenario, as plain numbers: messages and groups go by their numbers in
/// the scenario, times are in ticks from the start of the run.
#[derive(Drop)]
pub struct Picture {
    flights: Vec<Flight>,
    issues: Vec<u32>,
    entries: Vec<Entry>,
    why: Explanation,
}

impl Model for Picture {
    ghost use Rattle.convoy_picture.specs.Pictures.{Picture};

    ghost Value = { Picture };

    ghost view = { λ p. record {
      flights = p.flights.items;
      issues = p.issues.items;
      entries = p.entries.items;
      why = p.why;
    } };
}

impl Picture {
    /// The picture of the run of an instance under a schedule. Fails where memory runs out, and else
    /// never.
    pub fn of(
        alloc: Global,
        instance: &Instance,
        schedule: &Schedule,
        run: &Run,
    ) -> AllocResult<Picture>
        requires assignment { IsAssignment instance.now schedule.now }
        requires run { IsRunOf instance.now schedule.now run.now }
        ensures { IfOk result (λ picture. picture ≡ picture_of instance.now schedule.now) }
    {
        Ok(Picture {
            flights: list_flights(alloc, instance, schedule)?,
            issues: list_issues(alloc, instance, schedule)?,
            entries: entries_of(alloc, instance.scenario(), run)?,
            why: explain(instance, schedule, run),
        })
    }

    /// Each packet that travels, on its way, in packet order.
    pub fn flights(&self) -> &[Flight]
        ensures { result.now ≡ self.now.flights }
    {
        self.flights.as_slice()
    }

    /// The tick at which each message is issued, by the number of the message.
    pub fn issues(&self) -> &[u32]
        ensures { result.now ≡ self.now.issues }
    {
        self.issues.as_slice()
    }

    /// What happens at each group, in the order of the timeline.
    pub fn entries(&self) -> &[Entry]
        ensures { result.now ≡ self.now.entries }
    {
        self.entries.as_slice()
    }

    /// Why the target is delivered when it is: the ticks of its commit and its delivery, and the message
    /// that holds it back.
    pub fn why(&self) -> &Explanation
        ensures { result.now ≡ self.now.why }
    {
        &self.why
    }
}

/// The flights of all packets that travel.
fn list_flights(alloc: Global, instance: &Instance, schedule: &Schedule) -> AllocResult<Vec<Flight>>
    ensures { IfOk result (λ flights. flights.items ≡ flights_of instance.now schedule.now) }
{
    let table = instance.table();
    let mut flights = Vec::with_capacity(alloc, table.len())?;
    for number in 0..table.len() {
        let packet = table.packet(number);
        if !is_wait(packet) {
            flights.push(flight_of(instance, schedule, number, packet))?;
        }
    }
    Ok(flights)
}

/// Whether it is the wait of a message before its issue, which goes nowhere.
fn is_wait(packet: Packet) -> bool
    ensures { result ≡ is_wait packet }
{
    match packet {
        Packet::Wait { .. } => true,
        Packet::Multicast { .. } | Packet::Propose { .. } => false,
    }
}

/// The tick at which each message is issued.
fn list_issues(alloc: Global, instance: &Instance, schedule: &Schedule) -> AllocResult<Vec<u32>>
    ensures { IfOk result (λ issues. issues.items ≡ issues_of instance.now schedule.now) }
{
    let mut issues = Vec::new(alloc);
    for message in 0..instance.message_count() {
        issues.push(issue_of(instance, schedule, message))?;
    }
    Ok(issues)
}
