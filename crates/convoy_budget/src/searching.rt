//! The search for the greatest breadth of a range with which a deadline is kept.

ghost use Rattle.std.specs.Prelude.{◌≡◌, ℕ, ◌+◌, ◌-◌, ◌<◌, Ok, IfOk, IfErr};
ghost use Rattle.convoy_budget.specs.Brackets.{IsBracket, verdict_if};
ghost use Rattle.convoy_budget.specs.Rooms.{HasFailed, IsEdge, IsRoomBy};

use super::kinds::Room;
use convoy_commands::Verdict;
use convoy_scenario::ScenarioFault;

/// Two breadths: with the one a deadline is kept, and with the other, wider one it is beyond it or undecided.
#[derive(Clone, Copy)]
pub(crate) struct Bracket {
    pub kept: u16,
    pub wide: u16,
    pub is_beyond: bool,
}

/// How wide a range may get, up to the breadth `widest`, by a caller's own `judge`, which is asked about breadths: first
/// about the widest, then about that of today, and then about those between one with which the deadline is kept and one
/// with which it is not, each time about the middle. That `judge` cannot tell counts as not kept. The room is told by
/// what `judge` answers for one breadth, or for two that lie side by side. Fails with the first fault that it answers.
pub fn room_by<F: Fn(u16) -> Result<Verdict, ScenarioFault>>(
    widest: u16,
    today: u16,
    judge: F,
) -> Result<Room, ScenarioFault>
    requires { F.IsAlwaysCallable judge }
    ensures room { IfOk result (IsRoomBy (F.post judge) widest) }
    ensures err { IfErr result (HasFailed (F.post judge)) }
{
    match judge(widest) {
        Ok(Verdict::Within) => Ok(Room::Any),
        Ok(Verdict::Beyond) => room_below(widest, true, today, &judge),
        Ok(Verdict::Undecided) => room_below(widest, false, today, &judge),
        Err(fault) => Err(fault),
    }
}

/// The room below a breadth with which the deadline is not kept: that of today is asked first.
fn room_below<F: Fn(u16) -> Result<Verdict, ScenarioFault>>(
    wide: u16,
    is_beyond: bool,
    today: u16,
    judge: &F,
) -> Result<Room, ScenarioFault>
    requires callable { F.IsAlwaysCallable judge.now }
    requires wide { F.post judge.now wide (Ok (verdict_if is_beyond)) }
    ensures room { (widest : ℕ) → IfOk result (IsRoomBy (F.post judge.now) widest) }
    ensures err { IfErr result (HasFailed (F.post judge.now)) }
{
    if today == 0 || wide <= today {
        return room_from_point(wide, is_beyond, judge);
    }
    match judge(today) {
        Ok(Verdict::Within) => room_between(
            Bracket {
                kept: today,
                wide,
                is_beyond,
            },
            judge,
        ),
        Ok(Verdict::Beyond) => room_from_point(today, true, judge),
        Ok(Verdict::Undecided) => room_from_point(today, false, judge),
        Err(fault) => Err(fault),
    }
}

/// The room below a breadth with which the deadline is not kept, where nothing is known of any below it.
fn room_from_point<F: Fn(u16) -> Result<Verdict, ScenarioFault>>(
    wide: u16,
    is_beyond: bool,
    judge: &F,
) -> Result<Room, ScenarioFault>
    requires callable { F.IsAlwaysCallable judge.now }
    requires wide { F.post judge.now wide (Ok (verdict_if is_beyond)) }
    ensures room { (widest : ℕ) → IfOk result (IsRoomBy (F.post judge.now) widest) }
    ensures err { IfErr result (HasFailed (F.post judge.now)) }
{
    if wide == 0 {
        return Ok(if is_beyond {
            Room::Never
        } else {
            Room::Unknown
        });
    }
    match judge(0) {
        Ok(Verdict::Within) => room_between(
            Bracket {
                kept: 0,
                wide,
                is_beyond,
            },
            judge,
        ),
        Ok(Verdict::Beyond) => Ok(Room::Never),
        Ok(Verdict::Undecided) => Ok(Room::Unknown),
        Err(fault) => Err(fault),
    }
}

/// The room between two breadths.
fn room_between<F: Fn(u16) -> Result<Verdict, ScenarioFault>>(
    bracket: Bracket,
    judge: &F,
) -> Result<Room, ScenarioFault>
    requires callable { F.IsAlwaysCallable judge.now }
    requires bracket { IsBracket (F.post judge.now) bracket }
    ensures room { (widest : ℕ) → IfOk result (IsRoomBy (F.post judge.now) widest) }
    ensures err { IfErr result (HasFailed (F.post judge.now)) }
{
    let mut bracket = bracket;
    while 1 < bracket.wide - bracket.kept {
        bracket = halved(bracket, judge)?;
    }
    let breadth = bracket.kept;
    Ok(if bracket.is_beyond {
        Room::Until { breadth }
    } else {
        Room::AtLeast { breadth }
    })
}

/// The half of a bracket in which the greatest breadth lies with which the deadline is kept.
fn halved<F: Fn(u16) -> Result<Verdict, ScenarioFault>>(
    bracket: Bracket,
    judge: &F,
) -> Result<Bracket, ScenarioFault>
    requires callable { F.IsAlwaysCallable judge.now }
    requires bracket { IsBracket (F.post judge.now) bracket }
    requires apart { 1 < bracket.wide - bracket.kept }
    ensures bracket { IfOk result (IsBracket (F.post judge.now)) }
    ensures less { IfOk result (λ half. half.wide - half.kept < bracket.wide - bracket.kept) }
    ensures err { IfErr result (HasFailed (F.post judge.now)) }
{
    let middle = bracket.kept + (bracket.wide - bracket.kept) / 2;
    match judge(middle) {
        Ok(Verdict::Within) => Ok(Bracket {
            kept: middle,
            ..bracket
        }),
        Ok(Verdict::Beyond) => Ok(Bracket {
            wide: middle,
            is_beyond: true,
            ..bracket
        }),
        Ok(Verdict::Undecided) => Ok(Bracket {
            wide: middle,
            is_beyond: false,
            ..bracket
        }),
        Err(fault) => Err(fault),
    }
}
