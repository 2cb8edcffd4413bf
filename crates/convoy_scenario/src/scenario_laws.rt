//! The laws of drafts and of scenarios. Each is the one clause of a function that does nothing; a caller
//! that needs the law calls the function.

ghost use Rattle.convoy_scenario.specs.ScenarioLaws.{DraftsGiveScenarios, ScenariosHaveDrafts, LinksHaveDrafts, TargetsAreGroups, LinksAreFew};
ghost use Rattle.convoy_scenario.specs.ScenarioLaws.{JudgedRulesHold, DifferentNamesAreDistinct, NamesHavePlaces, TargetsAreNamed, OrderedLinksStay, OrderKeepsRanges, OrderKeepsWhatTakesTime, HomesDecideWhatTakesTime};

/// What is made of a draft is a well-formed scenario.
pub fn drafts_give_scenarios()
    ensures { DraftsGiveScenarios }
{}

/// Each well-formed scenario is made of its draft.
pub fn scenarios_have_drafts()
    ensures { ScenariosHaveDrafts }
{}

/// The links of a well-formed scenario are those of its draft, all of them and in their order.
pub fn links_have_drafts()
    ensures { LinksHaveDrafts }
{}

/// The target's group of a well-formed scenario is a group.
pub fn targets_are_groups()
    ensures { TargetsAreGroups }
{}

/// A well-formed scenario has at most `MOST_LINKS` links.
pub fn links_are_few()
    ensures { LinksAreFew }
{}

/// Where no rule of a list has a fault, each of them holds.
pub fn judged_rules_hold()
    ensures { JudgedRulesHold }
{}

/// Names of which no two are the same are distinct.
pub fn different_names_are_distinct()
    ensures { DifferentNamesAreDistinct }
{}

/// A name that is among others stands at its place.
pub fn names_have_places()
    ensures { NamesHavePlaces }
{}

/// The target of what is made of a draft has the names that are written there.
pub fn targets_are_named()
    ensures { TargetsAreNamed }
{}

/// Links that ascend, of which none leads to another place with the whole range, stay as they are where they are put in
/// order.
pub fn ordered_links_stay()
    ensures { OrderedLinksStay }
{}

/// What goes from one place to another has the range of the link that is written between them, and 1 to D
/// where none is, though the links of a scenario stand in order and those with the whole range are left out, but for links
/// to themselves.
pub fn order_keeps_ranges()
    ensures { OrderKeepsRanges }
{}

/// Nor does that change what takes time: a link from a group to itself is never left out.
pub fn order_keeps_what_takes_time()
    ensures { OrderKeepsWhatTakesTime }
{}

/// Two scenarios in which the same groups have links to themselves agree in what takes time.
pub fn homes_decide_what_takes_time()
    ensures { HomesDecideWhatTakesTime }
{}
