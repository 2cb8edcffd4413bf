use convoy_scenario_lines::Version as LinesVersion;

/// A version of the text of a certificate (docs/FORMATS.md, "Certificate text").
#[derive(Clone, Copy, PartialEq, Eq)]
pub enum Version {
    /// A scenario in whole ticks in which no message may wait, without links and named places, and a tree
    /// of splits, bound leaves and point leaves.
    One,
    /// A scenario in whole ticks in which no message may wait, no group's own stamps take time, and no
    /// place has a name: lines `link` and stamp leaves may stand in the text, and one of them does.
    Two,
    /// Such a scenario: lead leaves may stand in the text too, and one of them does.
    Three,
    /// A scenario in real time, with a schedule with an order of ties and a tree of splits of delays,
    /// bound leaves and lead leaves; or one in whole ticks in which some message may wait, some group's
    /// own stamps take time, or places have names, with a tree of such splits and all kinds of leaves. The
    /// target does not wait.
    Four,
    /// A scenario in real time, with such a schedule: splits by order and point leaves may stand in the
    /// tree too, and one of them does. Or a scenario in which the target may wait: in real time with such a
    /// tree, and in whole ticks with one as in version 4.
    Five,
}

impl Version {
    ghost use Rattle.std.specs.Prelude.{◌≡◌};
    ghost use Rattle.convoy_certificate.specs.Text.{lines_version};

    /// The version of the lines of the scenario in such a text.
    pub fn of_lines(self) -> LinesVersion
        ensures { result ≡ lines_version self }
    {
        match self {
            Version::One => LinesVersion::One,
            Version::Two | Version::Three => LinesVersion::Two,
            Version::Four | Version::Five => LinesVersion::Three,
        }
    }
}
