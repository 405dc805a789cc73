//! Why a text is no task.

ghost use Rattle.std.specs.Prelude.{◌≡◌};
ghost use Rattle.sas_reader.specs.Places.{text};
ghost use Rattle.lists.specs.declared.stop.Stop.TheVariants as stops;

use lists::Stop;

/// A section of the text. What stands after the last one is at its end.
#[derive(Clone, Copy)]
pub enum SasPlace {
    Version,
    Metric,
    Variables,
    Groups,
    State,
    Goal,
    Operators,
    Rules,
    End,
}

impl SasPlace {
    /// What is printed where a line of this section breaks its rule. It takes no memory.
    pub fn text(self) -> &'static str
        ensures { result.now ≡ text self }
    {
        match self {
            SasPlace::Version => "malformed version",
            SasPlace::Metric => "malformed metric",
            SasPlace::Variables => "malformed variable",
            SasPlace::Groups => "malformed mutex group",
            SasPlace::State => "malformed state",
            SasPlace::Goal => "malformed goal",
            SasPlace::Operators => "malformed operator",
            SasPlace::Rules => "malformed rule",
            SasPlace::End => "text after the end",
        }
    }
}

/// The first line that breaks its rule, counted from 1, and its section.
#[derive(Clone, Copy)]
pub struct SasFault {
    pub line: u64,
    pub place: SasPlace,
}

impl From<SasFault> for Stop<SasFault> {
    ghost from_gives = { λ fault stop. stop ≡ stops.Fault fault };

    fn from(fault: SasFault) -> Stop<SasFault> {
        Stop::Fault(fault)
    }
}
