//! Why a script is refused.
ghost use Rattle.std.specs.Prelude.{◌≡◌};
ghost use Rattle.rdm_json.specs.Results.{placed};
ghost use Rattle.rdm_json.specs.Words.{reason_word};

use crate::Place;
use std::alloc::{AllocError, AllocFailed};
use std::fmt;

/// What is wrong with a script.
#[derive(Clone, Copy, Debug, PartialEq, Eq)]
pub enum Reason {
    /// More bytes came than a script may have.
    TooLong,
    /// The bytes are no JSON text.
    NotJson,
    /// A value of the wrong kind, a key that is missing, or one that is not known.
    Shape,
    Version,
    /// A number outside its range.
    Limit,
    /// A port that is no rank of the job.
    NoRank,
    /// An instruction that needs an open life, where none is open.
    NoLife,
    /// An open where a life is open.
    OpenTwice,
    /// A connection identifier that the rank opened before.
    RepeatConnid,
    /// All instructions, all regions or all sends together are too many.
    TooBig,
    Frame,
    RankTwice,
    NoComm,
    /// The script asks for what is not built yet.
    Unbuilt,
}

/// The first thing that is wrong with a script, and where.
#[derive(Clone, Copy, Debug, PartialEq, Eq)]
pub struct BadScript {
    pub place: Place,
    pub why: Reason,
}

/// Why no job came of a script.
#[derive(Clone, Copy, Debug, PartialEq, Eq)]
pub enum ScriptRefused {
    Bad(BadScript),
    Memory,
}

impl From<AllocError> for ScriptRefused {
    ghost use Rattle.std.specs.Prelude.{◌≡◌};
    ghost use Rattle.rdm_json.specs.declared.refusal.ScriptRefused.TheVariants.{Memory};

    ghost from_gives = { λ _ e. e ≡ Memory };

    fn from(_: AllocError) -> ScriptRefused {
        ScriptRefused::Memory
    }
}

impl<T: Drop> From<AllocFailed<T>> for ScriptRefused {
    ghost use Rattle.std.specs.Prelude.{◌≡◌};
    ghost use Rattle.rdm_json.specs.declared.refusal.ScriptRefused.TheVariants.{Memory};

    ghost from_gives = { λ _ e. e ≡ Memory };

    fn from(_: AllocFailed<T>) -> ScriptRefused {
        ScriptRefused::Memory
    }
}

impl From<BadScript> for ScriptRefused {
    ghost use Rattle.std.specs.Prelude.{◌≡◌};
    ghost use Rattle.rdm_json.specs.declared.refusal.ScriptRefused.TheVariants.{Bad};

    ghost from_gives = { λ bad e. e ≡ Bad bad };

    fn from(bad: BadScript) -> ScriptRefused {
        ScriptRefused::Bad(bad)
    }
}

/// What is wrong is wrong at this place.
pub fn placed<T>(place: Place, found: Result<T, Reason>) -> Result<T, BadScript>
    ensures { result ≡ placed place found }
{
    match found {
        Ok(value) => Ok(value),
        Err(why) => Err(BadScript { place, why }),
    }
}

impl Reason {
    /// The reason's word.
    pub fn word(self) -> &'static str
        ensures { result.now ≡ reason_word self }
    {
        match self {
            Reason::TooLong => "TooLong",
            Reason::NotJson => "NotJson",
            Reason::Shape => "Shape",
            Reason::Version => "Version",
            Reason::Limit => "Limit",
            Reason::NoRank => "NoRank",
            Reason::NoLife => "NoLife",
            Reason::OpenTwice => "OpenTwice",
            Reason::RepeatConnid => "RepeatConnid",
            Reason::TooBig => "TooBig",
            Reason::Frame => "Frame",
            Reason::RankTwice => "RankTwice",
            Reason::NoComm => "NoComm",
            Reason::Unbuilt => "Unbuilt",
        }
    }
}

impl fmt::Display for BadScript {
    ghost use Rattle.std.specs.Prelude.{Some};
    ghost use Rattle.rdm_json.specs.Words.{bad_text};

    ghost output = { λ bad. Some (bad_text bad) };

    fn fmt<W: fmt::Write>(&self, f: &mut fmt::Formatter<W>) -> fmt::Result {
        let word = self.why.word();
        let place = self.place;
        write!(f, "{word} at {place}")
    }
}
