//! Why commands are refused.
ghost use Rattle.std.specs.Prelude.{◌≡◌};
ghost use Rattle.dh_world.specs.Refusals.{refusal_number, refusal_name};
ghost use Rattle.dh_world.specs.CheckResults.{refusal_of, refusal_from};
ghost use Rattle.dh_world.specs.declared.refusal.Refusal.TheVariants.{OutOfMemory};

use dh_ports::Fault;
use dh_texts::TextFault;
use std::alloc::AllocError;

/// Why a command was refused.
#[derive(Clone, Copy, Debug, PartialEq, Eq)]
pub enum Refusal {
    /// The host is no `HostName`.
    BadHost,
    /// The language is no `Lang`.
    BadLang,
    /// A branch or tag is no `RefName`, or has no slug; a slug is no `Slug`.
    BadRef,
    /// A page's path is no `PagePath`.
    BadPath,
    /// A page has a wrong media type or size, two pages have one path, or there are too many pages.
    BadPage,
    /// A rule's custom pattern is over 200 bytes, or `regex` refuses it.
    BadPattern,
    /// A redirect has a fault, told by its number.
    BadRedirect(u8),
    /// A pass or a write key is no `Token`.
    BadToken,
    /// A retry key is no `Token`.
    BadKey,
    /// The host has no project.
    NoProject,
    /// The host has a project.
    ProjectTaken,
    /// The write key is not the project's.
    WrongKey,
    /// The project has the language.
    LangTaken,
    /// The project has not the language.
    NoLang,
    /// The project has no version with the slug.
    NoVersion,
    /// Another branch or tag has the slug.
    SlugTaken,
    /// The version is inactive.
    Inactive,
    /// There is no such place in the list.
    BadPlace,
    /// The list is full.
    TooMany,
    /// The project has the pass.
    PassTaken,
    /// The project has not the pass.
    NoPass,
    /// The pattern of the rule at this place was refused when it ran.
    PatternRefused(u32),
    /// The store failed.
    Store,
    /// Out of memory.
    OutOfMemory,
    /// The end of a pass is no `PassEnd`.
    BadUntil,
}

impl Refusal {
    /// The number by which a refusal is told.
    pub fn number(self) -> u8
        ensures { result ≡ refusal_number self }
    {
        match self {
            Refusal::BadHost => 1,
            Refusal::BadLang => 2,
            Refusal::BadRef => 3,
            Refusal::BadPath => 4,
            Refusal::BadPage => 5,
            Refusal::BadPattern => 6,
            Refusal::BadRedirect(_) => 7,
            Refusal::BadToken => 8,
            Refusal::BadKey => 9,
            Refusal::NoProject => 10,
            Refusal::ProjectTaken => 11,
            Refusal::WrongKey => 12,
            Refusal::LangTaken => 13,
            Refusal::NoLang => 14,
            Refusal::NoVersion => 15,
            Refusal::SlugTaken => 16,
            Refusal::Inactive => 17,
            Refusal::BadPlace => 18,
            Refusal::TooMany => 19,
            Refusal::PassTaken => 20,
            Refusal::NoPass => 21,
            Refusal::PatternRefused(_) => 22,
            Refusal::Store => 23,
            Refusal::OutOfMemory => 24,
            Refusal::BadUntil => 25,
        }
    }

    /// The name by which a refusal is told.
    pub fn name(self) -> &'static str
        ensures { result.now ≡ refusal_name self }
    {
        match self {
            Refusal::BadHost => "BadHost",
            Refusal::BadLang => "BadLang",
            Refusal::BadRef => "BadRef",
            Refusal::BadPath => "BadPath",
            Refusal::BadPage => "BadPage",
            Refusal::BadPattern => "BadPattern",
            Refusal::BadRedirect(_) => "BadRedirect",
            Refusal::BadToken => "BadToken",
            Refusal::BadKey => "BadKey",
            Refusal::NoProject => "NoProject",
            Refusal::ProjectTaken => "ProjectTaken",
            Refusal::WrongKey => "WrongKey",
            Refusal::LangTaken => "LangTaken",
            Refusal::NoLang => "NoLang",
            Refusal::NoVersion => "NoVersion",
            Refusal::SlugTaken => "SlugTaken",
            Refusal::Inactive => "Inactive",
            Refusal::BadPlace => "BadPlace",
            Refusal::TooMany => "TooMany",
            Refusal::PassTaken => "PassTaken",
            Refusal::NoPass => "NoPass",
            Refusal::PatternRefused(_) => "PatternRefused",
            Refusal::Store => "Store",
            Refusal::OutOfMemory => "OutOfMemory",
            Refusal::BadUntil => "BadUntil",
        }
    }
}

impl From<TextFault> for Refusal {
    ghost from_gives = { λ fault refusal. refusal ≡ refusal_of fault };

    fn from(fault: TextFault) -> Refusal {
        match fault {
            TextFault::BadHost => Refusal::BadHost,
            TextFault::BadLang => Refusal::BadLang,
            TextFault::BadRef => Refusal::BadRef,
            TextFault::BadPath => Refusal::BadPath,
            TextFault::BadToken => Refusal::BadToken,
            TextFault::BadTarget => Refusal::BadPath,
            TextFault::Memory => Refusal::OutOfMemory,
        }
    }
}

impl From<AllocError> for Refusal {
    ghost from_gives = { λ _ refusal. refusal ≡ OutOfMemory };

    fn from(_refused: AllocError) -> Refusal {
        Refusal::OutOfMemory
    }
}

impl From<Fault> for Refusal {
    ghost from_gives = { λ fault refusal. refusal ≡ refusal_from fault };

    fn from(fault: Fault) -> Refusal {
        match fault {
            Fault::Store => Refusal::Store,
            Fault::Memory => Refusal::OutOfMemory,
        }
    }
}
