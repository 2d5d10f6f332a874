//! What of a request or an order a line may tell.

ghost use Rattle.std.specs.Prelude.{◌≡◌, IfOk, option_map};
ghost use Rattle.dh_world.specs.Refusals.{refusal_number};
ghost use Rattle.dh_log.specs.Subjects as spec;
ghost use Rattle.dh_log.specs.Subjects.{IsOrderSubject, IsPostSubject, IsSubject, NotesNothing, NotesPost};

use crate::entry::Level;
use dh_texts::Text;
use dh_world::{Command, CommandChange, Refusal};
use std::alloc::{AllocError, Global};

/// What a POST or an order asks for, as far as a line may tell it: there is no place for a key or a pass.
#[derive(Drop)]
pub struct Subject {
    /// The path of the POST, or the word of the order.
    pub name: &'static str,
    pub host: Text,
    /// The slug of the version that it is about, or the name of a branch or tag; empty where it is about none.
    pub slug: Text,
}

/// What is noted of a request while it is answered.
#[derive(Drop)]
pub struct Note {
    /// What it asks for, where it is a command, and memory was there.
    pub subject: Option<Subject>,
    /// The number of its refusal, where it is a command that was refused.
    pub refusal: Option<u8>,
}

/// What is noted of a message of the control socket while it is answered.
#[derive(Drop)]
pub struct Ordered {
    pub level: Level,
    /// How it ended, in one word.
    pub outcome: &'static str,
    /// Why its order was refused, in one word; empty where it was not.
    pub cause: &'static str,
    /// What it asks for, where that is known, is wanted, and memory was there.
    pub subject: Option<Subject>,
}

/// The word of a command.
fn word_of(change: &CommandChange) -> &'static str
    ensures { result.now ≡ spec.word_of change.now }
{
    match change {
        CommandChange::NewProject { .. } => "new-project",
        CommandChange::AddLang { .. } => "add-lang",
        CommandChange::Push { .. } => "push",
        CommandChange::Upload { .. } => "upload",
        CommandChange::Activate { .. } => "activate",
        CommandChange::Deactivate { .. } => "deactivate",
        CommandChange::Hide { .. } => "hide",
        CommandChange::Unhide { .. } => "unhide",
        CommandChange::Publish { .. } => "publish",
        CommandChange::MakePrivate { .. } => "make-private",
        CommandChange::Gone { .. } => "gone",
        CommandChange::SetDefault { .. } => "set-default",
        CommandChange::AddRule { .. } => "add-rule",
        CommandChange::DropRule { .. } => "drop-rule",
        CommandChange::AddRedirect { .. } => "add-redirect",
        CommandChange::DropRedirect { .. } => "drop-redirect",
        CommandChange::ImportRedirects { .. } => "import",
        CommandChange::AddPass { .. } => "add-pass",
        CommandChange::DropPass { .. } => "drop-pass",
        CommandChange::Grant { .. } => "grant",
        CommandChange::Revoke { .. } => "revoke",
    }
}

/// The path of the POST that asks for a command; empty where none does.
fn path_of(change: &CommandChange) -> &'static str
    ensures { result.now ≡ spec.path_of change.now }
{
    match change {
        CommandChange::Push { .. } => "/_/push",
        CommandChange::Upload { .. } => "/_/upload",
        _ => "",
    }
}

/// The version that a command is about: its slug, or the name of a branch or tag; empty where it is about none.
fn version_of(change: &CommandChange) -> &str
    ensures { result.now ≡ spec.version_of change.now }
{
    match change {
        CommandChange::Push { name, .. } | CommandChange::SetDefault { name } => name.as_str(),
        CommandChange::Upload { slug, .. }
        | CommandChange::Activate { slug }
        | CommandChange::Deactivate { slug }
        | CommandChange::Hide { slug }
        | CommandChange::Unhide { slug }
        | CommandChange::Publish { slug }
        | CommandChange::MakePrivate { slug }
        | CommandChange::Gone { slug }
        | CommandChange::Grant { slug, .. }
        | CommandChange::Revoke { slug, .. } => slug.as_str(),
        _ => "",
    }
}

impl Subject {
    /// Makes the subject of this name, host and version.
    pub fn new(
        alloc: Global,
        name: &'static str,
        host: &str,
        slug: &str,
    ) -> Result<Subject, AllocError>
        ensures { IfOk result (IsSubject name.now host.now slug.now) }
    {
        Ok(Subject {
            name,
            host: Text::copy_of(alloc, host)?,
            slug: Text::copy_of(alloc, slug)?,
        })
    }
}

/// Makes the subject of an order that is a command.
pub fn order_subject(alloc: Global, command: &Command) -> Result<Subject, AllocError>
    ensures { IfOk result (IsOrderSubject command.now) }
{
    let change = &command.change;
    Subject::new(
        alloc,
        word_of(change),
        command.host.as_str(),
        version_of(change),
    )
}

/// Makes the subject of a POST that is a command.
fn post_subject(alloc: Global, command: &Command) -> Result<Subject, AllocError>
    ensures { IfOk result (IsPostSubject command.now) }
{
    let change = &command.change;
    Subject::new(
        alloc,
        path_of(change),
        command.host.as_str(),
        version_of(change),
    )
}

fn number_of(refusal: Option<Refusal>) -> Option<u8>
    ensures { result ≡ option_map refusal_number refusal }
{
    Some(refusal?.number())
}

impl Note {
    /// Notes nothing.
    pub fn nothing() -> Note
        ensures { NotesNothing result }
    {
        Note {
            subject: None,
            refusal: None,
        }
    }

    /// Notes a POST that is a command, and why it was refused, where it was.
    pub fn of_post(alloc: Global, command: &Command, refusal: Option<Refusal>) -> Note
        ensures { NotesPost command.now refusal result }
    {
        Note {
            subject: post_subject(alloc, command).ok(),
            refusal: number_of(refusal),
        }
    }
}
