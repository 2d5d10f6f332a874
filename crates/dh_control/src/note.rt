//! What of a message a log may tell.

ghost use Rattle.std.specs.Prelude.{◌≡◌, map, string_bytes, IfOk, IfSome};
ghost use Rattle.std.specs.List.{slice_split};
ghost use Rattle.dh_lines.specs.Lines.{line_in};
ghost use Rattle.dh_script.specs.Running.{words_in};
ghost use Rattle.dh_control.specs.Messages as messages;
ghost use Rattle.dh_control.specs.Notes as spec;
ghost use Rattle.dh_control.specs.Notes.{IsFor, IsOfImport, IsOfLine, IsOfList, IsOfOrder, IsOfRest, IsSubjectIn};

use crate::message::{IMPORT, LINE, WORDS, behind, body_of, host_and_list, rest_for, words_of};
use dh_lines::{Order, line_of};
use dh_listings::{ListWord, ProjectList};
use dh_log::{Subject, order_subject};
use dh_script::words_of as words_of_line;
use std::alloc::{AllocError, Global};

/// The word of a list of a project.
fn list_word(list: &ProjectList) -> &'static str
    ensures { result.now ≡ spec.list_word list.now }
{
    match list {
        ProjectList::Langs => "list-langs",
        ProjectList::Versions => "list-versions",
        ProjectList::Defaults => "list-defaults",
        ProjectList::Rules => "list-rules",
        ProjectList::Redirects => "list-redirects",
        ProjectList::Passes => "list-passes",
        ProjectList::Pages { .. } => "list-pages",
    }
}

/// The slug of the version of which a list has the pages; empty for every other list.
fn list_slug(list: &ProjectList) -> &str
    ensures { result.now ≡ spec.list_slug list.now }
{
    match list {
        ProjectList::Pages { slug, .. } => slug.as_str(),
        _ => "",
    }
}

/// Makes the subject of a list word.
fn subject_of_list(alloc: Global, word: &ListWord) -> Result<Subject, AllocError>
    ensures { IfOk result (IsOfList word.now) }
{
    match word {
        ListWord::Projects => Subject::new(alloc, "list-projects", "", ""),
        ListWord::OfProject { host, list } => {
            Subject::new(alloc, list_word(list), host.as_str(), list_slug(list))
        }
        ListWord::Seen { host, .. } => Subject::new(alloc, "list-seen", host.as_str(), ""),
    }
}

/// Makes the subject of an order.
fn subject_of_order(alloc: Global, order: &Order) -> Result<Subject, AllocError>
    ensures { IfOk result (IsOfOrder order.now) }
{
    match order {
        Order::Act(command) => order_subject(alloc, command),
        Order::Get { host, .. } => Subject::new(alloc, "get", host.as_str(), ""),
        Order::Import { host, .. } => Subject::new(alloc, "import", host.as_str(), ""),
        Order::List(word) => subject_of_list(alloc, word),
        Order::Init { .. } => Subject::new(alloc, "init", "", ""),
        Order::Migrate { .. } => Subject::new(alloc, "migrate", "", ""),
        Order::Script => Subject::new(alloc, "script", "", ""),
        Order::Answer => Subject::new(alloc, "answer", "", ""),
        Order::Serve { .. } => Subject::new(alloc, "serve", "", ""),
    }
}

/// Makes the subject of the order of a line, by its words.
fn subject_of_words(alloc: Global, words: &[String]) -> Option<Subject>
    ensures { IfSome result (IsOfLine (line_in (map string_bytes words.now))) }
{
    match line_of(alloc, words) {
        Ok(line) => subject_of_order(alloc, &line.order).ok(),
        Err(_) => None,
    }
}

/// Makes the subject of what was sent as words.
fn subject_of_sent(alloc: Global, sent: &[u8]) -> Option<Subject>
    ensures { IfSome result (IsOfLine (line_in (slice_split messages.is_nul sent.now))) }
{
    let Ok(text) = str::from_utf8(sent) else {
        return None;
    };
    match words_of(alloc, text) {
        Ok(words) => subject_of_words(alloc, words.as_slice()),
        Err(_) => None,
    }
}

/// Makes the subject of what was sent as a line of a script.
fn subject_of_line(alloc: Global, sent: &[u8]) -> Option<Subject>
    ensures { IfSome result (IsOfLine (line_in (words_in sent.now))) }
{
    let Ok(text) = str::from_utf8(sent) else {
        return None;
    };
    match words_of_line(alloc, text) {
        Ok(words) => subject_of_words(alloc, words.as_slice()),
        Err(_) => None,
    }
}

/// Makes the subject of an import that was sent.
fn subject_of_import(alloc: Global, sent: &[u8]) -> Option<Subject>
    ensures { IfSome result (IsOfImport (messages.host_and_list sent.now)) }
{
    let Some((host, _)) = host_and_list(sent) else {
        return None;
    };
    match str::from_utf8(host) {
        Ok(host) => Subject::new(alloc, "import", host, "").ok(),
        Err(_) => None,
    }
}

/// Makes the subject of what stands behind the head of a message.
fn subject_of_rest(alloc: Global, rest: &[u8]) -> Option<Subject>
    ensures { IfSome result (IsOfRest rest.now) }
{
    if let Some(sent) = behind(WORDS, rest) {
        return subject_of_sent(alloc, sent);
    }
    if let Some(line) = behind(LINE, rest) {
        return subject_of_line(alloc, line);
    }
    match behind(IMPORT, rest) {
        Some(sent) => subject_of_import(alloc, sent),
        None => None,
    }
}

/// Makes the subject of the body of a message, where that is for the file of this name.
fn subject_of_body(alloc: Global, file: &str, body: &[u8]) -> Option<Subject>
    ensures { IfSome result (IsFor (messages.rest_for file.now body.now)) }
{
    match rest_for(file, body) {
        Some(rest) => subject_of_rest(alloc, rest),
        None => None,
    }
}

/// Makes the subject of a message for the file of this name. None where it is for another file, or asks for nothing that is known,
/// or memory is out.
pub fn subject_in(alloc: Global, file: &str, message: &[u8]) -> Option<Subject>
    ensures { IfSome result (IsSubjectIn file.now message.now) }
{
    match body_of(message) {
        Some(body) => subject_of_body(alloc, file, body),
        None => None,
    }
}
