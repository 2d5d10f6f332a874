//! What a line of a script prints.

ghost use Rattle.std.specs.Prelude.{◌≡◌, ◌++◌, IfOk, OnOk, string_bytes, unwrap_or, codes};
ghost use Rattle.std.specs.Fmt.{decimal};
ghost use Rattle.dh_script.specs.Outcomes.{active_text, hidden_text, private_text};
ghost use Rattle.dh_script.specs.Outcomes.{text_of_properties, text_of_answer, text_of_refusal};
ghost use Rattle.dh_script.specs.Outcomes.{text_of_reply, text_of_fault, text_of_outcome};
ghost use Rattle.dh_script.specs.Outcomes.{is_refusal as refuses};
ghost use Rattle.dh_script.specs.Reasons.{reason_of as spec_reason};

use crate::reasons::Reason;
use dh_ports::Fault;
use dh_reply::Reply;
use dh_texts::{Slug, Text};
use dh_world::{Answer, Outcome, Refusal};
use std::alloc::{AllocError, Global};

fn active_word(active: bool) -> &'static str
    ensures { result.now ≡ active_text active }
{
    if active { "active" } else { "inactive" }
}

fn hidden_word(hidden: bool) -> &'static str
    ensures { result.now ≡ hidden_text hidden }
{
    if hidden { "hidden" } else { "shown" }
}

fn private_word(private: bool) -> &'static str
    ensures { result.now ≡ private_text private }
{
    if private { "private" } else { "public" }
}

fn put(out: &mut String, text: &str) -> Result<(), AllocError>
    ensures { OnOk result (string_bytes out.new ≡ string_bytes out.old ++ text.now) }
{
    out.push_str(text)
}

fn put_number(alloc: Global, out: &mut String, number: usize) -> Result<(), AllocError>
    ensures { OnOk result (string_bytes out.new ≡ string_bytes out.old ++ decimal number) }
{
    put(out, format!(in alloc; "{number}")?.as_str())
}

fn put_properties(
    out: &mut String,
    active: bool,
    hidden: bool,
    private: bool,
) -> Result<(), AllocError>
    ensures { OnOk result (string_bytes out.new
        ≡ string_bytes out.old ++ text_of_properties active hidden private) }
{
    put(out, active_word(active))?;
    put(out, " ")?;
    put(out, hidden_word(hidden))?;
    put(out, " ")?;
    put(out, private_word(private))
}

fn made_text(
    alloc: Global,
    slug: &Slug,
    active: bool,
    hidden: bool,
    private: bool,
) -> Result<String, AllocError>
    ensures { IfOk result (λ text.
        string_bytes text ≡ text_of_answer (Answer.Made slug.now active hidden private)) }
{
    let mut text = String::from_str(alloc, "made ")?;
    put(&mut text, slug.as_str())?;
    put(&mut text, " ")?;
    put_properties(&mut text, active, hidden, private)?;
    Ok(text)
}

fn known_text(alloc: Global, slug: &Slug) -> Result<String, AllocError>
    ensures { IfOk result (λ text. string_bytes text ≡ text_of_answer (Answer.Known slug.now)) }
{
    let mut text = String::from_str(alloc, "known ")?;
    put(&mut text, slug.as_str())?;
    Ok(text)
}

fn answer_text(alloc: Global, answer: &Answer) -> Result<String, AllocError>
    ensures { IfOk result (λ text. string_bytes text ≡ text_of_answer answer.now) }
{
    match answer {
        Answer::Done => String::from_str(alloc, "ok"),
        Answer::Made {
            slug,
            active,
            hidden,
            private,
        } => made_text(alloc, slug, *active, *hidden, *private),
        Answer::Known { slug } => known_text(alloc, slug),
        Answer::Stored { pages } => format!(in alloc; "stored {pages}"),
        Answer::Added { count } => format!(in alloc; "added {count}"),
    }
}

fn refusal_text(alloc: Global, refusal: Refusal) -> Result<String, AllocError>
    ensures { IfOk result (λ text. string_bytes text ≡ text_of_refusal refusal) }
{
    let mut text = String::from_str(alloc, "refused ")?;
    put_number(alloc, &mut text, usize::from(refusal.number()))?;
    put(&mut text, " ")?;
    put(&mut text, refusal.name())?;
    Ok(text)
}

/// The location, or `-` where there is none.
fn location_text(location: &Option<Text>) -> &str
    ensures { result.now ≡ unwrap_or location.now (codes "-") }
{
    match location {
        Some(location) => location.as_str(),
        None => "-",
    }
}

fn reply_text(alloc: Global, reply: &Reply) -> Result<String, AllocError>
    ensures { IfOk result (λ text. string_bytes text ≡ text_of_reply reply.now) }
{
    let mut text = String::new(alloc);
    put_number(alloc, &mut text, usize::from(reply.status))?;
    put(&mut text, " ")?;
    put(&mut text, location_text(&reply.location))?;
    put(&mut text, " ")?;
    put_number(alloc, &mut text, reply.body.as_slice().len())?;
    Ok(text)
}

fn fault_text(fault: Fault) -> &'static str
    ensures { result.now ≡ text_of_fault fault }
{
    match fault {
        Fault::Store => "failed store",
        Fault::Memory => "failed memory",
    }
}

/// What a line of a script prints for an outcome, without the end of the line.
pub fn outcome_text(alloc: Global, outcome: &Outcome) -> Result<String, AllocError>
    ensures { IfOk result (λ text. string_bytes text ≡ text_of_outcome outcome.now) }
{
    match outcome {
        Outcome::Applied(answer) => answer_text(alloc, answer),
        Outcome::Refused(refusal) => refusal_text(alloc, *refusal),
        Outcome::Replied(reply) => reply_text(alloc, reply),
        Outcome::Failed(fault) => String::from_str(alloc, fault_text(*fault)),
    }
}

/// Whether the outcome is a refusal or a failure.
pub fn is_refusal(outcome: &Outcome) -> bool
    ensures { result ≡ refuses outcome.now }
{
    match outcome {
        Outcome::Applied(_) => false,
        Outcome::Refused(_) => true,
        Outcome::Replied(_) => false,
        Outcome::Failed(_) => true,
    }
}

/// Why the outcome is a refusal or a failure, where it is one.
pub fn reason_of(outcome: &Outcome) -> Option<Reason>
    ensures { result ≡ spec_reason outcome.now }
{
    match outcome {
        Outcome::Applied(_) => None,
        Outcome::Refused(refusal) => Some(Reason::Refused(*refusal)),
        Outcome::Replied(_) => None,
        Outcome::Failed(fault) => Some(Reason::Failed(*fault)),
    }
}
