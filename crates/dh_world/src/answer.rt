//! What accepted commands answer, and the JSON of an answer.
ghost use Rattle.std.specs.Prelude.{◌≡◌, ◌≢◌, IfOk, IfSome, IsSome, Some, None, option_map, option_and_then, string_bytes};
ghost use Rattle.std.specs.List.{find};
ghost use Rattle.serde_json.specs.Read.{read};
ghost use Rattle.serde_json.specs.View.{view};
ghost use Rattle.serde_json.specs.Find.{get, as_bool};
ghost use Rattle.dh_world.specs.Answers as spec;

use dh_texts::{Slug, TextFault};
use serde_json::{Value, json};
use std::alloc::{AllocError, Global};

/// What an accepted command answers.
#[derive(Drop)]
pub enum Answer {
    Done,
    /// A push made this version; its flags are as the rules left them.
    Made {
        slug: Slug,
        active: bool,
        hidden: bool,
        private: bool,
    },
    /// The version of a push was there already.
    Known {
        slug: Slug,
    },
    /// An upload stored this many pages.
    Stored {
        pages: u32,
    },
    /// An import added this many redirects.
    Added {
        count: u32,
    },
}

impl Answer {
    /// The answer as a JSON object: compact, its keys in the order of their bytes.
    pub fn json(&self, alloc: Global) -> Result<String, AllocError>
        requires { IsSome (spec.json_of self.now) }
        ensures { IfOk result (λ text. spec.json_of self.now ≡ Some (string_bytes text)) }
    {
        value_of(alloc, self)?.to_string(alloc)
    }

    /// Reads the answer whose JSON the text is, byte for byte; None where no answer has this JSON.
    pub fn read(alloc: Global, text: &str) -> Result<Option<Answer>, AllocError>
        ensures some { IfOk result (λ o. IfSome o (λ a. spec.IsAnswer a × (spec.json_of a ≡ Some text.now))) }
        ensures none { IfOk result (λ o. o ≡ None → (a : Answer) → spec.IsAnswer a → spec.json_of a ≢ Some text.now) }
    {
        match Value::from_str(alloc, text) {
            Ok(value) => read_exactly(alloc, &value, text),
            Err(error) => {
                if error.is_memory() {
                    Err(AllocError)
                } else {
                    Ok(None)
                }
            }
        }
    }
}

fn value_of(alloc: Global, answer: &Answer) -> Result<Value, AllocError>
    requires { IsSome (spec.json_of answer.now) }
    ensures { IfOk result (λ v. spec.data_of answer.now ≡ Some (view v)) }
{
    match answer {
        Answer::Done | Answer::Added { .. } => unreachable!(),
        Answer::Made {
            slug,
            active,
            hidden,
            private,
        } => {
            json!(in alloc; {"active": *active, "answer": "made", "hidden": *hidden, "private": *private, "slug": slug.as_str()})
        }
        Answer::Known { slug } => json!(in alloc; {"answer": "known", "slug": slug.as_str()}),
        Answer::Stored { pages } => json!(in alloc; {"answer": "stored", "pages": *pages}),
    }
}

fn text_in<'a>(value: &'a Value, key: &str) -> Option<&'a str>
    ensures { option_map (λ s. s.now) result ≡ spec.text_at key.now (view value.now) }
{
    value.get(key)?.as_str()
}

fn flag_in(value: &Value, key: &str) -> Option<bool>
    ensures { result ≡ option_and_then as_bool (get key.now (view value.now)) }
{
    value.get(key)?.as_bool()
}

/// The slug of the object, where it has one.
fn slug_in(alloc: Global, value: &Value) -> Result<Option<Slug>, AllocError>
    ensures { IfOk result (λ o. o ≡ spec.answered_slug (view value.now)) }
{
    match text_in(value, "slug") {
        Some(text) => match Slug::parse(alloc, text) {
            Ok(slug) => Ok(Some(slug)),
            Err(TextFault::Memory) => Err(AllocError),
            Err(_) => Ok(None),
        },
        None => Ok(None),
    }
}

fn made_in(alloc: Global, value: &Value) -> Result<Option<Answer>, AllocError>
    ensures { IfOk result (λ o. o ≡ spec.made_in (view value.now)) }
{
    match (
        slug_in(alloc, value)?,
        flag_in(value, "active"),
        flag_in(value, "hidden"),
        flag_in(value, "private"),
    ) {
        (Some(slug), Some(active), Some(hidden), Some(private)) => Ok(Some(Answer::Made {
            slug,
            active,
            hidden,
            private,
        })),
        _ => Ok(None),
    }
}

fn known_in(alloc: Global, value: &Value) -> Result<Option<Answer>, AllocError>
    ensures { IfOk result (λ o. o ≡ option_map Answer.Known (spec.answered_slug (view value.now))) }
{
    Ok(slug_in(alloc, value)?.map(|slug| Answer::Known { slug }))
}

fn stored_in(value: &Value) -> Option<Answer>
    ensures { result ≡ option_map Answer.Stored (spec.pages_in (view value.now)) }
{
    let pages = value.get("pages")?.as_u64()?;
    if pages > u64::from(u32::MAX) {
        return None;
    }
    Some(Answer::Stored {
        pages: pages as u32,
    })
}

fn answer_in(alloc: Global, value: &Value) -> Result<Option<Answer>, AllocError>
    ensures { IfOk result (λ o. o ≡ spec.answer_in (view value.now)) }
{
    match text_in(value, "answer") {
        Some("made") => made_in(alloc, value),
        Some("known") => known_in(alloc, value),
        Some("stored") => Ok(stored_in(value)),
        _ => Ok(None),
    }
}

/// The answer that an object reads as, if the answer's JSON is the text.
fn read_exactly(alloc: Global, value: &Value, text: &str) -> Result<Option<Answer>, AllocError>
    requires { read text.now ≡ Some (view value.now) }
    ensures some { IfOk result (λ o. IfSome o (λ a. spec.IsAnswer a × (spec.json_of a ≡ Some text.now))) }
    ensures none { IfOk result (λ o. o ≡ None → (a : Answer) → spec.IsAnswer a → spec.json_of a ≢ Some text.now) }
{
    let Some(answer) = answer_in(alloc, value)? else {
        return Ok(None);
    };
    if answer.json(alloc)?.as_str() == text {
        Ok(Some(answer))
    } else {
        Ok(None)
    }
}
