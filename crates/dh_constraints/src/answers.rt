//! Whether a kept text is read as an answer, however it is spelled: `Answer::read` takes one spelling alone.

ghost use Rattle.std.specs.Prelude.{◌≡◌, IfOk, codes, false, is_some, option_map, option_and_then};
ghost use Rattle.std.specs.Option.{option_map_or};
ghost use Rattle.serde_json.specs.Find.{get, as_number, as_u64};
ghost use Rattle.serde_json.specs.View.{view};
ghost use Rattle.dh_world.specs.Answers as spec;

use dh_texts::{Slug, TextFault};
use dh_world::Operation;
use serde_json::Value;
use std::alloc::{AllocError, Global};

fn text_at<'a>(value: &'a Value, key: &str) -> Option<&'a str>
    ensures { option_map (λ s. s.now) result ≡ spec.text_at key.now (view value.now) }
{
    value.get(key)?.as_str()
}

fn has_flag(value: &Value, key: &str) -> bool
    ensures { result ≡ is_some (spec.flag_at key.now (view value.now)) }
{
    match value.get(key) {
        Some(flag) => flag.as_bool().is_some(),
        None => false,
    }
}

fn has_slug(alloc: Global, value: &Value) -> Result<bool, AllocError>
    ensures { IfOk result (λ b. b ≡ is_some (spec.answered_slug (view value.now))) }
{
    match text_at(value, "slug") {
        Some(text) => match Slug::parse(alloc, text) {
            Ok(_) => Ok(true),
            Err(TextFault::Memory) => Err(AllocError),
            Err(_) => Ok(false),
        },
        None => Ok(false),
    }
}

fn page_count(value: &Value) -> Option<u64>
    ensures { result ≡ option_and_then as_u64
        (option_and_then as_number (get (codes "pages") (view value.now))) }
{
    value.get("pages")?.as_u64()
}

fn has_pages(value: &Value) -> bool
    ensures { result ≡ is_some (spec.pages_in (view value.now)) }
{
    match page_count(value) {
        Some(pages) => pages <= u64::from(u32::MAX),
        None => false,
    }
}

fn is_made(alloc: Global, value: &Value) -> Result<bool, AllocError>
    ensures { IfOk result (λ b. b ≡ is_some (spec.made_in (view value.now))) }
{
    let flags = has_flag(value, "active")
        && has_flag(value, "hidden")
        && has_flag(value, "private");
    Ok(has_slug(alloc, value)? && flags)
}

fn is_answer(alloc: Global, operation: Operation, value: &Value) -> Result<bool, AllocError>
    ensures { IfOk result (λ b. b
        ≡ option_map_or (spec.answers_to operation) (spec.answer_in (view value.now)) false) }
{
    match (operation, text_at(value, "answer")) {
        (Operation::Push, Some("made")) => is_made(alloc, value),
        (Operation::Push, Some("known")) => has_slug(alloc, value),
        (Operation::Upload, Some("stored")) => Ok(has_pages(value)),
        _ => Ok(false),
    }
}

/// Whether the text is read as an answer to the operation, in whatever spelling of its JSON.
pub fn tells_answer(alloc: Global, operation: Operation, text: &str) -> Result<bool, AllocError>
    ensures { IfOk result (λ b. b ≡ spec.tells operation text.now) }
{
    match Value::from_str(alloc, text) {
        Ok(value) => is_answer(alloc, operation, &value),
        Err(error) => {
            if error.is_memory() {
                Err(AllocError)
            } else {
                Ok(false)
            }
        }
    }
}
