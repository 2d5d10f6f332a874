//! The sample project in a desk.

ghost use Rattle.std.specs.Prelude.{◌≡◌, ◌∷◌, ◌++◌, [], IfOk};
ghost use Rattle.dh_world.specs.Step.{IsStep};
ghost use Rattle.dh_http.specs.Desk.{world, WorldGoesBy};
ghost use Rattle.dh_sample.specs.SampleWorld.{uploaded_page, sample_uploads, of_sample, make_sample, push_sample, upload_sample, sample_world, AddsSample};
ghost use Rattle.std.specs.FinMap.{empty};
ghost use Rattle.sqlite.specs.Steps.{over_memory};

use dh_http::{Answer, Command, CommandChange, Desk, Pages, Refusal, UploadedPage};
use dh_ports::Fault;
use dh_tables::Tables;
use dh_texts::{Bytes, Text};
use dh_versions::Kind;
use sqlite::{Alter, MemStore};
use std::alloc::{AllocError, Global};

const HOST: &str = "docs.test";

const WRITE_KEY: &str = "sample-key";

/// The media type of each page.
const HTML: &str = "text/html; charset=utf-8";

/// The command that asks for this change of the sample's project.
fn command(alloc: Global, change: CommandChange) -> Result<Command, AllocError>
    ensures { IfOk result (λ command. command ≡ of_sample change) }
{
    let host = Text::copy_of(alloc, HOST)?;
    Ok(Command { host, change })
}

fn make_command(alloc: Global) -> Result<Command, AllocError>
    ensures { IfOk result (λ command. command ≡ make_sample) }
{
    let change = CommandChange::NewProject {
        lang: Text::copy_of(alloc, "en")?,
        branch: Text::copy_of(alloc, "main")?,
        private: false,
        wkey: Text::copy_of(alloc, WRITE_KEY)?,
    };
    command(alloc, change)
}

fn push_command(alloc: Global) -> Result<Command, AllocError>
    ensures { IfOk result (λ command. command ≡ push_sample) }
{
    let change = CommandChange::Push {
        wkey: Text::copy_of(alloc, WRITE_KEY)?,
        key: Text::copy_of(alloc, "s1")?,
        kind: Kind::Branch,
        name: Text::copy_of(alloc, "main")?,
    };
    command(alloc, change)
}

/// The body of a page: the text and LF.
fn body(alloc: Global, text: &str) -> Result<Bytes, AllocError>
    ensures { IfOk result (λ body. body ≡ text.now ++ 10 ∷ []) }
{
    let mut bytes = Vec::from_slice(alloc, text.as_bytes())?;
    bytes.push(b'\n')?;
    Ok(Bytes::wrap(bytes))
}

fn page(alloc: Global, path: &str, text: &str) -> Result<UploadedPage, AllocError>
    ensures { IfOk result (λ page. page ≡ uploaded_page path.now text.now) }
{
    Ok(UploadedPage {
        path: Text::copy_of(alloc, path)?,
        media: Text::copy_of(alloc, HTML)?,
        body: body(alloc, text)?,
    })
}

fn pages(alloc: Global) -> Result<Pages, AllocError>
    ensures { IfOk result (λ pages. pages ≡ sample_uploads) }
{
    let mut pages = Vec::new(alloc);
    pages.push(page(alloc, "index.html", "<h1>Index</h1>")?)?;
    pages.push(page(alloc, "install.html", "<h1>Install</h1>")?)?;
    pages.push(page(alloc, "guide/index.html", "<h1>Guide</h1>")?)?;
    Ok(Pages::wrap(pages))
}

fn upload_command(alloc: Global) -> Result<Command, AllocError>
    ensures { IfOk result (λ command. command ≡ upload_sample) }
{
    let change = CommandChange::Upload {
        wkey: Text::copy_of(alloc, WRITE_KEY)?,
        key: Text::copy_of(alloc, "s2")?,
        slug: Text::copy_of(alloc, "main")?,
        lang: Text::copy_of(alloc, "en")?,
        replace: false,
        pages: pages(alloc)?,
    };
    command(alloc, change)
}

/// Does a command of the sample, and frees it.
fn perform<S: Alter>(alloc: Global, desk: &mut Desk<S>, command: Command) -> Result<Answer, Refusal>
    ensures step { WorldGoesBy S.Store desk.old desk.new
        (λ before after. IsStep before after command result) }
{
    desk.apply(alloc, &command)
}

/// Makes the sample project.
fn make_project<S: Alter>(alloc: Global, desk: &mut Desk<S>) -> Result<Answer, Refusal>
    ensures step { WorldGoesBy S.Store desk.old desk.new
        (λ before after. IsStep before after make_sample result) }
{
    perform(alloc, desk, make_command(alloc)?)
}

/// Pushes its branch.
fn push_branch<S: Alter>(alloc: Global, desk: &mut Desk<S>) -> Result<Answer, Refusal>
    ensures step { WorldGoesBy S.Store desk.old desk.new
        (λ before after. IsStep before after push_sample result) }
{
    perform(alloc, desk, push_command(alloc)?)
}

/// Stores its pages.
fn store_pages<S: Alter>(alloc: Global, desk: &mut Desk<S>) -> Result<Answer, Refusal>
    ensures step { WorldGoesBy S.Store desk.old desk.new
        (λ before after. IsStep before after upload_sample result) }
{
    perform(alloc, desk, upload_command(alloc)?)
}

/// Makes the sample project, pushes its branch and stores its pages, by three commands. Answers the first refusal: what was done
/// before it stays, and the rest is not done.
pub fn fill_sample<S: Alter>(alloc: Global, desk: &mut Desk<S>) -> Result<(), Refusal>
    ensures fills { WorldGoesBy S.Store desk.old desk.new
        (λ before after. AddsSample before after result) }
{
    make_project(alloc, desk)?;
    push_branch(alloc, desk)?;
    store_pages(alloc, desk)?;
    Ok(())
}

/// Makes a desk in memory, with no project.
pub fn empty_desk(alloc: Global) -> Result<Desk<MemStore>, Fault>
    ensures { IfOk result (λ desk. world over_memory desk ≡ empty) }
{
    match Desk::over(alloc, Tables::in_memory(alloc)?) {
        Ok(desk) => Ok(desk),
        Err((fault, _tables)) => Err(fault),
    }
}

/// Makes a desk in memory, with the sample project alone.
pub fn sample_desk(alloc: Global) -> Result<Desk<MemStore>, Refusal>
    ensures { IfOk result (λ desk. world over_memory desk ≡ sample_world) }
{
    let mut desk = empty_desk(alloc)?;
    fill_sample(alloc, &mut desk)?;
    Ok(desk)
}
