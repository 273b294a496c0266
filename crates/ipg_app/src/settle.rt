//! What is to be said, settled before anything is written.
ghost use Rattle.std.specs.Prelude.{◌≡◌, ◌<◌, ◌≤◌, ◌^◌, ℕ, List, length, map, option_map, IfOk};
ghost use Rattle.std.specs.String.{string_bytes};
ghost use Rattle.std.specs.List.{AllByRecursion};
ghost use Rattle.ipg_app_text.specs.Early.{IsSaid};
ghost use Rattle.ipg_app_grammar.specs.Explained.{Refuses};
ghost use Rattle.ipg_app_grammar.specs.Followed.{Follows, subject};
ghost use Rattle.ipg_app_text.specs.Lines.{said_of};
ghost use Rattle.ipg_app.specs.Reply.{parse_input, parse, verify, fmt, query, view, picked_view, load, load_in, use_order, order_by, order_of, task_of, Parse};
ghost use Rattle.ipg_app.specs.Reply.{edit, edit_file, edit_input, edits_of, explain, explain_by, explain_text, follow, formats};
ghost use Rattle.ipg_app_text.specs.Settles.{Settles};
ghost use Rattle.ipg_app.specs.Settled.{IsReplied, IsSettled, remember_of, task_seen};
ghost use Rattle.ipg_app_words.specs.Seen as words;
ghost use Rattle.ipg_outside.specs.Files.{Told};
ghost use Rattle.ipg_store_body.specs.Fits.{NestsRule};

use crate::reply::Reply;
use crate::task::Task;
use crate::trial::trial;
use ipg_app_explain::{Source, Subject};
use ipg_app_grammar::checks::{accepted, say_cert, say_check, say_table};
use ipg_app_grammar::covering::say_cover;
use ipg_app_grammar::explaining::{Cleared, clear, explain_text, told};
use ipg_app_grammar::following::follow;
use ipg_app_grammar::formatting::format;
use ipg_app_grammar::helping::{say_formats, say_help, say_version};
use ipg_app_grammar::loading::held_in;
use ipg_app_grammar::verifying::judge;
use ipg_app_text::early::Early;
use ipg_app_text::input::input_in_file;
use ipg_app_text::reasons::read_reason;
use ipg_app_text::said::{Settled, usage};
use ipg_app_text::text::{core_of_text, grammar_of, text_under};
use ipg_app_tree::answering::Room;
use ipg_app_tree::due::Due;
use ipg_app_tree::editing::DueEdits;
use ipg_app_tree::path::path_in;
use ipg_app_tree::script::script_in;
use ipg_app_tree::show::Show;
use ipg_app_words::{Asked, Memo, Wanted, request};
use ipg_core::accepted::{Checked, Core};
use ipg_mach::Remember;
use ipg_outside::Files;
use ipg_read_tokens::ReadFault;
use ipg_store_depth_laws::laws::text_is_shallow;
use std::alloc::{AllocError, Global};

/// Where the words say nothing of the memo and the heap.
const TREE_ROOM: Room = Room {
    remember: Remember::Answers,
    mib: 512,
};

/// The name under which the list of installed formats is read.
const INSTALLED: &str = "@";

/// Answers in order: to the words, to the grammar, and then what the grammar is wanted for.
pub fn settle<F: Files>(alloc: Global, words: &[String], files: &mut F) -> Result<Reply, AllocError>
    ensures settled { IfOk result (IsSettled (F.told files.old) (F.faults files.old) (F.faults files.new) (order_of (map string_bytes words.now))) }
    ensures told { (n : List ℕ) → F.told files.new n ≡ F.told files.old n }
{
    match settle_words(alloc, words, files) {
        Ok(reply) => Ok(reply),
        Err(Early::Said(settled)) => Ok(Reply::Text(settled)),
        Err(Early::Memory) => Err(AllocError),
    }
}

fn settle_words<F: Files>(
    alloc: Global,
    words: &[String],
    files: &mut F,
) -> Result<Reply, Early<Settled>>
    ensures settled { IsReplied (F.told files.old) (F.faults files.old) (F.faults files.new) (order_of (map string_bytes words.now)) result }
    ensures told { (n : List ℕ) → F.told files.new n ≡ F.told files.old n }
{
    match request(alloc, words)? {
        Some(Asked::Use { grammar, task }) => settle_use(alloc, grammar, task_of(task), files),
        Some(
            Asked::Query {
                grammar,
                input,
                path,
            },
        ) => settle_query(alloc, grammar, input, path, files),
        Some(
            Asked::View {
                grammar,
                input,
                path,
                memo,
                mib,
            },
        ) => settle_view(alloc, grammar, input, path, room_of(memo, mib), files),
        Some(Asked::Load { table, input }) => settle_load(alloc, table, input, files),
        Some(Asked::Fmt { grammar }) => Ok(Reply::Text(settle_fmt(alloc, grammar, files)?)),
        Some(Asked::Trial { kind, count }) => Ok(Reply::Text(trial(alloc, kind, count)?)),
        Some(
            Asked::Explain {
                grammar,
                input,
                mib,
            },
        ) => Ok(Reply::Text(settle_explain(alloc, grammar, input, mib, files)?)),
        Some(Asked::Formats) => Ok(Reply::Text(settle_formats(alloc, files)?)),
        Some(Asked::Help { command }) => Ok(Reply::Text(say_help(alloc, command)?)),
        Some(Asked::Version) => Ok(Reply::Text(say_version(alloc)?)),
        None => Ok(Reply::Text(usage(alloc)?)),
    }
}

/// What the words want of a core grammar.
fn task_of(task: Wanted<'_>) -> Task<'_>
    ensures { task_seen result ≡ task_of (words.task_seen task.entry) }
{
    match task {
        Wanted::Parse { input, memo, mib } => shown(input, room_of(memo, mib), Show::Lines),
        Wanted::Rebuild { input } => shown(input, TREE_ROOM, Show::Bytes),
        Wanted::Json { input, memo, mib } => shown(input, room_of(memo, mib), Show::Json),
        Wanted::Check => Task::Check,
        Wanted::Cert => Task::Cert,
        Wanted::Verify { certificate } => Task::Verify { certificate },
        Wanted::Table => Task::Table,
        Wanted::Cover => Task::Cover,
        Wanted::Edit { input, script } => Task::Edit { input, script },
    }
}

/// A parse of which this is shown.
fn shown(input: &str, room: Room, show: Show) -> Task<'_>
    ensures { task_seen result ≡ Parse show input.now }
{
    Task::Parse { input, room, show }
}

/// What a parse may use, by the words.
fn room_of(memo: Memo, mib: u32) -> Room
    ensures remember { result.remember ≡ remember_of memo }
    ensures mib { result.mib ≡ mib }
{
    Room {
        remember: remember(memo),
        mib,
    }
}

/// The path is read before the grammar.
fn settle_query<F: Files>(
    alloc: Global,
    grammar: &str,
    input: &str,
    path: &str,
    files: &mut F,
) -> Result<Reply, Early<Settled>>
    ensures settled { IsReplied (F.told files.old) (F.faults files.old) (F.faults files.new) (query grammar.now input.now path.now) result }
    ensures told { (n : List ℕ) → F.told files.new n ≡ F.told files.old n }
{
    let path = path_in(alloc, path)?;
    settle_use(
        alloc,
        grammar,
        shown(input, TREE_ROOM, Show::Picked(path)),
        files,
    )
}

fn settle_view<F: Files>(
    alloc: Global,
    grammar: &str,
    input: &str,
    path: Option<&str>,
    room: Room,
    files: &mut F,
) -> Result<Reply, Early<Settled>>
    ensures settled { IsReplied (F.told files.old) (F.faults files.old) (F.faults files.new)
        (view grammar.now input.now (option_map (λ text. text.now) path.entry)) result }
    ensures told { (n : List ℕ) → F.told files.new n ≡ F.told files.old n }
{
    match path {
        None => settle_use(alloc, grammar, shown(input, room, Show::View), files),
        Some(path) => settle_picked_view(alloc, grammar, input, path, room, files),
    }
}

/// The path is read before the grammar.
fn settle_picked_view<F: Files>(
    alloc: Global,
    grammar: &str,
    input: &str,
    path: &str,
    room: Room,
    files: &mut F,
) -> Result<Reply, Early<Settled>>
    ensures settled { IsReplied (F.told files.old) (F.faults files.old) (F.faults files.new) (picked_view grammar.now input.now path.now) result }
    ensures told { (n : List ℕ) → F.told files.new n ≡ F.told files.old n }
{
    let path = path_in(alloc, path)?;
    settle_use(
        alloc,
        grammar,
        shown(input, room, Show::PickedView(path)),
        files,
    )
}

fn settle_load<F: Files>(
    alloc: Global,
    table: &str,
    input: &str,
    files: &mut F,
) -> Result<Reply, Early<Settled>>
    ensures settled { IsReplied (F.told files.old) (F.faults files.old) (F.faults files.new) (load table.now input.now) result }
    ensures told { (n : List ℕ) → F.told files.new n ≡ F.told files.old n }
{
    let file = input_in_file(alloc, table, files)?;
    load_in(alloc, &file, input, files)
}

/// An input is parsed by the grammar of a table file.
fn load_in<F: Files>(
    alloc: Global,
    file: &[u8],
    input: &str,
    files: &mut F,
) -> Result<Reply, Early<Settled>>
    ensures settled { IsReplied (F.told files.old) (F.faults files.old) (F.faults files.new) (load_in input.now file.now) result }
    ensures told { (n : List ℕ) → F.told files.new n ≡ F.told files.old n }
{
    let grammar = held_in(alloc, file)?;
    parse_input(alloc, grammar, input, TREE_ROOM, Show::Lines, files)
}

fn settle_use<F: Files>(
    alloc: Global,
    grammar: &str,
    task: Task<'_>,
    files: &mut F,
) -> Result<Reply, Early<Settled>>
    ensures settled { IsReplied (F.told files.old) (F.faults files.old) (F.faults files.new) (use_order grammar.now (task_seen task.entry)) result }
    ensures told { (n : List ℕ) → F.told files.new n ≡ F.told files.old n }
{
    text_is_shallow();
    let text = text_under(alloc, grammar, files)?;
    let core = core_of_text(alloc, &text)?;
    settle_task(alloc, core, task, files)
}

fn settle_fmt<F: Files>(
    alloc: Global,
    grammar: &str,
    files: &mut F,
) -> Result<Settled, Early<Settled>>
    ensures settled { IsSaid result (Settles (F.told files.old) (F.faults files.old) (F.faults files.new) (fmt grammar.now)) }
    ensures told { (n : List ℕ) → F.told files.new n ≡ F.told files.old n }
{
    let text = text_under(alloc, grammar, files)?;
    let grammar = grammar_of(alloc, &text)?;
    Ok(format(alloc, &grammar)?)
}

fn settle_formats<F: Files>(alloc: Global, files: &mut F) -> Result<Settled, Early<Settled>>
    ensures settled { IsSaid result (Settles (F.told files.old) (F.faults files.old) (F.faults files.new) formats) }
    ensures told { (n : List ℕ) → F.told files.new n ≡ F.told files.old n }
{
    let list = input_in_file(alloc, INSTALLED, files)?;
    Ok(say_formats(alloc, &list)?)
}

fn settle_explain<F: Files>(
    alloc: Global,
    grammar: &str,
    input: Option<&str>,
    mib: u32,
    files: &mut F,
) -> Result<Settled, Early<Settled>>
    ensures settled { IsSaid result (Settles (F.told files.old) (F.faults files.old) (F.faults files.new)
        (explain grammar.now (option_map (λ text. text.now) input.entry))) }
    ensures told { (n : List ℕ) → F.told files.new n ≡ F.told files.old n }
{
    let text = text_under(alloc, grammar, files)?;
    match text.bytes() {
        Some(text) => explain_by(alloc, grammar, text, input, mib, files),
        None => Ok(explain_too_long(alloc, grammar)?),
    }
}

/// What is said of a text of which not all was read: no place of it is shown.
fn explain_too_long(alloc: Global, name: &str) -> Result<Settled, AllocError>
    ensures { IfOk result (λ settled. (text : List ℕ) → 2 ^ 20 < length text → Refuses name.now text (said_of settled)) }
{
    let reason = read_reason(alloc, &ReadFault::TooLong)?;
    told(alloc, name, b"", &reason)
}

/// What is said of a text under a name, or of an input by its grammar.
fn explain_by<F: Files>(
    alloc: Global,
    name: &str,
    text: &[u8],
    input: Option<&str>,
    mib: u32,
    files: &mut F,
) -> Result<Settled, Early<Settled>>
    ensures settled { IsSaid result (Settles (F.told files.old) (F.faults files.old) (F.faults files.new)
        (explain_by name.now (option_map (λ text. text.now) input.entry) text.now)) }
    ensures told { (n : List ℕ) → F.told files.new n ≡ F.told files.old n }
{
    match input {
        None => Ok(explain_text(alloc, name, text)?),
        Some(input) => follow_text(alloc, name, text, Followed { input, mib }, files),
    }
}

/// An input that is to be followed, in so many MiB.
#[derive(Clone, Copy)]
struct Followed<'a> {
    input: &'a str,
    mib: u32,
}

/// What is said of an input by the grammar of a text under a name.
fn follow_text<F: Files>(
    alloc: Global,
    name: &str,
    text: &[u8],
    followed: Followed<'_>,
    files: &mut F,
) -> Result<Settled, Early<Settled>>
    ensures settled { IsSaid result (Settles (F.told files.old) (F.faults files.old) (F.faults files.new)
        (explain_text name.now followed.entry.input.now text.now)) }
    ensures told { (n : List ℕ) → F.told files.new n ≡ F.told files.old n }
{
    match clear(alloc, text) {
        Ok(made) => follow_input(alloc, name, text, &made, followed, files),
        Err(Early::Said(reason)) => Ok(told(alloc, name, text, &reason)?),
        Err(Early::Memory) => Err(Early::Memory),
    }
}

fn follow_input<F: Files>(
    alloc: Global,
    name: &str,
    text: &[u8],
    made: &Cleared,
    followed: Followed<'_>,
    files: &mut F,
) -> Result<Settled, Early<Settled>>
    ensures settled { IsSaid result (Settles (F.told files.old) (F.faults files.old) (F.faults files.new)
        (follow name.now text.now followed.entry.input.now (made.now.grammar, made.now.core))) }
    ensures told { (n : List ℕ) → F.told files.new n ≡ F.told files.old n }
{
    let input = input_in_file(alloc, followed.input, files)?;
    Ok(follow_bytes(alloc, name, text, made, &input, followed.mib)?)
}

fn follow_bytes(
    alloc: Global,
    name: &str,
    text: &[u8],
    made: &Cleared,
    input: &[u8],
    mib: u32,
) -> Result<Settled, AllocError>
    requires { length input.now ≤ 2 ^ 30 }
    ensures { IfOk result (λ settled. Follows (subject name.now text.now made.now.grammar input.now) made.now.core (said_of settled)) }
{
    let subject = Subject {
        source: Source {
            name: name.as_bytes(),
            text,
        },
        grammar: &made.grammar,
        input,
    };
    follow(alloc, subject, &made.core, mib)
}

fn settle_task<F: Files>(
    alloc: Global,
    core: Core,
    task: Task<'_>,
    files: &mut F,
) -> Result<Reply, Early<Settled>>
    requires { AllByRecursion NestsRule core.rules }
    ensures settled { IsReplied (F.told files.old) (F.faults files.old) (F.faults files.new) (order_by (task_seen task.entry) core) result }
    ensures told { (n : List ℕ) → F.told files.new n ≡ F.told files.old n }
{
    match task {
        Task::Parse { input, room, show } => parse_by(alloc, core, input, room, show, files),
        Task::Check => Ok(Reply::Text(say_check(alloc, core)?)),
        Task::Cert => Ok(Reply::Text(say_cert(alloc, core)?)),
        Task::Verify { certificate } => {
            Ok(Reply::Text(verify_by(alloc, core, certificate, files)?))
        }
        Task::Table => Ok(Reply::Text(say_table(alloc, core)?)),
        Task::Cover => Ok(Reply::Text(say_cover(alloc, core)?)),
        Task::Edit { input, script } => edit_by(alloc, core, input, script, files),
    }
}

fn remember(memo: Memo) -> Remember
    ensures { result ≡ remember_of memo }
{
    match memo {
        Memo::On => Remember::Answers,
        Memo::Off => Remember::Nothing,
    }
}

fn parse_by<F: Files>(
    alloc: Global,
    core: Core,
    input: &str,
    room: Room,
    show: Show,
    files: &mut F,
) -> Result<Reply, Early<Settled>>
    ensures settled { IsReplied (F.told files.old) (F.faults files.old) (F.faults files.new) (parse show input.now core) result }
    ensures told { (n : List ℕ) → F.told files.new n ≡ F.told files.old n }
{
    let (checked, _) = accepted(alloc, core)?;
    parse_input(alloc, checked, input, room, show, files)
}

fn parse_input<F: Files>(
    alloc: Global,
    grammar: Checked,
    input: &str,
    room: Room,
    show: Show,
    files: &mut F,
) -> Result<Reply, Early<Settled>>
    ensures settled { IsReplied (F.told files.old) (F.faults files.old) (F.faults files.new) (parse_input show input.now grammar) result }
    ensures told { (n : List ℕ) → F.told files.new n ≡ F.told files.old n }
{
    let input = input_in_file(alloc, input, files)?;
    Ok(Reply::Parse(Due {
        grammar,
        input,
        room,
        show,
    }))
}

fn edit_by<F: Files>(
    alloc: Global,
    core: Core,
    input: &str,
    script: &str,
    files: &mut F,
) -> Result<Reply, Early<Settled>>
    ensures settled { IsReplied (F.told files.old) (F.faults files.old) (F.faults files.new) (edit input.now script.now core) result }
    ensures told { (n : List ℕ) → F.told files.new n ≡ F.told files.old n }
{
    let (checked, _) = accepted(alloc, core)?;
    edit_file(alloc, checked, input, script, files)
}

/// The input is read before the script.
fn edit_file<F: Files>(
    alloc: Global,
    grammar: Checked,
    input: &str,
    script: &str,
    files: &mut F,
) -> Result<Reply, Early<Settled>>
    ensures settled { IsReplied (F.told files.old) (F.faults files.old) (F.faults files.new) (edit_file input.now script.now grammar) result }
    ensures told { (n : List ℕ) → F.told files.new n ≡ F.told files.old n }
{
    let input = input_in_file(alloc, input, files)?;
    edit_input(alloc, grammar, input, script, files)
}

fn edit_input<F: Files>(
    alloc: Global,
    grammar: Checked,
    input: Vec<u8>,
    script: &str,
    files: &mut F,
) -> Result<Reply, Early<Settled>>
    requires { length input.items ≤ 2 ^ 30 }
    ensures settled { IsReplied (F.told files.old) (F.faults files.old) (F.faults files.new) (edit_input script.now grammar input.items) result }
    ensures told { (n : List ℕ) → F.told files.new n ≡ F.told files.old n }
{
    let text = input_in_file(alloc, script, files)?;
    edits_of(alloc, grammar, input, &text)
}

/// The edits of a script are to be made.
fn edits_of(
    alloc: Global,
    grammar: Checked,
    input: Vec<u8>,
    text: &[u8],
) -> Result<Reply, Early<Settled>>
    requires { length input.items ≤ 2 ^ 30 }
    ensures { (told : List ℕ → Told) (before after : List ℕ → ℕ) → IsReplied told before after (edits_of text.now grammar input.items) result }
{
    let edits = script_in(alloc, text)?;
    Ok(Reply::Edits(DueEdits {
        grammar,
        input,
        edits,
    }))
}

fn verify_by<F: Files>(
    alloc: Global,
    core: Core,
    certificate: &str,
    files: &mut F,
) -> Result<Settled, Early<Settled>>
    ensures settled { IsSaid result (Settles (F.told files.old) (F.faults files.old) (F.faults files.new) (verify certificate.now core)) }
    ensures told { (n : List ℕ) → F.told files.new n ≡ F.told files.old n }
{
    let text = input_in_file(alloc, certificate, files)?;
    judge(alloc, core, &text)
}
