//! The call.
ghost use Rattle.std.specs.Prelude.{◌≡◌, [], map};
ghost use Rattle.std.specs.String.{string_bytes};
ghost use Rattle.ipg_app_text.specs.Code.{code_of};
ghost use Rattle.ipg_c.specs.Handed.{words_of, read_words, told_of};
ghost use Rattle.ipg_c.specs.Answered.{Answered, Replies};

use crate::files::{File, Handed};
use crate::page::Page;
use crate::showing::show;
use crate::words::{Word, read};
use ipg_app::run::run;
use ipg_app_text::status::Status;
use std::alloc::Global;

/// What `ipg` answers.
#[derive(Drop)]
struct Answer {
    text: Vec<u8>,
    status: Status,
}

fn out_of_memory(alloc: Global) -> Answer
    ensures text { result.text.items ≡ [] }
    ensures status { result.status ≡ Status.Memory }
{
    Answer {
        text: Vec::new(alloc),
        status: Status::Memory,
    }
}

fn reply(alloc: Global, words: &[String], files: &[File<'_>]) -> Answer
    ensures { Replies (λ name. told_of name files.now) (map string_bytes words.now) result.text.items (code_of result.status) }
{
    let mut handed = Handed { files, faults: 0 };
    let mut page = Page::new(alloc);
    let status = run(alloc, words, &mut handed, &mut page);
    if page.faults > 0 {
        return out_of_memory(alloc);
    }
    Answer {
        text: page.text,
        status,
    }
}

/// What `ipg` answers to words as they were handed over.
fn reply_to(alloc: Global, words: &[Word<'_>], files: &[File<'_>]) -> Answer
    ensures { Replies (λ name. told_of name files.now) (read_words (words_of words.now)) result.text.items (code_of result.status) }
{
    match read(alloc, words) {
        Ok(words) => reply(alloc, words.as_slice(), files),
        Err(_) => out_of_memory(alloc),
    }
}

/// Runs `ipg` with these words (without the program's name) over these files. The text goes to `room` as far as it fits, and `length` tells
/// how many bytes it has; where it has more than `room`, call again with more. Answers the exit status: 0 done, 1 no parse, 2 refused,
/// 3 a number leaves 64 bits, 4 usage, 5 no such file, 7 want of memory (there is no text then), 8 too large, 9 a bad proof.
#[unsafe(no_mangle)]
pub extern "C" fn ipg_run(
    alloc: Global,
    words: &[Word<'_>],
    files: &[File<'_>],
    room: &mut [u8],
    length: &mut u64,
) -> u8
    ensures { Answered words.now files.now room.old room.new length.new result }
{
    let answer = reply_to(alloc, words, files);
    let text = answer.text.as_slice();
    show(text, room);
    *length = text.len() as u64;
    answer.status.code()
}
