//! Real files.
ghost use Rattle.std.specs.Prelude.{◌≡◌, ◌⊎◌, ◌+◌, ◌^◌, ◌<◌, ◌≤◌, length, vec_len, IfOk, IfErr};
ghost use Rattle.std.specs.Io.KnownBytes.{IsAtEnd};
ghost use Rattle.ipg_outside.specs.Files.{AreBytes, ReadWhole, ReadCut, IfTooLarge, Moves, told_by, untold};

use crate::files::{FileFault, Files};
use crate::installed;
use std::alloc::Global;
use std::fs::OpenFile;
use std::io::{self, ErrorKind, Input, Read};
use std::rt::Env;

/// So many bytes are read at once at most, and at least.
const MOST_AT_ONCE: usize = 1 << 16;

const LEAST_AT_ONCE: usize = 1 << 12;

/// Files of the system, of which nothing is told. One count serves all names.
///
/// `-` names the standard input, and `@` the list of installed formats. `@NAME` names the grammar of one, where no file is named so.
#[derive(Drop)]
pub struct DiskFiles<R: std::rt::Files + Env + Input + AllocGlobal + Clone + Drop> {
    rt: R,
    faults: u64,
}

impl<R: std::rt::Files + Env + Input + AllocGlobal + Clone + Drop> DiskFiles<R> {
    /// The files of this machine; no reading has failed yet.
    pub fn new(rt: R) -> DiskFiles<R>
        ensures rt { result.rt ≡ rt }
        ensures faults { result.faults ≡ 0 }
    {
        DiskFiles { rt, faults: 0 }
    }
}

impl<R: std::rt::Files + Env + Input + AllocGlobal + Clone + Drop> Files for DiskFiles<R> {
    ghost told = { λ _ _. untold };

    ghost faults = { λ files _. files.faults };

    fn read_all(&mut self, alloc: Global, name: &str, limit: u64) -> Result<Vec<u8>, FileFault> {
        let answer = read_named(&self.rt, alloc, name, limit);
        if matches!(answer, Err(FileFault::Failed)) {
            self.faults = self.faults.saturating_add(1);
        }
        answer
    }
}

/// Reads what a name stands for.
fn read_named<R: std::rt::Files + Env + Input + AllocGlobal + Clone + Drop>(
    rt: &R,
    alloc: Global,
    name: &str,
    limit: u64,
) -> Result<Vec<u8>, FileFault>
    requires { limit < 2 ^ 62 }
    ensures whole { IfOk result (λ bytes. ReadWhole untold limit bytes.items) }
    ensures cut { IfErr result (λ fault. IfTooLarge fault (ReadCut untold limit)) }
{
    match name {
        "-" => read_input(rt, alloc, limit),
        "@" => read_list(rt, alloc, limit),
        _ => read_file(rt, alloc, name, limit),
    }
}

/// Reads the standard input.
fn read_input<R: Input>(rt: &R, alloc: Global, limit: u64) -> Result<Vec<u8>, FileFault>
    requires { limit < 2 ^ 62 }
    ensures whole { IfOk result (λ bytes. ReadWhole untold limit bytes.items) }
    ensures cut { IfErr result (λ fault. IfTooLarge fault (ReadCut untold limit)) }
{
    read_up_to(&mut rt.reader(), alloc, limit, 0)
}

/// Reads the list of installed formats, as a file that holds it.
fn read_list<R: std::rt::Files + Env + AllocGlobal + Clone + Drop>(
    rt: &R,
    alloc: Global,
    limit: u64,
) -> Result<Vec<u8>, FileFault>
    requires { limit < 2 ^ 62 }
    ensures whole { IfOk result (λ bytes. ReadWhole untold limit bytes.items) }
    ensures cut { IfErr result (λ fault. IfTooLarge fault (ReadCut untold limit)) }
{
    let list = match installed::list(rt) {
        Ok(list) => list,
        Err(error) => return Err(fault_of(&error)),
    };
    read_up_to(&mut list.as_slice(), alloc, limit, 0)
}

fn read_file<R: std::rt::Files + Env + AllocGlobal>(
    rt: &R,
    alloc: Global,
    name: &str,
    limit: u64,
) -> Result<Vec<u8>, FileFault>
    requires { limit < 2 ^ 62 }
    ensures whole { IfOk result (λ bytes. ReadWhole untold limit bytes.items) }
    ensures cut { IfErr result (λ fault. IfTooLarge fault (ReadCut untold limit)) }
{
    let mut file = match installed::open(rt, name) {
        Ok(file) => file,
        Err(error) => return Err(fault_of(&error)),
    };
    // A guess: of a pipe the length is 0, and a file may grow.
    let expected = match file.metadata() {
        Ok(metadata) => metadata.len().min(limit) as usize + 1,
        Err(_) => 0,
    };
    read_up_to(&mut file, alloc, limit, expected)
}

/// How many bytes to read at once where so many are expected. Of a pipe that is one at most, and tells nothing.
fn at_once(expected: usize) -> usize
    ensures { 1 ≤ result }
{
    if expected <= 1 {
        MOST_AT_ONCE
    } else {
        expected.clamp(LEAST_AT_ONCE, MOST_AT_ONCE)
    }
}

/// Reads all that is left, but stops after `limit + 1` bytes. Each turn takes a byte.
fn read_up_to<F: Read>(
    file: &mut F,
    alloc: Global,
    limit: u64,
    expected: usize,
) -> Result<Vec<u8>, FileFault>
    requires { limit < 2 ^ 62 }
    ensures whole { IfOk result (λ bytes. ReadWhole (told_by (F.remaining file.old)) limit bytes.items) }
    ensures cut { IfErr result (λ fault. IfTooLarge fault (ReadCut (told_by (F.remaining file.old)) limit)) }
    ensures bytes { IfOk result (λ bytes. AreBytes bytes.items) }
    ensures front { IfErr result (λ fault. IfTooLarge fault AreBytes) }
{
    let wanted = limit as usize + 1;
    let mut bytes = Vec::with_capacity(alloc, expected)?;
    let mut chunk = vec![in alloc; 0u8; at_once(expected)]?;
    while bytes.len() < wanted {
        let room = chunk.len().min(wanted - bytes.len());
        if read_more(file, &mut chunk[..room], &mut bytes)? == 0 {
            are_bytes(&bytes);
            return Ok(bytes);
        }
    }
    are_bytes(&bytes);
    Err(FileFault::TooLarge(bytes))
}

/// What the type of a list of bytes says of it.
fn are_bytes(bytes: &[u8])
    ensures { AreBytes bytes.now }
{}

/// Appends what one read gives, and tells its length.
fn read_more<F: Read>(
    file: &mut F,
    chunk: &mut [u8],
    bytes: &mut Vec<u8>,
) -> Result<usize, FileFault>
    requires { 0 < length chunk.old }
    ensures moved { IfOk result (λ _. Moves (F.remaining file.old) (F.remaining file.new) bytes.old.items bytes.new.items) }
    ensures grown { IfOk result (λ count. vec_len bytes.new ≡ vec_len bytes.old + count) }
    ensures within { IfOk result (λ count. count ≤ length chunk.old) }
    ensures end { IfOk result (λ count. count ≡ 0 → IsAtEnd (F.remaining file.new)) }
    ensures refused { IfErr result (λ fault. fault ≡ FileFault.Memory ⊎ fault ≡ FileFault.Failed) }
{
    match file.read(chunk) {
        Ok(count) => {
            bytes.extend_from_slice(&chunk[..count])?;
            Ok(count)
        }
        Err(error) => Err(fault_of(&error)),
    }
}

fn fault_of(error: &io::Error) -> FileFault
    ensures { result ≡ FileFault.Memory ⊎ result ≡ FileFault.Failed }
{
    if error.kind() == ErrorKind::OutOfMemory {
        FileFault::Memory
    } else {
        FileFault::Failed
    }
}
