mod nodes;
mod term;

use crate::checked_in;
use anyhow::Result;
use ipg_mach::{Machine, Remember, Turn};
use ipg_table::tables::compile;
use std::alloc::Global;

/// How many calls are open when a parse with the memo begins, and after each of up to so many moves.
fn open_calls(alloc: Global, grammar: &[u8], input: &[u8; 3], moves: u32) -> Result<Vec<u64>> {
    let tables = compile(alloc, &checked_in(alloc, grammar)?)?;
    let mut machine = Machine::new(alloc, &tables, input, Remember::Answers)?;
    let mut open = Vec::new(alloc);
    open.push(machine.frames())?;
    for _ in 0..moves {
        let turn = machine.go(1)?;
        open.push(machine.frames())?;
        if turn == Turn::Done {
            break;
        }
    }
    Ok(open)
}

#[test]
fn calls_open_and_end_move_by_move(rt: HostRuntime) -> Result<()> {
    let grammar = b"S -> B[H.n, EOI] H[0, 1] ; B -> Bytes ; H -> U8 {n = U8.val} ;";
    let open = open_calls(rt.alloc(), grammar, b"\x02ab", 8)?;
    assert_eq!(rt; open.as_slice(), [1u64, 2, 2, 2, 1, 2, 2, 1].as_slice());
    Ok(())
}
