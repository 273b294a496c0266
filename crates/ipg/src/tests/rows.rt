//! The rows that the tests go over.
use ipg_app_text::status::Status;

/// A status and the text that goes with it.
pub type Reply<'a> = (Status, &'a [u8]);

pub const ROW: &[u8] = b"S -> \"ab\"[0,2] ;";

pub const ROW_TREE: &[u8] = b"0 S 0 2 start=0 end=2\n1 tok 0 2 6162\n";

pub const ROW_TEXT: &[u8] = b"S -> \"ab\" [ 0 , 2 ] ;\n";

/// There is a tree, then none, then the same tree.
pub const EDITS: &[u8] = b"1 2 63\n0 2 6162\n";

pub const EDITS_TEXT: &[u8] =
    b"0 tree bodies=1\n1 no parse bodies=1\n2 tree bodies=1\n0 S 0 2 start=0 end=2\n1 tok 0 2 6162\n";

pub const TREE: Reply<'static> = (Status::Done, ROW_TREE);

pub const UNKNOWN: Reply<'static> = (Status::Refused, b"refused G7 UnknownRule 5\n");

pub const CIRCULAR: Reply<'static> = (Status::Refused, b"refused G12 Circular S 0 0\n");

pub const LOOP: Reply<'static> = (Status::Refused, b"refused G13 MayLoop EOI=0 S/0/0/0\n");

pub const READ_FAULT: Reply<'static> = (Status::ReadFault, b"read fault\n");

/// Numbers of writes that fail, each in a run of its own.
pub const FIRST_WRITES: [&[u64]; 4] = [&[0], &[1], &[2], &[3]];
