//! The texts, one a topic.

pub const COMMANDS: &[u8] =
    br"ipg reads binary files by grammars, and answers what the grammar means.

  parse G FILE         the tree of a file
  view G FILE [PATH]   the tree beside the bytes, for a terminal
  json G FILE          the tree as one JSON text
  query G FILE PATH    parts and values of the tree
  check G              whether parsing by the grammar always ends
  explain G [FILE]     where and why a grammar is refused, or a file fails
  fmt G                the grammar's text, laid out anew
  cert G               a certificate that parsing ends
  verify G CERT        whether a certificate proves the grammar
  table G              the checked grammar as a table file
  load T FILE          the tree of a file by a table file
  cover G              whether the grammar leaves no byte out
  rebuild G FILE       the file again, from the leaves of its tree
  edit G FILE SCRIPT   answers before and after each edit of a script
  trial KIND N         a built-in grammar on a sample
  formats              which formats have a grammar
  help [COMMAND]       this list, or what a command does
  version              which program this is

  ipg parse @elf /bin/true
";

pub const PARSE: &[u8] = br"ipg parse G FILE [--memo on|off] [--arena MIB]

Writes the tree of FILE by the grammar G, a line for each node and leaf.

  G      the file of a grammar, or @ and the name of one that `ipg formats` lists, as @elf
  FILE   the file to read, of at most 2^30 bytes; - is the standard input
  --memo off    remembers no answers of calls: less memory, maybe more time
  --arena MIB   the memory of the tree, 1 to 4096 MiB; else 512

Status 0, or 1 where there is no tree (`no parse`), 3 where a value leaves 64 bits (`range`).

  ipg parse @elf /bin/true
";

pub const VIEW: &[u8] = br"ipg view G FILE [PATH] [--memo on|off] [--arena MIB]

Writes the tree of FILE beside its bytes, for a terminal, and the bytes that no leaf has.
With PATH it writes only what that picks, and all that lies in it.

  G      the file of a grammar, or @ and the name of one that `ipg formats` lists, as @elf
  FILE   the file to read, of at most 2^30 bytes; - is the standard input
  PATH   as query takes it
  --memo off    remembers no answers of calls: less memory, maybe more time
  --arena MIB   the memory of the tree, 1 to 4096 MiB; else 512

  ipg view @gif picture.gif
";

pub const JSON: &[u8] = br"ipg json G FILE [--memo on|off] [--arena MIB]

Writes the tree of FILE as one JSON text. It says what the lines of parse say.

  G      the file of a grammar, or @ and the name of one that `ipg formats` lists, as @elf
  FILE   the file to read, of at most 2^30 bytes; - is the standard input
  --memo off    remembers no answers of calls: less memory, maybe more time
  --arena MIB   the memory of the tree, 1 to 4096 MiB; else 512

  ipg json @gif picture.gif
";

pub const QUERY: &[u8] = br"ipg query G FILE PATH

Writes what PATH picks of the tree of FILE, a line for each part or value.

  G      the file of a grammar, or @ and the name of one that `ipg formats` lists, as @elf
  FILE   the file to read, of at most 2^30 bytes; - is the standard input
  PATH   names of rules behind one another by /, as Head, Blocks/Block(0), **/Sub, Screen.width

  ipg query @elf /bin/true Head.shnum
";

pub const CHECK: &[u8] = br"ipg check G

Writes `accepted` where parsing by the grammar always ends, else the first reason against it.

  G      the file of a grammar, or @ and the name of one that `ipg formats` lists, as @elf

Status 0, or 2 where the grammar is refused. `ipg explain G` says more.

  ipg check @gif
";

pub const EXPLAIN: &[u8] = br"ipg explain G [FILE] [--arena MIB]

Writes `accepted`, or where and why the grammar is refused: the lines of its text, and what can be done.
With FILE it parses that, and writes what comes of it and where the parse failed furthest:
what was wanted there, what stands there, and the calls that led there.

  G      the file of a grammar, or @ and the name of one that `ipg formats` lists, as @elf
  FILE   the file to read, of at most 2^30 bytes; - is the standard input
  --arena MIB   the memory of that parse, 1 to 4096 MiB; else 512

Status 0, or 2 where the grammar is refused; with FILE that of parse.

  ipg explain my.ipg
";

pub const FMT: &[u8] = br"ipg fmt G

Writes the text of the grammar laid out anew. Comments go, and numbers become decimal.

  G      the file of a grammar, or @ and the name of one that `ipg formats` lists, as @elf

  ipg fmt my.ipg
";

pub const CERT: &[u8] = br"ipg cert G

Writes a certificate that parsing by the grammar ends, which any checker can read.

  G      the file of a grammar, or @ and the name of one that `ipg formats` lists, as @elf

  ipg cert my.ipg > my.cert
";

pub const VERIFY: &[u8] = br"ipg verify G CERT

Writes `verified` where the certificate proves the grammar, else what is wrong with it.

  G      the file of a grammar, or @ and the name of one that `ipg formats` lists, as @elf
  CERT   a file with a certificate

  ipg verify my.ipg my.cert
";

pub const TABLE: &[u8] = br"ipg table G

Writes the checked grammar with its certificate as a table file, for load.

  G      the file of a grammar, or @ and the name of one that `ipg formats` lists, as @elf

  ipg table my.ipg > my.table
";

pub const LOAD: &[u8] = br"ipg load T FILE

Checks the table file T, and writes the tree of FILE by the grammar that it holds.

  T      a table file, of whatever source
  FILE   the file to read, of at most 2^30 bytes; - is the standard input

  ipg load my.table data.bin
";

pub const COVER: &[u8] = br"ipg cover G

Writes `covered` where the leaves of each tree hold all bytes of its file, else where one may be missing.

  G      the file of a grammar, or @ and the name of one that `ipg formats` lists, as @elf

  ipg cover @gif
";

pub const REBUILD: &[u8] = br"ipg rebuild G FILE

Writes the bytes that the leaves of the tree of FILE put back, where they leave none out.

  G      the file of a grammar, or @ and the name of one that `ipg formats` lists, as @elf
  FILE   the file to read, of at most 2^30 bytes; - is the standard input

  ipg rebuild @gif picture.gif > same.gif
";

pub const EDIT: &[u8] = br"ipg edit G FILE SCRIPT

Writes the answer on FILE before the first edit and after each, with how much had to run anew, and the last tree.

  G      the file of a grammar, or @ and the name of one that `ipg formats` lists, as @elf
  FILE   the file to read, of at most 2^30 bytes; - is the standard input
  SCRIPT   edits, a line each: the place, how many bytes go, and the new ones in hex, or - for none

  ipg edit @gif picture.gif edits.txt
";

pub const TRIAL: &[u8] = br"ipg trial KIND N

Parses a sample of a format by its built-in grammar, and writes how large its tree is.

  KIND   elf, pe, gif or pcap
  N      how many sections, comments or packets the sample has, 0 to 10000

  ipg trial gif 100
";

pub const FORMATS: &[u8] = br"ipg formats

Lists the formats that have a grammar: those that are built in, then those that are installed.
Such a name is read as @NAME wherever a grammar is, unless a file is named so.

Grammars lie in the folder that IPG_FORMATS names, else in share/ipg/formats beside the folder of the program.

  ipg formats
";

pub const HELP: &[u8] = br"ipg help [COMMAND]

Writes the list of commands, or what a command does, its words, and an example.

  ipg help parse
";

pub const VERSION: &[u8] = br"ipg version

Writes the version of the program, and the toolchain that it was proved with.

  ipg version
";

pub const BUILT_IN: &[u8] =
    br"@elf            ELF programs, libraries and object files: heads, segments, sections, symbols
@pe             programs and libraries of Windows (PE): heads and sections
@gif            GIF images: screen, colours, frames, extensions
@pcap           captured packets (pcap): Ethernet, IPv4, ICMP, UDP, TCP
";

pub const PROGRAM: &[u8] = br"ipg 0.1.0
proved with rattle-kit-13f logic dac8208d650f15bf
";
