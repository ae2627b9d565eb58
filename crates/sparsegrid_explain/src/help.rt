//! The texts that the program writes of itself.

/// What both programs take.
pub static HELP: &str =
    "sparsegrid-explain FILE [NAME=FILE]...\n    checks FILE as `sparsegrid --mode check FILE` does; where it is refused, shows the line, a caret below the place, what to write, and the\n    rule. Where it isn't, tells what may be a mistake: a kernel that is never run, a field that is never written or never shown, a cap that\n    can't be reached, a `load` whose field no NAME=FILE binds.\nsparsegrid FILE .. | sparsegrid-explain FILE - [NAME=FILE]...\n    passes the output of the run on, and shows where the run was refused: the statement and the iteration that wrote outside, the cap that\n    is full, the `load` of a bad grid.\nsparsegrid-explain --rules\n    all rules, each with the last line of a refused run, what breaks it, and what to write in its place.\nsparsegrid-explain --vim, --textmate\n    a syntax file of Vim, a TextMate grammar.\nsparsegrid-explain --help, --version\n\nThe first line on a refusal is FILE:LINE:COLUMN: and a sentence. Lines and columns count from 1. The status is 0 where all is told, 1 for bad\nwords, 2 where FILE or the input can't be read, 3 where the output can't be written, 9 where memory runs out.\n\nsparsegrid [--workers N] [--mode MODE] [--from SNAPSHOT] FILE [NAME=FILE]...\n    checks FILE, performs its commands in order, and writes what they give. The modes are told in docs/LANGUAGE.md.\nsparsegrid [--workers N] --mode gen NUMBER\n    runs the generated program of NUMBER, which has no file.\n";

/// The version.
pub static VERSION: &str = "sparsegrid-explain 1\n";

/// What is written for bad words.
pub static BAD_WORDS: &str =
    "words: sparsegrid-explain FILE [-] [NAME=FILE]..., or one of --help, --version, --rules, --vim, --textmate\n";
