//! The rules, each in a sentence with an example.

use crate::rules::Rule;

pub(crate) const FILE_BYTES: Rule = Rule {
    line: "limit: file bytes",
    sentence: "a file has at most 65,536 bytes",
    breaks: "a table that is written out as statements",
    instead: "a grid text that is read by `load`",
};

pub(crate) const BAD_BYTE: Rule = Rule {
    line: "bad byte: line L",
    sentence: "this byte may stand in comments alone",
    breaks: "x[i] = a[i] * 0.5;",
    instead: "fixed point, as in `x[i] = mulq(a[i], 32768, 16);` for a half",
};

pub(crate) const BAD_NUMBER: Rule = Rule {
    line: "bad number: line L",
    sentence: "a number is `0`, or digits without a leading zero: up to 2147483648, or with a `u` behind it up to 4294967295u",
    breaks: "07, 0x10, 1e5, 1_000, 3000000000",
    instead: "7, 16, 100000, 1000, 3000000000u",
};

pub(crate) const NAME_BYTES: Rule = Rule {
    line: "limit: name bytes",
    sentence: "a name has at most 32 bytes",
    breaks: "a_name_that_has_more_than_32_bytes_in_all",
    instead: "a shorter name",
};

pub(crate) const TOKENS: Rule = Rule {
    line: "limit: tokens",
    sentence: "a file has at most 16,384 tokens",
    breaks: "a table that is written out as statements",
    instead: "a grid text that is read by `load`",
};

pub(crate) const SYNTAX: Rule = Rule {
    line: "syntax: item N line L",
    sentence: "an item has one of the forms of the grammar",
    breaks: "run k dump x;",
    instead: "run k; dump x;",
};

pub(crate) const UNKNOWN: Rule = Rule {
    line: "unknown name: item N",
    sentence: "a name is known below its declaration, as what it is declared",
    breaks: "hieght[i] where the field is named height",
    instead: "height[i]",
};

pub(crate) const TWICE: Rule = Rule {
    line: "name twice: item N",
    sentence: "a name is declared once in a file, whatever it names",
    breaks: "kernel x where a field is named x",
    instead: "another name for one of the two",
};

pub(crate) const LAYOUTS: Rule = Rule {
    line: "limit: layouts",
    sentence: "a file has at most 8 layouts",
    breaks: "a ninth layout",
    instead: "more fields in one layout",
};

pub(crate) const FIELDS: Rule = Rule {
    line: "limit: fields",
    sentence: "a file has at most 16 fields",
    breaks: "a 17th field",
    instead: "a field that is used again, or one more axis",
};

pub(crate) const KERNELS: Rule = Rule {
    line: "limit: kernels",
    sentence: "a file has at most 16 kernels",
    breaks: "a 17th kernel",
    instead: "kernels over the same points as one",
};

pub(crate) const COMMANDS: Rule = Rule {
    line: "limit: commands",
    sentence: "a file has at most 64 commands, those in a `times` counted once",
    breaks: "run k; written 65 times",
    instead: "times 65 { run k; }",
};

pub(crate) const EXTENT: Rule = Rule {
    line: "layout: A node P rule 1",
    sentence: "an extent is from 1 to 32,768",
    breaks: "dense(i: 40000);",
    instead: "dense(i: 32768);",
};

pub(crate) const ORDER: Rule = Rule {
    line: "layout: A node P rule 2",
    sentence: "a hash node is the first of its layout, and a dynamic node the last",
    breaks: "dense(i: 4); hash(i: 4) cap 2;",
    instead: "hash(i: 4) cap 2; dense(i: 4);",
};

pub(crate) const AXIS: Rule = Rule {
    line: "layout: A node P rule 3",
    sentence: "a node names axes of its layout, each once, and a dynamic node one alone",
    breaks: "layout A(i) { dense(j: 4); field x: i32; }",
    instead: "layout A(i) { dense(i: 4); field x: i32; }",
};

pub(crate) const CAP: Rule = Rule {
    line: "layout: A node P rule 5",
    sentence: "a cap is from 1 to 65,536, and a chunk from 1 to the extent of its node",
    breaks: "pointer(i: 4) cap 0;",
    instead: "pointer(i: 4) cap 4;",
};

pub(crate) const LAYOUT_POINTS: Rule = Rule {
    line: "limit: layout A",
    sentence: "an axis has at most 32,768 points, and a layout 1,073,741,824",
    breaks: "pointer(i: 32768) cap 2; dense(i: 2);",
    instead: "pointer(i: 16384) cap 2; dense(i: 2);",
};

pub(crate) const WORDS: Rule = Rule {
    line: "limit: words",
    sentence: "the layouts together have at most 4,194,304 words of storage",
    breaks: "5 fields of 1,048,576 points each in dense nodes",
    instead: "a sparse node, a smaller cap, or fewer fields",
};

pub(crate) const TYPES: Rule = Rule {
    line: "type: kernel K statement S code 1",
    sentence: "both sides of an operator have one type, a condition is a truth value, and an index or bound is i32",
    breaks: "x[i] + 1u, if x[i] { .. }, x[u32(i)]",
    instead: "x[i] + 1, if x[i] != 0 { .. }, x[i]",
};

pub(crate) const INDICES: Rule = Rule {
    line: "type: kernel K statement S code 2",
    sentence: "a field has an index for each axis, and a loop a variable for each axis or range",
    breaks: "a[y] of a layout with two axes",
    instead: "a[y, x]",
};

pub(crate) const ASSIGNED: Rule = Rule {
    line: "type: kernel K statement S code 3",
    sentence: "neither a constant nor the variable of a loop is assigned",
    breaks: "i = i + 1;",
    instead: "let next = i + 1;",
};

pub(crate) const LOCAL: Rule = Rule {
    line: "type: kernel K statement S code 4",
    sentence: "a plain name is a local in scope, a variable of a loop round it, or an earlier constant",
    breaks: "let h = x; of a field x",
    instead: "let h = x[i];",
};

pub(crate) const IN_SCOPE: Rule = Rule {
    line: "type: kernel K statement S code 5",
    sentence: "a local or variable has a name that nothing in scope has",
    breaks: "let h = 1; let h = 2;",
    instead: "let h = 1; h = 2;",
};

pub(crate) const ONE_WAY: Rule = Rule {
    line: "admission: kernel K statement S rule 1",
    sentence: "a kernel writes a field in one way: by `=`, or by contributions of one operator",
    breaks: "x[i] = 0; x[i] += y[i];",
    instead: "x[i] = y[i]; or two kernels",
};

pub(crate) const OWN_PLACE: Rule = Rule {
    line: "admission: kernel K statement S rule 2",
    sentence: "a field that is written by `=` is written and read at the iteration's own place alone",
    breaks: "x[i] = x[i - 1];",
    instead: "y[i] = x[i - 1]; and a second kernel with x[i] = y[i];",
};

pub(crate) const NOT_READ: Rule = Rule {
    line: "admission: kernel K statement S rule 3",
    sentence: "a field that is contributed to isn't read in the same kernel",
    breaks: "x[i] += x[i];",
    instead: "x[i] = 2 * x[i];",
};

pub(crate) const CLEAN: Rule = Rule {
    line: "admission: kernel K statement S rule 4",
    sentence: "what a write may activate must not depend on values that its kernel writes",
    breaks: "if x[i] > 0 { v[i + 1] += 1; x[i] = 0; }",
    instead: "two kernels, the second with if x[i] > 0 { x[i] = 0; }",
};

pub(crate) const CONSTANT: Rule = Rule {
    line: "admission: kernel K statement S rule 5",
    sentence: "bounds are made of numbers and constants, inner loops nest 4 deep at most, and their turns multiply to 4,096 at most",
    breaks: "for n in 0..x[i] { .. }",
    instead: "for n in 0..8 { if n < x[i] { .. } }",
};

pub(crate) const ASKED: Rule = Rule {
    line: "admission: kernel K statement S rule 6",
    sentence: "a kernel that writes into a layout doesn't ask what is active in it",
    breaks: "if active(v[i]) { v[i] += 1; }",
    instead: "if active(v[i]) { y[i] = 1; } of another layout, and a second kernel with if y[i] > 0 { v[i] += 1; }",
};

pub(crate) const BOX: Rule = Rule {
    line: "limit: box K",
    sentence: "a box has at most 1,048,576 points",
    breaks: "for i, j in 0..2048, 0..1024",
    instead: "a loop that walks a layout, or several kernels",
};

pub(crate) const COMMAND: Rule = Rule {
    line: "command: item N",
    sentence: "a `times` has at least one turn; an image is of two axes, from a smaller number to a greater",
    breaks: "times 0 { run k; }, image x 9 9;",
    instead: "times 1 { run k; }, image x 0 9;",
};

pub(crate) const TIMES: Rule = Rule {
    line: "limit: times",
    sentence: "a `times` has at most 1,000 turns",
    breaks: "times 1001 { run k; }",
    instead: "times 1000 { run k; } run k;",
};

pub(crate) const IMAGE: Rule = Rule {
    line: "limit: image",
    sentence: "an image has at most 1,048,576 points",
    breaks: "image x 0 255; of a layout of 2,048 by 1,024 points",
    instead: "an image of a layout with fewer points, to which a kernel adds up",
};

pub(crate) const NO_FILE: Rule = Rule {
    line: "no file for F",
    sentence: "each field that is loaded has a file in the words",
    breaks: "sparsegrid FILE with load x; in FILE",
    instead: "sparsegrid FILE x=NAME",
};

pub(crate) const BAD_WORDS: Rule = Rule {
    line: "words",
    sentence: "the words are a file, options, and bindings of fields to files",
    breaks: "sparsegrid FILE x",
    instead: "sparsegrid FILE x=NAME",
};

pub(crate) const READ: Rule = Rule {
    line: "read NAME",
    sentence: "each file that is named in the words can be read",
    breaks: "a name with a mistake, or another folder",
    instead: "the name from where the program runs",
};

pub(crate) const GRID: Rule = Rule {
    line: "grid: F line L",
    sentence: "a grid text has a line `grid AXES ROWS` and a line for each row, or `grid2 AXES LINES` and a line for each run, with its length before the value: coordinates in rising order, one blank between each two, each line with a newline",
    breaks: "a blank at the end of a line, carriage returns, 007",
    instead: "grid 1 2, 0 5, 3 7 in three lines",
};

pub(crate) const GRID_ROWS: Rule = Rule {
    line: "limit: grid rows F",
    sentence: "a grid text has at most 1,048,576 rows",
    breaks: "grid 1 2000000",
    instead: "two files, for two fields, or for two runs with a snapshot between them",
};

pub(crate) const GRID_BYTES: Rule = Rule {
    line: "limit: grid bytes F",
    sentence: "a grid text has at most 16,777,216 bytes",
    breaks: "rows of a million coordinates",
    instead: "two files, for two fields, or for two runs with a snapshot between them",
};

pub(crate) const SNAPSHOT: Rule = Rule {
    line: "snapshot",
    sentence: "a snapshot is whole, and of a file with the same axes, fields and blocks",
    breaks: "sparsegrid --from=NAME FILE, where NAME is no snapshot, or one of other layouts",
    instead: "a snapshot that sparsegrid --mode=save writes of these layouts",
};

pub(crate) const SNAPSHOT_BYTES: Rule = Rule {
    line: "limit: snapshot bytes",
    sentence: "a snapshot has at most 67,108,864 bytes",
    breaks: "sparsegrid --from=NAME FILE, where NAME is larger",
    instead: "a snapshot that sparsegrid --mode=save writes of these layouts",
};

pub(crate) const JOURNAL_BYTES: Rule = Rule {
    line: "limit: journal bytes",
    sentence: "a journal has at most 16,777,216 bytes",
    breaks: "sparsegrid --mode=audit FILE journal=NAME, where NAME is larger",
    instead: "a journal of fewer commands",
};

pub(crate) const OUTSIDE: Rule = Rule {
    line: "write outside: kernel K statement S at C1 C2 C3",
    sentence: "a kernel writes inside its layouts alone",
    breaks: "for i in 0..16 { x[i + 1] += 1; } of 16 points",
    instead: "if i + 1 < 16 { x[i + 1] += 1; } or a loop that ends one earlier",
};

pub(crate) const POOL: Rule = Rule {
    line: "pool full: A node P cap C",
    sentence: "at most as many containers or chunks of a node are live as its cap says",
    breaks: "pointer(i: 4) cap 1; and writes at both ends",
    instead: "a larger cap, larger blocks below it, or a `prune`",
};

/// All rules, in the order in which they are looked for.
pub(crate) static RULES: &[Rule] = &[
    FILE_BYTES,
    BAD_BYTE,
    BAD_NUMBER,
    NAME_BYTES,
    TOKENS,
    SYNTAX,
    UNKNOWN,
    TWICE,
    LAYOUTS,
    FIELDS,
    KERNELS,
    COMMANDS,
    EXTENT,
    ORDER,
    AXIS,
    CAP,
    LAYOUT_POINTS,
    WORDS,
    TYPES,
    INDICES,
    ASSIGNED,
    LOCAL,
    IN_SCOPE,
    ONE_WAY,
    OWN_PLACE,
    NOT_READ,
    CLEAN,
    CONSTANT,
    ASKED,
    BOX,
    COMMAND,
    TIMES,
    IMAGE,
    NO_FILE,
    BAD_WORDS,
    READ,
    GRID,
    GRID_ROWS,
    GRID_BYTES,
    SNAPSHOT,
    SNAPSHOT_BYTES,
    JOURNAL_BYTES,
    OUTSIDE,
    POOL,
];
