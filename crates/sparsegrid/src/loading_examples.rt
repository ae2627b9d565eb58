//! The programs of the folder `examples/` that load grids, each with what it writes.

/// A program with the words that bind its fields to grids, and the grids.
pub(crate) struct LoadingExample {
    pub name: &'static str,
    pub source: &'static str,
    pub words: &'static [&'static str],
    pub others: &'static [(&'static str, &'static str)],
    pub output: &'static str,
}

pub(crate) static LOADING_EXAMPLES: &[LoadingExample] = &[
    LoadingExample {
        name: "colony.sg",
        source: "// Game of life by its rule, from a grid: colony.sg cell=colony.grid
layout Board(row, column) {
  dense(row: 8, column: 8);
  field cell: i32;
  field around: i32;
}

// How many of the eight neighbours live. Outside the board nothing does.
kernel count {
  for row, column in Board {
    let sum = 0;
    for down in -1..2 {
      for right in -1..2 { sum = sum + cell[row + down, column + right]; }
    }
    around[row, column] = sum - cell[row, column];
  }
}
// A cell is born where three neighbours live, lives on where two or three do, and else dies.
kernel step {
  for row, column in Board {
    if around[row, column] == 3 {
      cell[row, column] = 1;
    } else {
      if around[row, column] != 2 { cell[row, column] = 0; }
    }
  }
}

load cell;
times 6 { run count; run step; }
dump cell;
",
        words: &["p.sg", "cell=colony.grid"],
        others: &[(
            "colony.grid",
            "grid 2 5
2 3 1
2 4 1
3 2 1
3 3 1
4 3 1
",
        )],
        output: "grid 2 64
0 0 0
0 1 0
0 2 0
0 3 0
0 4 0
0 5 0
0 6 0
0 7 0
1 0 0
1 1 0
1 2 1
1 3 1
1 4 1
1 5 0
1 6 0
1 7 0
2 0 0
2 1 1
2 2 1
2 3 0
2 4 1
2 5 1
2 6 0
2 7 0
3 0 0
3 1 1
3 2 0
3 3 0
3 4 1
3 5 1
3 6 0
3 7 0
4 0 0
4 1 0
4 2 1
4 3 1
4 4 0
4 5 0
4 6 0
4 7 0
5 0 0
5 1 0
5 2 0
5 3 0
5 4 0
5 5 0
5 6 0
5 7 0
6 0 0
6 1 0
6 2 0
6 3 0
6 4 0
6 5 0
6 6 0
6 7 0
7 0 0
7 1 0
7 2 0
7 3 0
7 4 0
7 5 0
7 6 0
7 7 0
",
    },
    LoadingExample {
        name: "ink.sg",
        source: "// Drops of ink on a large sheet, of which only the wet places are kept: ink.sg ink=ink.grid
layout Sheet(row, column) {
  pointer(row: 64, column: 64) cap 16;
  bitmasked(row: 16, column: 16);
  field ink: i32;
  field soaked: i32;
}

// A wet place gives an eighth to each of its four neighbours, which wets them, and keeps the rest.
kernel spread {
  for row, column in Sheet {
    let part = ink[row, column] / 8;
    if part > 0 {
      soaked[row - 1, column] += part;
      soaked[row + 1, column] += part;
      soaked[row, column - 1] += part;
      soaked[row, column + 1] += part;
    }
    soaked[row, column] += ink[row, column] - 4 * part;
  }
}
kernel settle {
  for row, column in Sheet {
    ink[row, column] = soaked[row, column];
    soaked[row, column] = 0;
  }
}

load ink;
times 2 { run spread; run settle; }
dump ink;
",
        words: &["p.sg", "ink=ink.grid"],
        others: &[(
            "ink.grid",
            "grid 2 2
15 32 640
500 700 100
",
        )],
        output: "grid 2 26
13 32 10
14 31 20
14 32 80
14 33 20
15 30 10
15 31 80
15 32 200
15 33 80
15 34 10
16 31 20
16 32 80
16 33 20
17 32 10
498 700 1
499 699 2
499 700 14
499 701 2
500 698 1
500 699 14
500 700 32
500 701 14
500 702 1
501 699 2
501 700 14
501 701 2
502 700 1
",
    },
    LoadingExample {
        name: "survey.sg",
        source: "// The sums and peaks of strips of land. survey.sg and survey-sparse.sg differ in the nodes of Land alone,
// and write the same from a grid with few heights: survey.sg height=survey.grid
layout Land(row, column) {
  dense(row: 64, column: 64);
  field height: i32;
}
layout Strips(strip) {
  dense(strip: 8);
  field total: i32;
  field peak: i32;
}

// What is 0 is passed over, so it doesn't matter whether it is active.
kernel measure {
  for row, column in Land {
    if height[row, column] != 0 {
      total[row / 8] += height[row, column];
      peak[row / 8] max= height[row, column];
    }
  }
}

load height;
run measure;
dump total;
dump peak;
",
        words: &["p.sg", "height=survey.grid"],
        others: &[(
            "survey.grid",
            "grid 2 6
1 5 20
1 6 35
7 7 -4
12 60 7
40 63 90
41 63 -90
",
        )],
        output: "grid 1 8
0 51
1 7
2 0
3 0
4 0
5 0
6 0
7 0
grid 1 8
0 35
1 7
2 0
3 0
4 0
5 90
6 0
7 0
",
    },
    LoadingExample {
        name: "survey-sparse.sg",
        source: "// The sums and peaks of strips of land. survey.sg and survey-sparse.sg differ in the nodes of Land alone,
// and write the same from a grid with few heights: survey.sg height=survey.grid
layout Land(row, column) {
  pointer(row: 8, column: 8) cap 4;
  bitmasked(row: 8, column: 8);
  field height: i32;
}
layout Strips(strip) {
  dense(strip: 8);
  field total: i32;
  field peak: i32;
}

// What is 0 is passed over, so it doesn't matter whether it is active.
kernel measure {
  for row, column in Land {
    if height[row, column] != 0 {
      total[row / 8] += height[row, column];
      peak[row / 8] max= height[row, column];
    }
  }
}

load height;
run measure;
dump total;
dump peak;
",
        words: &["p.sg", "height=survey.grid"],
        others: &[(
            "survey.grid",
            "grid 2 6
1 5 20
1 6 35
7 7 -4
12 60 7
40 63 90
41 63 -90
",
        )],
        output: "grid 1 8
0 51
1 7
2 0
3 0
4 0
5 0
6 0
7 0
grid 1 8
0 35
1 7
2 0
3 0
4 0
5 90
6 0
7 0
",
    },
    LoadingExample {
        name: "dust.sg",
        source: "// Motes of dust in a list that is as long as the grids that are loaded into it, gathered in the cells of a large sparse
// space: dust.sg x=dust-x.grid y=dust-y.grid mass=dust-mass.grid
layout Motes(mote) {
  dynamic(mote: 1024) chunk 16 cap 64;
  field x: i32;
  field y: i32;
  field mass: i32;
}
layout Space(row, column) {
  hash(row: 64, column: 64) cap 256;
  pointer(row: 4, column: 4) cap 1024;
  bitmasked(row: 4, column: 4);
  field cloud: i32;
}

// A cell of space is 16 places wide on each axis.
kernel gather {
  for mote in Motes { cloud[x[mote] >> 4, y[mote] >> 4] += mass[mote]; }
}

load x;
load y;
load mass;
run gather;
dump cloud;
",
        words: &[
            "p.sg",
            "x=dust-x.grid",
            "y=dust-y.grid",
            "mass=dust-mass.grid",
        ],
        others: &[
            ("dust-x.grid", "grid 1 5\n0 5\n1 300\n2 5\n3 17\n4 16300\n"),
            ("dust-y.grid", "grid 1 5\n0 8\n1 40\n2 8\n3 17\n4 0\n"),
            ("dust-mass.grid", "grid 1 5\n0 2\n1 3\n2 5\n3 7\n4 11\n"),
        ],
        output: "grid 2 4
0 0 7
1 1 7
18 2 3
1018 0 11
",
    },
];
