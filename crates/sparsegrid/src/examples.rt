//! The programs of the folder `examples/`, each with what it writes.

/// Name, source and output.
pub(crate) static EXAMPLES: &[(&str, &str, &str)] = &[
    (
        "heat.sg",
        "// Heat along a bar of 8 cells, in 16.16 fixed point: two steps of diffusion from one hot cell.
const RATE = 16384; // a quarter
layout Bar(i) { dense(i: 8); field heat: i32; field flow: i32; }
kernel warm { for i in 4..5 { heat[i] = 64 << 16; } }
kernel diffuse {
  for i in 0..8 {
    let bend = heat[i - 1] - 2 * heat[i] + heat[i + 1];
    flow[i] = mulq(bend, RATE, 16);
  }
}
kernel settle { for i in 0..8 { heat[i] = heat[i] + flow[i]; } }
run warm; run diffuse; run settle; run diffuse; run settle;
dump heat;
",
        "grid 1 8
0 0
1 0
2 262144
3 1048576
4 1572864
5 1048576
6 262144
7 0
",
    ),
    (
        "life.sg",
        "// Game of life: a glider on a grid of 8 by 8, four generations on.
const N = 8;

layout Board(row, column) {
  dense(row: N, column: N);
  field cell: i32;
  field next: i32;
}

// The glider: a 1 above on the right, one more below it, and a row of three.
kernel top { for row, column in 0..1, 1..2 { cell[row, column] = 1; } }
kernel middle { for row, column in 1..2, 2..3 { cell[row, column] = 1; } }
kernel bottom { for row, column in 2..3, 0..3 { cell[row, column] = 1; } }

// A cell lives on where its neighbours, or they and itself, are three: (around | cell) is 3 just then.
kernel step {
  for row, column in 0..N, 0..N {
    let above = cell[row - 1, column - 1] + cell[row - 1, column] + cell[row - 1, column + 1];
    let beside = cell[row, column - 1] + cell[row, column + 1];
    let below = cell[row + 1, column - 1] + cell[row + 1, column] + cell[row + 1, column + 1];
    let off = ((above + beside + below) | cell[row, column]) ^ 3;
    next[row, column] = 1 - min(1, off);
  }
}
kernel keep { for row, column in 0..N, 0..N { cell[row, column] = next[row, column]; } }

run top; run middle; run bottom;
run step; run keep; run step; run keep; run step; run keep; run step; run keep;
dump cell;
",
        "grid 2 64
0 0 0
0 1 0
0 2 0
0 3 0
0 4 0
0 5 0
0 6 0
0 7 0
1 0 0
1 1 0
1 2 1
1 3 0
1 4 0
1 5 0
1 6 0
1 7 0
2 0 0
2 1 0
2 2 0
2 3 1
2 4 0
2 5 0
2 6 0
2 7 0
3 0 0
3 1 1
3 2 1
3 3 1
3 4 0
3 5 0
3 6 0
3 7 0
4 0 0
4 1 0
4 2 0
4 3 0
4 4 0
4 5 0
4 6 0
4 7 0
5 0 0
5 1 0
5 2 0
5 3 0
5 4 0
5 5 0
5 6 0
5 7 0
6 0 0
6 1 0
6 2 0
6 3 0
6 4 0
6 5 0
6 6 0
6 7 0
7 0 0
7 1 0
7 2 0
7 3 0
7 4 0
7 5 0
7 6 0
7 7 0
",
    ),
    (
        "noise.sg",
        "// A hash of each cell's place, as a texture in two unsigned fields.
const SEED = 7u;
layout T(x, y, z) {
  dense(x: 2, y: 4, z: 2);
  field noise: u32;
  field level: i32;
}
kernel paint {
  for x, y, z in 0..2, 0..4, 0..2 {
    let h = (u32(x * 8 + y * 2 + z) + SEED) * 2654435761u;
    noise[x, y, z] = h >> 28;
    level[x, y, z] = i32(noise[x, y, z]) - 8;
  }
}
run paint;
dump noise;
dump level;
",
        "grid 3 16
0 0 0 5
0 0 1 15
0 1 0 8
0 1 1 2
0 2 0 12
0 2 1 6
0 3 0 0
0 3 1 10
1 0 0 4
1 0 1 14
1 1 0 8
1 1 1 1
1 2 0 11
1 2 1 5
1 3 0 15
1 3 1 9
grid 3 16
0 0 0 -3
0 0 1 7
0 1 0 0
0 1 1 -6
0 2 0 4
0 2 1 -2
0 3 0 -8
0 3 1 2
1 0 0 -4
1 0 1 6
1 1 0 0
1 1 1 -7
1 2 0 3
1 2 1 -3
1 3 0 7
1 3 1 1
",
    ),
    (
        "wave.sg",
        "// A pool of 8 by 8 cells: a drop falls into it, and a ring of waves runs out, in 20.12 fixed point.
const N = 8;
const ONE = 4096;
const PULL = 1024; // a quarter

layout Pool(row, column) {
  dense(row: N, column: N);
  field height: i32;
  field speed: i32;
}

kernel drop { for row, column in 3..4, 4..5 { height[row, column] = 16 * ONE; } }

// Each cell is pulled towards its four neighbours. Outside the pool all reads give 0, so its rim is held still.
kernel pull {
  for row, column in 0..N, 0..N {
    let beside = height[row, column - 1] + height[row, column + 1];
    let bend = height[row - 1, column] + height[row + 1, column] + beside - 4 * height[row, column];
    speed[row, column] = speed[row, column] + mulq(bend, PULL, 12);
  }
}
kernel move { for row, column in 0..N, 0..N { height[row, column] = height[row, column] + speed[row, column]; } }

run drop;
run pull; run move; run pull; run move; run pull; run move;
dump height;
",
        "grid 2 64
0 0 0
0 1 0
0 2 0
0 3 0
0 4 1024
0 5 0
0 6 0
0 7 0
1 0 0
1 1 0
1 2 0
1 3 3072
1 4 8192
1 5 3072
1 6 0
1 7 0
2 0 0
2 1 0
2 2 3072
2 3 16384
2 4 -7168
2 5 16384
2 6 3072
2 7 0
3 0 0
3 1 1024
3 2 8192
3 3 -7168
3 4 -32768
3 5 -7168
3 6 8192
3 7 1024
4 0 0
4 1 0
4 2 3072
4 3 16384
4 4 -7168
4 5 16384
4 6 3072
4 7 0
5 0 0
5 1 0
5 2 0
5 3 3072
5 4 8192
5 5 3072
5 6 0
5 7 0
6 0 0
6 1 0
6 2 0
6 3 0
6 4 1024
6 5 0
6 6 0
6 7 0
7 0 0
7 1 0
7 2 0
7 3 0
7 4 0
7 5 0
7 6 0
7 7 0
",
    ),
    (
        "stars.sg",
        "// A sky of 4 by 8 points: a hash of each place, a threshold, and the bright points that stand alone.
const SALT = 374761393u;
const MIX = 668265263u;
const LEVEL = 2684354560u; // five eighths of 2^32

layout Sky(y, x) {
  dense(y: 4, x: 8);
  field digest: u32;
  field bright: u32;
  field star: u32;
}

kernel paint {
  for y, x in 0..4, 0..8 {
    let seed = u32(x) * SALT + u32(y) * MIX;
    let mixed = (seed ^ (seed >> 13)) * 1274126177u;
    digest[y, x] = mixed ^ (mixed >> 16);
  }
}
// The quotient is 0 below the level, and 1 from it on.
kernel threshold { for y, x in 0..4, 0..8 { bright[y, x] = digest[y, x] / LEVEL; } }
kernel isolate {
  for y, x in 0..4, 0..8 {
    let around = bright[y - 1, x] + bright[y + 1, x] + bright[y, x - 1] + bright[y, x + 1];
    star[y, x] = bright[y, x] * (1u - min(1u, around));
  }
}

run paint; run threshold; run isolate;
dump digest;
dump star;
",
        "grid 2 32
0 0 0
0 1 2182377942
0 2 69854125
0 3 1444175582
0 4 139708251
0 5 1168402289
0 6 4162406636
0 7 1473580868
1 0 3299714085
1 1 2851219080
1 2 4203579281
1 3 3671545972
1 4 3808784162
1 5 1897188023
1 6 408143484
1 7 1168690720
2 0 2304395338
2 1 3792824159
2 2 2681610627
2 3 1782792762
2 4 1091360917
2 5 501444126
2 6 3048190185
2 7 2523060834
3 0 2355642867
3 1 1508487390
3 2 4036129089
3 3 429164251
3 4 1797021774
3 5 3993986811
3 6 2281851736
3 7 2671733127
grid 2 32
0 0 0
0 1 0
0 2 0
0 3 0
0 4 0
0 5 0
0 6 1
0 7 0
1 0 0
1 1 0
1 2 0
1 3 0
1 4 0
1 5 0
1 6 0
1 7 0
2 0 0
2 1 0
2 2 0
2 3 0
2 4 0
2 5 0
2 6 1
2 7 0
3 0 0
3 1 0
3 2 1
3 3 0
3 4 0
3 5 1
3 6 0
3 7 0
",
    ),
    (
        "prefix.sg",
        "// Prefix sums of 16 values by doubling: after the steps 1, 2, 4 and 8 each cell has the sum of all up to it.
layout Table(i) {
  dense(i: 16);
  field value: i32;
  field sum: i32;
  field next: i32;
}

kernel fill { for i in 0..16 { value[i] = (i * 7 + 3) % 10; sum[i] = value[i]; } }

// A kernel reads what it writes at its own cell alone, so each step goes to a second field and is copied back.
kernel one { for i in 0..16 { next[i] = sum[i] + sum[i - 1]; } }
kernel two { for i in 0..16 { next[i] = sum[i] + sum[i - 2]; } }
kernel four { for i in 0..16 { next[i] = sum[i] + sum[i - 4]; } }
kernel eight { for i in 0..16 { next[i] = sum[i] + sum[i - 8]; } }
kernel keep { for i in 0..16 { sum[i] = next[i]; } }

run fill;
run one; run keep; run two; run keep; run four; run keep; run eight; run keep;
dump value;
dump sum;
",
        "grid 1 16
0 3
1 0
2 7
3 4
4 1
5 8
6 5
7 2
8 9
9 6
10 3
11 0
12 7
13 4
14 1
15 8
grid 1 16
0 3
1 3
2 10
3 14
4 15
5 23
6 28
7 30
8 39
9 45
10 48
11 48
12 55
13 59
14 60
15 68
",
    ),
];
