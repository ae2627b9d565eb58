//! The larger programs of the folder `examples/`, each with what it writes.

use crate::loading_examples::LoadingExample;

pub(crate) static LARGER_EXAMPLES: &[LoadingExample] = &[
    LoadingExample {
        name: "drift.sg",
        source: "// Particles to a grid and back: each gives its mass and its momentum to the four cells round it, by how near they are, and takes the
// mean velocity of these cells. Places are in 16.16 fixed point, cells have their middle at a half:
// drift.sg px=drift-px.grid py=drift-py.grid vx=drift-vx.grid vy=drift-vy.grid
const ONE = 65536;
const HALF = 32768;
layout Particles(p) {
  dynamic(p: 64) chunk 4 cap 16;
  field px: i32; field py: i32;
  field vx: i32; field vy: i32;
}
layout Cells(i, j) {
  pointer(i: 4, j: 4) cap 16;
  dense(i: 4, j: 4);
  field mass: i32; field mx: i32; field my: i32;
}

kernel scatter {
  for p in Particles {
    let i = (px[p] - HALF) >> 16; let ri = (px[p] - HALF) & 65535;
    let j = (py[p] - HALF) >> 16; let rj = (py[p] - HALF) & 65535;
    for a in 0..2 {
      for b in 0..2 {
        let near = mulq(a * ri + (1 - a) * (ONE - ri), b * rj + (1 - b) * (ONE - rj), 16);
        mass[i + a, j + b] += near;
        mx[i + a, j + b] += mulq(near, vx[p], 16);
        my[i + a, j + b] += mulq(near, vy[p], 16);
      }
    }
  }
}
// From momentum to velocity; a cell without mass keeps 0, since nothing divided by 0 is 0.
kernel divide {
  for i, j in Cells {
    mx[i, j] = mx[i, j] * 256 / mass[i, j] * 256;
    my[i, j] = my[i, j] * 256 / mass[i, j] * 256;
  }
}
kernel gather {
  for p in Particles {
    let i = (px[p] - HALF) >> 16; let ri = (px[p] - HALF) & 65535;
    let j = (py[p] - HALF) >> 16; let rj = (py[p] - HALF) & 65535;
    let u = 0; let v = 0;
    for a in 0..2 {
      for b in 0..2 {
        let near = mulq(a * ri + (1 - a) * (ONE - ri), b * rj + (1 - b) * (ONE - rj), 16);
        u = u + mulq(near, mx[i + a, j + b], 16);
        v = v + mulq(near, my[i + a, j + b], 16);
      }
    }
    vx[p] = u; px[p] = px[p] + u;
    vy[p] = v; py[p] = py[p] + v;
  }
}

load px; load py; load vx; load vy;
times 4 { clear Cells; run scatter; run divide; run gather; }
stats Cells;
dump px; dump py;
",
        words: &[
            "p.sg",
            "px=drift-px.grid",
            "py=drift-py.grid",
            "vx=drift-vx.grid",
            "vy=drift-vy.grid",
        ],
        others: &[
            (
                "drift-px.grid",
                "grid 1 6\n0 131072\n1 163840\n2 212992\n3 819200\n4 786432\n5 491520\n",
            ),
            (
                "drift-py.grid",
                "grid 1 6\n0 131072\n1 147456\n2 180224\n3 786432\n4 819200\n5 491520\n",
            ),
            (
                "drift-vx.grid",
                "grid 1 6\n0 65536\n1 65536\n2 49152\n3 -65536\n4 -32768\n5 16384\n",
            ),
            (
                "drift-vy.grid",
                "grid 1 6\n0 32768\n1 32768\n2 16384\n3 -32768\n4 -65536\n5 0\n",
            ),
        ],
        output: "stats Cells active 80 node 1 live 5
grid 1 6
0 381025
1 407368
2 435373
3 612525
4 600371
5 557056
grid 1 6
0 249953
1 259915
2 271536
3 600371
4 612525
5 491520
",
    },
    LoadingExample {
        name: "smoke.sg",
        source: "// Smoke that rises in a room of 16 by 16, of which only what the smoke has reached is kept: each step blows in, lets the domain grow by
// a cell all round, frees the flow of its divergence by two relaxations of a pressure, and carries the smoke along, in 16.16 fixed point.
const N = 16;
const ONE = 65536;
const THIN = 1024; // less than this is no smoke
layout Room(x, y) {
  pointer(x: 4, y: 4) cap 16;
  bitmasked(x: 4, y: 4);
  field smoke: i32; field moved: i32;
  field u: i32; field v: i32; // cells a step
  field rise: i32; field p: i32; field q: i32;
}

kernel blow { for x, y in 12..15, 7..9 { smoke[x, y] += ONE / 2; u[x, y] += -24576; } }
kernel grow {
  for x, y in Room {
    if smoke[x, y] > THIN {
      for a in -1..2 { for b in -1..2 { moved[min(max(x + a, 0), N - 1), min(max(y + b, 0), N - 1)] += 0; } }
    }
  }
}
kernel diverge { for x, y in Room { rise[x, y] = (u[x + 1, y] - u[x - 1, y] + v[x, y + 1] - v[x, y - 1]) / 2; } }
kernel relax { for x, y in Room { q[x, y] = (p[x - 1, y] + p[x + 1, y] + p[x, y - 1] + p[x, y + 1] - rise[x, y]) / 4; } }
kernel keep { for x, y in Room { p[x, y] = q[x, y]; } }
kernel project {
  for x, y in Room {
    u[x, y] = u[x, y] - (p[x + 1, y] - p[x - 1, y]) / 2;
    v[x, y] = v[x, y] - (p[x, y + 1] - p[x, y - 1]) / 2;
  }
}
// What is at a cell was a step ago where the flow came from, between four cells.
kernel carry {
  for x, y in Room {
    let at = x * ONE - u[x, y]; let i = at >> 16; let down = at & 65535;
    let by = y * ONE - v[x, y]; let j = by >> 16; let right = by & 65535;
    let above = mulq(smoke[i, j], ONE - right, 16) + mulq(smoke[i, j + 1], right, 16);
    let below = mulq(smoke[i + 1, j], ONE - right, 16) + mulq(smoke[i + 1, j + 1], right, 16);
    moved[x, y] = mulq(above, ONE - down, 16) + mulq(below, down, 16);
  }
}
kernel settle {
  for x, y in Room {
    smoke[x, y] = moved[x, y];
    if moved[x, y] < THIN { smoke[x, y] = 0; }
    moved[x, y] = 0;
  }
}

times 6 {
  run blow; run grow;
  run diverge; run relax; run keep; run relax; run keep; run project;
  run carry; run settle;
}
stats Room;
image smoke 0 196608;
",
        words: &["p.sg"],
        others: &[],
        output: "stats Room active 48 node 1 live 4
P2
16 16
255
0 0 0 0 0 0 0 0 0 0 0
0 0 0 0 0
0 0 0 0 0 0 0 0 0 0 0
0 0 0 0 0
0 0 0 0 0 0 0 0 0 0 0
0 0 0 0 0
0 0 0 0 0 0 0 0 0 0 0
0 0 0 0 0
0 0 0 0 0 0 0 0 0 0 0
0 0 0 0 0
0 0 0 0 0 0 0 0 0 0 0
0 0 0 0 0
0 0 0 0 0 0 0 0 0 0 0
0 0 0 0 0
0 0 0 0 0 0 0 0 0 0 0
0 0 0 0 0
0 0 0 0 0 0 0 0 0 0 0
0 0 0 0 0
0 0 0 0 0 0 0 4 4 0 0
0 0 0 0 0
0 0 0 0 0 0 10 46 46 10 0
0 0 0 0 0
0 0 0 0 0 6 51 86 86 51 6
0 0 0 0 0
0 0 0 0 0 15 83 55 55 83 15
0 0 0 0 0
0 0 0 0 0 0 36 31 31 36 0
0 0 0 0 0
0 0 0 0 0 0 2 0 0 2 0
0 0 0 0 0
0 0 0 0 0 0 0 0 0 0 0
0 0 0 0 0
",
    },
    LoadingExample {
        name: "photo.sg",
        source: "// A picture from a grid: its noise is taken out by a median of five and softened by a window of 3 by 3, its edges are found after Sobel,
// and the pixels of each of eight steps of grey are counted: photo.sg grey=photo.grid
layout Picture(row, column) {
  dense(row: 16, column: 16);
  field grey: i32; field clean: i32; field soft: i32; field edge: i32;
}
layout Steps(step) { dense(step: 8); field count: u32; }

// The middle one of a pixel and its four neighbours.
kernel median {
  for row, column in Picture {
    let here = grey[row, column];
    let above = grey[row - 1, column]; let below = grey[row + 1, column];
    let left = grey[row, column - 1]; let right = grey[row, column + 1];
    let low = min(above, below); let high = max(above, below);
    let first = min(left, right); let last = max(left, right);
    let least = max(low, first); let most = min(high, last);
    clean[row, column] = max(min(least, most), min(max(least, most), here));
  }
}
kernel soften {
  for row, column in Picture {
    let sum = 0;
    for a in -1..2 { for b in -1..2 { sum = sum + clean[row + a, column + b] * (2 - a * a) * (2 - b * b); } }
    soft[row, column] = sum / 16;
  }
}
kernel sobel {
  for row, column in Picture {
    let across = 0; let down = 0;
    for d in -1..2 {
      let weight = 2 - d * d;
      across = across + weight * (soft[row + d, column + 1] - soft[row + d, column - 1]);
      down = down + weight * (soft[row + 1, column + d] - soft[row - 1, column + d]);
    }
    edge[row, column] = max(across, -across) + max(down, -down);
  }
}
kernel tally { for row, column in Picture { count[grey[row, column] / 32] += 1u; } }

load grey;
run median; run soften; run sobel; run tally;
image clean 0 255; image edge 0 1020;
dump count;
",
        words: &["p.sg", "grey=photo.grid"],
        others: &[(
            "photo.grid",
            "grid 2 256\n0 0 40\n0 1 40\n0 2 40\n0 3 40\n0 4 40\n0 5 40\n0 6 0\n0 7 255\n0 8 40\n0 9 40\n0 10 40\n0 11 40\n0 12 40\n0 13 40\n\
             0 14 40\n0 15 40\n1 0 40\n1 1 40\n1 2 40\n1 3 0\n1 4 40\n1 5 40\n1 6 40\n1 7 40\n1 8 40\n1 9 40\n1 10 40\n1 11 40\n1 12 40\n\
             1 13 40\n1 14 40\n1 15 255\n2 0 40\n2 1 40\n2 2 40\n2 3 40\n2 4 40\n2 5 40\n2 6 40\n2 7 40\n2 8 40\n2 9 40\n2 10 40\n2 11 40\n\
             2 12 40\n2 13 40\n2 14 40\n2 15 40\n3 0 40\n3 1 40\n3 2 40\n3 3 40\n3 4 0\n3 5 40\n3 6 200\n3 7 200\n3 8 200\n3 9 200\n3 10 200\n\
             3 11 40\n3 12 40\n3 13 40\n3 14 40\n3 15 40\n4 0 40\n4 1 40\n4 2 40\n4 3 40\n4 4 40\n4 5 200\n4 6 200\n4 7 200\n4 8 200\n4 9 255\n\
             4 10 200\n4 11 200\n4 12 0\n4 13 40\n4 14 40\n4 15 40\n5 0 40\n5 1 40\n5 2 40\n5 3 40\n5 4 200\n5 5 200\n5 6 200\n5 7 200\n5 8 200\n\
             5 9 200\n5 10 200\n5 11 200\n5 12 200\n5 13 40\n5 14 40\n5 15 40\n6 0 40\n6 1 40\n6 2 40\n6 3 255\n6 4 200\n6 5 200\n6 6 200\n\
             6 7 200\n6 8 200\n6 9 200\n6 10 200\n6 11 0\n6 12 200\n6 13 40\n6 14 40\n6 15 40\n7 0 40\n7 1 40\n7 2 40\n7 3 40\n7 4 200\n7 5 200\n\
             7 6 200\n7 7 200\n7 8 255\n7 9 200\n7 10 200\n7 11 200\n7 12 0\n7 13 40\n7 14 40\n7 15 40\n8 0 40\n8 1 40\n8 2 40\n8 3 40\n8 4 200\n\
             8 5 200\n8 6 200\n8 7 200\n8 8 200\n8 9 200\n8 10 200\n8 11 200\n8 12 200\n8 13 0\n8 14 40\n8 15 40\n9 0 40\n9 1 0\n9 2 40\n9 3 40\n\
             9 4 200\n9 5 200\n9 6 200\n9 7 200\n9 8 200\n9 9 200\n9 10 200\n9 11 200\n9 12 200\n9 13 40\n9 14 40\n9 15 40\n10 0 40\n10 1 40\n\
             10 2 40\n10 3 40\n10 4 40\n10 5 200\n10 6 255\n10 7 200\n10 8 200\n10 9 200\n10 10 200\n10 11 200\n10 12 40\n10 13 40\n10 14 40\n\
             10 15 40\n11 0 40\n11 1 40\n11 2 120\n11 3 120\n11 4 120\n11 5 120\n11 6 200\n11 7 200\n11 8 200\n11 9 200\n11 10 200\n11 11 40\n\
             11 12 40\n11 13 40\n11 14 40\n11 15 40\n12 0 40\n12 1 40\n12 2 120\n12 3 120\n12 4 120\n12 5 120\n12 6 40\n12 7 40\n12 8 40\n\
             12 9 40\n12 10 40\n12 11 40\n12 12 40\n12 13 40\n12 14 40\n12 15 40\n13 0 40\n13 1 40\n13 2 120\n13 3 120\n13 4 120\n13 5 0\n\
             13 6 40\n13 7 40\n13 8 40\n13 9 40\n13 10 40\n13 11 40\n13 12 40\n13 13 40\n13 14 40\n13 15 40\n14 0 40\n14 1 40\n14 2 40\n14 3 40\n\
             14 4 40\n14 5 40\n14 6 40\n14 7 40\n14 8 40\n14 9 40\n14 10 40\n14 11 40\n14 12 40\n14 13 40\n14 14 255\n14 15 40\n15 0 0\n15 1 40\n\
             15 2 40\n15 3 40\n15 4 40\n15 5 40\n15 6 40\n15 7 40\n15 8 40\n15 9 40\n15 10 40\n15 11 40\n15 12 40\n15 13 40\n15 14 40\n15 15 40\n",
        )],
        output: "P2
16 16
255
40 40 40 40 40 40 40 40 40 40 40
40 40 40 40 40
40 40 40 40 40 40 40 40 40 40 40
40 40 40 40 40
40 40 40 40 40 40 40 40 40 40 40
40 40 40 40 40
40 40 40 40 40 40 200 200 200 200 200
40 40 40 40 40
40 40 40 40 40 200 200 200 200 200 200
200 40 40 40 40
40 40 40 40 200 200 200 200 200 200 200
200 200 40 40 40
40 40 40 40 200 200 200 200 200 200 200
200 40 40 40 40
40 40 40 40 200 200 200 200 200 200 200
200 200 40 40 40
40 40 40 40 200 200 200 200 200 200 200
200 200 40 40 40
40 40 40 40 200 200 200 200 200 200 200
200 200 40 40 40
40 40 40 40 120 200 200 200 200 200 200
200 40 40 40 40
40 40 120 120 120 120 200 200 200 200 200
40 40 40 40 40
40 40 120 120 120 120 40 40 40 40 40
40 40 40 40 40
40 40 120 120 120 40 40 40 40 40 40
40 40 40 40 40
40 40 40 40 40 40 40 40 40 40 40
40 40 40 40 40
0 40 40 40 40 40 40 40 40 40 40
40 40 40 40 40
P2
16 16
255
50 44 40 40 40 40 40 40 40 40 40
40 40 40 44 50
44 19 10 10 15 30 45 50 50 50 45
30 15 10 19 44
40 10 0 5 35 90 125 125 120 125 125
90 35 5 10 40
40 10 5 35 105 170 170 135 120 135 170
170 105 35 15 40
40 10 20 90 170 175 110 55 40 55 110
170 155 75 25 40
40 10 35 125 170 110 35 5 0 5 40
110 140 85 30 40
40 10 40 125 135 55 5 0 0 0 20
85 135 95 35 40
40 10 40 120 120 40 0 0 0 0 15
80 150 120 45 40
40 10 40 122 127 47 2 0 0 0 5
50 120 110 45 40
42 20 45 107 135 72 17 2 0 5 35
110 170 125 45 40
50 47 72 92 107 100 65 45 40 55 110
175 170 90 30 40
57 70 85 67 52 95 115 120 120 135 170
170 105 35 15 40
57 62 55 27 45 90 115 120 120 125 125
90 35 5 10 40
60 74 84 62 85 87 65 45 40 40 35
20 5 0 10 40
57 66 74 65 72 55 27 12 10 10 10
10 10 10 19 44
46 57 60 57 57 50 42 40 40 40 40
40 40 40 44 50
grid 1 8
0 10
1 164
2 0
3 11
4 0
5 0
6 64
7 7
",
    },
];
