//! The programs of the folder `examples/` that draw pictures, each with what it writes.

/// Name, source and output.
pub(crate) static PICTURES: &[(&str, &str, &str)] = &[
    (
        "life-picture.sg",
        "// Game of life as a picture: a glider on a grid of 8 by 8, four generations on.
const N = 8;

layout Board(row, column) {
  dense(row: N, column: N);
  field cell: i32;
  field next: i32;
}

// The glider: a 1 above on the right, one more below it, and a row of three.
kernel top { for row, column in 0..1, 1..2 { cell[row, column] = 1; } }
kernel middle { for row, column in 1..2, 2..3 { cell[row, column] = 1; } }
kernel bottom { for row, column in 2..3, 0..3 { cell[row, column] = 1; } }

// A cell lives on where its neighbours, or they and itself, are three: (around | cell) is 3 just then.
kernel step {
  for row, column in 0..N, 0..N {
    let above = cell[row - 1, column - 1] + cell[row - 1, column] + cell[row - 1, column + 1];
    let beside = cell[row, column - 1] + cell[row, column + 1];
    let below = cell[row + 1, column - 1] + cell[row + 1, column] + cell[row + 1, column + 1];
    let off = ((above + beside + below) | cell[row, column]) ^ 3;
    next[row, column] = 1 - min(1, off);
  }
}
kernel keep { for row, column in 0..N, 0..N { cell[row, column] = next[row, column]; } }

run top; run middle; run bottom;
run step; run keep; run step; run keep; run step; run keep; run step; run keep;
image cell 0 1;
",
        "P2
8 8
255
0 0 0 0 0 0 0 0
0 0 255 0 0 0 0 0
0 0 0 255 0 0 0 0
0 255 255 255 0 0 0 0
0 0 0 0 0 0 0 0
0 0 0 0 0 0 0 0
0 0 0 0 0 0 0 0
0 0 0 0 0 0 0 0
",
    ),
    (
        "plate.sg",
        "// Heat in a plate of 8 by 8, in 16.16 fixed point: a hot spot after four steps of diffusion, as a picture.
layout Plate(i, j) { dense(i: 8, j: 8); field heat: i32; field flow: i32; }
kernel warm { for i, j in 3..5, 3..5 { heat[i, j] = 200 << 16; } }
kernel diffuse {
  for i, j in Plate {
    let round = heat[i - 1, j] + heat[i + 1, j] + heat[i, j - 1] + heat[i, j + 1];
    flow[i, j] = (round - 4 * heat[i, j]) / 8;
  }
}
kernel settle { for i, j in Plate { heat[i, j] = heat[i, j] + flow[i, j]; } }
run warm;
times 4 { run diffuse; run settle; }
image heat 0 6553600;
",
        "P2
8 8
255
0 0 0 2 2 0 0 0
0 0 7 22 22 7 0 0
0 7 39 96 96 39 7 0
2 22 96 210 210 96 22 2
2 22 96 210 210 96 22 2
0 7 39 96 96 39 7 0
0 0 7 22 22 7 0 0
0 0 0 2 2 0 0 0
",
    ),
    (
        "brush.sg",
        "// A brush on a sparse canvas of 16 by 16: a stroke activates blocks of 4 by 4; wiping some of it and pruning frees theirs.
layout Canvas(i, j) { pointer(i: 4, j: 4) cap 8; dense(i: 4, j: 4); field ink: i32; }
kernel stroke { for t in 0..16 { for d in -1..2 { ink[t, t / 2 + 2 + d] += 60; } } }
kernel wipe { for i, j in 0..4, 0..8 { ink[i, j] = 0; } }
run stroke; stats Canvas;
run wipe; prune Canvas; stats Canvas;
image ink 0 80;
",
        "stats Canvas active 128 node 1 live 8
stats Canvas active 96 node 1 live 6
P2
16 16
255
0 0 0 0 0 0 0 0 0 0 0
0 0 0 0 0
0 0 0 0 0 0 0 0 0 0 0
0 0 0 0 0
0 0 0 0 0 0 0 0 0 0 0
0 0 0 0 0
0 0 0 0 0 0 0 0 0 0 0
0 0 0 0 0
0 0 0 191 191 191 0 0 0 0 0
0 0 0 0 0
0 0 0 191 191 191 0 0 0 0 0
0 0 0 0 0
0 0 0 0 191 191 191 0 0 0 0
0 0 0 0 0
0 0 0 0 191 191 191 0 0 0 0
0 0 0 0 0
0 0 0 0 0 191 191 191 0 0 0
0 0 0 0 0
0 0 0 0 0 191 191 191 0 0 0
0 0 0 0 0
0 0 0 0 0 0 191 191 191 0 0
0 0 0 0 0
0 0 0 0 0 0 191 191 191 0 0
0 0 0 0 0
0 0 0 0 0 0 0 191 191 191 0
0 0 0 0 0
0 0 0 0 0 0 0 191 191 191 0
0 0 0 0 0
0 0 0 0 0 0 0 0 191 191 191
0 0 0 0 0
0 0 0 0 0 0 0 0 191 191 191
0 0 0 0 0
",
    ),
    (
        "particles.sg",
        "// Eight particles give their mass to a grid of 4 by 4 cells, the grid is smoothed, and each particle reads its cell back.
layout Points(p) { dense(p: 8); field x: i32; field y: i32; field seen: i32; }
layout Grid(i, j) { hash(i: 2, j: 2) cap 4; bitmasked(i: 2, j: 2); field mass: i32; field smooth: i32; }
kernel place { for p in Points { x[p] = (p * 5) % 16; y[p] = (p * 3) % 16; } }
kernel scatter { for p in Points { mass[x[p] >> 2, y[p] >> 2] += 16; } }
kernel blur {
  for i, j in Grid {
    let round = mass[i - 1, j] + mass[i + 1, j] + mass[i, j - 1] + mass[i, j + 1];
    smooth[i, j] = (round + 4 * mass[i, j]) / 8;
  }
}
kernel gather { for p in Points { seen[p] = smooth[x[p] >> 2, y[p] >> 2]; } }
run place; run scatter; run blur; run gather;
stats Grid; image mass 0 32; image smooth 0 32; dump seen;
",
        "stats Grid active 8 node 1 live 4
P2
4 4
255
127 127 0 0
127 0 0 127
0 127 0 127
127 0 127 0
P2
4 4
255
95 79 0 0
79 0 0 79
0 63 0 79
63 0 63 0
grid 1 8
0 12
1 10
2 8
3 8
4 10
5 10
6 8
7 10
",
    ),
    (
        "edges.sg",
        "// Edges of a picture: how far a pixel differs from those on its left and above it.
layout Picture(i, j) { dense(i: 8, j: 8); field light: i32; field edge: i32; }
kernel draw { for i, j in 2..6, 2..6 { light[i, j] = 200; } }
kernel find {
  for i, j in Picture {
    let across = light[i, j] - light[i, j - 1];
    let down = light[i, j] - light[i - 1, j];
    edge[i, j] = max(max(across, -across), max(down, -down));
  }
}
run draw; run find; image light 0 255; image edge 0 255;
",
        "P2
8 8
255
0 0 0 0 0 0 0 0
0 0 0 0 0 0 0 0
0 0 200 200 200 200 0 0
0 0 200 200 200 200 0 0
0 0 200 200 200 200 0 0
0 0 200 200 200 200 0 0
0 0 0 0 0 0 0 0
0 0 0 0 0 0 0 0
P2
8 8
255
0 0 0 0 0 0 0 0
0 0 0 0 0 0 0 0
0 0 200 200 200 200 200 0
0 0 200 0 0 0 200 0
0 0 200 0 0 0 200 0
0 0 200 0 0 0 200 0
0 0 200 200 200 200 0 0
0 0 0 0 0 0 0 0
",
    ),
    (
        "tank.sg",
        "// A step of a fluid in a tank of 8 by 8: a jet, its divergence, a pressure by eight relaxations, and the jet without it.
layout Tank(i, j) { dense(i: 8, j: 8); field u: i32; field v: i32; field div: i32; field p: i32; field q: i32; }
kernel push { for i, j in 3..5, 2..4 { u[i, j] = 4096; } }
kernel diverge { for i, j in Tank { div[i, j] = u[i, j + 1] - u[i, j] + v[i + 1, j] - v[i, j]; } }
kernel relax { for i, j in Tank { q[i, j] = (p[i - 1, j] + p[i + 1, j] + p[i, j - 1] + p[i, j + 1] - div[i, j]) / 4; } }
kernel keep { for i, j in Tank { p[i, j] = q[i, j]; } }
kernel project { for i, j in Tank { u[i, j] = u[i, j] - p[i, j] + p[i, j - 1]; v[i, j] = v[i, j] - p[i, j] + p[i - 1, j]; } }
run push; run diverge;
times 8 { run relax; run keep; }
run project;
image p -2048 2048; image u -4096 4096;
",
        "P2
8 8
255
125 124 127 130 130 129 127 127
119 117 127 138 136 132 129 127
107 93 127 162 151 138 131 128
86 18 127 237 175 146 133 129
86 18 127 237 175 146 133 129
107 93 127 162 151 138 131 128
119 117 127 138 136 132 129 127
125 124 127 130 130 129 127 127
P2
8 8
255
128 127 126 125 127 128 128 127
131 128 122 122 128 129 128 128
137 134 110 110 133 133 131 128
148 161 200 199 158 142 133 129
148 161 200 199 158 142 133 129
137 134 110 110 133 133 131 128
131 128 122 122 128 129 128 128
128 127 126 125 127 128 128 127
",
    ),
];
