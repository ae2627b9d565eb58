//! The programs of the folder `gallery/` at a small size, each with a sum of its picture, weighted by places: the constants before the
//! layouts, and the number of a `times`, are others than in the files, and the sum stands in the place of the picture.

use crate::loading_examples::LoadingExample;

pub(crate) static GALLERY: &[LoadingExample] = &[
    LoadingExample {
        name: "dragon.sg",
        source: "// The dragon curve: a strip of paper folded 14 times in half and opened to right angles, drawn on 1,024 by 1,024.
// Its canvas is the layout of four that `sparsegrid --mode advise dragon.sg` found best: 186,000 words, not 1,048,576.
const FOLDS = 6;
const STEPS = 64; // 2 to the power of FOLDS
const LONG = 4; // points of a step
const TOP = 724; // where the strip begins
const LEFT = 596;

layout Levels(row, column) {
  pointer(row: 32, column: 32) cap 256;
  pointer(row: 4, column: 4) cap 3072;
  dense(row: 8, column: 8);
  field ink: i32;
}
layout Whole(row, column) { dense(row: 1024, column: 1024); field ink_whole: i32; }
layout Blocks(row, column) { pointer(row: 128, column: 128) cap 4096; dense(row: 8, column: 8); field ink_blocks: i32; }
layout Large(row, column) { pointer(row: 16, column: 16) cap 128; dense(row: 64, column: 64); field ink_large: i32; }

// Where step n begins is read off the bits of n: each doubles the way so far, turned by an eighth, and a bit 1 adds a
// step. Steps go right, down, left or up, by how often the bits of n have changed. Later steps are darker.
kernel unfold {
  for n in 0..STEPS {
    let row = 0; let column = 0; let changes = 0; let last = 0;
    for k in 0..FOLDS {
      let bit = (n >> (FOLDS - 1 - k)) & 1;
      let across = column - row; row = column + row; column = across;
      if bit == 1 {
        let way = changes + last;
        column = column + (1 - (way & 2)) * (1 - (way & 1));
        row = row + (1 - (way & 2)) * (way & 1);
      }
      changes = changes + (bit ^ last);
      last = bit;
    }
    let right = (1 - (changes & 2)) * (1 - (changes & 1)); let down = (1 - (changes & 2)) * (changes & 1);
    for t in 0..LONG {
      ink[TOP + row * LONG + t * down, LEFT + column * LONG + t * right] max= 64 + n * 192 / STEPS;
    }
  }
}

run unfold;
layout Total(t) { dense(t: 1); field total: i32; }
kernel sum { for r, c in Levels { total[0] += ink[r, c] * (r * 31 + c); } }
run sum; dump total;
",
        words: &["p.sg"],
        others: &[],
        output: "grid 1 1\n0 876010908\n",
    },
    LoadingExample {
        name: "filters.sg",
        source: "// A picture is loaded, its noise taken out by a median of five, softened by a window of 3 by 3, and its edges are
// found after Sobel; dark edges on a pale picture: filters.sg grey=earth.grid
const N = 8;

layout Photo(row, column) {
  dense(row: N, column: N);
  field grey: i32; field calm: i32; field soft: i32; field edge: i32; field drawn: i32;
}

// The middle of five: drop the least and the greatest of four, then take the middle of the three that are left.
kernel median {
  for row, column in Photo {
    let a = grey[row - 1, column]; let b = grey[row + 1, column];
    let c = grey[row, column - 1]; let d = grey[row, column + 1];
    let e = grey[row, column];
    let low = max(min(a, b), min(c, d));
    let high = min(max(a, b), max(c, d));
    calm[row, column] = max(min(low, high), min(max(low, high), e));
  }
}
kernel soften {
  for row, column in Photo {
    let sum = 0;
    for a in -1..2 { for b in -1..2 { sum = sum + calm[row + a, column + b] * (2 - a * a) * (2 - b * b); } }
    soft[row, column] = sum / 16;
  }
}
kernel sobel {
  for row, column in Photo {
    let down = 0; let right = 0;
    for a in -1..2 {
      down = down + (soft[row + 1, column + a] - soft[row - 1, column + a]) * (2 - a * a);
      right = right + (soft[row + a, column + 1] - soft[row + a, column - 1]) * (2 - a * a);
    }
    edge[row, column] = max(down, -down) + max(right, -right);
  }
}
kernel draw { for row, column in Photo { drawn[row, column] = 128 + soft[row, column] / 2 - edge[row, column]; } }

load grey;
run median; run soften; run sobel; run draw;
layout Total(t) { dense(t: 1); field total: i32; }
kernel sum { for row, column in Photo { total[0] += drawn[row, column] * (row * 31 + column); } }
run sum; dump total;
",
        words: &["p.sg", "grey=earth.grid"],
        others: &[(
            "earth.grid",
            "grid 2 64\n0 0 0\n0 1 128\n0 2 74\n0 3 94\n0 4 188\n0 5 100\n0 6 86\n0 7 146\n1 0 24\n1 1 232\n1 2 2\n1 3 102\n1 4 20\n1 5 12\n1 6 78\n1 7 218\n2 0 176\n2 1 208\n2 2 58\n2 3 238\n2 4 236\n2 5 52\n2 6 198\n2 7 162\n3 0 200\n3 1 56\n3 2 242\n3 3 246\n3 4 68\n3 5 220\n3 6 190\n3 7 234\n4 0 96\n4 1 32\n4 2 42\n4 3 126\n4 4 28\n4 5 4\n4 6 54\n4 7 178\n5 0 120\n5 1 136\n5 2 226\n5 3 134\n5 4 116\n5 5 172\n5 6 46\n5 7 250\n6 0 16\n6 1 112\n6 2 26\n6 3 14\n6 4 76\n6 5 212\n6 6 166\n6 7 194\n7 0 40\n7 1 216\n7 2 210\n7 3 22\n7 4 164\n7 5 124\n7 6 158\n7 7 10\n",
        )],
        output: "grid 1 1\n0 -1426290\n",
    },
    LoadingExample {
        name: "gray_scott.sg",
        source: "// Gray-Scott: a chemical b feeds on a and fades, both spread, on a torus, in 16.16 fixed point. 4,000 steps.
const N = 16;
const LAST = 15; // N - 1
const FEED = 3604;
const FADE = 7667;

layout Dish(r, c) {
  dense(r: N, c: N);
  field a: i32; field b: i32;
  field na: i32; field nb: i32;
}

// a everywhere; b in some 40 small squares, strewn by a hash of their place.
kernel seed {
  for r, c in 0..N, 0..N {
    a[r, c] = 65536;
    let h = (u32(r >> 3) * 2654435761u) ^ (u32(c >> 3) * 2246822519u);
    h = (h ^ (h >> 15)) * 3266489917u;
    if h >> 16 < 2600u { a[r, c] = 32768; b[r, c] = 16384; }
  }
}

// A ninth-point stencil: neighbours count a fifth, corners a twentieth.
kernel react {
  for r, c in 0..N, 0..N {
    let u = (r + LAST) & LAST; let d = (r + 1) & LAST;
    let l = (c + LAST) & LAST; let e = (c + 1) & LAST;
    let x = a[r, c];
    let y = b[r, c];
    let la = (a[u, c] + a[d, c] + a[r, l] + a[r, e]) / 5 + (a[u, l] + a[u, e] + a[d, l] + a[d, e]) / 20 - x;
    let lb = (b[u, c] + b[d, c] + b[r, l] + b[r, e]) / 5 + (b[u, l] + b[u, e] + b[d, l] + b[d, e]) / 20 - y;
    let xyy = mulq(x, mulq(y, y, 16), 16);
    na[r, c] = x + la - xyy + mulq(FEED, 65536 - x, 16);
    nb[r, c] = y + lb / 2 + xyy - mulq(FADE, y, 16);
  }
}
kernel step { for r, c in 0..N, 0..N { a[r, c] = na[r, c]; b[r, c] = nb[r, c]; } }

run seed;
times 5 { run react; run step; run react; run step; run react; run step; run react; run step; }
layout Total(t) { dense(t: 1); field total: i32; }
kernel sum { for r, c in Dish { total[0] += b[r, c] * (r * 31 + c); } }
run sum; dump total;
",
        words: &["p.sg"],
        others: &[],
        output: "grid 1 1\n0 140507200\n",
    },
    LoadingExample {
        name: "mandelbrot.sg",
        source: "// A valley of the Mandelbrot set, in 8.24 fixed point: how many of 400 turns each point stays near, 0 for all.
const N = 16;
const STEP = 20928; // between two points: 0.02 / N
const RE = -12532580; // the middle, -0.747 and 0.11
const IM = 1845494;
const TURNS = 400;

layout Plane(row, column) { dense(row: N, column: N); field turns: i32; }

kernel escape {
  for row, column in 0..N, 0..N {
    let cx = RE + (column - N / 2) * STEP;
    let cy = IM + (row - N / 2) * STEP;
    let x = 0;
    let y = 0;
    let n = 0;
    for k in 0..TURNS {
      let xx = mulq(x, x, 24);
      let yy = mulq(y, y, 24);
      if xx + yy < 67108864 {
        y = mulq(x, y, 23) + cy;
        x = xx - yy + cx;
        n = n + 1;
      }
    }
    turns[row, column] = n % TURNS;
  }
}

run escape;
layout Total(t) { dense(t: 1); field total: i32; }
kernel sum { for row, column in Plane { total[0] += turns[row, column] * (row * 31 + column); } }
run sum; dump total;
",
        words: &["p.sg"],
        others: &[],
        output: "grid 1 1\n0 3160759\n",
    },
    LoadingExample {
        name: "particles.sg",
        source: "// Particles that draw one another together into a web: each gives its mass to a grid, the grid is smoothed into a
// potential, and each moves along its slope. A torus of 256 by 256 in 16.16 fixed point, 65,536 particles, 12 steps.
const N = 16;
const LAST = 15; // N - 1
const EDGE = 1048575; // N * 65536 - 1
const ONE = 65536;

layout Swarm(p, q) { dense(p: N, q: N); field px: i32; field py: i32; field vx: i32; field vy: i32; }
layout Grid(i, j) { dense(i: N, j: N); field mass: i32; field pull: i32; field next: i32; }

// A particle in the middle of each cell, and a rough mass by a hash, which gives the first push.
kernel place {
  for p, q in 0..N, 0..N {
    let h = (u32(p) * 2654435761u) ^ (u32(q) * 2246822519u);
    h = (h ^ (h >> 15)) * 3266489917u;
    mass[p, q] = ONE + (i32(h) >> 11);
    px[p, q] = p * ONE + ONE / 2;
    py[p, q] = q * ONE + ONE / 2;
  }
}
// To the four cells round it, by how near they are.
kernel scatter {
  for p, q in 0..N, 0..N {
    let i = px[p, q] >> 16; let d = px[p, q] & 65535;
    let j = py[p, q] >> 16; let r = py[p, q] & 65535;
    mass[i, j] += mulq(ONE - d, ONE - r, 16);
    mass[i, (j + 1) & LAST] += mulq(ONE - d, r, 16);
    mass[(i + 1) & LAST, j] += mulq(d, ONE - r, 16);
    mass[(i + 1) & LAST, (j + 1) & LAST] += mulq(d, r, 16);
  }
}
kernel smooth {
  for i, j in 0..N, 0..N {
    let beside = pull[i, (j + LAST) & LAST] + pull[i, (j + 1) & LAST];
    next[i, j] = (pull[(i + LAST) & LAST, j] + pull[(i + 1) & LAST, j] + beside + mass[i, j] - ONE) / 4;
  }
}
kernel keep { for i, j in 0..N, 0..N { pull[i, j] = next[i, j]; } }
kernel move {
  for p, q in 0..N, 0..N {
    let i = px[p, q] >> 16; let j = py[p, q] >> 16;
    let ax = pull[(i + 1) & LAST, j] - pull[(i + LAST) & LAST, j];
    let ay = pull[i, (j + 1) & LAST] - pull[i, (j + LAST) & LAST];
    vx[p, q] = vx[p, q] - vx[p, q] / 256 + ax / 128;
    vy[p, q] = vy[p, q] - vy[p, q] / 256 + ay / 128;
    px[p, q] = (px[p, q] + vx[p, q]) & EDGE;
    py[p, q] = (py[p, q] + vy[p, q]) & EDGE;
  }
}
kernel wipe { for i, j in 0..N, 0..N { mass[i, j] = 0; } }

run place;
times 4 { run smooth; run keep; }
times 3 { run wipe; run scatter; run smooth; run keep; run move; }
layout Total(t) { dense(t: 1); field total: i32; }
kernel sum { for i, j in Grid { total[0] += mass[i, j] * (i * 31 + j); } }
run sum; dump total;
",
        words: &["p.sg"],
        others: &[],
        output: "grid 1 1\n0 -279260355\n",
    },
    LoadingExample {
        name: "smoke.sg",
        source: "// Smoke rises in a room, round a ball, in 16.16 fixed point. Only what the smoke has reached is kept. 500 steps.
const N = 32;
const B = 2; // N / 16
const ONE = 65536;
const THIN = 2048; // less than this is no smoke
layout Room(x, y) {
  pointer(x: B, y: B) cap 256; bitmasked(x: 16, y: 16);
  field smoke: i32; field moved: i32;
  field u: i32; field v: i32; field nu: i32; field nv: i32; // cells a step, and what they become
  field rise: i32; field p: i32; field q: i32;
}
layout Clock(t) { dense(t: 1); field now: i32; }

kernel tick { for t in 0..1 { now[t] = now[t] + 1; } }
kernel blow {
  for x, y in N - 24..N - 20, N / 2 - 8..N / 2 + 8 {
    smoke[x, y] += ONE / 2;
    u[x, y] += -ONE / 8;
    v[x, y] += ((now[0] & 63) - 32) * 96;
  }
}
kernel grow {
  for x, y in Room {
    if smoke[x, y] > THIN {
      for a in -1..2 { for b in -1..2 { moved[min(max(x + a, 0), N - 1), min(max(y + b, 0), N - 1)] += 0; } }
    }
  }
}
// Smoke lifts; inside the ball nothing moves.
kernel force {
  for x, y in Room {
    let dx = x - N / 2; let dy = y - N / 2 - 10;
    let free = i32(min(u32(max(dx * dx + dy * dy - N * N / 256, 0)), 1u));
    u[x, y] = (u[x, y] - smoke[x, y] / 128) * free;
    v[x, y] = v[x, y] * free;
  }
}
kernel diverge { for x, y in Room { rise[x, y] = (u[x + 1, y] - u[x - 1, y] + v[x, y + 1] - v[x, y - 1]) / 2; } }
kernel relax { for x, y in Room { q[x, y] = (p[x - 1, y] + p[x + 1, y] + p[x, y - 1] + p[x, y + 1] - rise[x, y]) / 4; } }
kernel back { for x, y in Room { p[x, y] = (q[x - 1, y] + q[x + 1, y] + q[x, y - 1] + q[x, y + 1] - rise[x, y]) / 4; } }
kernel project {
  for x, y in Room { u[x, y] = u[x, y] - (p[x + 1, y] - p[x - 1, y]) / 2; v[x, y] = v[x, y] - (p[x, y + 1] - p[x, y - 1]) / 2; }
}
// What is at a cell was a step ago where the flow came from, between four cells.
kernel carry {
  for x, y in Room {
    let at = x * ONE - u[x, y]; let i = at >> 16; let d = at & 65535; let by = y * ONE - v[x, y]; let j = by >> 16; let r = by & 65535;
    let w0 = mulq(ONE - d, ONE - r, 16); let w1 = mulq(ONE - d, r, 16); let w2 = mulq(d, ONE - r, 16); let w3 = mulq(d, r, 16);
    moved[x, y] = mulq(smoke[i, j], w0, 16) + mulq(smoke[i, j + 1], w1, 16) + mulq(smoke[i + 1, j], w2, 16) + mulq(smoke[i + 1, j + 1], w3, 16);
    nu[x, y] = mulq(u[i, j], w0, 16) + mulq(u[i, j + 1], w1, 16) + mulq(u[i + 1, j], w2, 16) + mulq(u[i + 1, j + 1], w3, 16);
    nv[x, y] = mulq(v[i, j], w0, 16) + mulq(v[i, j + 1], w1, 16) + mulq(v[i + 1, j], w2, 16) + mulq(v[i + 1, j + 1], w3, 16);
  }
}
kernel settle { for x, y in Room { smoke[x, y] = moved[x, y] - moved[x, y] / 512; u[x, y] = nu[x, y]; v[x, y] = nv[x, y]; } }

times 6 { run tick; run blow; run grow; run force; run diverge; run relax; run back; run relax; run back; run project; run carry; run settle; }
layout Total(t) { dense(t: 1); field total: i32; }
kernel sum { for x, y in Room { total[0] += smoke[x, y] * (x * 31 + y); } }
run sum; dump total;
",
        words: &["p.sg"],
        others: &[],
        output: "grid 1 1\n0 -1175961547\n",
    },
    LoadingExample {
        name: "stroke.sg",
        source: "// A stroke along a curve on a canvas of 4,096 by 4,096, of which only the painted blocks are kept. Some of it is
// wiped, its blocks are freed, and the canvas is shown reduced to 512 by 512.
const BLOCKS = 4; // a block is 64 by 64
const N = 256;
const VIEW = 32;
const POINTS = 16;
const FINE = 4096; // points of a turn of the curve: 65536 / POINTS

layout Canvas(row, column) {
  pointer(row: BLOCKS, column: BLOCKS) cap 900;
  dense(row: 64, column: 64);
  field ink: i32;
}
layout View(row, column) { dense(row: VIEW, column: VIEW); field grey: i32; }

// Waves by parabolas, two turns down and three across; the brush is a soft disc that grows and shrinks.
kernel stroke {
  for t in 0..POINTS {
    let s = (t * 2 * FINE) & 65535; let a = (s & 32767) - 16384;
    let up = 32768 - mulq(a, a, 13); // 0 at the ends of a half turn, 32768 in its middle
    if s > 32767 { up = -up; }
    let z = (t * 3 * FINE + 9000) & 65535; let b = (z & 32767) - 16384;
    let over = 32768 - mulq(b, b, 13);
    if z > 32767 { over = -over; }
    let row = N / 2 + mulq(up, N / 2 - 32, 15);
    let column = N / 2 + mulq(over, N / 2 - 32, 15);
    let wide = 20 + mulq(up, 10, 15);
    for dy in -30..31 {
      for dx in -30..31 {
        let far = dy * dy + dx * dx;
        if far < wide * wide { ink[row + dy, column + dx] max= 255 - far / 4; }
      }
    }
  }
}
kernel wipe {
  for row, column in Canvas { if row + column > N - N / 16 && row + column < N + N / 16 { ink[row, column] = 0; } }
}
kernel reduce { for row, column in Canvas { grey[row * VIEW / N, column * VIEW / N] += ink[row, column]; } }

run stroke; stats Canvas;
run wipe; prune Canvas; stats Canvas;
run reduce;
layout Total(t) { dense(t: 1); field total: i32; }
kernel sum { for row, column in View { total[0] += grey[row, column] * (row * 31 + column); } }
run sum; dump total;
",
        words: &["p.sg"],
        others: &[],
        output: "stats Canvas active 65536 node 1 live 16\nstats Canvas active 61440 node 1 live 15\ngrid 1 1\n0 1457127146\n",
    },
];
