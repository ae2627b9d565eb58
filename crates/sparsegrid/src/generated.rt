//! The generated program.

ghost use Rattle.std.specs.Prelude.{◌≡◌, ◌≤◌, length, IfOk, string_bytes};
ghost use Rattle.sg_lexer.specs.Limits.{most_file_bytes};
ghost use Rattle.sparsegrid.specs.Generated as spec;
ghost use Rattle.sparsegrid.specs.Words as spec_words;

use crate::words::Mode;
use sg_words::Memory;
use std::alloc::Global;

/// Whether the generated program is run.
pub(crate) fn is_gen(mode: Mode) -> bool
    ensures { result ≡ spec_words.is_gen mode }
{
    match mode {
        Mode::Run => false,
        Mode::Check => false,
        Mode::Lower => false,
        Mode::Gen => true,
        Mode::Save => false,
        Mode::Audit => false,
        Mode::Advise => false,
        Mode::Journal => false,
    }
}

/// What stands after the number.
#[tactic(auto, unfolding(crate::specs::Generated::behind_number))]
fn behind_number() -> &'static str
    ensures { result.now ≡ spec.behind_number }
{
    "u;
layout G(i, j) {
  hash(i: 16, j: 16) cap 256;
  pointer(i: 4, j: 4) cap 4096;
  bitmasked(i: 16, j: 16);
  field mass: i32;
  field soft: i32;
}
layout R(k) { dense(k: 1); field total: i32; }
kernel scatter {
  for p in 0..65536 {
    let h = (u32(p) + S) * 2654435761u;
    let a = i32(h >> 22);
    let b = i32((h >> 12) & 1023u);
    mass[a, b] += 1;
  }
}
kernel smooth {
  for i, j in G {
    soft[i, j] = mass[i, j] * 4 + mass[i - 1, j] + mass[i + 1, j] + mass[i, j - 1] + mass[i, j + 1];
  }
}
kernel sum {
  for i, j in G {
    if mass[i, j] != 0 { total[0] += mass[i, j]; }
  }
}
run scatter; run smooth; run sum; stats G; dump total;
"
}

/// The text of the generated program of a number.
#[tactic(auto, using(crate::proofs::Generating::short))]
pub(crate) fn generated_text(alloc: Global, number: u32) -> Result<String, Memory>
    ensures text { IfOk result (λ text. string_bytes text ≡ spec.generated_text number) }
    ensures few { IfOk result (λ text. length (string_bytes text) ≤ most_file_bytes) }
{
    let text = format!(in alloc; "const S = {}{}", number, behind_number())?;
    Ok(text)
}
