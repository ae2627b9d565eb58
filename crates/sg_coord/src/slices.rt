ghost use Rattle.std.specs.Prelude.{◌≡◌, ◌+◌, ◌/◌, ◌<◌, ◌≤◌};
ghost use Rattle.sg_coord.specs.Slices.{slice_start};

/// The numbers of worker `w` among `0..len`, from the first of the pair to below the second. The
/// slices of all workers partition `0..len`, and their lengths differ by one at most.
pub fn slice_of(len: usize, workers: u32, w: u32) -> (usize, usize)
    requires some { 1 ≤ workers }
    requires few { workers ≤ 16 }
    requires one_of_them { w < workers }
    ensures value { result ≡ (slice_start len workers w, slice_start len workers (w + 1)) }
    ensures in_order { result.0 ≤ result.1 }
    ensures within { result.1 ≤ len }
    ensures at_least { result.0 + len / workers ≤ result.1 }
    ensures at_most { result.1 ≤ result.0 + len / workers + 1 }
{
    (start_of(len, workers, w), start_of(len, workers, w + 1))
}

/// Where the slice of worker `w` starts, or at `workers`, where the last one ends.
fn start_of(len: usize, workers: u32, w: u32) -> usize
    requires some { 1 ≤ workers }
    requires up_to_all { w ≤ workers }
    ensures { result ≡ slice_start len workers w }
{
    let workers = workers as usize;
    let w = w as usize;
    w * (len / workers) + w.min(len % workers)
}
