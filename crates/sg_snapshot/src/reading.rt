//! The parts that bytes are.

ghost use Rattle.std.specs.Prelude.{◌≡◌, ◌≤◌, ◌+◌, ◌*◌, drop, length, slice_index, option_map, IfOk, IfSome};
ghost use Rattle.sg_snapshot.specs.Numbers as form;
ghost use Rattle.sg_snapshot.specs.Parts as spec;

use crate::part::Part;
use sg_layout::Layout;
use sg_words::{Items, Memory};
use std::alloc::Global;

/// The parts of layouts that bytes are; none where they are of another form.
pub(crate) fn parts_in(
    alloc: Global,
    bytes: &[u8],
    layouts: &[Layout],
) -> Result<Option<Items<Part>>, Memory>
    ensures { IfOk result (λ found. found ≡ spec.parts_in (spec.frames_of layouts.now) bytes.now) }
{
    if !bytes.starts_with(b"SGS1") {
        return Ok(None);
    }
    let (_mark, rest) = bytes.split_at(4);
    match numbers_of(alloc, rest)? {
        None => Ok(None),
        Some(numbers) => counted_parts(alloc, numbers.as_slice(), layouts),
    }
}

/// The numbers of four bytes each, the lowest first, that bytes are; none where the last has fewer.
fn numbers_of(alloc: Global, bytes: &[u8]) -> Result<Option<Items<u32>>, Memory>
    ensures { IfOk result (λ found. found ≡ form.numbers_of bytes.now) }
{
    let long = bytes.len();
    let many = long / 4;
    let mut numbers = Vec::with_capacity(alloc, many)?;
    for i in 0..many {
        numbers.push(number_at(bytes, 4 * i))?;
    }
    let end = 4 * many;
    if end < long {
        return Ok(None);
    }
    Ok(Some(Items::from_vec(numbers)))
}

/// The number of the four bytes from an index on.
fn number_at(bytes: &[u8], at: usize) -> u32
    requires { at + 4 ≤ length bytes.now }
    ensures { result ≡ slice_index bytes.now at + 256 * slice_index bytes.now (at + 1)
        + 65536 * slice_index bytes.now (at + 2) + 16777216 * slice_index bytes.now (at + 3) }
{
    let low = u32::from(bytes[at]) + 256 * u32::from(bytes[at + 1]);
    let high = u32::from(bytes[at + 2]) + 256 * u32::from(bytes[at + 3]);
    low + 65536 * high
}

/// The parts of layouts that numbers are, behind their count; none where they are others.
fn counted_parts(
    alloc: Global,
    numbers: &[u32],
    layouts: &[Layout],
) -> Result<Option<Items<Part>>, Memory>
    ensures { IfOk result (λ found. found ≡ spec.counted_parts (spec.frames_of layouts.now) numbers.now) }
{
    if numbers.is_empty() {
        return Ok(None);
    }
    let (first, rest) = numbers.split_at(1);
    if first[0] as usize != layouts.len() {
        return Ok(None);
    }
    parts_read(alloc, rest, layouts)
}

/// The parts of layouts that numbers are; none where they are others.
fn parts_read(
    alloc: Global,
    numbers: &[u32],
    layouts: &[Layout],
) -> Result<Option<Items<Part>>, Memory>
    ensures { IfOk result (λ found. found ≡ spec.parts_read (spec.frames_of layouts.now) numbers.now) }
{
    let mut read = Items::new(alloc);
    let mut rest = numbers;
    for layout in layouts {
        match part_front(alloc, rest, layout)? {
            None => return Ok(None),
            Some(front) => {
                let (_taken, left) = rest.split_at(front.used);
                rest = left;
                read.push(front.part)?;
            }
        }
    }
    if !rest.is_empty() {
        return Ok(None);
    }
    Ok(Some(read))
}

/// A part, and how many numbers it has.
#[derive(Debug, Drop)]
struct Front {
    part: Part,
    used: usize,
}

/// The part of a layout at the front of numbers; none where they begin otherwise.
fn part_front(alloc: Global, numbers: &[u32], layout: &Layout) -> Result<Option<Front>, Memory>
    ensures front { IfOk result (λ found. spec.part_front (spec.frame_of layout.now) numbers.now
        ≡ option_map (λ front. (front.part, drop front.used numbers.now)) found) }
    ensures within { IfOk result (λ found. IfSome found (λ front. front.used ≤ length numbers.now)) }
{
    if numbers.is_empty() {
        return Ok(None);
    }
    let (first, rest) = numbers.split_at(1);
    let count = first[0] as usize;
    if rest.len() < count {
        return Ok(None);
    }
    let (rows, behind) = rest.split_at(count);
    if !are_rows(rows, layout.extents().volume()) {
        return Ok(None);
    }
    match lists_of(alloc, behind, layout.shape().fields.len(), count)? {
        None => Ok(None),
        Some(words) => {
            let part = Part {
                rows: Items::from_slice(alloc, rows)?,
                words: words.lists,
            };
            let used = 1 + count + words.used;
            Ok(Some(Front { part, used }))
        }
    }
}

/// Whether rows rise, and are below a volume.
fn are_rows(rows: &[u32], volume: u32) -> bool
    ensures { result ≡ spec.are_rows 0 volume rows.now }
{
    let mut least = 0;
    for row in rows {
        if *row < least {
            return false;
        }
        if *row >= volume {
            return false;
        }
        least = *row + 1;
    }
    true
}

/// Lists, and how many numbers they have.
#[derive(Debug, Drop)]
struct Lists {
    lists: Items<Items<u32>>,
    used: usize,
}

/// So many lists of so many numbers at the front of numbers; none where there are fewer.
fn lists_of(
    alloc: Global,
    numbers: &[u32],
    fields: usize,
    count: usize,
) -> Result<Option<Lists>, Memory>
    ensures front { IfOk result (λ found. spec.cut_lists fields count numbers.now
        ≡ option_map (λ words. (words.lists, drop words.used numbers.now)) found) }
    ensures within { IfOk result (λ found. IfSome found (λ words. words.used ≤ length numbers.now)) }
{
    let mut lists = Items::new(alloc);
    let mut rest = numbers;
    for _field in 0..fields {
        if rest.len() < count {
            return Ok(None);
        }
        let (list, left) = rest.split_at(count);
        lists.push(Items::from_slice(alloc, list)?)?;
        rest = left;
    }
    let used = numbers.len() - rest.len();
    Ok(Some(Lists { lists, used }))
}
