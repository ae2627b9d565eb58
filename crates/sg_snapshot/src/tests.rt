//! Images of states, and stores made from bytes.

use crate::{SnapFault, restore, save};
use sg_layout::Kind::{Bitmasked, Dense, Dynamic, Hash, Pointer};
use sg_layout::{Kind, Layout, Layouts, NodeShape, Shape, Size, check_layout, check_total};
use sg_words::{Items, Memory, Stop, Ty};
use std::alloc::{AllocError, Global};
use std::test::Fail;

/// A node of a line: its kind, its extent and its cap.
type Node = (Kind, i32, i32);

/// The nodes of lines, the numbers behind the mark, and what they are as a snapshot.
#[derive(Clone, Copy)]
struct Row {
    lines: &'static [&'static [Node]],
    numbers: &'static [u32],
    answer: &'static str,
}

/// Blocks of four.
const BLOCKS: &[Node] = &[(Pointer, 4, 2), (Dense, 4, 0)];

const ONE_BLOCK: &[Node] = &[(Pointer, 4, 1), (Dense, 4, 0)];

const KEYS: &[Node] = &[(Hash, 4, 2), (Bitmasked, 4, 0)];

const LIST: &[Node] = &[(Dynamic, 8, 2)];

const ALL: &[Node] = &[(Dense, 4, 0)];

static ROWS: [Row; 17] = [
    Row {
        lines: &[],
        numbers: &[0],
        answer: "again",
    },
    Row {
        lines: &[],
        numbers: &[1],
        answer: "NotSnapshot",
    },
    Row {
        lines: &[BLOCKS],
        numbers: &[1, 4, 4, 5, 6, 7, 0, 7, 0, 0],
        answer: "again",
    },
    Row {
        lines: &[BLOCKS],
        numbers: &[1, 0],
        answer: "again",
    },
    Row {
        lines: &[BLOCKS],
        numbers: &[4294967295, 0],
        answer: "NotSnapshot",
    },
    Row {
        lines: &[BLOCKS],
        numbers: &[1, 4294967295, 4, 5],
        answer: "NotSnapshot",
    },
    Row {
        lines: &[BLOCKS],
        numbers: &[1, 4, 4, 5, 6, 7, 0, 7, 0, 0, 0],
        answer: "NotSnapshot",
    },
    Row {
        lines: &[BLOCKS],
        numbers: &[1, 4, 4, 5, 7, 6, 0, 7, 0, 0],
        answer: "NotSnapshot",
    },
    Row {
        lines: &[BLOCKS],
        numbers: &[1, 4, 13, 14, 15, 16, 0, 7, 0, 0],
        answer: "NotSnapshot",
    },
    Row {
        lines: &[BLOCKS],
        numbers: &[1, 1, 5, 7],
        answer: "NotClosed { layout: 0 }",
    },
    Row {
        lines: &[KEYS, LIST],
        numbers: &[2, 2, 5, 15, 4294967295, 0, 3, 0, 1, 2, 1, 2, 3],
        answer: "again",
    },
    Row {
        lines: &[KEYS, LIST],
        numbers: &[2, 1, 5, 1, 2, 1, 2, 1, 2],
        answer: "NotClosed { layout: 1 }",
    },
    Row {
        lines: &[LIST],
        numbers: &[1, 8, 0, 1, 2, 3, 4, 5, 6, 7, 0, 0, 0, 0, 0, 0, 0, 9],
        answer: "again",
    },
    Row {
        lines: &[ALL],
        numbers: &[1, 4, 0, 1, 2, 3, 0, 0, 0, 0],
        answer: "again",
    },
    Row {
        lines: &[ALL],
        numbers: &[1, 3, 0, 1, 3, 0, 0, 0],
        answer: "NotClosed { layout: 0 }",
    },
    Row {
        lines: &[ONE_BLOCK],
        numbers: &[1, 8, 0, 1, 2, 3, 4, 5, 6, 7, 0, 0, 0, 0, 0, 0, 0, 0],
        answer: "Full { layout: 0, node: 1, cap: 1 }",
    },
    Row {
        lines: &[ONE_BLOCK, ALL],
        numbers: &[
            2, 8, 0, 1, 2, 3, 4, 5, 6, 7, 0, 0, 0, 0, 0, 0, 0, 0, 1, 2, 5,
        ],
        answer: "NotClosed { layout: 1 }",
    },
];

/// Chunks of four elements for a dynamic node.
fn chunk_of(kind: Kind) -> i32 {
    match kind {
        Kind::Dynamic => 4,
        _ => 0,
    }
}

fn nodes_of(alloc: Global, nodes: &[Node]) -> Result<Items<NodeShape>, AllocError> {
    let mut shapes = Items::new(alloc);
    for (kind, extent, cap) in nodes {
        let size = Size {
            axis: 1,
            extent: *extent,
        };
        shapes.push(NodeShape {
            kind: *kind,
            sizes: Items::from_slice(alloc, &[size])?,
            cap: *cap,
            chunk: chunk_of(*kind),
        })?;
    }
    Ok(shapes)
}

/// A line of these nodes with one field.
fn line_of(alloc: Global, nodes: &[Node]) -> Result<Layout, Fail> {
    let shape = Shape {
        axes: 1,
        nodes: nodes_of(alloc, nodes)?,
        fields: Items::from_slice(alloc, &[Ty::I32])?,
    };
    if !shape.is_declared() {
        return Err(Fail::from("not declared"));
    }
    Ok(check_layout(alloc, &shape)?)
}

fn lines_of(alloc: Global, lines: &[&[Node]]) -> Result<Layouts, Fail> {
    let mut list = Items::new(alloc);
    for nodes in lines {
        list.push(line_of(alloc, nodes)?)?;
    }
    Ok(Layouts { list })
}
/// The bytes of numbers behind the mark.
fn bytes_of(alloc: Global, numbers: &[u32]) -> Result<Vec<u8>, AllocError> {
    let mut bytes = Vec::new(alloc);
    bytes.extend_from_slice(b"SGS1")?;
    for number in numbers {
        bytes.extend_from_slice(&number.to_le_bytes())?;
    }
    Ok(bytes)
}

/// Whether bytes are restored to stores whose image they are; the fault where they aren't restored.
fn again(alloc: Global, bytes: &[u8], layouts: &Layouts) -> Result<Result<bool, SnapFault>, Fail> {
    if check_total(layouts).is_err() {
        return Err(Fail::from("many words"));
    }
    match restore(alloc, bytes, layouts) {
        Ok(stores) => {
            let image = save(alloc, &stores, layouts)?;
            Ok(Ok(image.bytes.as_slice() == bytes))
        }
        Err(Stop::Refused(fault)) => Ok(Err(fault)),
        Err(Stop::Memory) => Err(Fail::from(Memory)),
    }
}

fn told(alloc: Global, bytes: &[u8], layouts: &Layouts) -> Result<String, Fail> {
    match again(alloc, bytes, layouts)? {
        Ok(true) => Ok(format!(in alloc; "again")?),
        Ok(false) => Ok(format!(in alloc; "other")?),
        Err(fault) => Ok(format!(in alloc; "{fault:?}")?),
    }
}

#[test]
fn images_are_restored(rt: HostRuntime) -> Result<(), Fail> {
    for row in &ROWS {
        let layouts = lines_of(rt.alloc(), row.lines)?;
        let bytes = bytes_of(rt.alloc(), row.numbers)?;
        let told = told(rt.alloc(), &bytes, &layouts)?;
        assert_eq!(rt; told.as_str(), row.answer);
    }
    Ok(())
}

/// How many of an image's neighbours are images: each byte changed to each other one, and each shorter front.
fn images_beside(alloc: Global, bytes: &mut Vec<u8>, layouts: &Layouts) -> Result<u32, Fail> {
    let mut images = 0u32;
    for i in 0..bytes.len() {
        let kept = bytes[i];
        for byte in 0..=255u8 {
            bytes[i] = byte;
            if let Ok(same) = again(alloc, bytes, layouts)? {
                if !same {
                    return Err(Fail::from("another image"));
                }
                images = images.saturating_add(1);
            }
        }
        bytes[i] = kept;
        if again(alloc, &bytes[..i], layouts)?.is_ok() {
            return Err(Fail::from("a front"));
        }
    }
    Ok(images)
}

/// Each byte of a small image is changed, and it is cut everywhere. Images are those with another word, or none changed.
#[test]
fn changed_images_are_refused_or_restored(rt: HostRuntime) -> Result<(), Fail> {
    let layouts = lines_of(rt.alloc(), &[BLOCKS])?;
    let mut bytes = bytes_of(rt.alloc(), &[1, 4, 4, 5, 6, 7, 0, 7, 0, 0])?;
    let images = images_beside(rt.alloc(), &mut bytes, &layouts)?;
    // 16 bytes of words with any value, and each of the other 28 as it was
    assert_eq!(rt; images, 16 * 256 + 28);
    Ok(())
}

/// The next of numbers without an order.
fn next(seed: u64) -> u64 {
    seed.wrapping_mul(6364136223846793005)
        .wrapping_add(1442695040888963407)
}

/// Numbers that a snapshot might have.
fn numbers_of(alloc: Global, seed: u64) -> Result<Vec<u32>, AllocError> {
    let mut numbers = Vec::new(alloc);
    let mut seed = next(seed);
    numbers.push(1)?;
    let rows = (seed >> 40) % 9;
    numbers.push(rows as u32)?;
    for row in 0..rows {
        seed = next(seed);
        numbers.push((row + (seed >> 40) % 4) as u32)?;
    }
    for _word in 0..rows {
        seed = next(seed);
        numbers.push((seed >> 40) as u32)?;
    }
    Ok(numbers)
}

/// How many of so many random lists of numbers are images.
fn random_images(alloc: Global, count: u64, layouts: &Layouts) -> Result<u32, Fail> {
    let mut images = 0u32;
    for seed in 0..count {
        let bytes = bytes_of(alloc, &numbers_of(alloc, seed)?)?;
        if let Ok(same) = again(alloc, &bytes, layouts)? {
            if !same {
                return Err(Fail::from("another image"));
            }
            images = images.saturating_add(1);
        }
    }
    Ok(images)
}

#[test]
fn random_images_are_refused_or_restored(rt: HostRuntime) -> Result<(), Fail> {
    let layouts = lines_of(rt.alloc(), &[BLOCKS])?;
    let images = random_images(rt.alloc(), 100_000, &layouts)?;
    assert!(rt; images > 10_000);
    Ok(())
}
