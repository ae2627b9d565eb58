//! The words of a store's nodes as text.

ghost use Rattle.std.specs.Prelude.{◌≤◌, IsTrue};
ghost use Rattle.sg_layout.specs.Live.{kind_at};
ghost use Rattle.sg_layout.specs.StorageWords.{ends_segment};

use sg_layout::Kind::{Bitmasked, Dynamic, Hash, Pointer};
use sg_store::Store;
use std::alloc::Global;
use std::test::Fail;

/// How many words aren't 0, of how many.
fn counted(alloc: Global, words: &[u64]) -> Result<String, Fail> {
    let mut some = 0u32;
    for word in words {
        if *word != 0 {
            some = some.saturating_add(1);
        }
    }
    let all = words.len();
    Ok(format!(in alloc; "{some}/{all} ")?)
}

/// The links of a pointer or hash node, numbered from 1, and how many numbers are in its stock.
fn pool_told(alloc: Global, store: &Store, node: u32) -> Result<String, Fail>
    requires first { 1 ≤ node }
    requires linked { IsTrue (ends_segment (kind_at store.now.shape.nodes node)) }
{
    let links = store.slot_words(alloc, node)?;
    let stock = store.stock(alloc, node)?.len();
    let mut told = counted(alloc, links.as_slice())?;
    write!(told, "{stock} ")?;
    Ok(told)
}

/// How many bits are set in masks, of how many words.
fn bits_told(alloc: Global, masks: &[u64]) -> Result<String, Fail> {
    let mut bits = 0u32;
    for mask in masks {
        bits = bits.saturating_add(mask.count_ones());
    }
    let words = masks.len();
    Ok(format!(in alloc; "{bits} of {words} ")?)
}

/// The words of a node, numbered from 1, where any node may have some: links, masks.
fn words_told(alloc: Global, store: &Store, node: u32) -> Result<String, Fail> {
    let Some(index) = node.checked_sub(1) else {
        return Err(Fail::from("no node"));
    };
    let Some(shape) = store.layout().shape().nodes.as_slice().get(index as usize) else {
        return Err(Fail::from("no node"));
    };
    match shape.kind {
        Pointer => pool_told(alloc, store, node),
        Hash => pool_told(alloc, store, node),
        Bitmasked => {
            let masks = store.mask_words(alloc, node)?;
            bits_told(alloc, masks.as_slice())
        }
        _ => Ok(String::new(alloc)),
    }
}

/// The keys of a hash node, the first one, in its table and in order.
fn keys_told(alloc: Global, store: &Store) -> Result<String, Fail> {
    match store.layout().shape().nodes.as_slice().get(0) {
        Some(node) => match node.kind {
            Hash => {
                let table = store.key_words(alloc)?;
                let keys = store.sorted_keys(alloc)?;
                let mut told = counted(alloc, table.as_slice())?;
                for key in keys.as_slice() {
                    write!(told, "{key} ")?;
                }
                Ok(told)
            }
            _ => Ok(String::new(alloc)),
        },
        None => Err(Fail::from("no node")),
    }
}

/// The greatest length of a dynamic node, the last one, and how many lengths it has.
fn lengths_told(alloc: Global, store: &Store) -> Result<String, Fail> {
    let Some(last) = store.layout().shape().nodes.len().checked_sub(1) else {
        return Err(Fail::from("no node"));
    };
    match store.layout().shape().nodes.as_slice().get(last) {
        Some(node) => match node.kind {
            Dynamic => {
                let lengths = store.length_words(alloc)?;
                let mut most = 0;
                for length in lengths.as_slice() {
                    if *length > most {
                        most = *length;
                    }
                }
                let all = lengths.len();
                Ok(format!(in alloc; "{most} in {all} ")?)
            }
            _ => Ok(String::new(alloc)),
        },
        None => Err(Fail::from("no node")),
    }
}

/// Adds the keys of the root, the links and masks of all nodes from the root on, and the lengths of the last one.
pub(crate) fn push_words(alloc: Global, told: &mut String, store: &Store) -> Result<(), Fail> {
    told.push_str(keys_told(alloc, store)?.as_str())?;
    for index in 0..store.layout().nodes() {
        let node = (index as u32).saturating_add(1);
        told.push_str(words_told(alloc, store, node)?.as_str())?;
    }
    told.push_str(lengths_told(alloc, store)?.as_str())?;
    Ok(())
}
