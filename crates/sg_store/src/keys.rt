ghost use Rattle.std.specs.Prelude.{◌≡◌, ◌<◌, ◌≤◌, ◌^◌, ◌++◌, [], ◌∷◌, All, List, length, IfOk, OnOk};
ghost use Rattle.sg_coord.specs.declared.coord.Coord.{Coord};
ghost use Rattle.sg_layout.specs.declared.shape.Kind.TheVariants.{Hash};
ghost use Rattle.sg_layout.specs.declared.shape.NodeShape.{NodeShape};
ghost use Rattle.sg_layout.specs.Axes.{count_of};
ghost use Rattle.sg_layout.specs.Live.{kind_at};
ghost use Rattle.sg_layout.specs.NeedLaws.{IsNumberedNode};
ghost use Rattle.sg_hash.specs.Tables.{IsTable, AreBeside};
ghost use Rattle.sg_store.specs.WellFormed.{IsWellFormed};
ghost use Rattle.sg_store.specs.Reaching.{KeepsCells};
ghost use Rattle.sg_store.specs.Changes.{IsRekeyed, ChangesNode};
ghost use Rattle.sg_store.specs.Spots.{root_offsets};
ghost use Rattle.sg_store.specs.steps.Sorting.{keys_in, AreSortedKeys};
ghost use Rattle.sg_store.specs.Opening.{keys_of, link_words_of, CanSettleHash, FitsCap, WantedHaveKeys, NewKeysAreWanted, OpensNode};

use crate::store::Store;
use sg_hash::PagedRow;
use sg_layout::{paths_tell, rules_decide};
use sg_words::{Items, Memory};
use std::alloc::{AllocError, Global};

/// Adds the key that a word of a table holds, if it holds one.
fn push_key(keys: &mut Vec<u32>, word: u64) -> Result<(), AllocError>
    requires { word ≤ 2 ^ 32 }
    ensures { OnOk result (keys.new.items ≡ keys.old.items ++ keys_in (word ∷ [])) }
{
    if word != 0 {
        keys.push((word - 1) as u32)?;
    }
    Ok(())
}

/// The keys that words of a table hold, ascending.
fn keys_in_order(alloc: Global, words: &PagedRow) -> Result<Items<u32>, Memory>
    requires { All (λ word. word ≤ 2 ^ 32) words.now }
    ensures { IfOk result (AreSortedKeys words.now) }
{
    let mut keys = Vec::new(alloc);
    let mut place = 0;
    while let Some(next) = words.next(place) {
        push_key(&mut keys, words.get(next))?;
        place = next + 1;
    }
    keys.sort()?;
    Ok(Items::from_vec(keys))
}

impl Store {
    /// All key words of a hash node, which is the first: each is 0 or one more than a key.
    pub fn key_words(&self, alloc: Global) -> Result<Items<u64>, Memory>
        requires hash { kind_at self.now.shape.nodes 1 ≡ Hash }
        ensures words { IfOk result (λ keys. keys ≡ keys_of self.now 1) }
        ensures table { IfOk result IsTable }
        ensures beside { IfOk result (λ keys. AreBeside keys (link_words_of self.now 1)) }
        ensures more { IfOk result (λ keys. (shape : NodeShape) → IsNumberedNode self.now.shape 1 shape →
            count_of shape.cap < length keys) }
    {
        // for the law that it ensures
        rules_decide();
        let kept = &self.nodes.as_slice()[0];
        Ok(Items::from_vec(kept.keys.whole(alloc)?))
    }

    /// The keys of a hash node, which is the first, ascending: the offsets over which the root leads on. In time by the keys, with a
    /// logarithm, and one step for each 64 places of its table.
    pub fn sorted_keys(&self, alloc: Global) -> Result<Items<u32>, Memory>
        requires hash { kind_at self.now.shape.nodes 1 ≡ Hash }
        ensures { IfOk result (λ keys. keys ≡ root_offsets self.now) }
    {
        // for the invariant that it ensures
        self.layout();
        let kept = &self.nodes.as_slice()[0];
        keys_in_order(alloc, &kept.keys)
    }

    /// Gives a hash node, which is the first, these keys and links, and makes the numbers live that they take from the
    /// stock.
    pub fn settle_hash(&mut self, keys: &[u64], links: &[u64], taken: &[u32])
        requires hash { kind_at self.old.shape.nodes 1 ≡ Hash }
        requires can { CanSettleHash self.old keys.now links.now taken.now }
        requires fits { FitsCap self.old 1 taken.now }
        ensures settled { ChangesNode (IsRekeyed keys.now links.now taken.now) self.old self.new 0 }
        ensures keeps { KeepsCells self.old self.new }
        ensures well_formed { IsWellFormed self.new }
        ensures opened { (wanted : List Coord) → WantedHaveKeys self.old keys.now wanted →
            NewKeysAreWanted self.old keys.now wanted → OpensNode self.old self.new 1 wanted }
    {
        // for the laws that it ensures, and the invariant before and after
        paths_tell();
        self.layout();
        self.settle_keys(0, keys, links, taken);
        self.layout();
    }
}
