//! What is held of all nodes.

ghost use Rattle.std.specs.Prelude.{◌≡◌, IfOk, [], is_some};
ghost use Rattle.std.specs.List.{list_any};
ghost use Rattle.std.specs.Option.{option_copied};
ghost use Rattle.sg_journal.specs.declared.lines.Line.TheVariants.{Take, Free};
ghost use Rattle.sg_journal.specs.Journal.{is_below};
ghost use Rattle.sg_journal.specs.Rooms.{rooms_of};
ghost use Rattle.sg_audit.specs.steps.Making.{MakesTables, room_at};
ghost use Rattle.sg_audit.specs.steps.Tables.{Follows, FreesNumber, Stand, TakesLink, has_child_in, holds_in, parent_of_table, parents_of, table_at};

use crate::table::{NodeLink, NodeTable, Standing, places_in};
use sg_journal::{Line, Link, Room, rooms_in};
use sg_layout::{Layout, Layouts};
use sg_words::Memory;
use std::alloc::Global;
use std::marker::Model;

/// The tables of the nodes of a layout.
#[derive(Debug, Drop)]
pub(crate) struct LayoutTables {
    nodes: Vec<NodeTable>,
}

impl Model for LayoutTables {
    ghost use Rattle.std.specs.Prelude.{List};
    ghost use Rattle.sg_audit.specs.declared.table.NodeTable.{NodeTable};

    ghost Value = { List NodeTable };

    ghost view = { λ tables. tables.nodes.items };
}

/// The tables of layouts.
#[derive(Debug, Drop)]
pub(crate) struct Tables {
    layouts: Vec<LayoutTables>,
}

impl Model for Tables {
    ghost use Rattle.std.specs.Prelude.{List};
    ghost use Rattle.sg_audit.specs.declared.table.NodeTable.{NodeTable};

    ghost Value = { List (List NodeTable) };

    ghost view = { λ tables. tables.layouts.items };
}

impl LayoutTables {
    /// The tables of a layout of which nothing is held.
    fn make(alloc: Global, layout: &Layout) -> Result<LayoutTables, Memory>
        ensures { IfOk result (MakesTables layout.now) }
    {
        let rooms = rooms_in(alloc, layout)?;
        let rooms = rooms.as_slice();
        let mut nodes = Vec::new(alloc);
        for index in 0..rooms.len() {
            let room = rooms[index];
            nodes.push(NodeTable::make(alloc, room, parents_of(rooms, room))?)?;
        }
        Ok(LayoutTables { nodes })
    }

    /// Takes a link if that is sound, and says whether it is.
    fn take(&mut self, link: Link) -> Result<bool, Memory>
        ensures { IfOk result (TakesLink self.old self.new link) }
    {
        if !self.has_parent(link.node, link.parent) {
            return Ok(false);
        }
        let index = link.node as usize - 1;
        let table = &mut self.nodes[index];
        table.take(NodeLink {
            number: link.number,
            standing: Standing {
                parent: link.parent,
                slot: link.slot,
            },
        })
    }

    /// Lets a number go if that is sound, and says whether it is.
    fn free(&mut self, node: u32, number: u32) -> bool
        ensures { FreesNumber self.old self.new node number result }
    {
        if self.has_child(node, number) {
            return false;
        }
        if !self.has_table(node) {
            return false;
        }
        let index = node as usize - 1;
        let table = &mut self.nodes[index];
        table.free(number)
    }

    /// Whether there is such a node with a cap, and a parent is there for a link of it.
    fn has_parent(&self, node: u32, parent: u32) -> bool
        ensures { result ≡ parent_of_table self.now (table_at self.now node) parent }
    {
        let Some(table) = self.table(node) else {
            return false;
        };
        let Some(room) = table.room else {
            return false;
        };
        match room.above {
            None => parent == 0,
            Some(above) => parent != 0 && self.holds(above, parent - 1),
        }
    }

    /// Whether the number of a node is held.
    fn holds(&self, node: u32, number: u32) -> bool
        ensures { result ≡ holds_in (table_at self.now node) number }
    {
        match self.table(node) {
            Some(table) => table.holds(number),
            None => false,
        }
    }

    /// Whether the container of a node has children.
    fn has_child(&self, node: u32, number: u32) -> bool
        ensures { result ≡ list_any (has_child_in node number) self.now }
    {
        self.nodes
            .iter()
            .any(|table| has_child_in(table, node, number))
    }

    /// Whether there is such a node, from 1.
    fn has_table(&self, node: u32) -> bool
        ensures { result ≡ is_some (table_at self.now node) }
    {
        self.table(node).is_some()
    }

    /// The table of a node, from 1.
    fn table(&self, node: u32) -> Option<&NodeTable>
        ensures { option_copied result ≡ table_at self.now node }
    {
        if node == 0 {
            return None;
        }
        self.nodes.get(node as usize - 1)
    }
}

impl Tables {
    /// The tables of layouts of which nothing is held.
    pub(crate) fn make(alloc: Global, layouts: &Layouts) -> Result<Tables, Memory>
        ensures { IfOk result (λ tables. Stand (rooms_of layouts.now.list) [] tables) }
    {
        let mut tables = Vec::new(alloc);
        let list = layouts.list.as_slice();
        for index in 0..list.len() {
            tables.push(LayoutTables::make(alloc, &list[index])?)?;
        }
        Ok(Tables { layouts: tables })
    }

    /// Follows a line if it is sound, and says whether it is.
    pub(crate) fn follow(&mut self, line: Line) -> Result<bool, Memory>
        ensures { IfOk result (Follows self.old self.new line) }
    {
        match line {
            Line::Take(link) => self.take(link),
            Line::Free {
                layout,
                node,
                number,
            } => Ok(self.free(layout, node, number)),
        }
    }

    /// Takes a link if that is sound, and says whether it is.
    fn take(&mut self, link: Link) -> Result<bool, Memory>
        ensures { IfOk result (Follows self.old self.new (Take link)) }
    {
        let index = link.layout as usize;
        if index >= self.layouts.len() {
            return Ok(false);
        }
        let tables = &mut self.layouts[index];
        tables.take(link)
    }

    /// Lets a number go if that is sound, and says whether it is.
    fn free(&mut self, layout: u32, node: u32, number: u32) -> bool
        ensures { Follows self.old self.new (Free layout node number) result }
    {
        let index = layout as usize;
        if index >= self.layouts.len() {
            return false;
        }
        let tables = &mut self.layouts[index];
        tables.free(node, number)
    }
}

/// Whether a number of a node has children in the table of another.
fn has_child_in(table: &NodeTable, node: u32, number: u32) -> bool
    ensures { result ≡ has_child_in node number table.now }
{
    is_below(table.room, node) && table.has_children(number)
}

/// Whether the nearest node above one with this room is that one.
fn is_below(room: Option<Room>, node: u32) -> bool
    ensures { result ≡ is_below room node }
{
    match room {
        Some(room) => room.above == Some(node),
        None => false,
    }
}

/// Below which number the parents of a node's links are, by its room and the rooms of its layout.
fn parents_of(rooms: &[Option<Room>], room: Option<Room>) -> usize
    ensures { result ≡ parents_of (room_at rooms.now) room }
{
    let Some(room) = room else {
        return 0;
    };
    let Some(above) = room.above else {
        return 1;
    };
    if above == 0 || above as usize > rooms.len() {
        return 1;
    }
    places_in(rooms[above as usize - 1]) + 1
}
