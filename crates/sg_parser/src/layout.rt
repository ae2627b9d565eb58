//! Layouts: their axes, nodes and fields.

ghost use Rattle.std.specs.Prelude.{◌≡◌, ◌&&◌, nat_le, option_map};
ghost use Rattle.sg_ast.specs.declared.token.Sign.TheVariants as s;
ghost use Rattle.sg_ast.specs.Limits.{most_listed_axes, most_listed_nodes};
ghost use Rattle.sg_ast.specs.Items.{kinds};
ghost use Rattle.sg_parser.specs.Front.{Gives};
ghost use Rattle.sg_parser.specs.Front as steps;
ghost use Rattle.sg_parser.specs.ReadItem as read;

use crate::lists::{Front, Listed, comma_list, list_to_end};
use crate::names;
use crate::take::{MOST_AXES, Unread, after_sign, after_word, is_number, next_name};
use sg_ast::{
    AxisDecl, FieldDecl, Item, LayoutDecl, Name, NodeDecl, NodeKind, Sign, SizeDecl, Spanned,
    Token, Word,
};
use sg_words::{Items, Stop, Ty};
use std::alloc::Global;

/// The most nodes of a layout.
const MOST_NODES: usize = 6;

/// A number without `u`, or a name, and what follows it.
fn next_size(alloc: Global, tokens: &[Spanned]) -> Result<(SizeDecl, &[Spanned]), Stop<Unread>>
    ensures { Gives (λ x. (x.0, kinds x.1.now)) result (read.next_size (kinds tokens.now)) }
{
    let [first, rest @ ..] = tokens else {
        return Err(Stop::Refused(Unread));
    };
    match &first.token {
        Token::Number { value, unsigned } if !*unsigned && is_number(*value, false) => Ok((
            SizeDecl::Number(*value),
            rest,
        )),
        Token::Name(name) if names::is_name(name) => Ok((SizeDecl::Name(name.copy(alloc)?), rest)),
        _ => Err(Stop::Refused(Unread)),
    }
}

/// `NAME: SIZE`.
#[tactic(auto, unfolding(crate::specs::ReadItem::read_axis))]
fn read_axis(alloc: Global, tokens: &[Spanned]) -> Result<(AxisDecl, &[Spanned]), Stop<Unread>>
    ensures { Gives (λ x. (x.0, kinds x.1.now)) result (read.read_axis (kinds tokens.now)) }
{
    let (name, behind) = next_name(alloc, tokens)?;
    let Some(colon) = after_sign(behind, Sign::Colon) else {
        return Err(Stop::Refused(Unread));
    };
    let (size, rest) = next_size(alloc, colon)?;
    Ok((AxisDecl { name, size }, rest))
}

/// The kind of node that a word begins.
fn kind_of(word: Word) -> Option<NodeKind>
    ensures { result ≡ read.kind_of word }
{
    match word {
        Word::Dense => Some(NodeKind::Dense),
        Word::Bitmasked => Some(NodeKind::Bitmasked),
        Word::Pointer => Some(NodeKind::Pointer),
        Word::Hash => Some(NodeKind::Hash),
        Word::Dynamic => Some(NodeKind::Dynamic),
        _ => None,
    }
}

/// The kind of a node, and what follows its word.
fn next_kind(tokens: &[Spanned]) -> Option<(NodeKind, &[Spanned])>
    ensures { option_map (λ x. (x.0, kinds x.1.now)) result ≡ read.next_kind (kinds tokens.now) }
{
    let [first, rest @ ..] = tokens else {
        return None;
    };
    match &first.token {
        Token::Word(word) => match kind_of(*word) {
            Some(kind) => Some((kind, rest)),
            None => None,
        },
        _ => None,
    }
}

fn has_chunk(kind: NodeKind) -> bool
    ensures { result ≡ read.has_chunk kind }
{
    match kind {
        NodeKind::Dynamic => true,
        _ => false,
    }
}

fn has_cap(kind: NodeKind) -> bool
    ensures { result ≡ read.declares_cap kind }
{
    match kind {
        NodeKind::Dense | NodeKind::Bitmasked => false,
        _ => true,
    }
}

/// The word `chunk` or `cap` and its size, where the kind has one.
fn next_bound(
    alloc: Global,
    word: Word,
    has: bool,
    tokens: &[Spanned],
) -> Result<(Option<SizeDecl>, &[Spanned]), Stop<Unread>>
    ensures { Gives (λ x. (x.0, kinds x.1.now)) result (read.next_bound word has (kinds tokens.now)) }
{
    if !has {
        return Ok((None, tokens));
    }
    let Some(behind) = after_word(tokens, word) else {
        return Err(Stop::Refused(Unread));
    };
    let (size, rest) = next_size(alloc, behind)?;
    Ok((Some(size), rest))
}

/// `KIND(AXES)`.
#[tactic(auto, unfolding(crate::specs::ReadItem::node_head))]
fn node_head(
    alloc: Global,
    tokens: &[Spanned],
) -> Result<(NodeKind, Items<AxisDecl>, &[Spanned]), Stop<Unread>>
    ensures { Gives (λ x. (x.0, x.1, kinds x.2.now)) result (read.node_head (kinds tokens.now)) }
{
    let Some((kind, start)) = next_kind(tokens) else {
        return Err(Stop::Refused(Unread));
    };
    let Some(behind) = after_sign(start, Sign::OpenParen) else {
        return Err(Stop::Refused(Unread));
    };
    let (axes, end) = comma_list(alloc, behind)?;
    let Some(rest) = after_sign(end, Sign::CloseParen) else {
        return Err(Stop::Refused(Unread));
    };
    Ok((kind, axes, rest))
}

/// `chunk SIZE cap SIZE;`, as the kind has them.
#[tactic(auto, unfolding(crate::specs::ReadItem::read_bounds))]
fn read_bounds(
    alloc: Global,
    kind: NodeKind,
    tokens: &[Spanned],
) -> Result<(Option<SizeDecl>, Option<SizeDecl>, &[Spanned]), Stop<Unread>>
    ensures { Gives (λ x. (x.0, x.1, kinds x.2.now)) result (read.read_bounds kind (kinds tokens.now)) }
{
    let (chunk, behind) = next_bound(alloc, Word::Chunk, has_chunk(kind), tokens)?;
    let (cap, end) = next_bound(alloc, Word::Cap, has_cap(kind), behind)?;
    let Some(rest) = after_sign(end, Sign::Semicolon) else {
        return Err(Stop::Refused(Unread));
    };
    Ok((chunk, cap, rest))
}

/// `KIND(AXES) chunk SIZE cap SIZE;`.
#[tactic(auto, unfolding(crate::specs::ReadItem::read_node))]
fn read_node(alloc: Global, tokens: &[Spanned]) -> Result<(NodeDecl, &[Spanned]), Stop<Unread>>
    ensures { Gives (λ x. (x.0, kinds x.1.now)) result (read.read_node (kinds tokens.now)) }
{
    let (kind, axes, behind) = node_head(alloc, tokens)?;
    let (chunk, cap, rest) = read_bounds(alloc, kind, behind)?;
    if axes.len() > MOST_AXES {
        return Err(Stop::Refused(Unread));
    }
    let node = NodeDecl {
        kind,
        axes,
        chunk,
        cap,
    };
    Ok((node, rest))
}

/// The type of a field, and what follows it.
fn next_ty(tokens: &[Spanned]) -> Option<(Ty, &[Spanned])>
    ensures { option_map (λ x. (x.0, kinds x.1.now)) result ≡ read.next_ty (kinds tokens.now) }
{
    let [first, rest @ ..] = tokens else {
        return None;
    };
    match &first.token {
        Token::Word(Word::I32) => Some((Ty::I32, rest)),
        Token::Word(Word::U32) => Some((Ty::U32, rest)),
        _ => None,
    }
}

/// `field NAME: TYPE;`.
#[tactic(auto, unfolding(crate::specs::ReadItem::read_field))]
fn read_field(alloc: Global, tokens: &[Spanned]) -> Result<(FieldDecl, &[Spanned]), Stop<Unread>>
    ensures { Gives (λ x. (x.0, kinds x.1.now)) result (read.read_field (kinds tokens.now)) }
{
    let Some(word) = after_word(tokens, Word::Field) else {
        return Err(Stop::Refused(Unread));
    };
    let (name, behind) = next_name(alloc, word)?;
    let Some(colon) = after_sign(behind, Sign::Colon) else {
        return Err(Stop::Refused(Unread));
    };
    let Some((ty, end)) = next_ty(colon) else {
        return Err(Stop::Refused(Unread));
    };
    let Some(rest) = after_sign(end, Sign::Semicolon) else {
        return Err(Stop::Refused(Unread));
    };
    Ok((FieldDecl { name, ty }, rest))
}

impl Front for AxisDecl {
    ghost reader = { read.read_axis };

    fn read(alloc: Global, tokens: &[Spanned]) -> Result<(AxisDecl, &[Spanned]), Stop<Unread>> {
        read_axis(alloc, tokens)
    }
}

impl Front for NodeDecl {
    ghost reader = { read.read_node };

    fn read(alloc: Global, tokens: &[Spanned]) -> Result<(NodeDecl, &[Spanned]), Stop<Unread>> {
        read_node(alloc, tokens)
    }
}

/// Nodes stand up to the first field, which is left there.
impl Listed for NodeDecl {
    ghost end = { read.before_field };

    fn end(tokens: &[Spanned]) -> Option<&[Spanned]> {
        match after_word(tokens, Word::Field) {
            Some(_field) => Some(tokens),
            None => None,
        }
    }
}

impl Front for FieldDecl {
    ghost reader = { read.read_field };

    fn read(alloc: Global, tokens: &[Spanned]) -> Result<(FieldDecl, &[Spanned]), Stop<Unread>> {
        read_field(alloc, tokens)
    }
}

/// Fields stand up to the `}` after them.
impl Listed for FieldDecl {
    ghost end = { steps.after_sign s.CloseBrace };

    fn end(tokens: &[Spanned]) -> Option<&[Spanned]> {
        after_sign(tokens, Sign::CloseBrace)
    }
}

/// `NAME(AXES) {`, after the word `layout`.
#[tactic(auto, unfolding(crate::specs::ReadItem::layout_head))]
fn layout_head(
    alloc: Global,
    tokens: &[Spanned],
) -> Result<(Name, Items<Name>, &[Spanned]), Stop<Unread>>
    ensures { Gives (λ x. (x.0, x.1, kinds x.2.now)) result (read.layout_head (kinds tokens.now)) }
{
    let (name, start) = next_name(alloc, tokens)?;
    let Some(behind) = after_sign(start, Sign::OpenParen) else {
        return Err(Stop::Refused(Unread));
    };
    let (axes, end) = comma_list(alloc, behind)?;
    let Some(close) = after_sign(end, Sign::CloseParen) else {
        return Err(Stop::Refused(Unread));
    };
    let Some(rest) = after_sign(close, Sign::OpenBrace) else {
        return Err(Stop::Refused(Unread));
    };
    Ok((name, axes, rest))
}

/// `NODES FIELDS }`.
#[tactic(auto, unfolding(crate::specs::ReadItem::layout_body))]
fn layout_body(
    alloc: Global,
    tokens: &[Spanned],
) -> Result<(Items<NodeDecl>, Items<FieldDecl>, &[Spanned]), Stop<Unread>>
    ensures { Gives (λ x. (x.0, x.1, kinds x.2.now)) result (read.layout_body (kinds tokens.now)) }
{
    let (nodes, behind) = list_to_end(alloc, tokens)?;
    let (fields, rest) = list_to_end(alloc, behind)?;
    Ok((nodes, fields, rest))
}

/// `layout NAME(AXES) { NODES FIELDS }`, after its word.
#[tactic(auto, unfolding(crate::specs::ReadItem::read_layout))]
pub(crate) fn read_layout(
    alloc: Global,
    tokens: &[Spanned],
) -> Result<(Item, &[Spanned]), Stop<Unread>>
    ensures { Gives (λ x. (x.0, kinds x.1.now)) result (read.read_layout (kinds tokens.now)) }
{
    let (name, axes, behind) = layout_head(alloc, tokens)?;
    let (nodes, fields, rest) = layout_body(alloc, behind)?;
    if !counts_hold(axes.len(), nodes.len(), fields.len()) {
        return Err(Stop::Refused(Unread));
    }
    let layout = LayoutDecl {
        name,
        axes,
        nodes,
        fields,
    };
    Ok((Item::Layout(layout), rest))
}

/// Whether a layout has at most so many axes, so many nodes, and a field at least.
fn counts_hold(axes: usize, nodes: usize, fields: usize) -> bool
    ensures { result ≡ (nat_le axes most_listed_axes && ((nat_le 1 nodes && nat_le nodes most_listed_nodes) && nat_le 1 fields)) }
{
    axes <= MOST_AXES && 1 <= nodes && nodes <= MOST_NODES && 1 <= fields
}
