ghost use Rattle.std.specs.Prelude.{◌≡◌, ◌++◌, IfOk, slice_get};
ghost use Rattle.std.specs.Option.{option_copied};
ghost use Rattle.sparsegrid.specs.Lines as spec;

use sg_admit::AdmitFault;
use sg_ast::{Item, Name};
use sg_layout::LayoutFault;
use sg_lexer::LexFault;
use sg_names::{NameFault, Which};
use sg_parser::ParseFault;
use sg_session::Refusal;
use sg_types::TypeFault;
use sg_words::{Items, Memory};
use std::alloc::Global;

/// The line that a refused run ends with, without its newline, and the status that goes with it.
#[derive(Debug, Drop)]
pub struct LastLine {
    pub status: u8,
    pub line: Items<u8>,
}

impl LastLine {
    ghost use Rattle.std.specs.Prelude.{◌≡◌, ◌∷◌, [], ◌++◌, IfOk};

    /// The line with its newline.
    pub fn text(&self, alloc: Global) -> Result<Vec<u8>, Memory>
        ensures { IfOk result (λ text. text.items ≡ self.now.line ++ 10 ∷ []) }
    {
        let mut text = Vec::from_slice(alloc, self.line.as_slice())?;
        text.push(b'\n')?;
        Ok(text)
    }
}

/// The last line with this status and this reason.
pub(crate) fn refused_as(alloc: Global, status: u8, reason: &[u8]) -> Result<LastLine, Memory>
    ensures { IfOk result (λ last. last ≡ spec.refused_as status reason.now) }
{
    let mut line = Vec::from_slice(alloc, b"refused: ")?;
    line.extend_from_slice(reason)?;
    Ok(LastLine {
        status,
        line: Items::from_vec(line),
    })
}

/// The last line of a run with bad words.
pub fn words_last(alloc: Global) -> Result<LastLine, Memory>
    ensures { IfOk result (λ last. last ≡ spec.words_last) }
{
    refused_as(alloc, 1, b"words")
}

/// The last line of a run in which a load has no file for the field of this name.
pub fn no_file_last(alloc: Global, field: &[u8]) -> Result<LastLine, Memory>
    ensures { IfOk result (λ last. last ≡ spec.no_file_last field.now) }
{
    joined_as(alloc, 1, b"no file for ", field)
}

/// The last line of a run whose file could not be read.
pub fn read_last(alloc: Global, name: &[u8]) -> Result<LastLine, Memory>
    ensures { IfOk result (λ last. last ≡ spec.read_last name.now) }
{
    joined_as(alloc, 2, b"read ", name)
}

/// The last line of a run whose file has too many bytes.
pub fn file_bytes_last(alloc: Global) -> Result<LastLine, Memory>
    ensures { IfOk result (λ last. last ≡ spec.file_bytes_last) }
{
    refused_as(alloc, 8, b"limit: file bytes")
}

/// The last line of a run whose snapshot has too many bytes.
pub fn snapshot_bytes_last(alloc: Global) -> Result<LastLine, Memory>
    ensures { IfOk result (λ last. last ≡ spec.snapshot_bytes_last) }
{
    refused_as(alloc, 8, b"limit: snapshot bytes")
}

/// The last line of a run whose journal has too many bytes.
pub fn journal_bytes_last(alloc: Global) -> Result<LastLine, Memory>
    ensures { IfOk result (λ last. last ≡ spec.journal_bytes_last) }
{
    refused_as(alloc, 8, b"limit: journal bytes")
}

fn lex_last(alloc: Global, fault: LexFault) -> Result<LastLine, Memory>
    ensures { IfOk result (λ last. last ≡ spec.lex_last fault) }
{
    match fault {
        LexFault::BadByte { line } => {
            let reason = format!(in alloc; "bad byte: line {line}")?;
            refused_as(alloc, 4, reason.as_bytes())
        }
        LexFault::BadNumber { line } => {
            let reason = format!(in alloc; "bad number: line {line}")?;
            refused_as(alloc, 4, reason.as_bytes())
        }
        LexFault::LongName { line: _ } => refused_as(alloc, 8, b"limit: name bytes"),
        LexFault::TooManyTokens => refused_as(alloc, 8, b"limit: tokens"),
    }
}

fn parse_last(alloc: Global, fault: ParseFault) -> Result<LastLine, Memory>
    ensures { IfOk result (λ last. last ≡ spec.parse_last fault) }
{
    match fault {
        ParseFault::Syntax { item, line } => {
            let reason = format!(in alloc; "syntax: item {item} line {line}")?;
            refused_as(alloc, 4, reason.as_bytes())
        }
    }
}

fn name_last(alloc: Global, fault: NameFault) -> Result<LastLine, Memory>
    ensures { IfOk result (λ last. last ≡ spec.name_last fault) }
{
    match fault {
        NameFault::Unknown { item } => {
            let reason = format!(in alloc; "unknown name: item {item}")?;
            refused_as(alloc, 5, reason.as_bytes())
        }
        NameFault::Twice { item } => {
            let reason = format!(in alloc; "name twice: item {item}")?;
            refused_as(alloc, 5, reason.as_bytes())
        }
        NameFault::TooMany { which } => {
            let what = which_text(which);
            let reason = format!(in alloc; "limit: {what}")?;
            refused_as(alloc, 8, reason.as_bytes())
        }
    }
}

fn which_text(which: Which) -> &'static str
    ensures { result.now ≡ spec.which_text which }
{
    match which {
        Which::Layouts => "layouts",
        Which::Fields => "fields",
        Which::Kernels => "kernels",
        Which::Commands => "commands",
    }
}

/// The last line of a run in which the layout of this name breaks a rule, or is too large.
fn layout_last(alloc: Global, name: &[u8], fault: LayoutFault) -> Result<LastLine, Memory>
    ensures { IfOk result (λ last. last ≡ spec.layout_last name.now fault) }
{
    match fault {
        LayoutFault::BadExtent { node } => rule_last(alloc, name, node, 1),
        LayoutFault::BadOrder { node } => rule_last(alloc, name, node, 2),
        LayoutFault::BadAxis { node } => rule_last(alloc, name, node, 3),
        LayoutFault::TooLarge => joined_as(alloc, 8, b"limit: layout ", name),
        LayoutFault::BadCap { node } => rule_last(alloc, name, node, 5),
    }
}

fn rule_last(alloc: Global, name: &[u8], node: u32, rule: u32) -> Result<LastLine, Memory>
    ensures { IfOk result (λ last. last ≡ spec.rule_last name.now node rule) }
{
    let place = format!(in alloc; " node {node} rule {rule}")?;
    named_as(alloc, 5, b"layout: ", name, place.as_bytes())
}

fn type_last(alloc: Global, name: &[u8], fault: TypeFault) -> Result<LastLine, Memory>
    ensures { IfOk result (λ last. last ≡ spec.type_last name.now fault) }
{
    let (stmt, code) = (fault.stmt, fault.code);
    let place = format!(in alloc; " statement {stmt} code {code}")?;
    named_as(alloc, 5, b"type: kernel ", name, place.as_bytes())
}

fn admit_last(alloc: Global, name: &[u8], fault: AdmitFault) -> Result<LastLine, Memory>
    ensures { IfOk result (λ last. last ≡ spec.admit_last name.now fault) }
{
    match fault {
        AdmitFault::Rule { stmt, rule } => {
            let place = format!(in alloc; " statement {stmt} rule {rule}")?;
            named_as(alloc, 5, b"admission: kernel ", name, place.as_bytes())
        }
        AdmitFault::BoxTooLarge => joined_as(alloc, 8, b"limit: box ", name),
    }
}

/// The last line of a run whose file is refused before its commands run; `items` are those of its program, if it has one.
pub fn refusal_last(alloc: Global, items: &[Item], refusal: Refusal) -> Result<LastLine, Memory>
    ensures { IfOk result (λ last. last ≡ spec.refusal_last items.now refusal) }
{
    match refusal {
        Refusal::Lex(fault) => lex_last(alloc, fault),
        Refusal::Parse(fault) => parse_last(alloc, fault),
        Refusal::Name(fault) => name_last(alloc, fault),
        Refusal::Layout { layout, fault } => {
            layout_last(alloc, name_text(layout_name(items, layout)), fault)
        }
        Refusal::Words => refused_as(alloc, 8, b"limit: words"),
        Refusal::Types(fault) => {
            type_last(alloc, name_text(kernel_name(items, fault.kernel)), fault)
        }
        Refusal::Admit { kernel, fault } => {
            admit_last(alloc, name_text(kernel_name(items, kernel)), fault)
        }
        Refusal::Command { item } => command_last(alloc, item),
        Refusal::Times => refused_as(alloc, 8, b"limit: times"),
        Refusal::Image => refused_as(alloc, 8, b"limit: image"),
    }
}

fn command_last(alloc: Global, item: u32) -> Result<LastLine, Memory>
    ensures { IfOk result (λ last. last ≡ spec.command_last item) }
{
    let reason = format!(in alloc; "command: item {item}")?;
    refused_as(alloc, 5, reason.as_bytes())
}

/// The last line with this status, whose reason has a name after a cause.
pub(crate) fn joined_as(
    alloc: Global,
    status: u8,
    cause: &[u8],
    name: &[u8],
) -> Result<LastLine, Memory>
    ensures { IfOk result (λ last. last ≡ spec.refused_as status (cause.now ++ name.now)) }
{
    let mut reason = Vec::from_slice(alloc, cause)?;
    reason.extend_from_slice(name)?;
    refused_as(alloc, status, reason.as_slice())
}

/// The last line with this status, whose reason has a name in it.
pub(crate) fn named_as(
    alloc: Global,
    status: u8,
    cause: &[u8],
    name: &[u8],
    place: &[u8],
) -> Result<LastLine, Memory>
    ensures { IfOk result (λ last. last ≡ spec.named_as status cause.now name.now place.now) }
{
    let mut reason = Vec::from_slice(alloc, cause)?;
    reason.extend_from_slice(name)?;
    reason.extend_from_slice(place)?;
    refused_as(alloc, status, reason.as_slice())
}

pub(crate) fn name_text(name: Option<&Name>) -> &[u8]
    ensures { result.now ≡ spec.name_text (option_copied name.entry) }
{
    match name {
        Some(name) => name.text.as_slice(),
        None => &[],
    }
}

/// The name of the kernel with this number.
fn kernel_name(items: &[Item], number: u32) -> Option<&Name>
    ensures { option_copied result ≡ slice_get (spec.kernel_names items.now) number }
{
    let mut left = number;
    for item in items {
        if let Item::Kernel(kernel) = item {
            if left == 0 {
                return Some(&kernel.name);
            }
            left -= 1;
        }
    }
    None
}

/// The name of the layout with this number.
fn layout_name(items: &[Item], number: u32) -> Option<&Name>
    ensures { option_copied result ≡ slice_get (spec.layout_names items.now) number }
{
    let mut left = number;
    for item in items {
        if let Item::Layout(layout) = item {
            if left == 0 {
                return Some(&layout.name);
            }
            left -= 1;
        }
    }
    None
}
