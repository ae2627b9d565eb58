ghost use Rattle.std.specs.Prelude.{IfSome};
ghost use Rattle.sg_store.specs.WellFormed.{IsReached};

use crate::run;
use sg_batch::is_worth;
use sg_coord::Coord;
use sg_outside::{FreeGate, Gate, MemFiles, MemSink, NamedBytes, Phase, Sink};
use sg_session::{Session, spell};
use sg_store::Store;
use std::alloc::{AllocError, Global};
use std::process::Abort;
use std::test::Fail;
use std::thread::Threads;

/// A run over the file `p.sg` and others in memory: its words, the names and texts of the other files, the reads and puts that fail, and how
/// many bytes a failed put takes.
#[derive(Clone, Copy)]
pub struct Setting<'a> {
    pub words: &'a [&'a str],
    pub source: &'a str,
    pub others: &'a [(&'a str, &'a str)],
    pub failing_reads: &'a [u64],
    pub failing_puts: &'a [u64],
    pub take: usize,
}

/// What is looked at when a run has ended: its status, whether there is a session, how many of the coordinates from 0 to 3 and from 0 to 15 are
/// active in the first store, the numbers of the first two containers below the root of that store, the cells of the coordinates 0 and 2, the
/// word of its first field at 0, and whether the first two kernels are worth running at the same time.
#[derive(Clone, Copy)]
pub struct Seen {
    pub status: u8,
    pub session: bool,
    pub active: Option<(u32, u32)>,
    pub containers: Option<(u32, u32)>,
    pub cells: Option<(u32, u32)>,
    pub value: Option<u32>,
    pub worth: (bool, bool),
}

/// A gate that is open and doesn't say so: all workers start, however little there is to do.
#[derive(Clone, Copy)]
pub struct EveryWorker;

impl Gate for EveryWorker {
    fn before(&self, _phase: Phase, _worker: u32, _turn: u32) {}
}

/// Runs with these words over files in memory. No other test function owns a session, since each that does is dear to prove.
pub(crate) fn run_over<R: Threads + Sync, S: Sink, G: Gate + Sync>(
    rt: &R,
    alloc: Global,
    words: &[String],
    files: &mut MemFiles,
    out: &mut S,
    gate: &G,
) -> Seen {
    let done = run(rt, alloc, words, files, out, gate);
    let mut seen = Seen {
        status: done.status,
        session: done.session.is_some(),
        active: None,
        containers: None,
        cells: None,
        value: None,
        worth: (false, false),
    };
    if let Some(session) = &done.session {
        seen.worth = worth(session);
        if let Some(store) = session.stores.list.get(0) {
            seen.active = Some(active(store));
            seen.containers = containers(store);
            seen.cells = cells(store);
            seen.value = value(store);
        }
    }
    seen
}

/// Whether the first two kernels are worth running at the same time on four workers: by what they have to do, and where a gate may hold a worker.
fn worth(session: &Session) -> (bool, bool) {
    let kernels = session.compiled.kernels.as_slice();
    let free = is_worth(&session.stores, kernels, &[0, 1], 4, &FreeGate);
    let held = is_worth(&session.stores, kernels, &[0, 1], 4, &EveryWorker);
    (free, held)
}

/// How many of the coordinates from 0 to 3 and from 0 to 15 are active.
fn active(store: &Store) -> (u32, u32) {
    let mut front = 0u32;
    let mut all = 0u32;
    for a in 0..16 {
        let at = Coord {
            n: 1,
            a,
            b: 0,
            c: 0,
        };
        if store.cell_of(at).is_some() {
            all = all.saturating_add(1);
            if a < 4 {
                front = all;
            }
        }
    }
    (front, all)
}

/// The number of the container below a slot of the root, if it is live.
fn container(store: &Store, offset: u32) -> Option<u32> {
    if store.layout().nodes() == 0 {
        return None;
    }
    Some(store.under(store.root(), offset)?.part)
}

fn containers(store: &Store) -> Option<(u32, u32)> {
    Some((container(store, 0)?, container(store, 1)?))
}

/// The cell of a coordinate, if it is active.
fn cell(store: &Store, a: i32) -> Option<u32>
    ensures { IfSome result (IsReached store.now) }
{
    store.cell_of(Coord {
        n: 1,
        a,
        b: 0,
        c: 0,
    })
}

fn cells(store: &Store) -> Option<(u32, u32)> {
    Some((cell(store, 0)?, cell(store, 2)?))
}

/// The word of the first field at the coordinate 0, if there is a field and 0 is active.
fn value(store: &Store) -> Option<u32> {
    if store.layout().shape().fields.len() == 0 {
        return None;
    }
    let cell = cell(store, 0)?;
    Some(store.value(0, cell))
}

/// What a run left: its status, whether there is a session, and the bytes that the sink took.
#[derive(Drop)]
pub struct Left {
    pub status: u8,
    pub session: bool,
    pub text: Vec<u8>,
}

impl<'a> Setting<'a> {
    pub(crate) fn of(source: &'a str) -> Setting<'a> {
        Setting {
            words: &["p.sg"],
            source,
            others: &[],
            failing_reads: &[],
            failing_puts: &[],
            take: 0,
        }
    }

    /// Runs over a sink, with workers that pass a gate.
    pub(crate) fn gated<R: Threads + Sync, S: Sink, G: Gate + Sync>(
        &self,
        rt: &R,
        alloc: Global,
        out: &mut S,
        gate: &G,
    ) -> Result<Seen, AllocError> {
        let words = owned(alloc, self.words)?;
        let mut files = self.files(alloc)?;
        Ok(run_over(rt, alloc, words.as_slice(), &mut files, out, gate))
    }

    /// Runs over a sink: the status, and whether there is a session.
    pub(crate) fn run_into<R: Threads + Sync, S: Sink>(
        &self,
        rt: &R,
        alloc: Global,
        out: &mut S,
    ) -> Result<(u8, bool), AllocError> {
        let seen = self.gated(rt, alloc, out, &EveryWorker)?;
        Ok((seen.status, seen.session))
    }

    /// The files.
    fn files(&self, alloc: Global) -> Result<MemFiles, AllocError> {
        let failing = Vec::from_slice(alloc, self.failing_reads)?;
        let mut list = Vec::new(alloc);
        list.push(named(alloc, "p.sg", self.source)?)?;
        for (name, text) in self.others {
            list.push(named(alloc, name, text)?)?;
        }
        Ok(MemFiles::new(list, failing))
    }

    pub(crate) fn run<R: Threads + Sync>(&self, rt: &R, alloc: Global) -> Result<Left, AllocError> {
        let mut out = MemSink::new(alloc, Vec::from_slice(alloc, self.failing_puts)?, self.take);
        let (status, session) = self.run_into(rt, alloc, &mut out)?;
        Ok(Left {
            status,
            session,
            text: Vec::from_slice(alloc, out.bytes())?,
        })
    }

    /// The run has this status and text, and a session exactly with status 0 and 7.
    pub(crate) fn ends<R: Threads + Sync + Abort>(
        &self,
        rt: &R,
        alloc: Global,
        status: u8,
        text: &str,
    ) -> Result<(), Fail> {
        let left = self.run(rt, alloc)?;
        let source = self.source;
        let ended = (left.status, left.session);
        assert_eq!(rt; ended, (status, status == 0 || status == 7), "{source}");
        assert_eq!(rt; left.text.as_slice(), text.as_bytes(), "{source}");
        Ok(())
    }

    /// The run has this status and text on one worker, on two and on sixteen.
    pub(crate) fn ends_on_workers<R: Threads + Sync + Abort>(
        &self,
        rt: &R,
        alloc: Global,
        status: u8,
        text: &str,
    ) -> Result<(), Fail> {
        for count in ["1", "2", "16"] {
            let mut words = Vec::new(alloc);
            words.push("--workers")?;
            words.push(count)?;
            for word in self.words {
                words.push(*word)?;
            }
            let setting = Setting {
                words: words.as_slice(),
                ..*self
            };
            setting.ends(rt, alloc, status, text)?;
        }
        Ok(())
    }
}

/// A file.
pub(crate) fn named(alloc: Global, name: &str, text: &str) -> Result<NamedBytes, AllocError> {
    Ok(NamedBytes {
        name: String::from_str(alloc, name)?,
        bytes: Vec::from_slice(alloc, text.as_bytes())?,
    })
}

/// Words of their own.
pub(crate) fn owned(alloc: Global, words: &[&str]) -> Result<Vec<String>, AllocError> {
    let mut list = Vec::new(alloc);
    for word in words {
        list.push(String::from_str(alloc, word)?)?;
    }
    Ok(list)
}

/// The run of a source has this status and text.
pub(crate) fn ends<R: Threads + Sync + Abort>(
    rt: &R,
    alloc: Global,
    source: &str,
    status: u8,
    text: &str,
) -> Result<(), Fail> {
    Setting::of(source).ends(rt, alloc, status, text)
}

/// Each source with the status and the text of its run.
pub(crate) fn compare<R: Threads + Sync + Abort>(
    rt: &R,
    alloc: Global,
    rows: &[(&str, u8, &str)],
) -> Result<(), Fail> {
    for (source, status, text) in rows {
        ends(rt, alloc, source, *status, text)?;
    }
    Ok(())
}

/// A text that is this piece so many times.
pub(crate) fn repeated(alloc: Global, piece: &str, count: u32) -> Result<String, AllocError> {
    let mut text = String::new(alloc);
    for _ in 0..count {
        text.push_str(piece)?;
    }
    Ok(text)
}

/// One file beside `p.sg`.
pub(crate) fn beside<'a>(
    alloc: Global,
    name: &'a str,
    text: &'a str,
) -> Result<Vec<(&'a str, &'a str)>, AllocError> {
    let mut files = Vec::new(alloc);
    files.push((name, text))?;
    Ok(files)
}

/// The program that a text spells, as it is printed, or why it spells none.
pub(crate) fn program_of(alloc: Global, text: &str) -> Result<String, Fail> {
    if 65_536 < text.len() {
        return Ok(format!(in alloc; "too long")?);
    }
    Ok(match spell(alloc, text.as_bytes()) {
        Ok(program) => format!(in alloc; "{program:?}")?,
        Err(stop) => format!(in alloc; "{stop:?}")?,
    })
}

/// `Ok`, or why a text spells no program.
pub(crate) fn outcome(alloc: Global, text: &str) -> Result<String, Fail> {
    if 65_536 < text.len() {
        return Ok(format!(in alloc; "too long")?);
    }
    Ok(match spell(alloc, text.as_bytes()) {
        Ok(_) => format!(in alloc; "Ok")?,
        Err(stop) => format!(in alloc; "{stop:?}")?,
    })
}

/// What is left out of the printed form of a tree, so that a table of trees can be read.
static SHORTER: [(&str, &str); 22] = [
    (" ", ""),
    ("Items{items:[", "["),
    ("]}", "]"),
    ("Boxed{inner:", "{"),
    ("op:", ""),
    (",left:{", " {"),
    (",right:{", " {"),
    (",of:{", " {"),
    ("ConstDecl{", ""),
    ("Number{value:", ""),
    (",unsigned:false}", ""),
    (",unsigned:true}", "u"),
    ("Name{text:[70]}", "F"),
    ("Name{text:[71]}", "G"),
    ("Name{text:[75]}", "K"),
    ("Name{text:[76]}", "L"),
    ("Name{text:[78]}", "N"),
    ("Name{text:[105]}", "i"),
    ("Name{text:[106]}", "j"),
    ("Name{text:[120]}", "x"),
    ("Name{text:[121]}", "y"),
    (",", ", "),
];

/// A printed tree, shortened.
pub(crate) fn shortened(alloc: Global, tree: String) -> Result<String, Fail> {
    let mut shown = tree;
    for (long, short) in &SHORTER {
        shown = shown.replace(alloc, *long, *short)?;
    }
    Ok(shown)
}
