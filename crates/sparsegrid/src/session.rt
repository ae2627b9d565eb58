ghost use Rattle.std.specs.Prelude.{◌≡◌, ◌≤◌, true, false, [], length, map, Some, None, IfOk, IfSome};
ghost use Rattle.std.specs.Result.{IsOkAnd};
ghost use Rattle.sg_outside.specs.Files.{Held};
ghost use Rattle.sg_lexer.specs.Limits.{most_file_bytes};
ghost use Rattle.sg_session.specs.Compiling.{compiled_program};
ghost use Rattle.sg_session.specs.Compiled.{CheckedProgram, Compiles};
ghost use Rattle.sg_session.specs.Bindings.{binding_read};
ghost use Rattle.sparsegrid.specs.Texts.{texts};
ghost use Rattle.sparsegrid.specs.Words as spec_words;
ghost use Rattle.sparsegrid.specs.Words.{asked_by, doing, good_words};
ghost use Rattle.sparsegrid.specs.Meaning.{is_code, asks_code, is_journal, asks_journal, meaning, meaning_by, meaning_of_asked, meaning_of_compiled, meaning_in};
ghost use Rattle.sparsegrid.specs.Outcome.{output_of, outside_of, HasWholeText, IsCutShort, IsEnding, LeavesSession, code_in, open_text, WroteMeaning, WroteStopped, WroteFront, EndsAs, AsksAs, StaysWritten, ReadFaults, PutFaults, ReadCount, StandsForLast, IsOfAsked, IsOfFile};
ghost use Rattle.sparsegrid.specs.steps.Along.{KeepsWritten, SendCause, IsEnd, LeavesOnly, LeavesProgram, status_of, session_of, PutsCode};
ghost use Rattle.sparsegrid.specs.steps.Leading.{Kept};
ghost use Rattle.sparsegrid.specs.Journaling.{KeepsJournal};

use crate::auditing::audit_bound;
use crate::generated::{generated_text, is_gen};
use crate::output::{PutFailed, send};
use crate::perform::{check, leave_open, perform};
use crate::refuse::{refuse_long, refuse_read, refuse_source, refuse_words};
use crate::showing::Showing;
use crate::words::{BadWords, Mode, Words, read_words};
use sg_audit::laws::fronts_are_sound;
use sg_outside::{Files, Gate, Got, Sink};
use sg_session::{Binds, Compiled, Session, compile, lower_text};
use sg_words::{Items, Memory, Stop, Text};
use std::alloc::Global;
use std::thread::Threads;

/// The most bytes that a file may have.
const FILE_LIMIT: u64 = 65536;

/// How a run ended: its status, and with status 0 or 7 the session, in mode lower also with 3 where the put of the code failed. After status 7
/// that is the session before the refused run of a kernel or load, and the opening one where a snapshot has no room.
#[derive(Drop)]
pub struct Done {
    pub status: u8,
    pub session: Option<Session>,
}

/// Runs the program that the words name: reads its file and performs its commands in order, from the state of a snapshot on if one is given, and
/// writes their texts, or in place of these the last state's image, advice on layouts, or a journal of containers; or looks at its kernels, writes
/// their access code, or judges a journal; or performs the commands of the generated program; or writes one last line that says why it was refused.
/// Statuses: 0 all done, 1 bad words, or a load without a file, 2 a read failed, 3 a put failed, 4 the bytes spell no program, 5 the program breaks
/// a rule, 6 a loaded file is no grid text of its field, or a snapshot is none of the layouts, 7 a kernel writes outside, or a kernel, a load or a
/// snapshot finds no room, 8 a limit was passed, 9 running out of memory.
pub fn run<R: Threads + Sync, F: Files, S: Sink, G: Gate + Sync>(
    rt: &R,
    alloc: Global,
    words: &[String],
    files: &mut F,
    out: &mut S,
    gate: &G,
) -> Done
    // With any status but 2, 3 and 9 exactly the moves of the meaning were made: its texts were written, each by one put, and the files that it
    // asks for were read. The status is its status.
    ensures whole { asks_journal (good_words (texts words.now)) ≡ false → HasWholeText result.status → WroteMeaning (texts words.now) (open_text (texts words.now) result.session) None
        (outside_of F.Files S.Sink files.old out.old) (outside_of F.Files S.Sink files.new out.new) result.status }
    // With status 2 the read that failed was the last one, and the meaning is that of the run in which it fails.
    ensures stopped { asks_journal (good_words (texts words.now)) ≡ false → result.status ≡ 2 → WroteStopped (texts words.now) (open_text (texts words.now) result.session)
        (outside_of F.Files S.Sink files.old out.old) (outside_of F.Files S.Sink files.new out.new) result.status }
    // With status 3 or 9 a front of the moves was made. With 3 the next of them was to write a text, of which a part was written: so no file was
    // read that the run asks for after that text. With 9 no text was written in part, nor the whole of a last line.
    ensures front { asks_journal (good_words (texts words.now)) ≡ false → IsCutShort result.status → WroteFront (texts words.now) (open_text (texts words.now) result.session)
        (outside_of F.Files S.Sink files.old out.old) (outside_of F.Files S.Sink files.new out.new) result.status }
    // In mode lower running out of memory leaves the written bytes as they were.
    ensures quiet { asks_code (good_words (texts words.now)) ≡ true → result.status ≡ 9 →
        StaysWritten (output_of S.Sink out.old) (output_of S.Sink out.new) }
    // Whatever the files and the sink tell, a run that came to its end ended as it means where its reads give some readings.
    ensures ended { asks_journal (good_words (texts words.now)) ≡ false → IsEnding result.status → EndsAs (texts words.now) (open_text (texts words.now) result.session)
        (outside_of F.Files S.Sink files.old out.old) (outside_of F.Files S.Sink files.new out.new) result.status }

    // In mode journal all this holds with the parts of a journal before the states that its commands come to; and the journal is sound.
    ensures journal { asks_journal (good_words (texts words.now)) ≡ true → KeepsJournal (texts words.now)
        (outside_of F.Files S.Sink files.old out.old) (outside_of F.Files S.Sink files.new out.new) result.status result.session }

    // No fault is made up, and none is passed over or forgotten.
    ensures read_faults { ReadFaults
        (outside_of F.Files S.Sink files.old out.old) (outside_of F.Files S.Sink files.new out.new) result.status }
    ensures put_faults { PutFaults
        (outside_of F.Files S.Sink files.old out.old) (outside_of F.Files S.Sink files.new out.new) result.status }

    // Whatever they tell, the moves that the run means to make where its reads give some readings are made in their order, each file is read in
    // one read, up to where the run ends or is cut short, and none with bad words; the files stay as they are.
    ensures asked { asks_journal (good_words (texts words.now)) ≡ false → AsksAs (texts words.now) (open_text (texts words.now) result.session)
        (outside_of F.Files S.Sink files.old out.old) (outside_of F.Files S.Sink files.new out.new) result.status }
    ensures reads { ReadCount (good_words (texts words.now))
        (outside_of F.Files S.Sink files.old out.old) (outside_of F.Files S.Sink files.new out.new) result.status }
    ensures holds { F.holds files.new ≡ F.holds files.old }

    // With status 0 and 7 there is a session, and with 3 where the put of its code failed; its stores stand for the last state.
    ensures session { LeavesSession (texts words.now) result.status result.session }
    ensures last { IfSome result.session (λ session. (held : Held) → F.holds files.old ≡ Some held →
        StandsForLast (meaning (texts words.now) held None).last session) }
    // It is a session of what the bytes of the named file, or the generated text, compile to.
    ensures program { IfSome result.session (λ session. (held : Held) → F.holds files.old ≡ Some held →
        IsOfFile (texts words.now) held session) }
{
    // for the law that it ensures
    fronts_are_sound();
    let mut lower = false;
    let done = done_of(answer(rt, alloc, words, files, out, gate, &mut lower));
    with_code(alloc, lower, done, out)
}

/// Writes the access code of a run that is done in mode lower, and gives how the run ended.
fn with_code<S: Sink>(alloc: Global, lower: bool, done: Done, out: &mut S) -> Done
    ensures untouched { lower ≡ false → (result ≡ done) × (out.new ≡ out.old) }
    ensures puts { PutsCode lower done result (output_of S.Sink out.old) (output_of S.Sink out.new) (S.faults out.old) (S.faults out.new) }
{
    if !lower || done.status != 0 {
        return done;
    }
    match code_text(alloc, &done.session) {
        Ok(text) => match send(out, text.bytes.as_slice()) {
            Ok(()) => done,
            Err(Stop::Refused(PutFailed)) => Done {
                status: 3,
                session: done.session,
            },
            Err(Stop::Memory) => cut_short(9),
        },
        Err(Memory) => cut_short(9),
    }
}

/// The access code of a session that may be there.
fn code_text(alloc: Global, session: &Option<Session>) -> Result<Text, Memory>
    ensures { IfOk result (λ text. text.bytes ≡ code_in session.now) }
{
    match session {
        Some(session) => lower_text(alloc, &session.compiled),
        None => Ok(Text {
            bytes: Items::new(alloc),
        }),
    }
}

/// How a run ended that came to its end, or was cut short by a failed put or running out of memory.
fn done_of(answer: Result<Done, Stop<PutFailed>>) -> Done
    ensures status { result.status ≡ status_of answer }
    ensures session { result.session ≡ session_of answer }
{
    match answer {
        Ok(done) => done,
        Err(Stop::Refused(PutFailed)) => cut_short(3),
        Err(Stop::Memory) => cut_short(9),
    }
}

/// How a run that was cut short ended.
fn cut_short(status: u8) -> Done
    ensures { result ≡ record { status = status; session = None } }
{
    Done {
        status,
        session: None,
    }
}

/// The run up to its end, or to where it is cut short, without the access code of mode lower; `lower` becomes whether that is asked for.
fn answer<R: Threads + Sync, F: Files, S: Sink, G: Gate + Sync>(
    rt: &R,
    alloc: Global,
    words: &[String],
    files: &mut F,
    out: &mut S,
    gate: &G,
    lower: &mut bool,
) -> Result<Done, Stop<PutFailed>>
    requires { lower.old ≡ false }
    ensures went { Kept (asks_journal (good_words (texts words.now))) (meaning_by (texts words.now)) 0
        (outside_of F.Files S.Sink files.old out.old) (outside_of F.Files S.Sink files.new out.new) result }
    ensures quiet { asks_code (good_words (texts words.now)) ≡ true → KeepsWritten result (output_of S.Sink out.old) (output_of S.Sink out.new) }
    ensures holds { F.holds files.new ≡ F.holds files.old }
    ensures never_falls { F.faults files.old ≤ F.faults files.new }
    ensures cause { SendCause result (S.faults out.old) (S.faults out.new) }
    ensures end { IfOk result IsEnd }
    ensures program { LeavesOnly (λ session. (held : Held) → F.holds files.old ≡ Some held →
        IsOfFile (texts words.now) held session) result }
    ensures lower { IfOk result (λ done. lower.new ≡ asks_code (good_words (texts words.now))) }
    ensures plain { asks_journal (good_words (texts words.now)) ≡ true → lower.new ≡ false }
{
    match read_words(alloc, words) {
        Ok(asked) => {
            *lower = is_lower(asked.mode);
            run_asked(rt, alloc, &asked, files, out, gate)
        }
        Err(Stop::Refused(BadWords)) => refuse_words(alloc, out),
        Err(Stop::Memory) => Err(Stop::Memory),
    }
}

fn is_lower(mode: Mode) -> bool
    ensures { result ≡ is_code (doing mode) }
{
    match mode {
        Mode::Run => false,
        Mode::Check => false,
        Mode::Lower => true,
        Mode::Gen => false,
        Mode::Save => false,
        Mode::Audit => false,
        Mode::Advise => false,
        Mode::Journal => false,
    }
}

/// Runs what good words ask for.
fn run_asked<R: Threads + Sync, F: Files, S: Sink, G: Gate + Sync>(
    rt: &R,
    alloc: Global,
    asked: &Words,
    files: &mut F,
    out: &mut S,
    gate: &G,
) -> Result<Done, Stop<PutFailed>>
    requires some { 1 ≤ asked.now.workers }
    requires few { asked.now.workers ≤ 16 }
    ensures went { Kept (is_journal (doing asked.now.mode)) (meaning_of_asked (asked_by asked.now)) 0
        (outside_of F.Files S.Sink files.old out.old) (outside_of F.Files S.Sink files.new out.new) result }
    ensures quiet { is_code (doing asked.now.mode) ≡ true → KeepsWritten result (output_of S.Sink out.old) (output_of S.Sink out.new) }
    ensures holds { F.holds files.new ≡ F.holds files.old }
    ensures never_falls { F.faults files.old ≤ F.faults files.new }
    ensures cause { SendCause result (S.faults out.old) (S.faults out.new) }
    ensures end { IfOk result IsEnd }
    ensures program { LeavesOnly (λ session. (held : Held) → F.holds files.old ≡ Some held →
        IsOfAsked (asked_by asked.now) held session) result }
{
    if is_gen(asked.mode) {
        run_generated(rt, alloc, asked, files, out, gate)
    } else {
        run_file(rt, alloc, asked, files, out, gate)
    }
}

/// Runs the generated program of the number that good words name.
fn run_generated<R: Threads + Sync, F: Files, S: Sink, G: Gate + Sync>(
    rt: &R,
    alloc: Global,
    asked: &Words,
    files: &mut F,
    out: &mut S,
    gate: &G,
) -> Result<Done, Stop<PutFailed>>
    requires some { 1 ≤ asked.now.workers }
    requires few { asked.now.workers ≤ 16 }
    requires number { spec_words.is_gen asked.now.mode ≡ true }
    ensures went { Kept (is_journal (doing asked.now.mode)) (meaning_of_asked (asked_by asked.now)) 0
        (outside_of F.Files S.Sink files.old out.old) (outside_of F.Files S.Sink files.new out.new) result }
    ensures quiet { is_code (doing asked.now.mode) ≡ true → KeepsWritten result (output_of S.Sink out.old) (output_of S.Sink out.new) }
    ensures holds { F.holds files.new ≡ F.holds files.old }
    ensures never_falls { F.faults files.old ≤ F.faults files.new }
    ensures cause { SendCause result (S.faults out.old) (S.faults out.new) }
    ensures end { IfOk result IsEnd }
    ensures program { LeavesOnly (λ session. (held : Held) → F.holds files.old ≡ Some held →
        IsOfAsked (asked_by asked.now) held session) result }
{
    match generated_text(alloc, asked.number) {
        Ok(text) => run_source(rt, alloc, asked, text.as_bytes(), files, out, gate),
        Err(Memory) => Err(Stop::Memory),
    }
}

/// Runs the program of the file that good words name.
fn run_file<R: Threads + Sync, F: Files, S: Sink, G: Gate + Sync>(
    rt: &R,
    alloc: Global,
    asked: &Words,
    files: &mut F,
    out: &mut S,
    gate: &G,
) -> Result<Done, Stop<PutFailed>>
    requires some { 1 ≤ asked.now.workers }
    requires few { asked.now.workers ≤ 16 }
    requires file { spec_words.is_gen asked.now.mode ≡ false }
    ensures went { Kept (is_journal (doing asked.now.mode)) (meaning_of_asked (asked_by asked.now)) 0
        (outside_of F.Files S.Sink files.old out.old) (outside_of F.Files S.Sink files.new out.new) result }
    ensures quiet { is_code (doing asked.now.mode) ≡ true → KeepsWritten result (output_of S.Sink out.old) (output_of S.Sink out.new) }
    ensures holds { F.holds files.new ≡ F.holds files.old }
    ensures never_falls { F.faults files.old ≤ F.faults files.new }
    ensures cause { SendCause result (S.faults out.old) (S.faults out.new) }
    ensures end { IfOk result IsEnd }
    ensures program { LeavesOnly (λ session. (held : Held) → F.holds files.old ≡ Some held →
        IsOfAsked (asked_by asked.now) held session) result }
{
    let name = asked.file.as_str();
    let mut bytes = Vec::new(alloc);
    match files.read(name, FILE_LIMIT, &mut bytes) {
        Got::All => run_source(rt, alloc, asked, bytes.as_slice(), files, out, gate),
        Got::TooLong => refuse_long(alloc, out),
        Got::Failed => refuse_read(alloc, out, name),
        Got::Memory => Err(Stop::Memory),
    }
}

/// Runs the program that these bytes spell.
fn run_source<R: Threads + Sync, F: Files, S: Sink, G: Gate + Sync>(
    rt: &R,
    alloc: Global,
    asked: &Words,
    bytes: &[u8],
    files: &mut F,
    out: &mut S,
    gate: &G,
) -> Result<Done, Stop<PutFailed>>
    requires bytes { length bytes.now ≤ most_file_bytes }
    requires some { 1 ≤ asked.now.workers }
    requires few { asked.now.workers ≤ 16 }
    ensures went { Kept (is_journal (doing asked.now.mode)) (λ readings. meaning_of_compiled (asked_by asked.now) readings bytes.now (compiled_program bytes.now)) 1
        (outside_of F.Files S.Sink files.old out.old) (outside_of F.Files S.Sink files.new out.new) result }
    ensures quiet { is_code (doing asked.now.mode) ≡ true → KeepsWritten result (output_of S.Sink out.old) (output_of S.Sink out.new) }
    ensures holds { F.holds files.new ≡ F.holds files.old }
    ensures never_falls { F.faults files.old ≤ F.faults files.new }
    ensures cause { SendCause result (S.faults out.old) (S.faults out.new) }
    ensures end { IfOk result IsEnd }
    ensures program { LeavesOnly (λ session. IsOkAnd (compiled_program bytes.now) (λ program. Compiles program session.compiled)) result }
{
    match compile(alloc, bytes) {
        Ok(compiled) => run_compiled(rt, alloc, asked, compiled, files, out, gate),
        Err(Stop::Refused(refusal)) => refuse_source(alloc, out, bytes, refusal),
        Err(Stop::Memory) => Err(Stop::Memory),
    }
}

/// Does with a compiled program what the words ask for.
fn run_compiled<R: Threads + Sync, F: Files, S: Sink, G: Gate + Sync>(
    rt: &R,
    alloc: Global,
    asked: &Words,
    compiled: Compiled,
    files: &mut F,
    out: &mut S,
    gate: &G,
) -> Result<Done, Stop<PutFailed>>
    requires some { 1 ≤ asked.now.workers }
    requires few { asked.now.workers ≤ 16 }
    ensures went { (program : CheckedProgram) → Compiles program compiled →
        Kept (is_journal (doing asked.now.mode)) (meaning_in (doing asked.now.mode) program (asked_by asked.now).from (map binding_read asked.now.binds.list)) 1
        (outside_of F.Files S.Sink files.old out.old) (outside_of F.Files S.Sink files.new out.new) result }
    ensures quiet { is_code (doing asked.now.mode) ≡ true → KeepsWritten result (output_of S.Sink out.old) (output_of S.Sink out.new) }
    ensures holds { F.holds files.new ≡ F.holds files.old }
    ensures never_falls { F.faults files.old ≤ F.faults files.new }
    ensures cause { SendCause result (S.faults out.old) (S.faults out.new) }
    ensures end { IfOk result IsEnd }
    ensures program { LeavesProgram compiled result }
{
    match asked.mode {
        Mode::Run => perform(rt, alloc, compiled, Showing::Texts, asked, files, out, gate),
        Mode::Check => check(alloc, compiled, out),
        Mode::Lower => leave_open(alloc, compiled, b"", out),
        Mode::Gen => {
            let bare = without_files(alloc, asked.workers);
            perform(rt, alloc, compiled, Showing::Texts, &bare, files, out, gate)
        }
        Mode::Save => perform(rt, alloc, compiled, Showing::Image, asked, files, out, gate),
        Mode::Audit => audit_bound(alloc, compiled, &asked.binds, files, out),
        Mode::Advise => perform(
            rt,
            alloc,
            compiled,
            Showing::Advice,
            asked,
            files,
            out,
            gate,
        ),
        Mode::Journal => perform(
            rt,
            alloc,
            compiled,
            Showing::Changes,
            asked,
            files,
            out,
            gate,
        ),
    }
}

/// Words that name no file: no name is bound to one, and there is no snapshot.
fn without_files(alloc: Global, workers: u32) -> Words
    ensures workers { result.workers ≡ workers }
    ensures from { result.from ≡ None }
    ensures binds { result.binds.list ≡ [] }
{
    Words {
        workers,
        mode: Mode::Run,
        file: String::new(alloc),
        from: None,
        binds: Binds {
            list: Items::new(alloc),
        },
        number: 0,
    }
}
