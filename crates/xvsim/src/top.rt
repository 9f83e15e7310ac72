//! The calls.
ghost use Rattle.std.specs.Prelude.{◌≡◌, ◌≢◌, ℕ, All, map, string_bytes, IfSome, IsSomeAnd, IsTrue};
ghost use Rattle.std.specs.Io.KnownBytes.{Appends};
ghost use Rattle.hv_base.specs.Count.{Rose};
ghost use Rattle.hv_base.specs.Writing.{AppendsFront};
ghost use Rattle.hv_emu.specs.Device.{IsInReset};
ghost use Rattle.xvsim.specs.declared.status.Status.{Status};
ghost use Rattle.xvsim.specs.Given.{GaveBytes};
ghost use Rattle.xvsim.specs.Words.{AreRunWords, AreCheckWords, AreGenWords, AreAnyGenWords, AreWords};
ghost use Rattle.xvsim.specs.Run.{IsRunOf, KeepsRun, AppendsReport, AppendsReportFront, has_output, has_run};
ghost use Rattle.xvsim.specs.Check.{IsAllRead, AppendsCheck, AppendsCheckFront};
ghost use Rattle.xvsim.specs.Gen.{gen_text};
ghost use Rattle.xvsim.specs.Due.{IsDueStatus, IsDue, IsAnswerFor, IsOfGen};

use crate::check::check_text;
use crate::generate::gen_text;
use crate::input::read_input;
use crate::kept::KeptOf;
use crate::run::{Made, make_run};
use crate::status::Status;
use crate::words::{Command, read_words};
use hv_base::{Sink, Source, write_all};
use hv_emu::Emulator;
use std::alloc::Global;

/// Runs a bundle, and writes the report.
fn run_bundle<S: Source, K: Sink, E: Emulator>(
    alloc: Global,
    source: &mut S,
    sink: &mut K,
    parts: Vec<E>,
    kept: &mut KeptOf<E>,
) -> Status
    ensures input { IsTrue (has_run result) → IsSomeAnd kept.new.run
        (IsRunOf (S.left source.old) (S.left source.new) (S.ended source.new)) }
    ensures keeps { KeepsRun E.state (map E.state parts.items) result kept.old kept.new }
    ensures shelf { IsTrue (has_run result)
        → IsSomeAnd kept.new.run (λ run. run.shelf.items ≡ parts.items) }
    ensures report { result ≡ Status.Done → IsSomeAnd kept.new.run
        (AppendsReport (map E.state parts.items) (K.held sink.old) (K.held sink.new)) }
    ensures cut_short { result ≡ Status.WriteFault → IsSomeAnd kept.new.run
        (AppendsReportFront (map E.state parts.items) (K.held sink.old) (K.held sink.new)) }
    ensures sink_stays { result ≢ Status.Done → result ≢ Status.WriteFault → sink.new ≡ sink.old }
    ensures due { IfSome (S.left source.old) (λ bytes. IsDueStatus bytes result) }
    ensures words { result ≢ Status.Usage }
    ensures read_fault { result ≡ Status.ReadFault → Rose (S.faults source.old) (S.faults source.new) }
    ensures write_fault { result ≡ Status.WriteFault → Rose (K.faults sink.old) (K.faults sink.new) }
{
    let input = match read_input(alloc, source) {
        Ok(input) => input,
        Err(refusal) => return refusal.status(),
    };
    match make_run(alloc, input, parts) {
        Ok(Made::Finished(run, report)) => {
            kept.run = Some(run);
            match write_all(sink, report.as_slice()) {
                Ok(()) => Status::Done,
                Err(_) => Status::WriteFault,
            }
        }
        Ok(Made::Stopped(run, stamp)) => {
            kept.run = Some(run);
            Status::StampsSpent { stamp }
        }
        Err(_) => Status::OutOfMemory,
    }
}

/// Checks a bundle, and writes what it has.
pub fn check_bundle<S: Source, K: Sink>(alloc: Global, source: &mut S, sink: &mut K) -> Status
    // The input was read to its end.
    ensures input { IsTrue (has_output result)
        → IsAllRead (S.left source.new) (S.ended source.new) }

    // Of a check that is done exactly its text was written, and after a fault of the sink a front.
    ensures check { result ≡ Status.Done → GaveBytes (S.left source.old)
        (AppendsCheck (K.held sink.old) (K.held sink.new)) }
    ensures cut_short { result ≡ Status.WriteFault → GaveBytes (S.left source.old)
        (AppendsCheckFront (K.held sink.old) (K.held sink.new)) }
    ensures sink_stays { result ≢ Status.Done → result ≢ Status.WriteFault → sink.new ≡ sink.old }

    // When each answer comes, where the source tells its bytes.
    ensures due { IfSome (S.left source.old) (λ bytes. IsDueStatus bytes result) }

    // And what is due comes: a refusal that is due is answered, unless reading failed or memory ran out.
    ensures exact { IfSome (S.left source.old) (λ bytes. (due : Status)
        → IsDueStatus bytes due → IsAnswerFor result due) }
    ensures words { result ≢ Status.Usage }
    ensures never_stopped { (stamp : ℕ) → result ≢ Status.StampsSpent stamp }

    // A fault is answered only where it was counted in this call.
    ensures read_fault { result ≡ Status.ReadFault → Rose (S.faults source.old) (S.faults source.new) }
    ensures write_fault { result ≡ Status.WriteFault → Rose (K.faults sink.old) (K.faults sink.new) }
{
    let input = match read_input(alloc, source) {
        Ok(input) => input,
        Err(refusal) => return refusal.status(),
    };
    match check_text(alloc, &input) {
        Ok(text) => match write_all(sink, text.as_slice()) {
            Ok(()) => Status::Done,
            Err(_) => Status::WriteFault,
        },
        Err(_) => Status::OutOfMemory,
    }
}

/// Writes the bundle that is made of a number.
pub fn gen_bundle<K: Sink>(alloc: Global, number: u16, sink: &mut K) -> Status
    // Where it is done exactly the bundle was written, and after a fault of the sink a front.
    ensures made { result ≡ Status.Done
        → Appends (K.held sink.old) (K.held sink.new) (gen_text number) }
    ensures cut_short { result ≡ Status.WriteFault
        → AppendsFront (K.held sink.old) (K.held sink.new) (gen_text number) }
    ensures sink_stays { result ≢ Status.Done → result ≢ Status.WriteFault → sink.new ≡ sink.old }

    // Nothing is refused.
    ensures answers { IsOfGen result }

    // A fault is answered only where it was counted in this call.
    ensures write_fault { result ≡ Status.WriteFault → Rose (K.faults sink.old) (K.faults sink.new) }
{
    match gen_text(alloc, number) {
        Ok(text) => match write_all(sink, text.as_slice()) {
            Ok(()) => Status::Done,
            Err(_) => Status::WriteFault,
        },
        Err(_) => Status::OutOfMemory,
    }
}

/// Carries out the command that the words name. A run begins with the emulators `parts`, each in its
/// reset state, and what it leaves of them it keeps with the run.
pub fn xvsim<S: Source, K: Sink, E: Emulator>(
    alloc: Global,
    words: &[String],
    source: &mut S,
    sink: &mut K,
    parts: Vec<E>,
    kept: &mut KeptOf<E>,
) -> Status
    // The emulators are as a reset leaves them.
    requires reset { All IsInReset (map E.state parts.items) }

    // After a run the input was read to its end, and the run that is kept begins with what it gave.
    ensures input { AreRunWords (map string_bytes words.now) → IsTrue (has_run result)
        → IsSomeAnd kept.new.run
        (IsRunOf (S.left source.old) (S.left source.new) (S.ended source.new)) }

    // A run that is done is finished, in rounds; one that was stopped is kept too, and else nothing changes.
    ensures keeps { AreRunWords (map string_bytes words.now)
        → KeepsRun E.state (map E.state parts.items) result kept.old kept.new }
    // Since no guest can be made yet, the emulators are all left, in their order.
    ensures shelf { AreRunWords (map string_bytes words.now) → IsTrue (has_run result)
        → IsSomeAnd kept.new.run (λ run. run.shelf.items ≡ parts.items) }
    ensures kept_stays { (AreRunWords (map string_bytes words.now) → ⊥) → kept.new ≡ kept.old }

    // Of a run that is done exactly the report was written, and after a fault of the sink a front of it.
    ensures report { AreRunWords (map string_bytes words.now) → result ≡ Status.Done
        → IsSomeAnd kept.new.run (AppendsReport (map E.state parts.items) (K.held sink.old) (K.held sink.new)) }
    ensures cut_short { AreRunWords (map string_bytes words.now) → result ≡ Status.WriteFault
        → IsSomeAnd kept.new.run (AppendsReportFront (map E.state parts.items) (K.held sink.old) (K.held sink.new)) }

    // The same of a check and its text.
    ensures check_input { AreCheckWords (map string_bytes words.now) → IsTrue (has_output result)
        → IsAllRead (S.left source.new) (S.ended source.new) }
    ensures check { AreCheckWords (map string_bytes words.now) → result ≡ Status.Done
        → GaveBytes (S.left source.old) (AppendsCheck (K.held sink.old) (K.held sink.new)) }
    ensures check_cut { AreCheckWords (map string_bytes words.now) → result ≡ Status.WriteFault
        → GaveBytes (S.left source.old) (AppendsCheckFront (K.held sink.old) (K.held sink.new)) }

    // And of the bundle that is made of a number, for which nothing is read.
    ensures generated { (number : ℕ) → AreGenWords number (map string_bytes words.now)
        → result ≡ Status.Done
        → Appends (K.held sink.old) (K.held sink.new) (gen_text number) }
    ensures generated_cut { (number : ℕ) → AreGenWords number (map string_bytes words.now)
        → result ≡ Status.WriteFault
        → AppendsFront (K.held sink.old) (K.held sink.new) (gen_text number) }
    ensures generated_unread { AreAnyGenWords (map string_bytes words.now)
        → source.new ≡ source.old }
    ensures generated_answers { AreAnyGenWords (map string_bytes words.now) → IsOfGen result }
    ensures sink_stays { result ≢ Status.Done → result ≢ Status.WriteFault → sink.new ≡ sink.old }

    // A check is never stopped by its stamps.
    ensures never_stopped { AreCheckWords (map string_bytes words.now)
        → (stamp : ℕ) → result ≢ Status.StampsSpent stamp }

    // When each answer comes, where the source tells its bytes.
    ensures due { IfSome (S.left source.old) (λ bytes. IsDue (map string_bytes words.now) bytes result) }

    // And what is due comes: a refusal that is due is answered, unless reading failed or memory ran out.
    // Of a good input `keeps`, `report`, `cut_short` and `write_fault` say which answer it is.
    ensures exact { IfSome (S.left source.old) (λ bytes. (due : Status)
        → IsDue (map string_bytes words.now) bytes due → IsAnswerFor result due) }
    ensures usage { result ≡ Status.Usage → AreWords (map string_bytes words.now) → ⊥ }
    ensures words { result ≢ Status.Usage → AreWords (map string_bytes words.now) }
    ensures unread { result ≡ Status.Usage → source.new ≡ source.old }

    // A fault is answered only where it was counted in this call.
    ensures read_fault { result ≡ Status.ReadFault → Rose (S.faults source.old) (S.faults source.new) }
    ensures write_fault { result ≡ Status.WriteFault → Rose (K.faults sink.old) (K.faults sink.new) }
{
    match read_words(words) {
        Some(Command::Run) => run_bundle(alloc, source, sink, parts, kept),
        Some(Command::Check) => check_bundle(alloc, source, sink),
        Some(Command::Gen(number)) => gen_bundle(alloc, number, sink),
        None => Status::Usage,
    }
}
