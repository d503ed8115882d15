//! Answers questions on a map from its PostGIS Topology tables, `tackcherry ask DIR < SCRIPT`; puts the map into a
//! file, `tackcherry build DIR FILE`; answers from that file, `tackcherry query FILE < SCRIPT`; tells whether a file is
//! lawful, `tackcherry check FILE`; tells a shortest walk between two faces of a file, `tackcherry hops FILE F G`,
//! or the outline of a region, `tackcherry border FILE R`; writes the file of form 2 of a file's map,
//! `tackcherry upgrade OLD NEW`, or its tables, `tackcherry dump FILE DIR`; and tries itself on a grid,
//! `tackcherry trial N`.
#![tactic(auto)]

ghost use Rattle.std.specs.Prelude.{◌≡◌, ◌<◌, ℕ, IfOk, drop, map, string_bytes};
ghost use Rattle.std.specs.Process.{exit_status};
ghost use Rattle.std.specs.Vec.Iter.{into_iter_items};
ghost use Rattle.topo_cli.specs.Call.{call_of, shelf_call, sink_call, source_call};
ghost use Rattle.topo_cli.specs.Exit.{exit_status as number_of_status};
ghost use Rattle.topo_cli.specs.Outcome.{IsPromised};
ghost use Rattle.topo_cli.specs.Words.{form};

pub mod command;
pub mod counting;
pub mod dumping;
pub mod files;
pub mod hopping;
pub mod image;
pub mod laws;
pub mod lines;
pub mod load;
pub mod serving;
pub mod status;
#[cfg(test)]
mod tests;
pub mod top;
pub mod trial;

use bit_words::Steps;
use ports::{FileShelf, Shelf, Sink, Source, StdSink, StdSource};
pub use status::Status;
use std::alloc::{AllocError, AllocFailed, Global};
use std::env;
use std::io::{Error, ErrorKind};
use std::marker::Brand;
use std::process::ExitCode;
use std::rt::Env;
use std::sync::ledger::{Blank, Ledger};
pub use top::run;

/// Why the words of the command line can't be had.
#[derive(Clone, Copy, Debug, PartialEq, Eq)]
enum WordsFault {
    Memory,
    Unreadable,
}

impl From<Error> for WordsFault {
    ghost use Rattle.std.specs.Prelude.{◌≡◌, ◌↔◌};
    ghost use Rattle.std.specs.IoError.{error_kind};
    ghost use Rattle.std.specs.declared.io.ErrorKind.TheVariants.{OutOfMemory};
    ghost use Rattle.topo_cli.specs.declared.WordsFault.TheVariants.{Memory};

    ghost from_gives = { λ error fault. (fault ≡ Memory) ↔ (error_kind error ≡ OutOfMemory) };

    fn from(error: Error) -> WordsFault {
        match error.kind() {
            ErrorKind::OutOfMemory => WordsFault::Memory,
            _ => WordsFault::Unreadable,
        }
    }
}

impl From<AllocError> for WordsFault {
    ghost use Rattle.std.specs.Prelude.{◌≡◌};
    ghost use Rattle.topo_cli.specs.declared.WordsFault.TheVariants.{Memory};

    ghost from_gives = { λ _ e. e ≡ Memory };

    fn from(_error: AllocError) -> WordsFault {
        WordsFault::Memory
    }
}

/// All words that are left.
fn rest_of(alloc: Global, args: env::Args) -> Result<Vec<String>, AllocError>
    ensures { IfOk result (λ words. words.items ≡ into_iter_items args) }
{
    args.collect(alloc)
}

/// The words behind the program's name.
fn words_behind_name(alloc: Global, mut args: env::Args) -> Result<Vec<String>, AllocError>
    ensures { IfOk result (λ words. words.items ≡ drop 1 (into_iter_items args)) }
{
    let _name = args.next();
    rest_of(alloc, args)
}

fn collect_words<R: Env + AllocGlobal>(rt: &R) -> Result<Vec<String>, WordsFault> {
    Ok(words_behind_name(rt.alloc(), env::args(rt)?)?)
}

/// What the program ends with.
fn exit_code(status: Status) -> ExitCode
    ensures { exit_status result ≡ number_of_status status }
{
    ExitCode::from(status.exit_status())
}

/// Runs the program, and forgets its count of steps.
fn run_uncounted<H: Shelf, S: Source, K: Sink, L: Ledger>(
    alloc: Global,
    words: &[String],
    shelf: &mut H,
    script: &mut S,
    out: &mut K,
    blank: Blank,
) -> Status
    requires name { blank.name ≡ L.name }
    requires parts { blank.parts ≡ L.parts }
    requires some { 0 < blank.parts }
    ensures { (read : ℕ) × IsPromised (call_of (form (map string_bytes words.now))
        (shelf_call H.files H.misses H.faults H.write_faults shelf.old shelf.new)
        (source_call S.left S.faults script.old script.new) (sink_call K.held K.faults out.old out.new) 0 read) result }
{
    let mut steps = Steps::<L>::new(alloc, blank);
    run(alloc, words, shelf, script, out, &mut steps)
}

/// Runs the program over the files, the input and the output of the system.
fn main(rt: HostRuntime) -> ExitCode {
    let words = match collect_words(&rt) {
        Ok(words) => words,
        Err(WordsFault::Memory) => return exit_code(Status::Memory),
        Err(WordsFault::Unreadable) => return exit_code(Status::Usage),
    };
    let mut shelf = FileShelf::new(&rt);
    let mut script = StdSource::new(rt.stdin());
    let mut out = StdSink::new(rt.stdout());
    let blank = Blank::new(1);
    let status = run_uncounted::<_, _, _, Brand>(
        rt.alloc(),
        &words,
        &mut shelf,
        &mut script,
        &mut out,
        blank,
    );
    exit_code(status)
}
