//! What the program does: it reads its options, the topology and the transcript, in this order, and
//! writes what is shown of each piece of the transcript as it comes.
ghost use Rattle.std.specs.Io.{ReadsAtMost};

use crate::fault::Fault;
use crate::files::{topology, unread};
use crate::length::tell_length;
use crate::options::{Options, OptionsFault, Shape, Usage, explain_options, read_options};
use crate::ranged::Ranged;
use crate::terminal::Terminal;
use cip_base::NoMemory;
use cip_capture::CaptureView;
use cip_chart::{ChartView, Cut};
use cip_check::{module_names, unread_by};
use cip_read::{Expected, ReadFault, Reader};
use cip_topology::Topology;
use cip_view::{JsonView, Pieces, TextView, View, feed, finish};
use std::alloc::{AllocError, Global};
use std::env::Env;
use std::io::{ErrorKind, Read, Write};
use std::{env, io};

// The bytes of one read.
const PIECE: usize = 65_536;

// What is wrong with the words of the command line.
fn usage_fault(alloc: Global, words: &[String]) -> Fault {
    match explain_options(alloc, words) {
        Ok(text) => Fault::Usage(text),
        Err(NoMemory) => Fault::NoMemory,
    }
}

// The words after the program's name.
fn options(rt: &HostRuntime, alloc: Global) -> Result<Options, Fault> {
    let Ok(args) = env::args(rt) else {
        return Err(Fault::Options(OptionsFault::Usage(Usage::Wrong)));
    };
    let mut words = Vec::new(alloc);
    for word in args.skip(1) {
        if words.push(word).is_err() {
            return Err(Fault::NoMemory);
        }
    }
    match read_options(alloc, words.as_slice()) {
        Ok(options) => Ok(options),
        Err(OptionsFault::Usage(Usage::Wrong)) => Err(usage_fault(alloc, words.as_slice())),
        Err(fault) => Err(Fault::Options(fault)),
    }
}

// The standard output can't be written.
fn unwritten(error: &io::Error) -> Fault {
    match error.kind() {
        ErrorKind::BrokenPipe => Fault::Unwanted,
        _ => Fault::Write,
    }
}

// What is to be written goes out.
fn write_out<V: View>(
    rt: &HostRuntime,
    terminal: &mut Terminal<'_>,
    view: &mut V,
) -> Result<(), Fault> {
    let bytes = view.written();
    if bytes.is_empty() {
        return Ok(());
    }
    terminal.make_room();
    let mut out = io::writer(rt);
    match out.write_all(bytes) {
        Ok(()) => {
            view.clear();
            Ok(())
        }
        Err(error) => Err(unwritten(&error)),
    }
}

// A transcript of a topology that is read: its lines so far, and the one that is not at its end.
#[derive(Drop)]
struct Transcript<'a> {
    topology: &'a Topology,
    reader: Reader<'a>,
    pieces: Pieces,
}

// Whether a line names a module that the topology does not have.
fn is_stranger(fault: &ReadFault) -> bool {
    matches!(
        fault,
        ReadFault::Word {
            expected: Expected::Module,
            ..
        }
    )
}

// What is told of a faulty line.
fn line_fault(alloc: Global, topology: &Topology, fault: ReadFault) -> Fault {
    if !is_stranger(&fault) {
        return Fault::from(fault);
    }
    match module_names(alloc, topology) {
        Ok(names) => Fault::Stranger(fault, names),
        Err(NoMemory) => Fault::NoMemory,
    }
}

// Shows a piece of the transcript. Nothing goes out in front of its first line.
fn show_piece<V: View>(
    rt: &HostRuntime,
    alloc: Global,
    terminal: &mut Terminal<'_>,
    transcript: &mut Transcript<'_>,
    view: &mut V,
    piece: &[u8],
) -> Result<(), Fault> {
    let fed = feed(
        alloc,
        &mut transcript.reader,
        &mut transcript.pieces,
        view,
        piece,
    );
    if transcript.reader.lines() != 0 {
        write_out(rt, terminal, view)?;
    }
    match fed {
        Ok(()) => Ok(()),
        Err(fault) => Err(line_fault(alloc, transcript.topology, fault)),
    }
}

// Shows what stands at the end of the transcript, which has a line.
fn show_end<V: View>(
    rt: &HostRuntime,
    alloc: Global,
    terminal: &mut Terminal<'_>,
    transcript: &Transcript<'_>,
    view: &mut V,
) -> Result<(), Fault> {
    if transcript.reader.lines() == 0 {
        return Err(Fault::NoLine);
    }
    finish(alloc, &transcript.reader, &transcript.pieces, view)?;
    write_out(rt, terminal, view)
}

// The next bytes of the standard input, and how many they are; none at its end.
fn read_piece<R: Read>(alloc: Global, input: &mut R, piece: &mut [u8]) -> Result<usize, Fault>
    ensures { ReadsAtMost result piece.new }
{
    match input.read(piece) {
        Ok(count) => Ok(count),
        Err(error) => Err(unread(alloc, "<stdin>", unread_by("<stdin>", &error))),
    }
}

// Shows the pieces of the transcript that comes on the standard input.
fn show_pieces<V: View>(
    rt: &HostRuntime,
    alloc: Global,
    terminal: &mut Terminal<'_>,
    transcript: &mut Transcript<'_>,
    view: &mut V,
) -> Result<(), Fault> {
    let mut input = rt.reader();
    let mut piece = vec![in alloc; 0u8; PIECE]?;
    let mut read = 0u64;
    for _ in 0..u64::MAX {
        let count = read_piece(alloc, &mut input, piece.as_mut_slice())?;
        if count == 0 {
            break;
        }
        show_piece(rt, alloc, terminal, transcript, view, &piece[..count])?;
        read = read.saturating_add(count as u64);
        terminal.tell(transcript.reader.lines(), read);
    }
    Ok(())
}

// Shows the transcript that comes on the standard input.
fn show_all<V: View>(
    rt: &HostRuntime,
    alloc: Global,
    terminal: &mut Terminal<'_>,
    topology: &Topology,
    view: &mut V,
) -> Result<(), Fault> {
    let mut transcript = Transcript {
        topology,
        reader: Reader::new(topology),
        pieces: Pieces::new(alloc),
    };
    match show_pieces(rt, alloc, terminal, &mut transcript, view) {
        Ok(()) => show_end(rt, alloc, terminal, &transcript, view),
        Err(fault) => Err(fault),
    }
}

// The same, and at its end, or at a fault, no line on the terminal is left.
fn show<V: View>(
    rt: &HostRuntime,
    alloc: Global,
    topology: &Topology,
    view: &mut V,
) -> Result<(), Fault> {
    let mut terminal = Terminal::new(rt);
    let shown = show_all(rt, alloc, &mut terminal, topology, view);
    terminal.clear();
    shown
}

// A module of this name is asked for, and there is none.
fn no_module(alloc: Global, topology: &Topology, name: &str) -> Fault {
    let Ok(names) = module_names(alloc, topology) else {
        return Fault::NoMemory;
    };
    match String::from_str(alloc, name) {
        Ok(name) => Fault::Module(name, names),
        Err(_) => Fault::NoMemory,
    }
}

// The part of the run that a chart shows.
fn cut_of(alloc: Global, topology: &Topology, options: &Options) -> Result<Cut, Fault> {
    let mut cut = Cut::whole(alloc);
    cut.from = options.from;
    cut.to = options.to;
    for name in &options.modules {
        match topology.by_name(name.as_bytes()) {
            Some(id) => cut.modules.push(id).map_err(AllocError::from)?,
            None => return Err(no_module(alloc, topology, name.as_str())),
        }
    }
    Ok(cut)
}

// Shows the entries of a chart from one on, of which there is one, and tells where it is long.
fn show_ranged<V: View>(
    rt: &HostRuntime,
    alloc: Global,
    topology: &Topology,
    view: &mut Ranged<V>,
) -> Result<(), Fault> {
    show(rt, alloc, topology, view)?;
    view.check()?;
    tell_length(rt, view.bytes());
    Ok(())
}

fn show_chart(
    rt: &HostRuntime,
    alloc: Global,
    topology: &Topology,
    options: &Options,
) -> Result<(), Fault> {
    let cut = cut_of(alloc, topology, options)?;
    let chart = ChartView::new(alloc, topology, cut, options.html)?;
    let mut view = Ranged::of(chart, options.from);
    show_ranged(rt, alloc, topology, &mut view)
}

fn show_capture(rt: &HostRuntime, alloc: Global, topology: &Topology) -> Result<(), Fault> {
    let mut view = CaptureView::new(alloc, topology)?;
    show(rt, alloc, topology, &mut view)
}

fn show_text(rt: &HostRuntime, alloc: Global, topology: &Topology) -> Result<(), Fault> {
    let mut view = TextView::new(alloc, topology);
    show(rt, alloc, topology, &mut view)
}

fn show_json(rt: &HostRuntime, alloc: Global, topology: &Topology) -> Result<(), Fault> {
    let mut view = JsonView::new(alloc, topology);
    show(rt, alloc, topology, &mut view)
}

// What the program does once it knows what is asked for.
fn run_with(rt: &HostRuntime, options: &Options) -> Result<(), Fault> {
    let alloc = rt.alloc();
    let topology = topology(rt, alloc, options)?;
    match options.shape {
        Shape::Text => show_text(rt, alloc, &topology),
        Shape::Json => show_json(rt, alloc, &topology),
        Shape::Chart => show_chart(rt, alloc, &topology, options),
        Shape::Capture => show_capture(rt, alloc, &topology),
    }
}

// A text that was asked for goes to the standard output.
fn say(rt: &HostRuntime, asked: Usage) -> Result<(), Fault> {
    match println!(rt; "{asked}") {
        Ok(()) => Ok(()),
        Err(error) => Err(unwritten(&error)),
    }
}

/// The whole program, but for what it says of a fault and for its exit status.
pub fn run_program(rt: &HostRuntime) -> Result<(), Fault> {
    match options(rt, rt.alloc()) {
        Ok(options) => run_with(rt, &options),
        Err(Fault::Options(OptionsFault::Usage(Usage::Help))) => say(rt, Usage::Help),
        Err(Fault::Options(OptionsFault::Usage(Usage::Version))) => say(rt, Usage::Version),
        Err(fault) => Err(fault),
    }
}
