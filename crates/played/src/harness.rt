//! The modules of the chassis under their names, and what the lines of a script ask of them.
use crate::asked::event;
use crate::chassis::{AnyModule, Device, Kinds, NAMES, device_of, make};
use crate::opened::OPENED;
use crate::told::{Shown, Told, fault_text};
use cip_module::{Event, Output, StepFault};
use line_words::Words;
use std::alloc::Global;
use std::fmt::Write;

/// How many settings a line changes at most.
const SETTINGS: usize = 6;

/// A module under its name.
#[derive(Drop)]
struct Named {
    name: &'static str,
    module_: AnyModule,
}

/// The modules, of which the last of a name is played on, and the lines that came of what is asked.
#[derive(Drop)]
pub struct Harness {
    alloc: Global,
    kinds: Kinds,
    modules: Vec<Named>,
    given: String,
}

// The place of the last module of this name.
fn place_of(modules: &[Named], name: &str) -> Option<usize> {
    let mut place = None;
    for (at, module_) in modules.iter().enumerate() {
        if module_.name == name {
            place = Some(at);
        }
    }
    place
}

fn make_named(alloc: Global, device: &Device) -> Option<Named> {
    let module_ = make(alloc, device)?;
    Some(Named {
        name: device.name(),
        module_,
    })
}

fn all_modules(alloc: Global, kinds: Kinds) -> Option<Vec<Named>> {
    let mut modules = Vec::new(alloc);
    for name in NAMES {
        let device = device_of(name, kinds)?;
        modules.push(make_named(alloc, &device)?).ok()?;
    }
    Some(modules)
}

// A line for each output. It is written of a copy.
fn put_outputs(alloc: Global, outputs: &[Output], text: &mut String) -> Option<()> {
    for output in outputs {
        let output = output.copy(alloc).ok()?;
        writeln!(text, "{}", Told(&output)).ok()?;
    }
    Some(())
}

// A line for each output of a step, or for a step that did not happen.
fn put_step(
    alloc: Global,
    stepped: &Result<Vec<Output>, StepFault>,
    text: &mut String,
) -> Option<()> {
    match stepped {
        Ok(outputs) => put_outputs(alloc, outputs.as_slice(), text),
        Err(fault) => writeln!(text, "{}", fault_text(fault)).ok(),
    }
}

// The lines of a module's tables.
fn show(module_: &AnyModule, text: &mut String) -> Option<()> {
    let tables = module_.tables().ok()?;
    write!(text, "{}", Shown(&tables)).ok()
}

// The device with these settings changed, each a word and a number.
fn changed(mut device: Device, words: &mut Words) -> Option<Device> {
    for _ in 0..SETTINGS {
        match words.word() {
            Some(key) => device = device.with(key, words.u64()?)?,
            None => return Some(device),
        }
    }
    Some(device)
}

impl Harness {
    /// New modules of these kinds. None where an allocation is refused.
    pub fn new(alloc: Global, kinds: Kinds) -> Option<Harness> {
        Some(Harness {
            alloc,
            kinds,
            modules: all_modules(alloc, kinds)?,
            given: String::new(alloc),
        })
    }

    /// The lines that came since they were last forgotten.
    pub fn given(&self) -> &str {
        self.given.as_str()
    }

    /// Forgets these lines.
    pub fn forget(&mut self) {
        self.given.clear()
    }

    // `M with SETTING NUMBER ..`
    fn make_anew(&mut self, name: &str, words: &mut Words) -> Option<()> {
        let device = changed(device_of(name, self.kinds)?, words)?;
        self.modules.push(make_named(self.alloc, &device)?).ok()
    }

    /// What a line asks for. An event is given to its module as a copy. None where the line cannot
    /// be read, or an allocation is refused.
    pub fn obey(&mut self, line: &str) -> Option<()> {
        let mut words = Words::of(self.alloc, line, None);
        let name = words.word()?;
        let place = place_of(self.modules.as_slice(), name)?;
        match words.word()? {
            "with" => self.make_anew(name, &mut words),
            "tables" => show(&self.modules.get(place)?.module_, &mut self.given),
            kind => {
                let event = event(kind, &mut words)?.copy(self.alloc).ok()?;
                let stepped = self.step(place, event)?;
                self.tell(&stepped)
            }
        }
    }

    /// The scanner opens a connection to the adapter, and no line is kept of it.
    pub fn open(&mut self) -> Option<()> {
        for line in OPENED.lines() {
            if !line.is_empty() && !line.starts_with('>') {
                self.obey(line)?;
            }
        }
        self.forget();
        Some(())
    }

    /// The event of a line, and the place of its module.
    pub fn event(&self, line: &str) -> Option<(usize, Event)> {
        let mut words = Words::of(self.alloc, line, None);
        let place = place_of(self.modules.as_slice(), words.word()?)?;
        Some((place, event(words.word()?, &mut words)?))
    }

    /// The lines of the tables of the module at a place.
    pub fn tables(&self, place: usize) -> Option<String> {
        let mut text = String::new(self.alloc);
        show(&self.modules.get(place)?.module_, &mut text)?;
        Some(text)
    }

    /// One event at the module at a place. None where there is none.
    pub fn step(&mut self, place: usize, event: Event) -> Option<Result<Vec<Output>, StepFault>> {
        Some(self.modules.get_mut(place)?.module_.step(event))
    }

    /// Keeps a line for each output, or for a step that did not happen.
    pub fn tell(&mut self, stepped: &Result<Vec<Output>, StepFault>) -> Option<()> {
        put_step(self.alloc, stepped, &mut self.given)
    }

    /// Keeps a line.
    pub fn tell_line(&mut self, line: &str) -> Option<()> {
        writeln!(self.given, "{line}").ok()
    }
}
