//! Steps of a bridge, many times over.
use crate::chassis::{AnyModule, Kinds, device_of, make};
use crate::fault::Fault;
use std::env::Args;
use step_times::{CASES, Case, case_of};

// So many turns, and a line about them.
fn run_case(rt: &HostRuntime, case: Case, kinds: Kinds, times: u32) -> Result<(), Fault> {
    let alloc = rt.alloc();
    let bridge = device_of("A", kinds).ok_or(Fault::Unexpected)?;
    match make(alloc, &bridge).ok_or(Fault::NoMemory)? {
        AnyModule::Plain(module_) => case.turns(alloc, module_, times)?,
        AnyModule::Indexed(module_) => case.turns(alloc, module_, times)?,
        AnyModule::Adapter(_) => return Err(Fault::Unexpected),
    }
    println!(rt; "{} {times} done", case.name)?;
    Ok(())
}

fn run_all(rt: &HostRuntime) -> Result<(), Fault> {
    for kinds in [Kinds::Plain, Kinds::Indexed] {
        for case in CASES {
            run_case(rt, case, kinds, 1_000)?;
        }
    }
    Ok(())
}

// Of which kind the bridge is.
fn kinds_of(word: Option<String>) -> Result<Kinds, Fault> {
    match word {
        None => Ok(Kinds::Plain),
        Some(word) if word.as_str() == "indexed" => Ok(Kinds::Indexed),
        Some(_) => Err(Fault::Usage),
    }
}

/// Takes the steps that the words ask for, `STEP TIMES` or `STEP TIMES indexed`. Without words it
/// takes each step of a plain and of an indexed bridge 1,000 times.
pub fn run(rt: &HostRuntime, words: &mut Args) -> Result<(), Fault> {
    let Some(name) = words.next() else {
        return run_all(rt);
    };
    let case = case_of(name.as_str()).ok_or(Fault::Usage)?;
    let times = words.next().ok_or(Fault::Usage)?;
    let times = times.parse::<u32>()?;
    let kinds = kinds_of(words.next())?;
    run_case(rt, case, kinds, times)
}
