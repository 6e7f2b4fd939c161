//! Modules whose steps are counted, and held until others have come.
use crate::fault::Fault;
use cip_base::{ModuleId, NoMemory};
use cip_indexed::IndexedModule;
use cip_module::{
    AdapterModule, Event, Module, ModuleConfig, ModuleKind, Output, PlainModule, StepFault, Tables,
};
use cip_threads::Gate;
use std::alloc::Global;
use std::sync::Arc;
use std::sync::atomic::{AtomicU64, Ordering};
use std::thread;

// So often a thread looks whether the others have come.
const LOOKS: u64 = 10_000_000;

/// A hold that so many must reach before any goes on.
#[derive(Drop)]
pub struct Hold {
    wanted: u64,
    come: AtomicU64,
    passed: AtomicU64,
}

impl Hold {
    pub fn new(wanted: u64) -> Hold {
        Hold {
            wanted,
            come: AtomicU64::new(0),
            passed: AtomicU64::new(0),
        }
    }

    /// Waits for the others. A thread that they leave alone goes on in the end, but has not passed.
    pub fn pass(&self) {
        self.come.fetch_add(1, Ordering::SeqCst);
        for _ in 0..LOOKS {
            if self.come.load(Ordering::SeqCst) >= self.wanted {
                self.passed.fetch_add(1, Ordering::SeqCst);
                return;
            }
            thread::yield_now();
        }
    }

    /// How often it was passed.
    pub fn passed(&self) -> u64 {
        self.passed.load(Ordering::SeqCst)
    }
}

/// A module that passes a hold before each step.
#[derive(Drop)]
pub struct Held<M> {
    pub inner: M,
    pub hold: Arc<Hold, Global>,
}

impl<M: Module> Module for Held<M> {
    ghost config_of = { λ h. M.config_of h.inner };

    ghost state_of = { λ h. M.state_of h.inner };

    ghost paired = { λ h. M.paired h.inner };

    ghost rooms = { λ h. M.rooms h.inner };

    fn config(&self) -> &ModuleConfig {
        self.inner.config()
    }

    fn step(&mut self, event: Event) -> Result<Vec<Output>, StepFault> {
        self.hold.pass();
        self.inner.step(event)
    }

    fn tables(&self) -> Result<Tables, NoMemory> {
        self.inner.tables()
    }
}

/// A hold that each module passes before it enters its first step.
#[derive(Drop)]
pub struct FirstCommits {
    pub hold: Hold,
}

impl Gate for FirstCommits {
    fn before_commit(&self, _m: ModuleId, k: usize) {
        if k == 0 {
            self.hold.pass();
        }
    }
}

/// A held module in its box.
#[derive(Drop)]
pub enum HeldModule {
    Plain(Box<Held<PlainModule>>),
    Adapter(Box<Held<AdapterModule>>),
    Indexed(Box<Held<IndexedModule>>),
}

impl HeldModule {
    // The new module of a config, which passes this hold.
    fn new(
        alloc: Global,
        config: &ModuleConfig,
        hold: &Arc<Hold, Global>,
    ) -> Result<HeldModule, Fault> {
        let config = config.copy(alloc)?;
        let hold = Arc::try_clone(hold)?;
        match config.settings().kind {
            ModuleKind::Plain => {
                let inner = PlainModule::new(alloc, config)?;
                Ok(HeldModule::Plain(Box::new(alloc, Held { inner, hold })?))
            }
            ModuleKind::Adapter => {
                let inner = AdapterModule::new(alloc, config)?;
                Ok(HeldModule::Adapter(Box::new(alloc, Held { inner, hold })?))
            }
            ModuleKind::Indexed => {
                let inner = IndexedModule::new(alloc, config)?;
                Ok(HeldModule::Indexed(Box::new(alloc, Held { inner, hold })?))
            }
        }
    }
}

/// New modules of these configs, each of which passes this hold.
pub fn held_modules(
    alloc: Global,
    configs: &[ModuleConfig],
    hold: &Arc<Hold, Global>,
) -> Result<Vec<HeldModule>, Fault> {
    let mut made = Vec::new(alloc);
    for config in configs {
        made.push(HeldModule::new(alloc, config, hold)?)?;
    }
    Ok(made)
}
