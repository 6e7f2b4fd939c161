//! The step of a module of any kind, and the kinds that are no more than a device.
#![tactic(auto)]

mod adapter;
mod dispatch;
mod plain;

pub use adapter::AdapterModule;
pub use cip_routing::{
    Assemblies, AssemblyRow, AssemblyRows, Body, CloseRefusal, Command, Dropped, Event, HopRow,
    HopRows, KeyPart, LargeParams, LegalAddresses, LinkRefusal, Module, ModuleConfig, ModuleKind,
    ModuleSettings, OpenParams, OpenRefusal, Ops, Output, PendingRow, PendingRows, PortConfig,
    Ports, Refused, RequestRefusal, StepFault, Tables, UnconnectedRefusal, is_legal, is_name,
};
pub use cip_steps::{Device, Edit, Making, Reaction, TickFault};
pub use dispatch::{react_to_enter, react_to_reply, react_to_request, step};
pub use plain::PlainModule;
