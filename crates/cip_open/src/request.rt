//! The request that opens a connection.
ghost use Rattle.std.specs.Prelude.{◌≡◌, ◌≤◌, ◌<◌, ◌^◌, ◌++◌, false, true, length, IfOk, OnOk};
ghost use Rattle.cip_message.specs.Gives.{Gives};
ghost use Rattle.cip_message.specs.Exact.{IsRead};
ghost use Rattle.cip_open.specs.Kinds.{open_fixed_part as fixed_part_of, params_bytes};
ghost use Rattle.cip_open.specs.Open.{ReadsOpen, IsOpenFault, open_bytes, FitWidth};
ghost use Rattle.cip_open.specs.OpenAt.{open_fields_in, open_at, open_triad_of, open_words_of};
ghost use Rattle.cip_open.specs.Reading.{open_of, open_along};

use crate::kinds::{open_fixed_part, open_service, words_place};
use cip_base::{Bytes, NoMemory, Timing, Triad, put_double, put_word};
use cip_message::{
    DataFault, MANAGER_HEADER, counted_path, double_at, put_manager_header, put_triad,
    triad_within, word_at,
};
use cip_segment::PathView;
use std::alloc::{AllocError, Global};

/// Where the time-out ticks stand in an open's data.
pub const OPEN_TICKS: usize = 1;
/// Where the T→O network connection id stands in an open's data.
pub const OPEN_TO_ID: usize = 6;
/// Where the three reserved bytes begin in an open's data.
pub const OPEN_RESERVED: usize = 19;

/// The fixed fields of an open (Volume 1, chapter 3, Forward_Open and Large_Forward_Open). Reserved
/// bits stay as they are.
#[derive(Clone, Copy, Debug, PartialEq, Eq)]
pub struct OpenFields {
    /// Priority/time tick and time-out ticks.
    pub timing: Timing,
    /// The O→T network connection id.
    pub ot_id: u32,
    /// The T→O network connection id.
    pub to_id: u32,
    pub triad: Triad,
    /// The connection timeout multiplier.
    pub multiplier: u8,
    /// The O→T requested packet interval, in microseconds.
    pub ot_rpi: u32,
    /// The O→T network connection parameters: a double word of a large open, else a word.
    pub ot_params: u32,
    /// The T→O requested packet interval, in microseconds.
    pub to_rpi: u32,
    /// The T→O network connection parameters: a double word of a large open, else a word.
    pub to_params: u32,
    /// Transport class and trigger.
    pub transport: u8,
    /// Whether the service is Large_Forward_Open.
    pub large: bool,
}

/// The data of an open whose path is borrowed (Volume 1, chapter 3, Forward_Open and
/// Large_Forward_Open).
#[derive(Clone, Copy)]
pub struct OpenView<'a> {
    pub fields: OpenFields,
    pub path: PathView<'a>,
}

// The fields of the fixed part of a Forward_Open, each at its place.
fn standard_fields(data_: &[u8]) -> OpenFields
    requires { fixed_part_of false ≤ length data_.now }
    ensures places { result ≡ open_fields_in false data_.now }
    ensures width { FitWidth result }
{
    OpenFields {
        timing: Timing {
            tick: data_[0],
            ticks: data_[OPEN_TICKS],
        },
        ot_id: double_at(data_, 2),
        to_id: double_at(data_, OPEN_TO_ID),
        triad: cip_message::triad_at(data_, 10),
        multiplier: data_[18],
        ot_rpi: double_at(data_, 22),
        ot_params: u32::from(word_at(data_, 26)),
        to_rpi: double_at(data_, 28),
        to_params: u32::from(word_at(data_, 32)),
        transport: data_[34],
        large: false,
    }
}

// The same of a Large_Forward_Open.
fn large_fields(data_: &[u8]) -> OpenFields
    requires { fixed_part_of true ≤ length data_.now }
    ensures { result ≡ open_fields_in true data_.now }
{
    OpenFields {
        timing: Timing {
            tick: data_[0],
            ticks: data_[OPEN_TICKS],
        },
        ot_id: double_at(data_, 2),
        to_id: double_at(data_, OPEN_TO_ID),
        triad: cip_message::triad_at(data_, 10),
        multiplier: data_[18],
        ot_rpi: double_at(data_, 22),
        ot_params: double_at(data_, 26),
        to_rpi: double_at(data_, 30),
        to_params: double_at(data_, 34),
        transport: data_[38],
        large: true,
    }
}

fn fields(large: bool, data_: &[u8]) -> OpenFields
    requires { fixed_part_of large ≤ length data_.now }
    ensures places { result ≡ open_fields_in large data_.now }
    ensures width { FitWidth result }
{
    if large {
        large_fields(data_)
    } else {
        standard_fields(data_)
    }
}

#[tactic(auto, unfolding(crate::specs::OpenAt::open_at))]
fn view(large: bool, data_: &[u8]) -> Result<OpenView<'_>, DataFault>
    ensures given { Gives open_of result (open_at large data_.now) }
    ensures width { IfOk result (λ v. FitWidth v.fields) }
{
    match counted_path(data_, words_place(large), open_fixed_part(large)) {
        Ok(path) => Ok(OpenView {
            fields: fields(large, data_),
            path,
        }),
        Err(fault) => Err(fault),
    }
}

/// The open, large or not, that the data is, all of it; the data is what follows the path of the
/// request (Volume 1, chapter 3, Forward_Open and Large_Forward_Open). The reserved bytes have any
/// value. It takes no memory.
///
/// Otherwise the first that fits: Short where bytes are missing, Long where bytes stand after the
/// path, Path of the path's fault.
pub fn read_open_of(large: bool, data_: &[u8]) -> Result<OpenView<'_>, DataFault>
    ensures read { IsRead open_of (open_at large) (ReadsOpen large) (IsOpenFault large) data_.now
        result }
    ensures width { IfOk result (λ v. FitWidth v.fields) }
{
    view(large, data_)
}

/// The Forward_Open that the data is, all of it; the data is what follows the path of the request
/// (Volume 1, chapter 3, Forward_Open). The reserved bytes have any value. It takes no memory.
///
/// Otherwise the first that fits: Short where bytes are missing, Long where bytes stand after the
/// path, Path of the path's fault.
pub fn read_open(data_: &[u8]) -> Result<OpenView<'_>, DataFault>
    ensures read { IsRead open_of (open_at false) (ReadsOpen false) (IsOpenFault false) data_.now
        result }
    ensures width { IfOk result (λ v. FitWidth v.fields) }
{
    read_open_of(false, data_)
}

/// The Large_Forward_Open that the data is, all of it; the data is what follows the path of the
/// request (Volume 1, chapter 3, Large_Forward_Open). The reserved bytes have any value. It takes
/// no memory.
///
/// Otherwise the first that fits: Short where bytes are missing, Long where bytes stand after the
/// path, Path of the path's fault.
pub fn read_large_open(data_: &[u8]) -> Result<OpenView<'_>, DataFault>
    ensures { IsRead open_of (open_at true) (ReadsOpen true) (IsOpenFault true) data_.now result }
{
    read_open_of(true, data_)
}

/// The connection triad in the data of an open, large or not; None exactly where one of its bytes
/// is missing. The data may be cut after it.
pub fn triad_at(data_: &[u8]) -> Option<Triad>
    ensures { result ≡ open_triad_of data_.now }
{
    triad_within(data_, 10)
}

/// The path size in the data of an open, large or not, in words; None exactly where that byte is
/// missing. The data may be cut after it.
pub fn open_words_at(large: bool, data_: &[u8]) -> Option<u8>
    ensures { result ≡ open_words_of large data_.now }
{
    data_.get(words_place(large)).copied()
}

/// The path size in the data of a Forward_Open, in words; None exactly where that byte is missing.
/// The data may be cut after it.
pub fn words_at(data_: &[u8]) -> Option<u8>
    ensures { result ≡ open_words_of false data_.now }
{
    open_words_at(false, data_)
}

/// The path size in the data of a Large_Forward_Open, in words; None exactly where that byte is
/// missing. The data may be cut after it.
pub fn large_words_at(data_: &[u8]) -> Option<u8>
    ensures { result ≡ open_words_of true data_.now }
{
    open_words_at(true, data_)
}

// Appends the network connection parameters of one direction, in a word or a double word.
fn put_params(out: &mut Vec<u8>, large: bool, params: u32) -> Result<(), AllocError>
    requires { large ≡ false → params < 2 ^ 16 }
    ensures { OnOk result (out.new.items ≡ out.old.items ++ params_bytes large params) }
{
    if large {
        put_double(out, params)
    } else {
        put_word(out, params as u16)
    }
}

fn joined(alloc: Global, fields: &OpenFields, path: PathView<'_>) -> Result<Vec<u8>, AllocError>
    requires { FitWidth fields.now }
    ensures { IfOk result (λ v. v.items ≡ open_bytes (open_along fields.now path.entry)) }
{
    let large = fields.large;
    let room = MANAGER_HEADER + open_fixed_part(large) + path.bytes.len();
    let mut bytes = Vec::with_capacity(alloc, room)?;
    put_manager_header(&mut bytes, open_service(large))?;
    bytes.extend_from_slice(&[fields.timing.tick, fields.timing.ticks])?;
    put_double(&mut bytes, fields.ot_id)?;
    put_double(&mut bytes, fields.to_id)?;
    put_triad(&mut bytes, fields.triad)?;
    bytes.extend_from_slice(&[fields.multiplier, 0, 0, 0])?;
    put_double(&mut bytes, fields.ot_rpi)?;
    put_params(&mut bytes, large, fields.ot_params)?;
    put_double(&mut bytes, fields.to_rpi)?;
    put_params(&mut bytes, large, fields.to_params)?;
    bytes.extend_from_slice(&[fields.transport, path.words()])?;
    bytes.extend_from_slice(path.bytes)?;
    Ok(bytes)
}

/// The whole message of an open to the Connection Manager: header, the fixed fields with the
/// reserved bytes 00, path size in words, path (Volume 1, chapter 3, Forward_Open and
/// Large_Forward_Open). The parameters of an open that is not large are below 65,536.
pub fn write_open(alloc: Global, fields: &OpenFields, path: PathView<'_>) -> Result<Bytes, NoMemory>
    requires { FitWidth fields.now }
    ensures { IfOk result (λ b. b ≡ open_bytes (open_along fields.now path.entry)) }
{
    Ok(Bytes::of(joined(alloc, fields, path)?))
}
