//! Reads the description of a machine's devices, with which QEMU ends a stream.
//!
//! It is JSON: `vmstate_save` in QEMU's `migration/savevm.c` begins a device, and
//! `vmstate_save_state_v` in `migration/vmstate.c` lists its fields with the bytes of each.

ghost use Rattle.std.specs.Prelude.{◌≤◌, ◌↔◌, IfOk, IsSome, IsTrue, codes};
ghost use Rattle.serde_json.specs.View.{view};
ghost use Rattle.zimgasol_reading.specs.Ending.{array_at, HasState, IsDescription, IsDevice, ListsDevices};

use serde_json::Value;
use std::alloc::{AllocError, Global};
use zimgasol_files::Trouble;

/// The bytes of a subsection before its fields, without its name: a type byte, the name's length
/// and a version.
const SUBSECTION_HEAD_LEN: u64 = 6;

/// A device that the description names.
#[derive(Drop)]
pub struct Device {
    pub name: String,
    /// Its instance id.
    pub instance: i64,
    /// The bytes of its state, to which the sizes of its fields add up; None if one has no size.
    pub bytes: Option<u64>,
}

// Returns the bytes of a field; None if it has no size. An array of like elements has the size of
// one.
fn field_len(field: &Value) -> Option<u64> {
    let size = field.get("size").and_then(Value::as_u64)?;
    match field.get("array_len") {
        Some(count) => size.checked_mul(count.as_u64()?),
        None => Some(size),
    }
}

// Returns the bytes of the fields of a device or a subsection; None if one has no size.
fn fields_len(part: &Value) -> Option<u64> {
    let fields = part.get("fields").and_then(Value::as_array)?;
    let mut total = 0u64;
    for field in fields {
        total = total.saturating_add(field_len(field)?);
    }
    Some(total)
}

// Puts the subsections of a device or a subsection into `waiting`. Returns the bytes before their
// fields; None if one has no name.
fn add_subsections<'v>(
    part: &'v Value,
    waiting: &mut Vec<&'v Value>,
) -> Result<Option<u64>, AllocError> {
    let Some(list) = part.get("subsections").and_then(Value::as_array) else {
        return Ok(Some(0));
    };
    let mut total = 0u64;
    for subsection in list {
        let Some(name) = subsection.get("vmsd_name").and_then(Value::as_str) else {
            return Ok(None);
        };
        total = total.saturating_add(SUBSECTION_HEAD_LEN);
        total = total.saturating_add(name.len() as u64);
        waiting.push(subsection)?;
    }
    Ok(Some(total))
}

// Returns the bytes of a device's state with its subsections; None if a field has no size.
fn state_len(alloc: Global, device: &Value) -> Result<Option<u64>, AllocError> {
    let mut waiting = Vec::new(alloc);
    waiting.push(device)?;
    let mut total = 0u64;
    for _ in 0..u64::MAX {
        let Some(part) = waiting.pop() else {
            break;
        };
        let Some(fields) = fields_len(part) else {
            return Ok(None);
        };
        let Some(heads) = add_subsections(part, &mut waiting)? else {
            return Ok(None);
        };
        total = total.saturating_add(fields).saturating_add(heads);
    }
    Ok(Some(total))
}

// Returns whether a device has a version with the name of its layout, or the size of a state
// without one.
fn has_state(device: &Value) -> bool
    ensures { IsTrue result ↔ HasState (view device.now) }
{
    let layout = device.get("vmsd_name").and_then(Value::as_str);
    let version = device.get("version").and_then(Value::as_i64);
    let size = device.get("size").and_then(Value::as_u64);
    (layout.is_some() && version.is_some()) || size.is_some()
}

// Returns whether a device has its fields.
fn has_fields(device: &Value) -> bool
    ensures { IsTrue result ↔ IsSome (array_at (codes "fields") (view device.now)) }
{
    let fields = device.get("fields").and_then(Value::as_array);
    fields.is_some()
}

// Returns a device of the list; None if it isn't one.
fn device_in(alloc: Global, entry: &Value) -> Result<Option<Device>, AllocError>
    ensures { IfOk result (λ device. IsSome device ↔ IsDevice (view entry.now)) }
{
    let Some(name) = entry.get("name").and_then(Value::as_str) else {
        return Ok(None);
    };
    let Some(instance) = entry.get("instance_id").and_then(Value::as_i64) else {
        return Ok(None);
    };
    if !has_state(entry) || !has_fields(entry) {
        return Ok(None);
    }
    Ok(Some(Device {
        name: String::from_str(alloc, name)?,
        instance,
        bytes: state_len(alloc, entry)?,
    }))
}

// Returns the devices of a description; None if it has no list of devices.
fn listed(alloc: Global, description: &Value) -> Result<Option<Vec<Device>>, AllocError>
    ensures { IfOk result (λ devices. IsSome devices ↔ ListsDevices (view description.now)) }
{
    let Some(entries) = description.get("devices").and_then(Value::as_array) else {
        return Ok(None);
    };
    let mut devices = Vec::new(alloc);
    for entry in entries {
        match device_in(alloc, entry)? {
            Some(device) => devices.push(device)?,
            None => return Ok(None),
        }
    }
    Ok(Some(devices))
}

/// Returns the devices that the description in `text` names; None if it is no description.
///
/// # Errors
///
/// `Trouble::NoMemory`.
pub(crate) fn devices_in(alloc: Global, text: &[u8]) -> Result<Option<Vec<Device>>, Trouble>
    ensures { IfOk result (λ devices. IsSome devices ↔ IsDescription text.now) }
{
    match Value::from_slice(alloc, text) {
        Ok(description) => Ok(listed(alloc, &description)?),
        Err(error) if error.is_memory() => Err(Trouble::NoMemory),
        Err(_) => Ok(None),
    }
}
