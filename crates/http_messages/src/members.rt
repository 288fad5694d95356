//! The members of a body.
ghost use Rattle.std.specs.Prelude.{◌≡◌, IfOk, option_map, Some};
ghost use Rattle.serde_json.specs.View.{view};
ghost use Rattle.http_messages.specs.Members as spec;
ghost use Rattle.http_messages.specs.declared.body_form.Form.TheVariants as form_cases;

use crate::body_form::Form;
use isad_core::{Day, Text};
use office_core::Command;
use serde_json::Value;
use std::alloc::{AllocError, Global};

fn as_whole(value: &Value) -> Option<u64>
    ensures { result ≡ spec.as_whole (view value.now) }
{
    value.as_u64()
}

fn as_day(value: &Value) -> Option<Day>
    ensures { result ≡ spec.as_day (view value.now) }
{
    match value.as_str() {
        Some(text) => Day::parse(text),
        None => None,
    }
}

fn number_at(value: &Value, key: &str) -> Option<u64>
    ensures { result ≡ spec.number_at key.now (view value.now) }
{
    match value.get(key) {
        Some(member) => as_whole(member),
        None => None,
    }
}

fn day_at(value: &Value, key: &str) -> Option<Day>
    ensures { result ≡ spec.day_at key.now (view value.now) }
{
    match value.get(key) {
        Some(member) => as_day(member),
        None => None,
    }
}

fn text_at<'v>(value: &'v Value, key: &str) -> Option<&'v str>
    ensures { option_map (λ t. t.now) result ≡ spec.text_at key.now (view value.now) }
{
    match value.get(key) {
        Some(member) => member.as_str(),
        None => None,
    }
}

fn order(value: &Value) -> Option<Command>
    ensures { result ≡ spec.command_of_form form_cases.Order (view value.now) }
{
    let ticket = number_at(value, "ticket")?;
    let container = number_at(value, "container")?;
    Some(Command::Order { ticket, container })
}

fn open_day(value: &Value) -> Option<Command>
    ensures { result ≡ spec.command_of_form form_cases.OpenDay (view value.now) }
{
    let day = day_at(value, "day")?;
    Some(Command::OpenDay { day })
}

fn renew(value: &Value) -> Option<Command>
    ensures { result ≡ spec.command_of_form form_cases.Renew (view value.now) }
{
    let ticket = number_at(value, "ticket")?;
    let until = day_at(value, "until")?;
    Some(Command::Renew { ticket, until })
}

fn register(alloc: Global, value: &Value) -> Result<Option<Command>, AllocError>
    ensures { IfOk result (λ o. o ≡ spec.command_of_form form_cases.Register (view value.now)) }
{
    let Some(name) = text_at(value, "name") else {
        return Ok(None);
    };
    let Some(until) = day_at(value, "until") else {
        return Ok(None);
    };
    let name = Text::new(alloc, name)?;
    Ok(Some(Command::Register { name, until }))
}

fn draft_of(status: &str) -> Option<bool>
    ensures { result ≡ spec.draft_of status.now }
{
    if status == "published" {
        Some(false)
    } else if status == "draft" {
        Some(true)
    } else {
        None
    }
}

fn as_draft(value: &Value) -> Option<bool>
    ensures { result ≡ spec.as_draft (view value.now) }
{
    match value.as_str() {
        Some(text) => draft_of(text),
        None => None,
    }
}

fn draft_at(value: &Value, key: &str) -> Option<bool>
    ensures { result ≡ spec.draft_at key.now (view value.now) }
{
    match value.get(key) {
        Some(member) => as_draft(member),
        None => None,
    }
}

fn flag_at(value: &Value, key: &str) -> Option<bool>
    ensures { result ≡ spec.flag_at key.now (view value.now) }
{
    match value.get(key) {
        Some(member) => member.as_bool(),
        None => Some(false),
    }
}

fn some_whole(value: &Value) -> Option<Option<u64>>
    ensures { result ≡ option_map Some (spec.as_whole (view value.now)) }
{
    match as_whole(value) {
        Some(n) => Some(Some(n)),
        None => None,
    }
}

fn whole_or_null(value: &Value) -> Option<Option<u64>>
    ensures { result ≡ spec.null_or spec.as_whole (view value.now) }
{
    if value.is_null() {
        Some(None)
    } else {
        some_whole(value)
    }
}

fn some_day(value: &Value) -> Option<Option<Day>>
    ensures { result ≡ option_map Some (spec.as_day (view value.now)) }
{
    match as_day(value) {
        Some(day) => Some(Some(day)),
        None => None,
    }
}

fn day_or_null(value: &Value) -> Option<Option<Day>>
    ensures { result ≡ spec.null_or spec.as_day (view value.now) }
{
    if value.is_null() {
        Some(None)
    } else {
        some_day(value)
    }
}

fn number_or_null_at(value: &Value, key: &str) -> Option<Option<u64>>
    ensures { result ≡ spec.number_or_null_at key.now (view value.now) }
{
    match value.get(key) {
        Some(member) => whole_or_null(member),
        None => None,
    }
}

fn day_or_null_at(value: &Value, key: &str) -> Option<Option<Day>>
    ensures { result ≡ spec.day_or_null_at key.now (view value.now) }
{
    match value.get(key) {
        Some(member) => day_or_null(member),
        None => None,
    }
}

fn set_status(value: &Value) -> Option<Command>
    ensures { result ≡ spec.command_of_form form_cases.SetStatus (view value.now) }
{
    let unit = number_at(value, "unit")?;
    let draft = draft_at(value, "status")?;
    let branch = flag_at(value, "branch")?;
    Some(Command::SetStatus {
        unit,
        draft,
        branch,
    })
}

fn set_closure(value: &Value) -> Option<Command>
    ensures { result ≡ spec.command_of_form form_cases.SetClosure (view value.now) }
{
    let unit = number_at(value, "unit")?;
    let until = day_or_null_at(value, "until")?;
    Some(Command::SetClosure { unit, until })
}

fn move_unit(value: &Value) -> Option<Command>
    ensures { result ≡ spec.command_of_form form_cases.Move (view value.now) }
{
    let unit = number_at(value, "unit")?;
    let parent = number_or_null_at(value, "parent")?;
    Some(Command::Move { unit, parent })
}

fn remove_unit(value: &Value) -> Option<Command>
    ensures { result ≡ spec.command_of_form form_cases.Remove (view value.now) }
{
    let unit = number_at(value, "unit")?;
    Some(Command::Remove { unit })
}

fn take_seat(value: &Value) -> Option<Command>
    ensures { result ≡ spec.command_of_form form_cases.TakeSeat (view value.now) }
{
    let ticket = number_at(value, "ticket")?;
    Some(Command::TakeSeat { ticket })
}

fn leave_seat(value: &Value) -> Option<Command>
    ensures { result ≡ spec.command_of_form form_cases.LeaveSeat (view value.now) }
{
    let ticket = number_at(value, "ticket")?;
    Some(Command::LeaveSeat { ticket })
}

fn cancel(value: &Value) -> Option<Command>
    ensures { result ≡ spec.command_of_form form_cases.Cancel (view value.now) }
{
    let order = number_at(value, "order")?;
    Some(Command::Cancel { order })
}

fn issue(value: &Value) -> Option<Command>
    ensures { result ≡ spec.command_of_form form_cases.Issue (view value.now) }
{
    let container = number_at(value, "container")?;
    let ticket = number_at(value, "ticket")?;
    Some(Command::Issue { container, ticket })
}

fn return_container(value: &Value) -> Option<Command>
    ensures { result ≡ spec.command_of_form form_cases.Return (view value.now) }
{
    let container = number_at(value, "container")?;
    Some(Command::Return { container })
}

fn permit(value: &Value) -> Option<Command>
    ensures { result ≡ spec.command_of_form form_cases.Permit (view value.now) }
{
    let ticket = number_at(value, "ticket")?;
    let unit = number_at(value, "unit")?;
    let until = day_at(value, "until")?;
    Some(Command::Permit {
        ticket,
        unit,
        until,
    })
}

fn revoke(value: &Value) -> Option<Command>
    ensures { result ≡ spec.command_of_form form_cases.Revoke (view value.now) }
{
    let ticket = number_at(value, "ticket")?;
    let unit = number_at(value, "unit")?;
    Some(Command::Revoke { ticket, unit })
}

/// The command whose members a value gives, or none if it does not give them.
fn command_of(alloc: Global, form: Form, value: &Value) -> Result<Option<Command>, AllocError>
    ensures { IfOk result (λ o. o ≡ spec.command_of_form form (view value.now)) }
{
    match form {
        Form::Order => Ok(order(value)),
        Form::OpenDay => Ok(open_day(value)),
        Form::SetStatus => Ok(set_status(value)),
        Form::SetClosure => Ok(set_closure(value)),
        Form::Move => Ok(move_unit(value)),
        Form::Remove => Ok(remove_unit(value)),
        Form::Register => register(alloc, value),
        Form::Renew => Ok(renew(value)),
        Form::TakeSeat => Ok(take_seat(value)),
        Form::LeaveSeat => Ok(leave_seat(value)),
        Form::Cancel => Ok(cancel(value)),
        Form::Issue => Ok(issue(value)),
        Form::Return => Ok(return_container(value)),
        Form::Permit => Ok(permit(value)),
        Form::Revoke => Ok(revoke(value)),
    }
}

/// The JSON value of a body, or none if it is not JSON.
fn value_of(alloc: Global, body: &[u8]) -> Result<Option<Value>, AllocError>
    ensures { IfOk result (λ o. option_map view o ≡ spec.value_of body.now) }
{
    match Value::from_slice(alloc, body) {
        Ok(value) => Ok(Some(value)),
        Err(e) => {
            if e.is_memory() {
                Err(AllocError)
            } else {
                Ok(None)
            }
        }
    }
}

/// The command whose members a body gives. None if the body is not a JSON object in UTF-8, or a member is missing or of
/// a wrong kind; only `branch` may be missing, and is then false. Other members are ignored, and of a member that
/// occurs twice the last one counts.
pub fn command_in(alloc: Global, form: Form, body: &[u8]) -> Result<Option<Command>, AllocError>
    ensures { IfOk result (λ o. o ≡ spec.command_in form body.now) }
{
    match value_of(alloc, body)? {
        Some(value) => command_of(alloc, form, &value),
        None => Ok(None),
    }
}
