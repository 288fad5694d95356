//! The replies to commands, as JSON.

ghost use Rattle.std.specs.Prelude.{◌≡◌, [], ◌∷◌, codes, map, IfOk};
ghost use Rattle.serde_json.specs.View.{view};
ghost use Rattle.office_core.specs.Json.{count, date, done_json, fields, list};
ghost use Rattle.office_core.specs.Json.{refusal_json, remark_json, reply_json, reply_text};
ghost use Rattle.office_core.specs.declared.done.Done.TheVariants as done;

use crate::json_values::{day_value, text_of};
use isad_core::{Day, List, Number};
use office_core::{Done, Refusal, Remark};
use serde_json::{Value, json};
use std::alloc::{AllocError, Global};

/// The JSON array of these numbers.
fn numbers_value(alloc: Global, numbers: &[Number]) -> Result<Value, AllocError>
    ensures { IfOk result (λ v. view v ≡ list (map count numbers.now)) }
{
    let mut values = Vec::new(alloc);
    for number in numbers {
        values.push(Value::from(number.get()))?;
    }
    Ok(Value::Array(values))
}

/// The JSON object of a remark.
fn remark_value(alloc: Global, remark: &Remark) -> Result<Value, AllocError>
    ensures { IfOk result (λ v. view v ≡ remark_json remark.now) }
{
    match remark {
        Remark::LevelTooHigh { row } => json!(in alloc; {"kind": 1_u32, "row": *row}),
        Remark::LacksEssential { row } => json!(in alloc; {"kind": 2_u32, "row": *row}),
    }
}

/// The JSON array of these remarks.
fn remarks_value(alloc: Global, remarks: &[Remark]) -> Result<Value, AllocError>
    ensures { IfOk result (λ v. view v ≡ list (map remark_json remarks.now)) }
{
    let mut values = Vec::new(alloc);
    for remark in remarks {
        values.push(remark_value(alloc, remark)?)?;
    }
    Ok(Value::Array(values))
}

/// A JSON object with a number under one key.
fn number_object(alloc: Global, key: &str, number: u64) -> Result<Value, AllocError>
    ensures { IfOk result (λ v. view v ≡ fields ((key.now, count number) ∷ [])) }
{
    json!(in alloc; {key: number})
}

/// A JSON object with a list of numbers under one key.
fn list_object(alloc: Global, key: &str, numbers: &[Number]) -> Result<Value, AllocError>
    ensures { IfOk result (λ v. view v ≡ fields ((key.now, list (map count numbers.now)) ∷ [])) }
{
    let values = numbers_value(alloc, numbers)?;
    json!(in alloc; {key: values})
}

/// A JSON object with a day under the key `day`.
fn day_object(alloc: Global, day: Day) -> Result<Value, AllocError>
    ensures { IfOk result (λ v. view v ≡ fields ((codes "day", date day) ∷ [])) }
{
    let day = day_value(alloc, day)?;
    json!(in alloc; {"day": day})
}

/// The reply to an import of a file.
fn import_value(
    alloc: Global,
    changed: u64,
    new: u64,
    remarks: &[Remark],
    same: u64,
    translations: u64,
) -> Result<Value, AllocError>
    ensures { IfOk result (λ v. view v ≡ done_json (done.Import changed new remarks.now same translations)) }
{
    let remarks = remarks_value(alloc, remarks)?;
    json!(in alloc; {
        "changed": changed,
        "new": new,
        "remarks": remarks,
        "same": same,
        "translations": translations
    })
}

/// The reply to a command that granted a permit.
fn permit_value(alloc: Global, ticket: u64, unit: u64, until: Day) -> Result<Value, AllocError>
    ensures { IfOk result (λ v. view v ≡ done_json (done.Permit ticket unit until)) }
{
    let until = day_value(alloc, until)?;
    json!(in alloc; {"ticket": ticket, "unit": unit, "until": until})
}

/// The reply to a command that was done.
fn done_value(alloc: Global, done: &Done) -> Result<Value, AllocError>
    ensures { IfOk result (λ v. view v ≡ done_json done.now) }
{
    match done {
        Done::OpenDay { day } => day_object(alloc, *day),
        Done::Import {
            changed,
            new,
            remarks,
            same,
            translations,
        } => import_value(
            alloc,
            *changed,
            *new,
            remarks.as_slice(),
            *same,
            *translations,
        ),
        Done::SetStatus { units } => number_object(alloc, "units", *units),
        Done::SetClosure { unit } => number_object(alloc, "unit", *unit),
        Done::Move { unit } => number_object(alloc, "unit", *unit),
        Done::Remove { units } => number_object(alloc, "units", *units),
        Done::Register { ticket } => number_object(alloc, "ticket", *ticket),
        Done::Renew { ticket } => number_object(alloc, "ticket", *ticket),
        Done::TakeSeat { seat } => number_object(alloc, "seat", u64::from(*seat)),
        Done::LeaveSeat { seat } => number_object(alloc, "seat", u64::from(*seat)),
        Done::Order { order } => number_object(alloc, "order", *order),
        Done::Cancel { order } => number_object(alloc, "order", *order),
        Done::Run { run, taken } => json!(in alloc; {"run": *run, "taken": *taken}),
        Done::Reshelve { containers } => list_object(alloc, "containers", containers.as_slice()),
        Done::Issue { order } => number_object(alloc, "order", *order),
        Done::Return { order } => number_object(alloc, "order", *order),
        Done::Permit {
            ticket,
            unit,
            until,
        } => permit_value(alloc, *ticket, *unit, *until),
        Done::Revoke { unit } => number_object(alloc, "unit", *unit),
    }
}

/// The reply to a command that was refused.
fn refusal_value(alloc: Global, why: Refusal) -> Result<Value, AllocError>
    ensures { IfOk result (λ v. view v ≡ refusal_json why) }
{
    let code = why.code();
    let name = why.name();
    match why {
        Refusal::WithReader { container } => {
            json!(in alloc; {"code": code, "container": container, "refused": name})
        }
        Refusal::BadFile { row, cause } => {
            json!(in alloc; {"cause": cause, "code": code, "refused": name, "row": row})
        }
        _ => json!(in alloc; {"code": code, "refused": name}),
    }
}

/// The reply to a command, done or refused.
fn reply_value(alloc: Global, reply: &Result<Done, Refusal>) -> Result<Value, AllocError>
    ensures { IfOk result (λ v. view v ≡ reply_json reply.now) }
{
    match reply {
        Ok(done) => done_value(alloc, done),
        Err(why) => refusal_value(alloc, *why),
    }
}

/// The bytes of the reply to a command, done or refused. The call fails only for want of memory.
pub fn json_of(alloc: Global, reply: &Result<Done, Refusal>) -> Result<List<u8>, AllocError>
    ensures { IfOk result (λ text. text ≡ reply_text reply.now) }
{
    let value = reply_value(alloc, reply)?;
    text_of(alloc, &value)
}
