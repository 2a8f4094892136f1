//! The lines of an explanation of a summary as JSON objects.
ghost use Rattle.std.specs.Prelude.{◌≡◌, ◌++◌, IfOk, OnOk, codes, string_bytes};
ghost use Rattle.output_lines.specs.declared.format.Format.TheVariants as format_value;
ghost use Rattle.serde_json.specs.Data.{object};
ghost use Rattle.serde_json.specs.View.{members_view};
ghost use Rattle.output_lines.specs.Members.{PutsMember};
ghost use Rattle.due_explanation.specs.Objects.{cost_data, due_line_data, due_source_data};
ghost use Rattle.due_explanation.specs.Lines.{due_line, due_source_line};

use crate::reason_lines::{FateField, STEP, due_reason_of, is_taken, kind_of};
use crate::text_lines::source_kind;
use crate::{DueExplained, DueSource};
use ospf_types::key::Dest;
use ospf_types::memory::Memory;
use output_lines::Object;
use serde_json::Value;
use std::alloc::Global;

pub(crate) fn put_due(
    area: u32,
    dest: Dest,
    due: &DueExplained,
    text: &mut String,
) -> Result<(), Memory>
    ensures { OnOk result (string_bytes text.new ≡ string_bytes text.old
        ++ due_line format_value.Json area dest due.now) }
{
    let object = due_object(*text.allocator(), area, dest, due)?;
    object.append_to(text)
}

// Returns an object with the summary, its metric if it is due, and the reason, if there is one.
fn due_object(alloc: Global, area: u32, dest: Dest, due: &DueExplained) -> Result<Object, Memory>
    ensures { IfOk result (λ o. object (members_view o)
        ≡ due_line_data area dest due.now) }
{
    let mut object = Object::new(alloc);
    object.put_address("area", area)?;
    object.put_number("kind", u64::from(kind_of(&dest)))?;
    object.put_dest(dest)?;
    match due.metric {
        Some(metric) => {
            object.put_text("type", "due")?;
            object.put_number("metric", u64::from(metric))?;
        }
        None => object.put_text("type", "undue")?,
    }
    if let Some(reason) = due_reason_of(&due.reason) {
        object.put_text("step", STEP)?;
        object.put_text("reason", reason)?;
    }
    Ok(object)
}

pub(crate) fn put_due_source(source: &DueSource, text: &mut String) -> Result<(), Memory>
    ensures { OnOk result (string_bytes text.new ≡ string_bytes text.old
        ++ due_source_line format_value.Json source.now) }
{
    let object = source_object(*text.allocator(), source)?;
    object.append_to(text)
}

// Returns an object with a source and its verdict.
fn source_object(alloc: Global, source: &DueSource) -> Result<Object, Memory>
    ensures { IfOk result (λ o. object (members_view o) ≡ due_source_data source.now) }
{
    let mut object = Object::new(alloc);
    object.put_address("area", source.area)?;
    put_cost(&mut object, source.cost)?;
    object.put_text("source", source_kind(source.kind))?;
    if is_taken(source.verdict) {
        object.put_text("type", "taken")?;
        return Ok(object);
    }
    object.put_text("type", "lost")?;
    object.put_text("step", STEP)?;
    object.put_string("reason", FateField(source.verdict).to_string(alloc)?)?;
    Ok(object)
}

// Puts the cost into the object, or null for a range that has none.
fn put_cost(object: &mut Object, cost: Option<u32>) -> Result<(), Memory>
    ensures { OnOk result (PutsMember (codes "cost") (cost_data cost) object.old object.new) }
{
    match cost {
        Some(cost) => object.put_number("cost", u64::from(cost)),
        None => object.put("cost", Value::Null),
    }
}
