use crate::ask::named;
use crate::trouble::{Trouble, clear};
use sqlite_items::Items;
use std::alloc::Global;
use vx_model::{Heap, Thing, Value};
use vx_names::FieldKey;

/// A heap of the new objects that the words stand for.
pub fn heap(alloc: Global, words: &str) -> Result<Heap, Trouble> {
    let mut heap = Heap {
        objects: Items::new(alloc),
        cells: Items::new(alloc),
        closures: Items::new(alloc),
    };
    for word in words.split_whitespace() {
        heap.objects.push(thing(alloc, word)?)?;
    }
    Ok(heap)
}

/// The value that a word stands for; a new object is put into the heap.
pub fn value(alloc: Global, heap: &mut Heap, word: &str) -> Result<Value, Trouble> {
    if let Ok(n) = word.parse::<i128>() {
        return Ok(Value::Int(n));
    }
    if let Some(text) = word.strip_prefix("\"") {
        return Ok(Value::Text(Items::from_slice(alloc, text.as_bytes())?));
    }
    if let Some(place) = word.strip_prefix("&") {
        return Ok(Value::Closure(clear(place.parse::<u64>())?));
    }
    if let Some(place) = word.strip_prefix("#") {
        return Ok(Value::Object(clear(place.parse::<u64>())?));
    }
    let place = heap.objects.len() as u64;
    heap.objects.push(thing(alloc, word)?)?;
    Ok(Value::Object(place))
}

// The object that is written as its class and, behind a colon, its slots with commas between them.
fn thing(alloc: Global, word: &str) -> Result<Thing, Trouble> {
    let (class, texts) = word.split_once(':').unwrap_or((word, ""));
    let mut slots = Items::new(alloc);
    for text in texts.split(',') {
        if !text.is_empty() {
            slots.push(slot(alloc, text)?)?;
        }
    }
    let class = named(alloc, class)?;
    Ok(Thing { class, slots })
}

// The slot that is written as `n@a=4`. What is no number is a string.
fn slot(alloc: Global, text: &str) -> Result<(FieldKey, Value), Trouble> {
    let (key, value) = text.split_once('=').unwrap_or((text, ""));
    let (name, specialiser) = key.split_once('@').unwrap_or((key, ""));
    let key = FieldKey {
        name: named(alloc, name)?,
        specialiser: named(alloc, specialiser)?,
    };
    let value = match value.parse::<i128>() {
        Ok(n) => Value::Int(n),
        Err(_) => Value::Text(Items::from_slice(alloc, value.as_bytes())?),
    };
    Ok((key, value))
}
